//! The settings of a session, as fields of a line and options of a command line write them.

ghost use Rattle.std.specs.Prelude.{◌≡◌, map, option_map};
ghost use Rattle.rtcp_report.specs.Reports.{item_value};
ghost use Rattle.rtcp_engine.specs.answers.Acts.{clock_value};
ghost use Rattle.rtcp_text.specs.SettingsFields.{clock_in, clocks_in, item_in, items_in, sides_in};

use crate::numerals::{read_hex_text, read_short_decimal, read_small_decimal};
use crate::parts::Parts;
use arrayvec::ArrayVec;
use rtcp_engine::{Clock, Item};

/// The clocks that a field says, at most 16.
pub(crate) fn read_clocks(field: &[u8]) -> Option<ArrayVec<Clock, 16>>
    ensures { option_map (λ clocks. map clock_value clocks.items) result ≡ clocks_in field.now }
{
    let mut clocks = ArrayVec::new();
    if field == b"-".as_slice() {
        return Some(clocks);
    }
    let mut parts = Parts::<b','>::of(field);
    'parts: while let Some(part) = parts.next() {
        let clock = read_clock(part)?;
        clocks.try_push(clock).ok()?;
    }
    Some(clocks)
}

/// The items that a field says, at most 7.
pub(crate) fn read_items(field: &[u8]) -> Option<ArrayVec<Item, 7>>
    ensures { option_map (λ items. map item_value items.items) result ≡ items_in field.now }
{
    let mut items = ArrayVec::new();
    if field == b"-".as_slice() {
        return Some(items);
    }
    let mut parts = Parts::<b','>::of(field);
    'parts: while let Some(part) = parts.next() {
        let item = read_item(part)?;
        items.try_push(item).ok()?;
    }
    Some(items)
}

/// The clock that a payload type and a rate say, with a colon between them.
pub fn read_clock(text: &[u8]) -> Option<Clock>
    ensures { option_map clock_value result ≡ clock_in text.now }
{
    let (payload_type, rate) = sides_of(text)?;
    let payload_type = read_small_decimal(payload_type)?;
    let rate = read_short_decimal(rate)?;
    Some(Clock { payload_type, rate })
}

/// The item that a type and the octets of a text in hex say, with a colon between them.
fn read_item(text: &[u8]) -> Option<Item>
    ensures { option_map item_value result ≡ item_in text.now }
{
    let (kind, text) = sides_of(text)?;
    let kind = read_small_decimal(kind)?;
    let text = read_hex_text(text)?;
    Some(Item { kind, text })
}

/// What stands before the colon of a text, and what after it.
fn sides_of(text: &[u8]) -> Option<(&[u8], &[u8])>
    ensures { option_map (λ sides. (sides.0.now, sides.1.now)) result ≡ sides_in text.now }
{
    let mut parts = Parts::<b':'>::of(text);
    let (Some(first), Some(second), None) = (parts.next(), parts.next(), parts.next()) else {
        return None;
    };
    Some((first, second))
}
