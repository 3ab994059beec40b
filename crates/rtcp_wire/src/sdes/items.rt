//! The items of a chunk (RFC 3550, 6.5).

ghost use Rattle.std.specs.Prelude.{◌≡◌, ◌≢◌, ◌≤◌, length, take, drop, slice_index};
ghost use Rattle.std.specs.Iterator.{YieldsFirstBy, item_count};
ghost use Rattle.rtcp_wire.specs.Validity.{HasItems};
ghost use Rattle.rtcp_wire.specs.Walks.{items_after, items_size};
ghost use Rattle.rtcp_wire.specs.WriterViews.{item_ref_of};

use crate::writer::ItemRef;
use std::marker::Model;

/// The items of a chunk, in their order: an iterator that reads them from the datagram. `Chunk::items` makes
/// it.
#[derive(Debug, Drop)]
pub struct Items<'a> {
    octets: &'a [u8],
}

impl<'a> Model for Items<'a> {
    ghost use Rattle.std.specs.Prelude.{List};
    ghost use Rattle.rtcp_wire.specs.Values.{ItemValue};
    ghost use Rattle.rtcp_wire.specs.Validity.{HasItems};
    ghost use Rattle.rtcp_wire.specs.Walks.{items_after};

    ghost Value = { List ItemValue };

    ghost view = { λ items. items_after 0 items.octets.now };

    // Whole items stand first, and the zero octet after them.
    ghost invariant = { λ items. HasItems items.octets.now };
}

impl<'a> Items<'a> {
    /// The items up to the zero octet after the last one.
    pub(crate) fn new(octets: &'a [u8]) -> Items<'a>
        requires { HasItems octets.now }
        ensures { result ≡ items_after 0 octets.now }
    {
        Items { octets }
    }
}

impl<'a> Iterator for Items<'a> {
    type Item = ItemRef<'a>;

    ghost next_gives = { YieldsFirstBy item_ref_of (λ items. items) };

    ghost remaining = { item_count (λ items. items) };

    fn next(&mut self) -> Option<ItemRef<'a>> {
        let kind = self.octets[0];
        if kind == 0 {
            return None;
        }
        let (text, others) = split_item(self.octets);
        self.octets = others;
        Some(ItemRef { kind, text })
    }
}

/// How many octets the items have that these octets begin with.
pub(super) fn octets_of_items(octets: &[u8]) -> usize
    requires { HasItems octets.now }
    ensures size { result ≡ items_size (items_after 0 octets.now) }
    ensures within { result ≤ length octets.now }
{
    let mut rest = octets;
    'items: while rest[0] != 0 {
        rest = split_item(rest).1;
    }
    octets.len() - rest.len()
}

/// The text of the item that these octets begin with, and what follows it.
fn split_item(octets: &[u8]) -> (&[u8], &[u8])
    requires items { HasItems octets.now }
    requires some { slice_index octets.now 0 ≢ 0 }
    ensures text { result.0.now ≡ take (slice_index octets.now 1) (drop 2 octets.now) }
    ensures rest { result.1.now ≡ drop (slice_index octets.now 1) (drop 2 octets.now) }
{
    let size = octets[1] as usize;
    octets.split_at(2).1.split_at(size)
}
