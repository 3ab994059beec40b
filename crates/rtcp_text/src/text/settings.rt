//! The settings of a session, as fields of a line.

ghost use Rattle.std.specs.Prelude.{◌≡◌, ◌++◌, ◌∷◌, OnOk, map};
ghost use Rattle.rtcp_report.specs.Reports.{item_value};
ghost use Rattle.rtcp_engine.specs.answers.Acts.{clock_value, settings_value};
ghost use Rattle.rtcp_text.specs.EventLines.{spaced};
ghost use Rattle.rtcp_text.specs.SettingsFields.{clock_text, clocks_text, given_item_text, items_text, other_fields, settings_fields};

use super::digits::{push_decimal, push_long, push_octets};
use super::joined::{Shown, push_joined};
use rtcp_engine::{Clock, Item, Settings};
use std::alloc::AllocError;

/// Appends the fields of settings, with a space between each two of them.
pub(super) fn push_settings(out: &mut Vec<u8>, settings: &Settings) -> Result<(), AllocError>
    ensures { OnOk result
        (out.new.items ≡ out.old.items ++ spaced (settings_fields (settings_value settings.now))) }
{
    push_decimal(out, u64::from(settings.sender_bw))?;
    out.push(b' ')?;
    push_decimal(out, u64::from(settings.receiver_bw))?;
    out.push(b' ')?;
    push_others(out, settings)
}

/// Appends the fields of settings after the bandwidths.
fn push_others(out: &mut Vec<u8>, settings: &Settings) -> Result<(), AllocError>
    ensures { OnOk result
        (out.new.items ≡ out.old.items ++ spaced (other_fields (settings_value settings.now))) }
{
    push_clocks(out, &settings.clocks)?;
    out.push(b' ')?;
    push_items(out, &settings.extras)?;
    out.push(b' ')?;
    push_decimal(out, u64::from(settings.rate))?;
    out.push(b' ')?;
    push_long(out, settings.ntp_base)
}

/// Appends clocks as a field.
fn push_clocks(out: &mut Vec<u8>, clocks: &[Clock]) -> Result<(), AllocError>
    ensures { OnOk result (out.new.items ≡ out.old.items ++ clocks_text (map clock_value clocks.now)) }
{
    if clocks.is_empty() {
        out.push(b'-')?;
        return Ok(());
    }
    push_joined(out, b',', clocks.iter())?;
    Ok(())
}

/// Appends items as a field.
fn push_items(out: &mut Vec<u8>, items: &[Item]) -> Result<(), AllocError>
    ensures { OnOk result (out.new.items ≡ out.old.items ++ items_text (map item_value items.now)) }
{
    if items.is_empty() {
        out.push(b'-')?;
        return Ok(());
    }
    push_joined(out, b',', items.iter())?;
    Ok(())
}

impl Shown for &Clock {
    ghost text = { λ clock. clock_text (clock_value clock.now) };

    fn push_text(&self, out: &mut Vec<u8>) -> Result<(), AllocError> {
        push_decimal(out, u64::from(self.payload_type))?;
        out.push(b':')?;
        push_decimal(out, u64::from(self.rate))
    }
}

impl Shown for &Item {
    ghost text = { λ item. given_item_text (item_value item.now) };

    fn push_text(&self, out: &mut Vec<u8>) -> Result<(), AllocError> {
        push_decimal(out, u64::from(self.kind))?;
        out.push(b':')?;
        push_octets(out, &self.text)
    }
}
