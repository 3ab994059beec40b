//! The text of BYEs.

ghost use Rattle.std.specs.Prelude.{◌≡◌, ◌++◌, OnOk, option_copied};
ghost use Rattle.rtcp_wire.specs.Views.{packet_value};
ghost use Rattle.rtcp_wire.specs.declared.packet.PacketView.TheVariants.{Bye};
ghost use Rattle.rtcp_text.specs.Text.{hex_word, bye_reason_text, packet_text};

use super::digits::{push_octets, push_word};
use super::joined::{Shown, push_joined};
use rtcp_wire::Goodbye;
use std::alloc::AllocError;

/// Appends the text of a BYE.
pub(super) fn push_bye(out: &mut Vec<u8>, goodbye: &Goodbye<'_>) -> Result<(), AllocError>
    ensures { OnOk result (out.new.items ≡ out.old.items ++ packet_text (packet_value (Bye goodbye.now))) }
{
    out.extend_from_slice(b"BYE([")?;
    push_joined(out, b';', goodbye.ids())?;
    out.extend_from_slice(b"],")?;
    push_reason(out, goodbye.reason)?;
    out.push(b')')?;
    Ok(())
}

/// An identifier.
impl Shown for u32 {
    ghost text = { hex_word };

    fn push_text(&self, out: &mut Vec<u8>) -> Result<(), AllocError> {
        push_word(out, *self)
    }
}

/// Appends a BYE's reason, or a dash where it has none.
fn push_reason(out: &mut Vec<u8>, reason: Option<&[u8]>) -> Result<(), AllocError>
    ensures { OnOk result
        (out.new.items ≡ out.old.items ++ bye_reason_text (option_copied reason.entry)) }
{
    match reason {
        Some(text) => {
            out.push(b'=')?;
            push_octets(out, text)
        }
        None => {
            out.push(b'-')?;
            Ok(())
        }
    }
}
