//! The text of source descriptions.

ghost use Rattle.std.specs.Prelude.{◌≡◌, ◌++◌, OnOk};
ghost use Rattle.rtcp_wire.specs.Views.{packet_value};
ghost use Rattle.rtcp_wire.specs.declared.packet.PacketView.TheVariants.{Sdes};
ghost use Rattle.rtcp_wire.specs.WriterViews.{item_ref_of};
ghost use Rattle.rtcp_text.specs.Text.{item_text, chunk_text, packet_text};

use super::digits::{push_decimal, push_octets, push_word};
use super::joined::{Shown, push_joined};
use rtcp_wire::{Chunk, ItemRef, SourceDescription};
use std::alloc::AllocError;

/// Appends the text of a source description.
pub(super) fn push_description(
    out: &mut Vec<u8>,
    description: &SourceDescription<'_>,
) -> Result<(), AllocError>
    ensures { OnOk result
        (out.new.items ≡ out.old.items ++ packet_text (packet_value (Sdes description.now))) }
{
    out.extend_from_slice(b"SDES([")?;
    push_joined(out, b';', description.chunks())?;
    out.extend_from_slice(b"])")
}

impl Shown for Chunk<'_> {
    ghost text = { chunk_text };

    #[inline(always)]
    fn push_text(&self, out: &mut Vec<u8>) -> Result<(), AllocError> {
        push_word(out, self.id())?;
        out.push(b'{')?;
        push_joined(out, b',', self.items())?;
        out.push(b'}')?;
        Ok(())
    }
}

impl Shown for ItemRef<'_> {
    ghost text = { λ item. item_text (item_ref_of item) };

    #[inline(always)]
    fn push_text(&self, out: &mut Vec<u8>) -> Result<(), AllocError> {
        push_decimal(out, u64::from(self.kind))?;
        out.push(b'=')?;
        push_octets(out, self.text)
    }
}
