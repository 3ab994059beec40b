//! The text of sender and receiver reports.

ghost use Rattle.std.specs.Prelude.{◌≡◌, ◌++◌, OnOk};
ghost use Rattle.rtcp_wire.specs.Views.{sender_value, block_value, packet_value};
ghost use Rattle.rtcp_wire.specs.declared.packet.PacketView.TheVariants.{Sr, Rr};
ghost use Rattle.rtcp_text.specs.Text.{block_text, report_end_text, sender_text, packet_text};

use super::digits::{push_decimal, push_long, push_signed, push_word};
use super::joined::{Shown, push_joined};
use super::tail::Tail;
use rtcp_wire::{Block, Blocks, ReceiverReport, SenderReport};
use std::alloc::AllocError;

/// Appends the text of a sender report.
pub(super) fn push_sender_report(
    out: &mut Vec<u8>,
    report: &SenderReport<'_>,
) -> Result<(), AllocError>
    ensures { OnOk result (out.new.items ≡ out.old.items ++ packet_text (packet_value (Sr report.now))) }
{
    out.extend_from_slice(b"SR(")?;
    push_sender(out, report)?;
    out.push(b',')?;
    push_report_end(out, report.blocks(), report.extension)?;
    out.push(b')')?;
    Ok(())
}

/// Appends what a sender report says of its sender.
fn push_sender(out: &mut Vec<u8>, report: &SenderReport<'_>) -> Result<(), AllocError>
    ensures { OnOk result (out.new.items ≡ out.old.items ++ sender_text (sender_value report.now)) }
{
    push_word(out, report.ssrc)?;
    out.push(b',')?;
    push_long(out, report.ntp)?;
    out.push(b',')?;
    push_word(out, report.rtp)?;
    out.push(b',')?;
    push_decimal(out, u64::from(report.packets))?;
    out.push(b',')?;
    push_decimal(out, u64::from(report.octets))
}

/// Appends the text of a receiver report.
pub(super) fn push_receiver_report(
    out: &mut Vec<u8>,
    report: &ReceiverReport<'_>,
) -> Result<(), AllocError>
    ensures { OnOk result (out.new.items ≡ out.old.items ++ packet_text (packet_value (Rr report.now))) }
{
    out.extend_from_slice(b"RR(")?;
    push_word(out, report.ssrc)?;
    out.push(b',')?;
    push_report_end(out, report.blocks(), report.extension)?;
    out.push(b')')?;
    Ok(())
}

/// Appends the text of blocks, and the length of an extension in octets.
fn push_report_end(
    out: &mut Vec<u8>,
    blocks: Blocks<'_>,
    extension: &[u8],
) -> Result<(), AllocError>
    ensures { OnOk result (out.new.items ≡ out.old.items ++ report_end_text blocks.entry extension.now) }
{
    out.push(b'[')?;
    push_joined(out, b';', blocks)?;
    out.extend_from_slice(b"],")?;
    push_decimal(out, extension.len() as u64)
}

impl Shown for Block {
    ghost text = { λ block. block_text (block_value block) };

    #[inline(always)]
    fn push_text(&self, out: &mut Vec<u8>) -> Result<(), AllocError> {
        let mut text = Tail::new();
        text.put_words(self.lsr, b'/', self.dlsr);
        text.put(b'/');
        text.put_decimal(self.jitter);
        text.put(b'/');
        text.put_decimal(self.highest);
        text.put(b'/');
        text.put_signed(self.lost);
        text.put(b'/');
        text.put_decimal(u32::from(self.fraction));
        text.put(b'/');
        text.put_word(self.ssrc);
        out.extend_from_slice(text.as_slice())
    }
}
