//! Sender and receiver reports in plain words.

ghost use Rattle.std.specs.Prelude.{◌≡◌, ◌++◌, OnOk};
ghost use Rattle.rtcp_wire.specs.Views.{block_value, packet_value, sender_value};
ghost use Rattle.rtcp_wire.specs.declared.packet.PacketView.TheVariants.{Sr, Rr};
ghost use Rattle.rtcp_plain.specs.Plain.{block_facts_text, block_text, extension_text, jitter_text, last_report_text, loss_text, packet_text, reception_text, report_end_text, sender_text};

use crate::numbers::{middle_time, ntp_time, push_fixed, push_number, push_seconds, push_time};
use crate::packets::push_source;
use rtcp_text::text::digits::{push_decimal, push_signed, push_word};
use rtcp_wire::{Block, Blocks, ReceiverReport, SenderReport};
use std::alloc::AllocError;

/// Appends a sender report.
pub(crate) fn push_sender_report(
    out: &mut Vec<u8>,
    report: &SenderReport<'_>,
    rate: Option<u32>,
) -> Result<(), AllocError>
    ensures { OnOk result (out.new.items ≡ out.old.items ++ packet_text rate (packet_value (Sr report.now))) }
{
    push_sender(out, report)?;
    push_report_end(out, report.blocks(), report.extension, rate)
}

/// Appends what a sender report says of its sender.
fn push_sender(out: &mut Vec<u8>, report: &SenderReport<'_>) -> Result<(), AllocError>
    ensures { OnOk result (out.new.items ≡ out.old.items ++ sender_text (sender_value report.now)) }
{
    out.extend_from_slice(b" SR")?;
    push_source(out, report.ssrc)?;
    out.extend_from_slice(b" ntp=")?;
    push_seconds(out, ntp_time(report.ntp))?;
    push_number(out, b" rtp=", u64::from(report.rtp))?;
    push_number(out, b" packets=", u64::from(report.packets))?;
    push_number(out, b" octets=", u64::from(report.octets))?;
    Ok(())
}

/// Appends a receiver report.
pub(crate) fn push_receiver_report(
    out: &mut Vec<u8>,
    report: &ReceiverReport<'_>,
    rate: Option<u32>,
) -> Result<(), AllocError>
    ensures { OnOk result (out.new.items ≡ out.old.items ++ packet_text rate (packet_value (Rr report.now))) }
{
    out.extend_from_slice(b" RR")?;
    push_source(out, report.ssrc)?;
    push_report_end(out, report.blocks(), report.extension, rate)
}

/// Appends blocks, and the length of an extension in octets.
fn push_report_end(
    out: &mut Vec<u8>,
    blocks: Blocks<'_>,
    extension: &[u8],
    rate: Option<u32>,
) -> Result<(), AllocError>
    ensures { OnOk result (out.new.items ≡ out.old.items ++ report_end_text rate blocks.entry extension.now) }
{
    for block in blocks {
        push_block(out, &block, rate)?;
    }
    push_extension(out, extension)
}

/// Appends the length of an extension, if it has one.
fn push_extension(out: &mut Vec<u8>, extension: &[u8]) -> Result<(), AllocError>
    ensures { OnOk result (out.new.items ≡ out.old.items ++ extension_text extension.now) }
{
    if extension.is_empty() {
        return Ok(());
    }
    push_number(out, b" extension=", extension.len() as u64)?;
    Ok(())
}

/// Appends a report block.
fn push_block(out: &mut Vec<u8>, block: &Block, rate: Option<u32>) -> Result<(), AllocError>
    ensures { OnOk result (out.new.items ≡ out.old.items ++ block_text rate (block_value block.now)) }
{
    out.extend_from_slice(b" block about=")?;
    push_word(out, block.ssrc)?;
    push_block_facts(out, block, rate)?;
    Ok(())
}

/// Appends what a report block says of its source.
pub(crate) fn push_block_facts(
    out: &mut Vec<u8>,
    block: &Block,
    rate: Option<u32>,
) -> Result<(), AllocError>
    ensures { OnOk result (out.new.items ≡ out.old.items ++ block_facts_text rate (block_value block.now)) }
{
    push_reception(out, block, rate)?;
    push_last_report(out, block.lsr)?;
    out.extend_from_slice(b" dlsr=")?;
    push_seconds(out, middle_time(block.dlsr))?;
    Ok(())
}

/// Appends what a report block says of losses and jitter.
fn push_reception(out: &mut Vec<u8>, block: &Block, rate: Option<u32>) -> Result<(), AllocError>
    ensures { OnOk result (out.new.items ≡ out.old.items ++ reception_text rate (block_value block.now)) }
{
    push_loss(out, block.fraction)?;
    out.extend_from_slice(b" lost=")?;
    push_signed(out, block.lost)?;
    push_number(out, b" highest=", u64::from(block.highest))?;
    push_jitter(out, block.jitter, rate)
}

/// Appends a fraction lost, in per cent.
fn push_loss(out: &mut Vec<u8>, fraction: u8) -> Result<(), AllocError>
    ensures { OnOk result (out.new.items ≡ out.old.items ++ loss_text fraction) }
{
    out.extend_from_slice(b" loss=")?;
    push_fixed(out, u64::from(fraction) * 1_000 / 256, 10)?;
    out.push(b'%')?;
    Ok(())
}

/// Appends jitter, in milliseconds where its units are known.
fn push_jitter(out: &mut Vec<u8>, jitter: u32, rate: Option<u32>) -> Result<(), AllocError>
    ensures { OnOk result (out.new.items ≡ out.old.items ++ jitter_text rate jitter) }
{
    out.extend_from_slice(b" jitter=")?;
    match rate {
        Some(rate) => push_time(out, u64::from(jitter) * 1_000_000 / u64::from(rate.max(1))),
        None => {
            push_decimal(out, u64::from(jitter))?;
            out.extend_from_slice(b"units")
        }
    }
}

/// Appends the moment of the last sender report, if there is one.
fn push_last_report(out: &mut Vec<u8>, lsr: u32) -> Result<(), AllocError>
    ensures { OnOk result (out.new.items ≡ out.old.items ++ last_report_text lsr) }
{
    out.extend_from_slice(b" lsr=")?;
    if lsr == 0 {
        out.extend_from_slice(b"none")
    } else {
        push_seconds(out, middle_time(lsr))
    }
}
