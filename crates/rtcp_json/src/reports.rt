//! Sender and receiver reports.

ghost use Rattle.std.specs.Prelude.{◌≡◌, OnOk};
ghost use Rattle.rtcp_wire.specs.Views.{block_value, packet_value};
ghost use Rattle.rtcp_wire.specs.declared.packet.PacketView.TheVariants.{Sr, Rr};
ghost use Rattle.rtcp_json.specs.Adding.{Adds, AddsJson};
ghost use Rattle.rtcp_json.specs.PacketValues.{block_json, blocks_json, packet_json};

use crate::fields::{write_long, write_name, write_number, write_octets, write_signed, write_word};
use json::Writer;
use rtcp_wire::{Block, Blocks, ReceiverReport, SenderReport};
use std::alloc::{AllocError, Global};

/// Writes a sender report.
pub(crate) fn write_sender_report(
    writer: &mut Writer,
    alloc: Global,
    report: &SenderReport<'_>,
) -> Result<(), AllocError>
    ensures { OnOk result (AddsJson writer.old writer.new (packet_json (packet_value (Sr report.now)))) }
{
    writer.begin_object()?;
    write_name(writer, "type", "SR")?;
    write_word(writer, alloc, "ssrc", report.ssrc)?;
    write_long(writer, alloc, "ntp", report.ntp)?;
    write_number(writer, "rtp", report.rtp)?;
    write_number(writer, "packets", report.packets)?;
    write_number(writer, "octets", report.octets)?;
    writer.key("blocks")?;
    write_blocks(writer, alloc, report.blocks())?;
    write_octets(writer, alloc, "extension", report.extension)?;
    writer.end_object()?;
    Ok(())
}

/// Writes a receiver report.
pub(crate) fn write_receiver_report(
    writer: &mut Writer,
    alloc: Global,
    report: &ReceiverReport<'_>,
) -> Result<(), AllocError>
    ensures { OnOk result (AddsJson writer.old writer.new (packet_json (packet_value (Rr report.now)))) }
{
    writer.begin_object()?;
    write_name(writer, "type", "RR")?;
    write_word(writer, alloc, "ssrc", report.ssrc)?;
    writer.key("blocks")?;
    write_blocks(writer, alloc, report.blocks())?;
    write_octets(writer, alloc, "extension", report.extension)?;
    writer.end_object()?;
    Ok(())
}

/// Writes report blocks.
fn write_blocks(writer: &mut Writer, alloc: Global, blocks: Blocks<'_>) -> Result<(), AllocError>
    ensures { OnOk result (AddsJson writer.old writer.new (blocks_json blocks.entry)) }
{
    writer.begin_array()?;
    for block in blocks {
        write_block(writer, alloc, &block)?;
    }
    writer.end_array()?;
    Ok(())
}

/// Writes a report block.
fn write_block(writer: &mut Writer, alloc: Global, block: &Block) -> Result<(), AllocError>
    ensures { OnOk result (AddsJson writer.old writer.new (block_json (block_value block.now))) }
{
    writer.begin_object()?;
    write_word(writer, alloc, "about", block.ssrc)?;
    write_number(writer, "fraction", u32::from(block.fraction))?;
    write_signed(writer, "lost", block.lost)?;
    write_number(writer, "highest", block.highest)?;
    write_number(writer, "jitter", block.jitter)?;
    write_number(writer, "lsr", block.lsr)?;
    write_number(writer, "dlsr", block.dlsr)?;
    writer.end_object()?;
    Ok(())
}
