//! Rows of report blocks.

ghost use Rattle.std.specs.Prelude.{◌≡◌, ◌++◌, OnOk};
ghost use Rattle.std.specs.List.{flat_map};
ghost use Rattle.rtcp_wire.specs.Views.{block_value, packet_value};
ghost use Rattle.rtcp_plain.specs.Blocks.{block_row_text, blocks_text, rows_of_packet};

use crate::reports::push_block_facts;
use rtcp_text::text::digits::push_word;
use rtcp_wire::{Block, Blocks, Compound, PacketView};
use std::alloc::AllocError;

/// Appends a row for each report block of an accepted datagram, each with its line feed: who reports, and what of whom.
/// The jitter is in units of the RTP timestamp.
///
/// # Errors
///
/// `AllocError` where memory is refused. It is then left open how much of the text was appended.
pub fn push_blocks(out: &mut Vec<u8>, compound: &Compound<'_>) -> Result<(), AllocError>
    ensures { OnOk result (out.new.items ≡ out.old.items ++ blocks_text compound.now) }
{
    for packet in compound.packets() {
        push_packet_rows(out, &packet)?;
    }
    Ok(())
}

/// Appends the rows of a packet: none where it is no report.
fn push_packet_rows(out: &mut Vec<u8>, packet: &PacketView<'_>) -> Result<(), AllocError>
    ensures { OnOk result (out.new.items ≡ out.old.items ++ rows_of_packet (packet_value packet.now)) }
{
    match packet {
        PacketView::Sr(report) => push_rows(out, report.ssrc, report.blocks()),
        PacketView::Rr(report) => push_rows(out, report.ssrc, report.blocks()),
        PacketView::Sdes(_) | PacketView::Bye(_) | PacketView::App(_) | PacketView::Other(_) => {
            Ok(())
        }
    }
}

/// Appends the rows of the blocks of a reporter.
fn push_rows(out: &mut Vec<u8>, reporter: u32, blocks: Blocks<'_>) -> Result<(), AllocError>
    ensures { OnOk result (out.new.items ≡ out.old.items ++ flat_map (block_row_text reporter) blocks.entry) }
{
    for block in blocks {
        push_block_row(out, reporter, &block)?;
    }
    Ok(())
}

/// Appends the row of a block.
fn push_block_row(out: &mut Vec<u8>, reporter: u32, block: &Block) -> Result<(), AllocError>
    ensures { OnOk result (out.new.items ≡ out.old.items ++ block_row_text reporter (block_value block.now)) }
{
    out.extend_from_slice(b"by=")?;
    push_word(out, reporter)?;
    out.extend_from_slice(b" about=")?;
    push_word(out, block.ssrc)?;
    push_block_facts(out, block, None)?;
    out.push(b'\n')?;
    Ok(())
}
