//! The report blocks of a datagram, one after the other (RFC 3550, 6.4.1).

ghost use Rattle.std.specs.Prelude.{◌≡◌, ◌≤◌, ◌+◌, ◌<◌, ◌^◌, ℕ, length, true, MatchOption};
ghost use Rattle.rtcp_wire.specs.Contents.{packet_blocks};
ghost use Rattle.rtcp_wire.specs.Readings.{block_in};
ghost use Rattle.rtcp_wire.specs.Values.{ReportBlock};
ghost use Rattle.rtcp_wire.specs.Views.{block_value};
ghost use Rattle.rtcp_parts.specs.Cursors.{LeavesBlocks, ShowsReported, blocks_place, is_within};
ghost use Rattle.rtcp_parts.specs.Walks.{Readies, HasNoneLeft, IsAtBlocks, TakesHere};

use crate::cursor::Cursor;
use crate::octets::{ID_SIZE, u32_at};
use crate::packet::{Packet, Wanted, packet_from};
use crate::walk::Walk;
use byteorder::{BigEndian, ByteOrder};
use rtcp_wire::Block;

/// The octets of a block.
const BLOCK_SIZE: usize = 24;

/// The octets of a sender report before its blocks, and of a receiver report, without their headers.
const SENDER_SIZE: usize = 24;

/// The type of a sender report.
const SENDER_REPORT: u8 = 200;

/// Both reports with at least one block.
const WITH_BLOCKS: Wanted = Wanted {
    first: SENDER_REPORT,
    last: 201,
    least: 1,
};

/// A report block, with the SSRC of the source that reports.
pub type Reported = (u32, Block);

impl Walk for Reported {
    ghost Value = { ℕ × ReportBlock };

    ghost parts_of = { packet_blocks };

    ghost is_left = { LeavesBlocks };

    ghost shows = { λ datagram. ShowsReported };

    #[inline(always)]
    fn take(datagram: &[u8], cursor: &mut Cursor) -> Option<Reported> {
        *cursor = ready(datagram, cursor);
        take_block(datagram, cursor)
    }
}

/// A walk at the next block: at the first of another report where it is in none.
#[inline(always)]
fn ready(datagram: &[u8], cursor: &Cursor) -> Cursor
    requires { is_within (length datagram.now) cursor.now ≡ true }
    ensures { Readies packet_blocks LeavesBlocks datagram.now cursor.now result }
{
    if cursor.left != 0 {
        return *cursor;
    }
    let Some(packet) = packet_from(datagram, cursor.next as usize, WITH_BLOCKS) else {
        return Cursor::ended(datagram.len());
    };
    match in_report(&packet) {
        Some(cursor) => cursor,
        None => Cursor::ended(datagram.len()),
    }
}

/// A walk at the first block of a report, if its body has room for what stands before that.
fn in_report(packet: &Packet<'_>) -> Option<Cursor>
    requires { packet.now.place + length packet.now.body.now < 2 ^ 63 }
    ensures { MatchOption result
        (length packet.now.body.now < blocks_place packet.now.kind)
        (λ cursor. (blocks_place packet.now.kind ≤ length packet.now.body.now) × IsAtBlocks packet.now cursor) }
{
    let before = if packet.kind == SENDER_REPORT {
        SENDER_SIZE
    } else {
        ID_SIZE
    };
    if packet.body.len() < before {
        return None;
    }
    Some(Cursor {
        next: packet.next as u64,
        place: (packet.place + before) as u64,
        end: (packet.place + packet.body.len()) as u64,
        left: u32::from(packet.count),
        ssrc: u32_at(packet.body, 0),
    })
}

/// Takes the next block of the report that a walk is in.
#[inline(always)]
fn take_block(datagram: &[u8], cursor: &mut Cursor) -> Option<Reported>
    requires { is_within (length datagram.now) cursor.old ≡ true }
    ensures { TakesHere packet_blocks LeavesBlocks ShowsReported HasNoneLeft datagram.now cursor.old cursor.new result }
{
    if cursor.left == 0 {
        return None;
    }
    let (octets, _) = cursor.rest(datagram).split_at_checked(BLOCK_SIZE)?;
    cursor.left -= 1;
    cursor.place += 24;
    Some((cursor.ssrc, block_from(octets)))
}

/// The block that these octets are.
fn block_from(octets: &[u8]) -> Block
    requires { length octets.now ≡ 24 }
    ensures { block_value result ≡ block_in octets.now }
{
    Block {
        ssrc: u32_at(octets, 0),
        fraction: octets[4],
        lost: BigEndian::read_i24(octets.split_at(5).1),
        highest: u32_at(octets, 8),
        jitter: u32_at(octets, 12),
        lsr: u32_at(octets, 16),
        dlsr: u32_at(octets, 20),
    }
}
