//! The reports of a compound with the blocks of the pending sources, each written where it stands (RFC 3550, 6.4).

ghost use Rattle.std.specs.Prelude.{◌≡◌, ◌+◌, ◌*◌, ◌≤◌, ◌<◌, ◌^◌, List, All, Some, None, length, take, drop, option_map};
ghost use Rattle.std.specs.List.{flat_map};
ghost use Rattle.rtcp_wire.specs.Puts.{IsPut};
ghost use Rattle.rtcp_wire.specs.Values.{ReportBlock};
ghost use Rattle.rtcp_wire.specs.Writing.{written_block, IsInRange, IsBlockInRange};
ghost use Rattle.rtcp_members.specs.Pending.{pending, blocks_of};
ghost use Rattle.rtcp_report.specs.Gathered.{IsTakenFrom, written_head, PutsFurther, PutsReports};
ghost use Rattle.rtcp_report.specs.Reports.{report_with, further_count, first_report_size};
ghost use Rattle.rtcp_report.specs.Views.{sent_value};

use crate::sender::{Sender, SrPart};
use rtcp_members::MemberTable;
use rtcp_wire::layout::{HEADER_SIZE, RECEIVER_REPORT, SENDER_REPORT};
use rtcp_wire::{MAX_COMPOUND, put_block, put_header, put_long, put_word};

/// The octets of a receiver report without blocks.
pub(crate) const RECEIVER_SIZE: usize = 8;

/// The octets of a sender report without blocks.
pub(crate) const SENDER_SIZE: usize = 28;

/// The octets of a block.
pub(crate) const BLOCK_SIZE: usize = 24;

/// The most blocks of a packet (RFC 3550, 6.4.1).
pub(crate) const BLOCKS_OF_PACKET: usize = 31;

/// Writes the reports to the start of the octets, with the blocks of the pending sources after the cursor, or of
/// the first `most` of them, at the moment `t`. The cursor goes to the last one. Returns where the reports end.
pub(crate) fn put_reports<T: MemberTable>(
    sender: &Sender<'_>,
    table: &mut T,
    t: u64,
    cursor: &mut Option<u32>,
    most: usize,
    octets: &mut [u8; MAX_COMPOUND],
) -> usize
    requires few { most ≤ 60 }
    requires room { first_report_size (option_map sent_value sender.now.sr) + 24 * most
        + 8 * further_count most ≤ 1472 }
    ensures { PutsReports sender.now.ssrc (option_map sent_value sender.now.sr)
        (blocks_of t (take most (pending cursor.old (T.content table.old)))) octets.old octets.new result
        × IsTakenFrom t (take most (pending cursor.old (T.content table.old))) cursor.old (T.content table.old)
        cursor.new (T.content table.new) }
{
    let begin = if sender.sr.is_some() {
        SENDER_SIZE
    } else {
        RECEIVER_SIZE
    };
    let few = most.min(BLOCKS_OF_PACKET);
    let count = put_blocks(table, t, cursor, few, octets, begin);
    put_head(sender, count, octets);
    let end = begin + BLOCK_SIZE * count;
    if count < BLOCKS_OF_PACKET {
        return end;
    }
    let ssrc = sender.ssrc;
    put_further(ssrc, table, t, cursor, most - BLOCKS_OF_PACKET, octets, end)
}

/// Writes a receiver report at its place with the blocks of the pending sources, or of the first `most` of them.
/// Where none is pending, or `most` is 0, it writes none. Returns where the reports end.
fn put_further<T: MemberTable>(
    ssrc: u32,
    table: &mut T,
    t: u64,
    cursor: &mut Option<u32>,
    most: usize,
    octets: &mut [u8; MAX_COMPOUND],
    at: usize,
) -> usize
    requires few { most ≤ 31 }
    requires room { at + 8 + 24 * most ≤ 1472 }
    ensures { PutsFurther ssrc (blocks_of t (take most (pending cursor.old (T.content table.old))))
        octets.old octets.new at result
        × IsTakenFrom t (take most (pending cursor.old (T.content table.old))) cursor.old (T.content table.old)
        cursor.new (T.content table.new) }
{
    let begin = at + RECEIVER_SIZE;
    let count = put_blocks(table, t, cursor, most, octets, begin);
    if count == 0 {
        return at;
    }
    put_receiver_head(octets, at, ssrc, count);
    begin + BLOCK_SIZE * count
}

/// Writes the blocks of the pending sources after the cursor, or of the first `most` of them, one after the other.
/// The cursor goes to the last one. Returns how many there are.
fn put_blocks<T: MemberTable>(
    table: &mut T,
    t: u64,
    cursor: &mut Option<u32>,
    most: usize,
    octets: &mut [u8; MAX_COMPOUND],
    at: usize,
) -> usize
    requires { at + 24 * most ≤ 1472 }
    ensures put { IsPut octets.old octets.new at
        (flat_map written_block (blocks_of t (take most (pending cursor.old (T.content table.old)))))
        (at + 24 * result) }
    ensures count { result ≡ length (take most (pending cursor.old (T.content table.old))) }
    ensures taken { IsTakenFrom t (take most (pending cursor.old (T.content table.old))) cursor.old
        (T.content table.old) cursor.new (T.content table.new) }
    ensures rest { pending cursor.new (T.content table.new)
        ≡ drop most (pending cursor.old (T.content table.old)) }
{
    let mut count = 0;
    let mut last = *cursor;
    'sources: while count < most {
        let Some(block) = table.next_block(last, t) else {
            break;
        };
        put_block(octets, at + BLOCK_SIZE * count, &block);
        last = Some(block.ssrc);
        count += 1;
    }
    *cursor = last;
    count
}

/// Writes what stands before the blocks of the first report.
fn put_head(sender: &Sender<'_>, count: usize, octets: &mut [u8; MAX_COMPOUND]) -> usize
    requires { count ≤ 31 }
    ensures put { IsPut octets.old octets.new 0
        (written_head sender.now.ssrc (option_map sent_value sender.now.sr) count) result }
    ensures in_range { (blocks : List ReportBlock) → All IsBlockInRange blocks →
        IsInRange (report_with sender.now.ssrc (option_map sent_value sender.now.sr) blocks) }
{
    match sender.sr {
        Some(sent) => put_sender_head(octets, sender.ssrc, &sent, count),
        None => put_receiver_head(octets, 0, sender.ssrc, count),
    }
}

/// Writes what stands before the blocks of a sender report (RFC 3550, 6.4.1).
fn put_sender_head(octets: &mut [u8; MAX_COMPOUND], ssrc: u32, sent: &SrPart, count: usize) -> usize
    requires { count ≤ 31 }
    ensures put { IsPut octets.old octets.new 0 (written_head ssrc (Some (sent_value sent.now)) count) result }
    ensures in_range { (blocks : List ReportBlock) → All IsBlockInRange blocks →
        IsInRange (report_with ssrc (Some (sent_value sent.now)) blocks) }
{
    let size = SENDER_SIZE - HEADER_SIZE + BLOCK_SIZE * count;
    let mut end = put_header(octets, 0, count, SENDER_REPORT, size);
    end = put_word(octets, end, ssrc);
    end = put_long(octets, end, sent.ntp);
    end = put_word(octets, end, sent.rtp);
    end = put_word(octets, end, sent.packets);
    put_word(octets, end, sent.octets)
}

/// Writes what stands before the blocks of a receiver report (RFC 3550, 6.4.2).
pub(crate) fn put_receiver_head(
    octets: &mut [u8; MAX_COMPOUND],
    at: usize,
    ssrc: u32,
    count: usize,
) -> usize
    requires few { count ≤ 31 }
    requires room { at + 8 ≤ 1472 }
    ensures put { IsPut octets.old octets.new at (written_head ssrc None count) result }
    ensures in_range { ssrc < 2 ^ 32 }
{
    let size = RECEIVER_SIZE - HEADER_SIZE + BLOCK_SIZE * count;
    let end = put_header(octets, at, count, RECEIVER_REPORT, size);
    put_word(octets, end, ssrc)
}
