//! Packets, appended.

ghost use Rattle.std.specs.Prelude.{◌≡◌, ◌+◌, ◌≤◌, ◌++◌, ◌∷◌, [], All, length};
ghost use Rattle.arrayvec.specs.ArrayVec.{array_vec_len};
ghost use Rattle.rtcp_wire.specs.WriterViews.{packet_ref_of, packet_refs_of};
ghost use Rattle.rtcp_wire.specs.Writing.{written_count, written_type, written_body, written, written_all, HasWritableParts, IsWritable, IsInRange};

use crate::layout::{
    APPLICATION, GOODBYE, RECEIVER_REPORT, SENDER_REPORT, SOURCE_DESCRIPTION, VERSION, WORD_SIZE,
};
use crate::writer::MAX_COMPOUND;
use crate::writer::append::{append, append_u16, append_u32, append_u64};
use crate::writer::descriptions::append_chunks;
use crate::writer::goodbyes::{append_ids, append_reason};
use crate::writer::refs::PacketRef;
use crate::writer::reports::append_blocks;
use crate::writer::size::body_size;
use arrayvec::ArrayVec;

/// The version in its place, the upper two bits of a header's first octet (RFC 3550, 6.4.1).
const VERSION_BITS: u8 = VERSION << 6;

/// Appends packets, one after the other.
pub(super) fn append_packets(buffer: &mut ArrayVec<u8, MAX_COMPOUND>, packets: &[PacketRef<'_>])
    requires writable { All IsWritable (packet_refs_of packets.now) }
    requires room { array_vec_len buffer.old + length (written_all (packet_refs_of packets.now)) ≤ 1472 }
    ensures octets { buffer.new.items ≡ buffer.old.items ++ written_all (packet_refs_of packets.now) }
    ensures in_range { All IsInRange (packet_refs_of packets.now) }
{
    for packet in packets {
        append_packet(buffer, packet);
    }
}

fn append_packet(buffer: &mut ArrayVec<u8, MAX_COMPOUND>, packet: &PacketRef<'_>)
    requires writable { IsWritable (packet_ref_of packet.now) }
    requires room { array_vec_len buffer.old + length (written (packet_ref_of packet.now)) ≤ 1472 }
    ensures octets { buffer.new.items ≡ buffer.old.items ++ written (packet_ref_of packet.now) }
    ensures in_range { IsInRange (packet_ref_of packet.now) }
{
    append(buffer, &[VERSION_BITS + count_of(packet), kind_of(packet)]);
    append_u16(buffer, (body_size(packet) / WORD_SIZE) as u16);
    append_body(buffer, packet);
}

/// What the five bits of the header say: a count, or a subtype.
fn count_of(packet: &PacketRef<'_>) -> u8
    requires { HasWritableParts (packet_ref_of packet.now) }
    ensures value { result ≡ written_count (packet_ref_of packet.now) }
    ensures few { result ≤ 31 }
{
    match *packet {
        PacketRef::Sr { blocks, .. } => blocks.len() as u8,
        PacketRef::Rr { blocks, .. } => blocks.len() as u8,
        PacketRef::Sdes { chunks } => chunks.len() as u8,
        PacketRef::Bye { ids, .. } => ids.len() as u8,
        PacketRef::App { subtype, .. } => subtype,
        PacketRef::Other { count, .. } => count,
    }
}

fn kind_of(packet: &PacketRef<'_>) -> u8
    ensures { result ≡ written_type (packet_ref_of packet.now) }
{
    match *packet {
        PacketRef::Sr { .. } => SENDER_REPORT,
        PacketRef::Rr { .. } => RECEIVER_REPORT,
        PacketRef::Sdes { .. } => SOURCE_DESCRIPTION,
        PacketRef::Bye { .. } => GOODBYE,
        PacketRef::App { .. } => APPLICATION,
        PacketRef::Other { kind, .. } => kind,
    }
}

fn append_body(buffer: &mut ArrayVec<u8, MAX_COMPOUND>, packet: &PacketRef<'_>)
    requires writable { HasWritableParts (packet_ref_of packet.now) }
    requires room { array_vec_len buffer.old + length (written_body (packet_ref_of packet.now)) ≤ 1472 }
    ensures octets { buffer.new.items ≡ buffer.old.items ++ written_body (packet_ref_of packet.now) }
    ensures in_range { IsInRange (packet_ref_of packet.now) }
{
    match *packet {
        PacketRef::Sr {
            ssrc,
            ntp,
            rtp,
            packets,
            octets,
            blocks,
            extension,
        } => {
            append_u32(buffer, ssrc);
            append_u64(buffer, ntp);
            append_u32(buffer, rtp);
            append_u32(buffer, packets);
            append_u32(buffer, octets);
            append_blocks(buffer, blocks);
            append(buffer, extension);
        }
        PacketRef::Rr {
            ssrc,
            blocks,
            extension,
        } => {
            append_u32(buffer, ssrc);
            append_blocks(buffer, blocks);
            append(buffer, extension);
        }
        PacketRef::Sdes { chunks } => append_chunks(buffer, chunks),
        PacketRef::Bye { ids, reason } => {
            append_ids(buffer, ids);
            append_reason(buffer, reason);
        }
        PacketRef::App {
            ssrc,
            name,
            data,
            ..
        } => {
            append_u32(buffer, ssrc);
            append_name(buffer, name);
            append(buffer, data);
        }
        PacketRef::Other { body, .. } => append(buffer, body),
    }
}

fn append_name(buffer: &mut ArrayVec<u8, MAX_COMPOUND>, name: [u8; 4])
    requires { array_vec_len buffer.old + length name ≤ 1472 }
    ensures octets { buffer.new.items ≡ buffer.old.items ++ name }
    ensures in_range { length name ≡ 4 }
{
    append(buffer, &name);
}
