//! How many octets packets will have, before any is written. Counting stops above the most octets of a
//! packet, so that no sum overflows.

ghost use Rattle.std.specs.Prelude.{◌≡◌, ◌+◌, ◌≤◌, ◌<◌, ◌%◌, ◌∷◌, [], All, map, min, length, option_copied};
ghost use Rattle.std.specs.List.{flat_map};
ghost use Rattle.rtcp_wire.specs.WriterViews.{item_ref_of, chunk_ref_of, packet_ref_of, packet_refs_of};
ghost use Rattle.rtcp_wire.specs.Writing.{fill_after, written_item, written_chunk, written_reason, written_body, written, written_all, IsWritableReason, HasWritableParts, IsWritable};

use crate::block::BLOCK_SIZE;
use crate::layout::{HEADER_SIZE, ID_SIZE, MAX_PACKET};
use crate::sr::SENDER_SIZE;
use crate::writer::refs::{ChunkRef, ItemRef, PacketRef};

/// A size above the most octets of a packet counts as this.
const SIZE_LIMIT: usize = MAX_PACKET + 1;

impl PacketRef<'_> {
    /// How many octets `write_compound` appends of the packet, with its header: at most 262,144. The caller
    /// has tested the packet with `is_writable`.
    pub fn size(&self) -> usize
        requires { IsWritable (packet_ref_of self.now) }
        ensures { result ≡ length (written (packet_ref_of self.now)) }
    {
        body_size(self) + HEADER_SIZE
    }
}

/// The octets of packets with their headers, up to the limit.
pub(super) fn compound_size(packets: &[PacketRef<'_>]) -> usize
    requires { All IsWritable (packet_refs_of packets.now) }
    ensures { result ≡ min (length (written_all (packet_refs_of packets.now))) 262145 }
{
    let mut size = 0;
    for packet in packets {
        size = capped_sum(size, body_size(packet) + HEADER_SIZE);
    }
    size
}

/// The octets of a packet after its header, up to the limit.
pub(super) fn body_size(packet: &PacketRef<'_>) -> usize
    requires { HasWritableParts (packet_ref_of packet.now) }
    ensures { result ≡ min (length (written_body (packet_ref_of packet.now))) 262145 }
{
    match *packet {
        PacketRef::Sr {
            blocks,
            extension,
            ..
        } => capped_sum(SENDER_SIZE + BLOCK_SIZE * blocks.len(), extension.len()),
        PacketRef::Rr {
            blocks,
            extension,
            ..
        } => capped_sum(ID_SIZE + BLOCK_SIZE * blocks.len(), extension.len()),
        PacketRef::Sdes { chunks } => chunks_size(chunks),
        PacketRef::Bye { ids, reason } => ID_SIZE * ids.len() + reason_size(reason),
        PacketRef::App { name, data, .. } => capped_sum(
            ID_SIZE + name.as_slice().len(),
            data.len(),
        ),
        PacketRef::Other { body, .. } => capped_sum(0, body.len()),
    }
}

fn chunks_size(chunks: &[ChunkRef<'_>]) -> usize
    ensures { result ≡ min (length (flat_map written_chunk (map chunk_ref_of chunks.now))) 262145 }
{
    let mut size = 0;
    for chunk in chunks {
        size = capped_sum(size, chunk_size(chunk));
    }
    size
}

/// The octets of a chunk, up to the limit: its identifier, its items, a zero, and the fill.
fn chunk_size(chunk: &ChunkRef<'_>) -> usize
    ensures { result ≡ min (length (written_chunk (chunk_ref_of chunk.now))) 262145 }
{
    let items = items_size(chunk.items);
    capped_sum(ID_SIZE + items + 1, fill_size(items + 1))
}

/// The octets of the items of a chunk, up to the limit.
pub(super) fn items_size(items: &[ItemRef<'_>]) -> usize
    ensures { result ≡ min (length (flat_map written_item (map item_ref_of items.now))) 262145 }
{
    let mut size = 0;
    for item in items {
        size = capped_sum(size, item.text.len() + 2);
    }
    size
}

fn reason_size(reason: Option<&[u8]>) -> usize
    requires { IsWritableReason (option_copied reason) }
    ensures value { result ≡ length (written_reason (option_copied reason.entry)) }
    ensures few { result ≤ 256 }
{
    match reason {
        Some(text) => {
            let used = text.len() + 1;
            used + fill_size(used)
        }
        None => 0,
    }
}

/// How many zeros fill the last word after `size` octets.
pub(super) fn fill_size(size: usize) -> usize
    ensures value { result ≡ length (fill_after size) }
    ensures few { result < 4 }
    ensures words { (size + result) % 4 ≡ 0 }
{
    (4 - size % 4) % 4
}

/// The sum, up to the limit.
fn capped_sum(a: usize, b: usize) -> usize
    ensures { result ≡ min (a + b) 262145 }
{
    a.saturating_add(b).min(SIZE_LIMIT)
}
