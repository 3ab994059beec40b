//! The bodies of source descriptions (RFC 3550, 6.5), appended.

ghost use Rattle.std.specs.Prelude.{◌≡◌, ◌+◌, ◌≤◌, ◌++◌, ◌∷◌, [], All, map, length};
ghost use Rattle.std.specs.List.{flat_map};
ghost use Rattle.arrayvec.specs.ArrayVec.{array_vec_len};
ghost use Rattle.rtcp_wire.specs.WriterViews.{item_ref_of, chunk_ref_of};
ghost use Rattle.rtcp_wire.specs.Writing.{written_item, written_chunk, IsWritableItem, IsWritableChunk, IsChunkInRange};

use crate::writer::MAX_COMPOUND;
use crate::writer::append::{append, append_fill, append_u32};
use crate::writer::refs::{ChunkRef, ItemRef};
use crate::writer::size::items_size;
use arrayvec::ArrayVec;

/// Appends the chunks of a source description.
pub(super) fn append_chunks(buffer: &mut ArrayVec<u8, MAX_COMPOUND>, chunks: &[ChunkRef<'_>])
    requires writable { All IsWritableChunk (map chunk_ref_of chunks.now) }
    requires room { array_vec_len buffer.old
        + length (flat_map written_chunk (map chunk_ref_of chunks.now)) ≤ 1472 }
    ensures octets { buffer.new.items ≡
        buffer.old.items ++ flat_map written_chunk (map chunk_ref_of chunks.now) }
    ensures in_range { All IsChunkInRange (map chunk_ref_of chunks.now) }
{
    for chunk in chunks {
        append_chunk(buffer, chunk);
    }
}

fn append_chunk(buffer: &mut ArrayVec<u8, MAX_COMPOUND>, chunk: &ChunkRef<'_>)
    requires writable { IsWritableChunk (chunk_ref_of chunk.now) }
    requires room { array_vec_len buffer.old + length (written_chunk (chunk_ref_of chunk.now)) ≤ 1472 }
    ensures octets { buffer.new.items ≡ buffer.old.items ++ written_chunk (chunk_ref_of chunk.now) }
    ensures in_range { IsChunkInRange (chunk_ref_of chunk.now) }
{
    append_u32(buffer, chunk.id);
    append_items(buffer, chunk.items);
    append(buffer, &[0]);
    append_fill(buffer, items_size(chunk.items) + 1);
}

fn append_items(buffer: &mut ArrayVec<u8, MAX_COMPOUND>, items: &[ItemRef<'_>])
    requires writable { All IsWritableItem (map item_ref_of items.now) }
    requires room { array_vec_len buffer.old
        + length (flat_map written_item (map item_ref_of items.now)) ≤ 1472 }
    ensures { buffer.new.items ≡ buffer.old.items ++ flat_map written_item (map item_ref_of items.now) }
{
    for item in items {
        append_item(buffer, item);
    }
}

fn append_item(buffer: &mut ArrayVec<u8, MAX_COMPOUND>, item: &ItemRef<'_>)
    requires writable { IsWritableItem (item_ref_of item.now) }
    requires room { array_vec_len buffer.old + length (written_item (item_ref_of item.now)) ≤ 1472 }
    ensures { buffer.new.items ≡ buffer.old.items ++ written_item (item_ref_of item.now) }
{
    append(buffer, &[item.kind, item.text.len() as u8]);
    append(buffer, item.text);
}
