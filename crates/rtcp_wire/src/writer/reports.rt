//! The bodies of reports (RFC 3550, 6.4.1 and 6.4.2), appended.

ghost use Rattle.std.specs.Prelude.{◌≡◌, ◌+◌, ◌≤◌, ◌++◌, ◌∷◌, [], All, map, length};
ghost use Rattle.std.specs.List.{flat_map};
ghost use Rattle.arrayvec.specs.ArrayVec.{array_vec_len};
ghost use Rattle.rtcp_wire.specs.Views.{block_value};
ghost use Rattle.rtcp_wire.specs.Writing.{written_block, IsBlockInRange};

use crate::block::Block;
use crate::writer::MAX_COMPOUND;
use crate::writer::append::{append, append_i24, append_u32};
use arrayvec::ArrayVec;

/// Appends the blocks of a report.
pub(super) fn append_blocks(buffer: &mut ArrayVec<u8, MAX_COMPOUND>, blocks: &[Block])
    requires { array_vec_len buffer.old
        + length (flat_map written_block (map block_value blocks.now)) ≤ 1472 }
    ensures octets { buffer.new.items ≡
        buffer.old.items ++ flat_map written_block (map block_value blocks.now) }
    ensures in_range { All IsBlockInRange (map block_value blocks.now) }
{
    for block in blocks {
        append_block(buffer, block);
    }
}

fn append_block(buffer: &mut ArrayVec<u8, MAX_COMPOUND>, block: &Block)
    requires { array_vec_len buffer.old + length (written_block (block_value block.now)) ≤ 1472 }
    ensures octets { buffer.new.items ≡ buffer.old.items ++ written_block (block_value block.now) }
    ensures in_range { IsBlockInRange (block_value block.now) }
{
    append_u32(buffer, block.ssrc);
    append(buffer, &[block.fraction]);
    append_i24(buffer, block.lost);
    append_u32(buffer, block.highest);
    append_u32(buffer, block.jitter);
    append_u32(buffer, block.lsr);
    append_u32(buffer, block.dlsr);
}
