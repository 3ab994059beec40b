//! Octets and numbers, appended to a buffer that has room for them.

ghost use Rattle.std.specs.Prelude.{◌≡◌, ◌+◌, ◌≤◌, ◌<◌, ◌^◌, ◌++◌, ◌∷◌, [], length};
ghost use Rattle.std.specs.Int.{w64};
ghost use Rattle.arrayvec.specs.ArrayVec.{array_vec_len};
ghost use Rattle.byteorder.specs.Endian.{big_bytes, low_bytes};
ghost use Rattle.rtcp_wire.specs.Writing.{written_word, fill_after};

use crate::writer::MAX_COMPOUND;
use crate::writer::size::fill_size;
use arrayvec::ArrayVec;
use byteorder::{BigEndian, ByteOrder};

/// Appends a number of 16 bits.
pub(super) fn append_u16(buffer: &mut ArrayVec<u8, MAX_COMPOUND>, number: u16)
    requires { array_vec_len buffer.old + 2 ≤ 1472 }
    ensures { buffer.new.items ≡ buffer.old.items ++ big_bytes 2 number }
{
    let mut octets = [0; 2];
    BigEndian::write_u16(&mut octets, number);
    append(buffer, &octets);
}

/// Appends the low 24 bits of a signed number, in two's complement.
pub(super) fn append_i24(buffer: &mut ArrayVec<u8, MAX_COMPOUND>, number: i32)
    requires { array_vec_len buffer.old + 3 ≤ 1472 }
    ensures { buffer.new.items ≡ buffer.old.items ++ big_bytes 3 (low_bytes w64 3 number) }
{
    let mut octets = [0; 3];
    BigEndian::write_i24(&mut octets, number);
    append(buffer, &octets);
}

/// Appends a number of 32 bits.
pub(super) fn append_u32(buffer: &mut ArrayVec<u8, MAX_COMPOUND>, number: u32)
    requires { array_vec_len buffer.old + 4 ≤ 1472 }
    ensures octets { buffer.new.items ≡ buffer.old.items ++ written_word number }
    ensures in_range { number < 2 ^ 32 }
{
    let mut octets = [0; 4];
    BigEndian::write_u32(&mut octets, number);
    append(buffer, &octets);
}

/// Appends a number of 64 bits.
pub(super) fn append_u64(buffer: &mut ArrayVec<u8, MAX_COMPOUND>, number: u64)
    requires { array_vec_len buffer.old + 8 ≤ 1472 }
    ensures octets { buffer.new.items ≡ buffer.old.items ++ big_bytes 8 number }
    ensures in_range { number < 2 ^ 64 }
{
    let mut octets = [0; 8];
    BigEndian::write_u64(&mut octets, number);
    append(buffer, &octets);
}

/// Appends the zeros that fill the last word after `size` octets.
pub(super) fn append_fill(buffer: &mut ArrayVec<u8, MAX_COMPOUND>, size: usize)
    requires { array_vec_len buffer.old + length (fill_after size) ≤ 1472 }
    ensures { buffer.new.items ≡ buffer.old.items ++ fill_after size }
{
    let zeros = [0; 3];
    append(buffer, &zeros[..fill_size(size)]);
}

/// Appends octets.
pub(super) fn append(buffer: &mut ArrayVec<u8, MAX_COMPOUND>, octets: &[u8])
    requires { array_vec_len buffer.old + length octets.now ≤ 1472 }
    ensures { buffer.new.items ≡ buffer.old.items ++ octets.now }
{
    let fits = buffer.try_extend_from_slice(octets).is_ok();
    prove!(fits);
}
