//! Parts of packets, written in their places among the caller's octets. A packet is written from its end: the body
//! first, then the header, which says how long the body is. Each function returns where its part ends.

ghost use Rattle.std.specs.Prelude.{◌≡◌, ◌+◌, ◌≤◌, ◌<◌, ◌^◌, ◌∷◌, [], length};
ghost use Rattle.byteorder.specs.Endian.{big_bytes};
ghost use Rattle.rtcp_wire.specs.Puts.{IsPut};
ghost use Rattle.rtcp_wire.specs.Views.{block_value};
ghost use Rattle.rtcp_wire.specs.Writing.{written_header, written_item, written_block, written_word, IsBlockInRange};

use crate::block::Block;
use crate::layout::{VERSION, WORD_SIZE};
use crate::writer::MAX_COMPOUND;

/// The version in its place, the upper two bits of a header's word (RFC 3550, 6.4.1).
const VERSION_WORD: u32 = (VERSION as u32) << 30;

/// Writes the header of a packet (RFC 3550, 6.4.1) without padding: a count or subtype, at most 31, the type, and
/// the length, by the octets of the body after the header, whole words.
#[inline(always)]
pub fn put_header(
    octets: &mut [u8; MAX_COMPOUND],
    at: usize,
    count: usize,
    kind: u8,
    body_size: usize,
) -> usize
    requires few { count ≤ 31 }
    requires short { body_size < 262144 }
    requires room { at + 4 ≤ 1472 }
    ensures { IsPut octets.old octets.new at (written_header count kind body_size) result }
{
    let words = (body_size / WORD_SIZE) as u32;
    let word = VERSION_WORD + (count as u32) * 0x100_0000 + u32::from(kind) * 0x1_0000 + words;
    put_word(octets, at, word)
}

/// Writes a report block (RFC 3550, 6.4.1).
#[inline(always)]
pub fn put_block(octets: &mut [u8; MAX_COMPOUND], at: usize, block: &Block) -> usize
    requires { at + 24 ≤ 1472 }
    ensures put { IsPut octets.old octets.new at (written_block (block_value block.now)) result }
    ensures in_range { IsBlockInRange (block_value block.now) }
{
    let lost = block.lost.cast_unsigned() % 0x100_0000;
    let mut end = put_word(octets, at, block.ssrc);
    end = put_word(octets, end, u32::from(block.fraction) * 0x100_0000 + lost);
    end = put_word(octets, end, block.highest);
    end = put_word(octets, end, block.jitter);
    end = put_word(octets, end, block.lsr);
    put_word(octets, end, block.dlsr)
}

/// Writes an item of a source description (RFC 3550, 6.5), whose text has at most 255 octets.
#[inline(always)]
pub fn put_item(octets: &mut [u8; MAX_COMPOUND], at: usize, kind: u8, text: &[u8]) -> usize
    requires short { length text.now ≤ 255 }
    requires room { at + length text.now + 2 ≤ 1472 }
    ensures { IsPut octets.old octets.new at (written_item (record { kind = kind; text = text.now })) result }
{
    let begin = put_octets(octets, at, &[kind, text.len() as u8]);
    put_octets(octets, begin, text)
}

/// Writes a number of 32 bits, an identifier or another.
// Octet by octet, which the compiler joins: a copy asks first whether the two slices overlap.
#[inline(always)]
pub fn put_word(octets: &mut [u8; MAX_COMPOUND], at: usize, number: u32) -> usize
    requires { at + 4 ≤ 1472 }
    ensures put { IsPut octets.old octets.new at (written_word number) result }
    ensures in_range { number < 2 ^ 32 }
{
    let word = number.to_be_bytes();
    let mut end = put_octet(octets, at, word[0]);
    end = put_octet(octets, end, word[1]);
    end = put_octet(octets, end, word[2]);
    put_octet(octets, end, word[3])
}

/// Writes a number of 64 bits.
#[inline(always)]
pub fn put_long(octets: &mut [u8; MAX_COMPOUND], at: usize, number: u64) -> usize
    requires { at + 8 ≤ 1472 }
    ensures put { IsPut octets.old octets.new at (big_bytes 8 number) result }
    ensures in_range { number < 2 ^ 64 }
{
    put_octets(octets, at, &number.to_be_bytes())
}

#[inline(always)]
fn put_octet(octets: &mut [u8; MAX_COMPOUND], at: usize, octet: u8) -> usize
    requires { at < 1472 }
    ensures { IsPut octets.old octets.new at (octet ∷ []) result }
{
    octets[at] = octet;
    at + 1
}

#[inline(always)]
fn put_octets(octets: &mut [u8; MAX_COMPOUND], at: usize, part: &[u8]) -> usize
    requires { at + length part.now ≤ 1472 }
    ensures { IsPut octets.old octets.new at part.now result }
{
    let end = at + part.len();
    octets[at..end].copy_from_slice(part);
    end
}
