//! The octets that a line spells in hex.

ghost use Rattle.std.specs.Prelude.{◌≡◌, ◌*◌, length, Ok, OnOk, MatchResult, IsErr, IfSome};
ghost use Rattle.hex.specs.Hex.{decode_of};
ghost use Rattle.rtcp_text.specs.declared.digit_pairs.DecodeFault.TheVariants.{NotHex};

use std::alloc::AllocError;
use std::simd::prelude::*;

/// The octets that a block of digits spells, which are read at once.
const BLOCK_OCTETS: usize = 8;

/// Why a line gives no octets.
#[derive(Clone, Copy, Debug, PartialEq, Eq)]
pub(crate) enum DecodeFault {
    /// It is not an even number of hex digits.
    NotHex,
    /// Memory was asked for and refused.
    Memory,
}

/// Makes `octets` what the line spells, in a buffer that is kept from line to line.
///
/// # Errors
///
/// - [`DecodeFault::NotHex`] where the line is not an even number of hex digits of either case.
/// - [`DecodeFault::Memory`] where memory is refused.
///
/// After an error it is left open what the buffer holds.
pub(crate) fn decode(line: &[u8], octets: &mut Vec<u8>) -> Result<(), DecodeFault>
    ensures ok { OnOk result (decode_of line.now ≡ Ok octets.new.items) }
    ensures not_hex { result ≡ Err NotHex → IsErr (decode_of line.now) }
{
    if line.len() % 2 != 0 {
        return Err(DecodeFault::NotHex);
    }
    match octets.resize(line.len() / 2, 0) {
        Ok(()) => decode_pairs(line, octets.as_mut_slice()),
        Err(AllocError) => Err(DecodeFault::Memory),
    }
}

/// Makes `octets` what the line spells, block by block while the digits are right, and the rest digit by digit.
/// There each digit is looked up: whether it is a number or a letter cannot be predicted, and a branch on that
/// takes more than half of the time.
///
/// # Errors
///
/// [`DecodeFault::NotHex`] where a digit is wrong.
fn decode_pairs(line: &[u8], octets: &mut [u8]) -> Result<(), DecodeFault>
    requires { length line.now ≡ 2 * length octets.old }
    ensures { MatchResult (decode_of line.now)
        (λ spelled. (result ≡ Ok tt) × (octets.new ≡ spelled))
        (λ fault. result ≡ Err NotHex) }
{
    let mut done = 0;
    'front: while octets.len() - done >= BLOCK_OCTETS {
        let Some(block) = decode_block(u8x16::from_slice(&line[2 * done..])) else {
            break;
        };
        u8x8::from_array(block).copy_to_slice(&mut octets[done..]);
        done += BLOCK_OCTETS;
    }
    'octets: for i in done..octets.len() {
        let high = DIGIT_VALUES[line[2 * i] as usize];
        let low = DIGIT_VALUES[line[2 * i + 1] as usize];
        if high >= 16 || low >= 16 {
            return Err(DecodeFault::NotHex);
        }
        octets[i] = high * 16 + low;
    }
    Ok(())
}

/// The octets that a block of digits spells, unless one is wrong. No digit is branched on: one step takes the
/// ten numbers to 0 to 9, another the letters to 10 to 15, and each takes all else to 16 or more, so that the
/// smaller of the two is the value (after Muła and Langdale, "Parsing hex numbers with validation").
#[inline(always)]
fn decode_block(digits: u8x16) -> Option<[u8; BLOCK_OCTETS]>
    ensures { IfSome result (λ octets. decode_of digits ≡ Ok octets) }
{
    // The numbers come to 246 to 255 and all else below; then to 240 to 249, and all else below 240.
    let numbers_last = digits + u8x16::splat(u8::MAX - b'9');
    let numbers = numbers_last.saturating_sub(u8x16::splat(6)) + u8x16::splat(16);
    let letters_first = (digits & u8x16::splat(0xdf)) - u8x16::splat(b'A');
    let letters = letters_first.saturating_add(u8x16::splat(10));
    let values = numbers.simd_min(letters);
    if values.simd_ge(u8x16::splat(16)).to_bitmask() != 0 {
        return None;
    }
    let high = values.swizzle([0, 2, 4, 6, 8, 10, 12, 14]);
    let low = values.swizzle([1, 3, 5, 7, 9, 11, 13, 15]);
    Some((high * u8x8::splat(16) + low).to_array())
}

/// The value of each octet as a hex digit of either case, and 255 where it is not a digit. A line has 16
/// octets: the fourth begins with `0`, the fifth and the seventh hold the letters.
static DIGIT_VALUES: [u8; 256] = *b"\
    \xff\xff\xff\xff\xff\xff\xff\xff\xff\xff\xff\xff\xff\xff\xff\xff\
    \xff\xff\xff\xff\xff\xff\xff\xff\xff\xff\xff\xff\xff\xff\xff\xff\
    \xff\xff\xff\xff\xff\xff\xff\xff\xff\xff\xff\xff\xff\xff\xff\xff\
    \x00\x01\x02\x03\x04\x05\x06\x07\x08\x09\xff\xff\xff\xff\xff\xff\
    \xff\x0a\x0b\x0c\x0d\x0e\x0f\xff\xff\xff\xff\xff\xff\xff\xff\xff\
    \xff\xff\xff\xff\xff\xff\xff\xff\xff\xff\xff\xff\xff\xff\xff\xff\
    \xff\x0a\x0b\x0c\x0d\x0e\x0f\xff\xff\xff\xff\xff\xff\xff\xff\xff\
    \xff\xff\xff\xff\xff\xff\xff\xff\xff\xff\xff\xff\xff\xff\xff\xff\
    \xff\xff\xff\xff\xff\xff\xff\xff\xff\xff\xff\xff\xff\xff\xff\xff\
    \xff\xff\xff\xff\xff\xff\xff\xff\xff\xff\xff\xff\xff\xff\xff\xff\
    \xff\xff\xff\xff\xff\xff\xff\xff\xff\xff\xff\xff\xff\xff\xff\xff\
    \xff\xff\xff\xff\xff\xff\xff\xff\xff\xff\xff\xff\xff\xff\xff\xff\
    \xff\xff\xff\xff\xff\xff\xff\xff\xff\xff\xff\xff\xff\xff\xff\xff\
    \xff\xff\xff\xff\xff\xff\xff\xff\xff\xff\xff\xff\xff\xff\xff\xff\
    \xff\xff\xff\xff\xff\xff\xff\xff\xff\xff\xff\xff\xff\xff\xff\xff\
    \xff\xff\xff\xff\xff\xff\xff\xff\xff\xff\xff\xff\xff\xff\xff\xff";
