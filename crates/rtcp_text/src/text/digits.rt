//! Numbers and octets as digits.

ghost use Rattle.std.specs.Prelude.{◌≡◌, ◌++◌, OnOk};
ghost use Rattle.std.specs.Fmt.{decimal, signed_decimal};
ghost use Rattle.hex.specs.Hex.{encode_lower};
ghost use Rattle.rtcp_text.specs.Text.{hex_word, hex_long};

use itoa::Buffer;
use std::alloc::AllocError;
use std::simd::prelude::*;

/// The octets of a block, which are written as digits at once.
const BLOCK: usize = 8;

/// The hex digits, by their values.
static DIGITS: [u8; 16] = *b"0123456789abcdef";

/// Appends a number in decimal, with no leading zero.
pub fn push_decimal(out: &mut Vec<u8>, number: u64) -> Result<(), AllocError>
    ensures { OnOk result (out.new.items ≡ out.old.items ++ decimal number) }
{
    let mut digits = Buffer::new();
    out.extend_from_slice(digits.format(number).as_bytes())
}

/// Appends a number in decimal, with a minus sign if it is below 0.
pub fn push_signed(out: &mut Vec<u8>, number: i32) -> Result<(), AllocError>
    ensures { OnOk result (out.new.items ≡ out.old.items ++ signed_decimal number) }
{
    let mut digits = Buffer::new();
    out.extend_from_slice(digits.format(number).as_bytes())
}

/// Appends octets, each as two hex digits.
pub fn push_octets(out: &mut Vec<u8>, octets: &[u8]) -> Result<(), AllocError>
    ensures { OnOk result (out.new.items ≡ out.old.items ++ encode_lower octets.now) }
{
    // Memory is asked for once.
    out.reserve(octets.len().saturating_mul(2))?;
    let mut done = 0;
    'front: while octets.len() - done >= BLOCK {
        let digits = digits_of(u8x8::from_slice(&octets[done..]));
        out.extend_from_slice(&digits.to_array())?;
        done += BLOCK;
    }
    'rest: for i in done..octets.len() {
        let (high, low) = (octets[i] / 16, octets[i] % 16);
        out.extend_from_slice(&[DIGITS[high as usize], DIGITS[low as usize]])?;
    }
    Ok(())
}

/// Appends a word as eight hex digits.
pub fn push_word(out: &mut Vec<u8>, word: u32) -> Result<(), AllocError>
    ensures { OnOk result (out.new.items ≡ out.old.items ++ hex_word word) }
{
    out.extend_from_slice(&word_digits(word).to_array())
}

/// Appends a number of 64 bits as sixteen hex digits.
pub fn push_long(out: &mut Vec<u8>, number: u64) -> Result<(), AllocError>
    ensures { OnOk result (out.new.items ≡ out.old.items ++ hex_long number) }
{
    let digits = digits_of(u8x8::from_array(number.to_be_bytes()));
    out.extend_from_slice(&digits.to_array())
}

/// The hex digits of a word.
#[inline(always)]
pub(super) fn word_digits(word: u32) -> u8x8
    ensures { result ≡ hex_word word }
{
    words_digits(word, 0).0
}

/// The hex digits of two words, which go into a vector as a whole.
#[inline(always)]
pub(super) fn words_digits(first: u32, second: u32) -> (u8x8, u8x8)
    ensures first { result.0 ≡ hex_word first }
    ensures second { result.1 ≡ hex_word second }
{
    let octets = u32x2::from_array([first, second]).to_le_bytes();
    let digits = digits_of(octets.swizzle([3, 2, 1, 0, 7, 6, 5, 4]));
    (digits.extract::<0, 8>(), digits.extract::<8, 8>())
}

/// The hex digits of a block of octets.
#[inline(always)]
fn digits_of(octets: u8x8) -> u8x16
    ensures { result ≡ encode_lower octets }
{
    let high = octets >> u8x8::splat(4);
    let low = octets & u8x8::splat(15);
    let values = high.shuffle(low, [0, 8, 1, 9, 2, 10, 3, 11, 4, 12, 5, 13, 6, 14, 7, 15]);
    values.simd_lt(u8x16::splat(10)).select(
        values + u8x16::splat(b'0'),
        values + u8x16::splat(b'a' - 10),
    )
}
