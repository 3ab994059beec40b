//! Numbers as fields of a line and options of a command line write them.

ghost use Rattle.std.specs.Prelude.{◌≡◌, ◌<◌, ◌≤◌, length, option_map, MatchOption};
ghost use Rattle.std.specs.Char.{digit_value};
ghost use Rattle.std.specs.Int.{w32, w64};
ghost use Rattle.std.specs.Str.Parse.{AllDigits, digits_value};
ghost use Rattle.rtcp_text.specs.Numerals.{decimal_in, hex_in, hex_text_in};

use arrayvec::ArrayVec;

/// The most digits of a decimal number. That is as many as the greatest number of 64 bits has.
const MAX_DIGITS: usize = 20;

/// The number that 1 to 20 decimal digits write, unless it takes more than 64 bits.
pub fn read_decimal(text: &[u8]) -> Option<u64>
    ensures { result ≡ decimal_in 64 text.now }
{
    let (last, others) = text.split_last()?;
    if others.len() >= MAX_DIGITS {
        return None;
    }
    // At most 19 digits fit, so only the last one can make the number too great.
    let tens = read_digits(others)?.checked_mul(10)?;
    tens.checked_add(digit_of(*last)?)
}

/// The number that at most 19 decimal digits write.
fn read_digits(text: &[u8]) -> Option<u64>
    requires { length text.now ≤ 19 }
    ensures { MatchOption result (AllDigits 10 text.now → ⊥)
        (λ number. AllDigits 10 text.now × (number ≡ digits_value 10 text.now)) }
{
    let mut number = 0;
    for octet in text {
        number = number * 10 + digit_of(*octet)?;
    }
    Some(number)
}

/// The value of a decimal digit.
#[inline(always)]
fn digit_of(octet: u8) -> Option<u64>
    ensures { MatchOption result (10 ≤ digit_value octet) (λ value. (value ≡ digit_value octet) × (value < 10)) }
{
    if !octet.is_ascii_digit() {
        return None;
    }
    Some(u64::from(octet - b'0'))
}

/// The number that 1 to 20 decimal digits write, unless it takes more than 32 bits.
pub fn read_short_decimal(text: &[u8]) -> Option<u32>
    ensures { result ≡ decimal_in 32 text.now }
{
    u32::try_from(read_decimal(text)?).ok()
}

/// The number that 1 to 20 decimal digits write, unless it takes more than 8 bits.
pub(crate) fn read_small_decimal(text: &[u8]) -> Option<u8>
    ensures { result ≡ decimal_in 8 text.now }
{
    u8::try_from(read_decimal(text)?).ok()
}

/// The number that eight hex digits of either case write.
pub fn read_word(text: &[u8]) -> Option<u32>
    ensures { result ≡ hex_in w32 text.now }
{
    let mut octets = [0; 4];
    hex::decode_to_slice(text, &mut octets).ok()?;
    Some(u32::from_be_bytes(octets))
}

/// The number that sixteen hex digits of either case write.
pub fn read_long(text: &[u8]) -> Option<u64>
    ensures { result ≡ hex_in w64 text.now }
{
    let mut octets = [0; 8];
    hex::decode_to_slice(text, &mut octets).ok()?;
    Some(u64::from_be_bytes(octets))
}

/// At most 255 octets, in hex of either case.
pub fn read_hex_text(text: &[u8]) -> Option<ArrayVec<u8, 255>>
    ensures { option_map (λ read. read.items) result ≡ hex_text_in text.now }
{
    if text.len() > 510 {
        return None;
    }
    let mut buffer = [0; 255];
    let decoded = &mut buffer[..text.len() / 2];
    hex::decode_to_slice(text, decoded).ok()?;
    let mut octets = ArrayVec::new();
    octets.try_extend_from_slice(decoded).ok()?;
    Some(octets)
}
