//! Numbers and texts in plain words.
//!
//! # Errors
//!
//! Each function here returns `AllocError` where memory is refused. It is then left open how much of the text was
//! appended.

ghost use Rattle.std.specs.Prelude.{◌≡◌, ◌≤◌, ◌++◌, OnOk};
ghost use Rattle.std.specs.Fmt.{decimal};
ghost use Rattle.std.specs.List.{flat_map};
ghost use Rattle.core.specs.Char.Escape.{escape_ascii};
ghost use Rattle.rtcp_plain.specs.Numbers.{fixed_text, middle_time, ntp_time, quoted_text, seconds_text, time_text};

use itoa::Buffer;
use rtcp_text::text::digits::push_decimal;
use std::alloc::AllocError;

/// Appends a number of tenths, thousandths or millionths, by its unit, with as many digits after the point.
pub fn push_fixed(out: &mut Vec<u8>, number: u64, unit: u64) -> Result<(), AllocError>
    requires some { 1 ≤ unit }
    requires few { unit ≤ 1000000 }
    ensures { OnOk result (out.new.items ≡ out.old.items ++ fixed_text unit number) }
{
    push_decimal(out, number / unit)?;
    out.push(b'.')?;
    let mut digits = Buffer::new();
    // The leading 1 keeps the zeros after it.
    match digits.format(unit + number % unit).as_bytes().split_first() {
        Some((_, fraction)) => out.extend_from_slice(fraction),
        None => Ok(()),
    }
}

/// Appends a word, and a number in decimal.
pub fn push_number(out: &mut Vec<u8>, word: &[u8], number: u64) -> Result<(), AllocError>
    ensures { OnOk result (out.new.items ≡ out.old.items ++ word.now ++ decimal number) }
{
    out.extend_from_slice(word)?;
    push_decimal(out, number)
}

/// Appends a time of so many microseconds, in milliseconds.
pub fn push_time(out: &mut Vec<u8>, time: u64) -> Result<(), AllocError>
    ensures { OnOk result (out.new.items ≡ out.old.items ++ time_text time) }
{
    push_fixed(out, time, 1_000)?;
    out.extend_from_slice(b"ms")
}

/// Appends a time of so many microseconds, in seconds.
pub fn push_seconds(out: &mut Vec<u8>, time: u64) -> Result<(), AllocError>
    ensures { OnOk result (out.new.items ≡ out.old.items ++ seconds_text time) }
{
    push_fixed(out, time, 1_000_000)?;
    out.push(b's')?;
    Ok(())
}

/// The microseconds of an NTP timestamp, since the start of its era (RFC 3550, 4), rounded down.
pub fn ntp_time(ntp: u64) -> u64
    ensures { result ≡ ntp_time ntp }
{
    ntp / (1 << 32) * 1_000_000 + ntp % (1 << 32) * 1_000_000 / (1 << 32)
}

/// The microseconds of so many 1/65,536 of a second, rounded down.
pub fn middle_time(middle: u32) -> u64
    ensures { result ≡ middle_time middle }
{
    u64::from(middle) * 1_000_000 / 65_536
}

/// Appends a text between double quotes, with the escapes of Rust's `escape_ascii` for what is not printed.
pub fn push_quoted(out: &mut Vec<u8>, text: &[u8]) -> Result<(), AllocError>
    ensures { OnOk result (out.new.items ≡ out.old.items ++ quoted_text text.now) }
{
    out.push(b'"')?;
    push_escaped(out, text)?;
    out.push(b'"')?;
    Ok(())
}

/// Appends a text, with escapes for what is not printed.
fn push_escaped(out: &mut Vec<u8>, text: &[u8]) -> Result<(), AllocError>
    ensures { OnOk result (out.new.items ≡ out.old.items ++ flat_map escape_ascii text.now) }
{
    for octet in text {
        push_octet(out, *octet)?;
    }
    Ok(())
}

/// Appends an octet of a text, with an escape if it is not printed.
fn push_octet(out: &mut Vec<u8>, octet: u8) -> Result<(), AllocError>
    ensures { OnOk result (out.new.items ≡ out.old.items ++ escape_ascii octet) }
{
    for part in octet.escape_ascii() {
        out.push(part)?;
    }
    Ok(())
}
