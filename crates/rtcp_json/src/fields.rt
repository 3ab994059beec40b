//! Fields of objects: a name and a value each.
//!
//! # Errors
//!
//! Each function here returns `AllocError` where memory is refused. It is then left open what of the field was written.

ghost use Rattle.std.specs.Prelude.{◌≡◌, OnOk};
ghost use Rattle.json.specs.Json.{null, string};
ghost use Rattle.rtcp_json.specs.Adding.{AddsField, AddsJson};
ghost use Rattle.rtcp_json.specs.JsonValues.{long_json, number_json, octets_json, signed_json, text_json, word_json};

use json::Writer;
use std::alloc::{AllocError, Global};

/// A number.
pub(crate) fn write_number(writer: &mut Writer, name: &str, number: u32) -> Result<(), AllocError>
    ensures { OnOk result (AddsField writer.old writer.new name.now (number_json number)) }
{
    write_long_number(writer, name, u64::from(number))
}

/// A number of 64 bits.
pub(crate) fn write_long_number(
    writer: &mut Writer,
    name: &str,
    number: u64,
) -> Result<(), AllocError>
    ensures { OnOk result (AddsField writer.old writer.new name.now (number_json number)) }
{
    writer.key(name)?;
    writer.u64(number)?;
    Ok(())
}

/// A number that may be negative.
pub(crate) fn write_signed(writer: &mut Writer, name: &str, number: i32) -> Result<(), AllocError>
    ensures { OnOk result (AddsField writer.old writer.new name.now (signed_json number)) }
{
    writer.key(name)?;
    writer.i64(i64::from(number))?;
    Ok(())
}

/// A word as eight hex digits.
pub(crate) fn write_word(
    writer: &mut Writer,
    alloc: Global,
    name: &str,
    word: u32,
) -> Result<(), AllocError>
    ensures { OnOk result (AddsField writer.old writer.new name.now (word_json word)) }
{
    writer.key(name)?;
    write_word_value(writer, alloc, word)?;
    Ok(())
}

/// The value of such a field alone.
pub(crate) fn write_word_value(
    writer: &mut Writer,
    alloc: Global,
    word: u32,
) -> Result<(), AllocError>
    ensures { OnOk result (AddsJson writer.old writer.new (word_json word)) }
{
    let digits = hex::encode(alloc, word.to_be_bytes())?;
    writer.string(&digits)?;
    Ok(())
}

/// A number of 64 bits as sixteen hex digits.
pub(crate) fn write_long(
    writer: &mut Writer,
    alloc: Global,
    name: &str,
    number: u64,
) -> Result<(), AllocError>
    ensures { OnOk result (AddsField writer.old writer.new name.now (long_json number)) }
{
    let digits = hex::encode(alloc, number.to_be_bytes())?;
    write_name(writer, name, &digits)
}

/// Octets, two hex digits each.
pub(crate) fn write_octets(
    writer: &mut Writer,
    alloc: Global,
    name: &str,
    octets: &[u8],
) -> Result<(), AllocError>
    ensures { OnOk result (AddsField writer.old writer.new name.now (octets_json octets.now)) }
{
    let digits = hex::encode(alloc, octets)?;
    write_name(writer, name, &digits)
}

/// A text of a peer: U+FFFD stands for what of it is no UTF-8.
pub(crate) fn write_text(
    writer: &mut Writer,
    alloc: Global,
    name: &str,
    octets: &[u8],
) -> Result<(), AllocError>
    ensures { OnOk result (AddsField writer.old writer.new name.now (text_json octets.now)) }
{
    match str::from_utf8(octets) {
        Ok(text) => write_name(writer, name, text),
        Err(_) => {
            let text = String::from_utf8_lossy(alloc, octets)?;
            write_name(writer, name, &text)
        }
    }
}

/// A text that is UTF-8.
pub(crate) fn write_name(writer: &mut Writer, name: &str, text: &str) -> Result<(), AllocError>
    ensures { OnOk result (AddsField writer.old writer.new name.now (string text.now)) }
{
    writer.key(name)?;
    writer.string(text)?;
    Ok(())
}

/// Nothing.
pub(crate) fn write_null(writer: &mut Writer, name: &str) -> Result<(), AllocError>
    ensures { OnOk result (AddsField writer.old writer.new name.now null) }
{
    writer.key(name)?;
    writer.null()?;
    Ok(())
}
