//! Lines that hold one value of JSON each.

ghost use Rattle.std.specs.Prelude.{◌≡◌, ◌++◌, [], ◌∷◌, OnOk, Ok};
ghost use Rattle.std.specs.Str.{IsUtf8};
ghost use Rattle.json.specs.Lex.{tokens};
ghost use Rattle.json.specs.Print.{print};

use json::Writer;
use std::alloc::{AllocError, Global};
use std::mem;

/// A writer after what a text holds, which is taken out of it until [`end_line`].
pub(crate) fn begin_line(alloc: Global, out: &mut Vec<u8>) -> Writer
    ensures before { result.before ≡ out.old.items }
    ensures tokens { result.tokens ≡ [] }
{
    Writer::new(mem::replace(out, Vec::new(alloc)))
}

/// Puts what a writer holds back into a text, and ends the line where all of its value was written.
///
/// # Errors
///
/// That of what was written, or `AllocError` where memory is refused.
pub(crate) fn end_line(
    out: &mut Vec<u8>,
    writer: Writer,
    written: Result<(), AllocError>,
) -> Result<(), AllocError>
    ensures written { OnOk result (written ≡ Ok tt) }
    ensures line { OnOk result (out.new.items ≡ writer.before ++ (print writer.tokens ++ 10 ∷ [])) }
    ensures reads_back { tokens (print writer.tokens) ≡ writer.tokens }
    ensures utf8 { IsUtf8 (print writer.tokens) }
{
    *out = writer.into_inner();
    written?;
    out.push(b'\n')?;
    Ok(())
}
