//! Writing the whole of a text, and handing it on.

ghost use Rattle.std.specs.Prelude.{◌≡◌, ◌≢◌, ◌≤◌, ◌++◌, ◌↔◌, ℕ, List, [], OnOk, IsOkUnless};
ghost use Rattle.std.specs.Io.KnownBytes.{Appends, Keeps};
ghost use Rattle.rtcp_text.specs.Counted.{failures_of, inner_of};

use crate::counted::Counted;
use crate::fault::TextFault;
use std::io::Write;

/// Writes all of the text.
///
/// # Errors
///
/// [`TextFault::Write`] at the first call of the writer that fails or takes nothing: a prefix of the text is
/// then written.
pub(crate) fn write_whole<W: Write>(writer: &mut Counted<W>, text: &[u8]) -> Result<(), TextFault>
    requires { failures_of writer.old ≡ 0 }
    ensures only { IsOkUnless result TextFault.Write }
    ensures written { (prefix : List ℕ) × (more : List ℕ) × (text.now ≡ prefix ++ more)
        × OnOk result (more ≡ [])
        × Appends (W.contents (inner_of writer.old)) (W.contents (inner_of writer.new)) prefix }
    ensures failed { (result ≡ Err TextFault.Write) ↔ (failures_of writer.new ≢ 0) }
    ensures once { failures_of writer.new ≤ 1 }
{
    let mut rest = text;
    while !rest.is_empty() {
        let count = match writer.write(rest) {
            Ok(count) => count,
            Err(_) => return Err(TextFault::Write),
        };
        if count == 0 {
            return Err(TextFault::Write);
        }
        rest = rest.split_at(count).1;
    }
    Ok(())
}

/// Hands on what was written, so that it is seen before more is read.
///
/// # Errors
///
/// [`TextFault::Write`] where the flush fails.
pub(crate) fn flush<W: Write>(writer: &mut Counted<W>) -> Result<(), TextFault>
    requires { failures_of writer.old ≡ 0 }
    ensures only { IsOkUnless result TextFault.Write }
    ensures kept { Keeps (W.contents (inner_of writer.old)) (W.contents (inner_of writer.new)) }
    ensures failed { (result ≡ Err TextFault.Write) ↔ (failures_of writer.new ≢ 0) }
    ensures once { failures_of writer.new ≤ 1 }
{
    match writer.flush() {
        Ok(()) => Ok(()),
        Err(_) => Err(TextFault::Write),
    }
}
