//! A text that is read in blocks, and answered line by line.

ghost use Rattle.std.specs.Prelude.{◌≡◌};
ghost use Rattle.rtcp_text.specs.Opened.{OpenedRunLeaves};
ghost use Rattle.rtcp_text.specs.Counted.{AreUnfailed, FailsOnce, inner_of};
ghost use Rattle.rtcp_text.specs.Lines.{Wrote, IsTextFrom};
ghost use Rattle.rtcp_text.specs.Progress.{RunLeaves};

use crate::answerer::Answerer;
use crate::counted::Counted;
use crate::fault::TextFault;
use crate::lines::LineCutter;
use crate::writing::{flush, write_whole};
use std::alloc::Global;
use std::io::{Read, Write};

/// The most octets that one read asks for.
const BLOCK: usize = 8_192;

/// Answers at most `lines` lines of the reader's input, block by block, up to its end or the first fault. What was
/// written is flushed before each read; what is answered after the last one is left for the caller to flush.
///
/// # Errors
///
/// - [`TextFault::Text`] at the first line that is too long, one too many, or that the answerer refuses. The
///   answers to the lines before it are written.
/// - [`TextFault::Read`] where a call of the reader fails. The answers to the whole lines that were read are
///   written.
/// - [`TextFault::Write`] where a call of the writer fails, a flush included, or takes nothing. A prefix of
///   the answers is written.
/// - [`TextFault::Memory`] where memory is refused. The answers to the first lines are written, at least to
///   those that ended before the last block that was read.
pub fn answer_blocks<A: Answerer, R: Read, W: Write>(
    alloc: Global,
    lines: u32,
    answerer: A,
    reader: &mut Counted<R>,
    writer: &mut Counted<W>,
) -> Result<(), TextFault>
    requires { AreUnfailed reader.old writer.old }
    ensures leaves { Wrote R.remaining W.contents reader.old writer.old writer.new
        (RunLeaves (IsTextFrom lines A.answers A.refuses 1 answerer) result (R.remaining (inner_of reader.new))) }
    ensures fails { FailsOnce result TextFault.Read TextFault.Write reader.new writer.new }
{
    let mut cutter = LineCutter::new(alloc, lines, answerer);
    let mut block = [0; BLOCK];
    'turns: loop {
        flush(writer)?;
        let count = match reader.read(&mut block) {
            Ok(count) => count,
            Err(_) => return Err(TextFault::Read),
        };
        if count == 0 {
            return cutter.finish(writer);
        }
        cutter.take_block(&block[..count], writer)?;
    }
}

/// Writes an opening, and then answers the lines of the reader's input as [`answer_blocks`] does.
///
/// # Errors
///
/// Those of [`answer_blocks`], after the opening. Where a call of the writer fails or takes nothing before the opening is
/// written, [`TextFault::Write`]: a prefix of it is written then, and nothing is read.
pub fn answer_opened<A: Answerer, R: Read, W: Write>(
    alloc: Global,
    lines: u32,
    opening: &[u8],
    answerer: A,
    reader: &mut Counted<R>,
    writer: &mut Counted<W>,
) -> Result<(), TextFault>
    requires { AreUnfailed reader.old writer.old }
    ensures leaves { Wrote R.remaining W.contents reader.old writer.old writer.new (OpenedRunLeaves opening.now
        (IsTextFrom lines A.answers A.refuses 1 answerer) result (R.remaining (inner_of reader.new))) }
    ensures fails { FailsOnce result TextFault.Read TextFault.Write reader.new writer.new }
{
    write_whole(writer, opening)?;
    answer_blocks(alloc, lines, answerer, reader, writer)
}
