//! A check of a text: an answer for each line of hex.

ghost use Rattle.std.specs.Prelude.{◌≡◌};
ghost use Rattle.rtcp_text.specs.Check.{Checks};
ghost use Rattle.rtcp_text.specs.Counted.{AreUnfailed, FailsOnce, inner_of};
ghost use Rattle.rtcp_text.specs.Lines.{Wrote};
ghost use Rattle.rtcp_text.specs.Text.{accepted_text};

use crate::answer::Checker;
use crate::blocks::answer_blocks;
use crate::counted::Counted;
use crate::fault::TextFault;
use crate::laws::one_text;
use crate::showing::{Brief, Showing};
use rtcp_wire::laws::accepted_or_faulty;
use std::alloc::Global;
use std::io::{Read, Write};

/// The most lines of a text, where nothing else is said.
pub const MOST_LINES: u32 = 65_536;

/// Reads a text, a datagram in hex on each line, and writes a line for each: the datagram's packets, or its
/// first fault.
///
/// A line has at most 131,200 octets before its line feed, which the last line may lack, and the text has at
/// most 65,536 lines. The answer to a line is written before the next line is looked at. What was answered is
/// flushed before the reader is asked for more, so a line's answer is seen while the next line is awaited;
/// what is answered after the last read is left for the caller to flush. The first call of the reader or the
/// writer that fails ends the run.
///
/// # Errors
///
/// - [`TextFault::Text`] at the first line that is too long, one too many, or not hex. The answers to the
///   lines before it are written.
/// - [`TextFault::Read`] where a call of the reader fails, for whatever reason. The answers to the whole
///   lines that were read are written.
/// - [`TextFault::Write`] where a call of the writer fails, a flush included, or takes nothing. A prefix of
///   the answers is written.
/// - [`TextFault::Memory`] where memory is refused. The answers to the first lines are written, at least to
///   those that ended before the last block that was read.
pub fn check<R: Read, W: Write>(
    alloc: Global,
    reader: &mut Counted<R>,
    writer: &mut Counted<W>,
) -> Result<(), TextFault>
    requires { AreUnfailed reader.old writer.old }

    ensures checks { Checks accepted_text 65536 result (R.remaining (inner_of reader.new))
        (Wrote R.remaining W.contents reader.old writer.old writer.new) }
    ensures fails { FailsOnce result TextFault.Read TextFault.Write reader.new writer.new }
{
    check_up_to(alloc, MOST_LINES, reader, writer)
}

/// [`check`] of a text of at most `lines` lines.
///
/// # Errors
///
/// Those of [`check`].
pub fn check_up_to<R: Read, W: Write>(
    alloc: Global,
    lines: u32,
    reader: &mut Counted<R>,
    writer: &mut Counted<W>,
) -> Result<(), TextFault>
    requires { AreUnfailed reader.old writer.old }

    ensures checks { Checks accepted_text lines result (R.remaining (inner_of reader.new))
        (Wrote R.remaining W.contents reader.old writer.old writer.new) }
    ensures fails { FailsOnce result TextFault.Read TextFault.Write reader.new writer.new }
{
    // So every input has a text, of which what is written is a prefix, and only one.
    accepted_or_faulty();
    one_text();
    check_as(alloc, lines, Brief, reader, writer)
}

/// [`check_up_to`], where accepted datagrams are shown in another way. All else is the same.
///
/// # Errors
///
/// Those of [`check`].
pub fn check_as<S: Showing, R: Read, W: Write>(
    alloc: Global,
    lines: u32,
    showing: S,
    reader: &mut Counted<R>,
    writer: &mut Counted<W>,
) -> Result<(), TextFault>
    requires { AreUnfailed reader.old writer.old }

    ensures checks { Checks S.line lines result (R.remaining (inner_of reader.new))
        (Wrote R.remaining W.contents reader.old writer.old writer.new) }
    ensures fails { FailsOnce result TextFault.Read TextFault.Write reader.new writer.new }
{
    answer_blocks(alloc, lines, Checker::new(alloc, showing), reader, writer)
}
