//! A check of a text in plain words, or by rows of report blocks.

ghost use Rattle.std.specs.Prelude.{◌≡◌, None};
ghost use Rattle.rtcp_text.specs.Check.{Checks};
ghost use Rattle.rtcp_text.specs.Counted.{AreUnfailed, FailsOnce, inner_of};
ghost use Rattle.rtcp_text.specs.Lines.{Wrote};
ghost use Rattle.rtcp_plain.specs.Blocks.{blocks_text};
ghost use Rattle.rtcp_plain.specs.Plain.{plain_text};

use crate::blocks::push_blocks;
use crate::packets::push_plain;
use rtcp_text::check::check_as;
use rtcp_text::{Counted, Showing, TextFault};
use rtcp_wire::Compound;
use std::alloc::{AllocError, Global};
use std::io::{Read, Write};

/// [`check_up_to`](rtcp_text::check::check_up_to), where accepted datagrams are shown in plain words
/// ([`push_plain`](crate::push_plain)), the jitter of report blocks in units. All else is the same.
///
/// # Errors
///
/// Those of [`check`](rtcp_text::check::check).
pub fn check_plain<R: Read, W: Write>(
    alloc: Global,
    lines: u32,
    reader: &mut Counted<R>,
    writer: &mut Counted<W>,
) -> Result<(), TextFault>
    requires { AreUnfailed reader.old writer.old }

    ensures checks { Checks (plain_text None) lines result (R.remaining (inner_of reader.new))
        (Wrote R.remaining W.contents reader.old writer.old writer.new) }
    ensures fails { FailsOnce result TextFault.Read TextFault.Write reader.new writer.new }
{
    check_as(alloc, lines, Plain, reader, writer)
}

/// [`check_up_to`](rtcp_text::check::check_up_to), where accepted datagrams are shown by the rows of their report blocks
/// ([`push_blocks`](crate::push_blocks)). One without a block has none. All else is the same.
///
/// # Errors
///
/// Those of [`check`](rtcp_text::check::check).
pub fn check_blocks<R: Read, W: Write>(
    alloc: Global,
    lines: u32,
    reader: &mut Counted<R>,
    writer: &mut Counted<W>,
) -> Result<(), TextFault>
    requires { AreUnfailed reader.old writer.old }

    ensures checks { Checks blocks_text lines result (R.remaining (inner_of reader.new))
        (Wrote R.remaining W.contents reader.old writer.old writer.new) }
    ensures fails { FailsOnce result TextFault.Read TextFault.Write reader.new writer.new }
{
    check_as(alloc, lines, Rows, reader, writer)
}

/// Rows of report blocks.
#[derive(Drop)]
struct Rows;

impl Showing for Rows {
    ghost line = { blocks_text };

    fn push_line(&self, out: &mut Vec<u8>, compound: &Compound<'_>) -> Result<(), AllocError> {
        push_blocks(out, compound)
    }
}

/// Plain words, where no clock is known.
#[derive(Drop)]
struct Plain;

impl Showing for Plain {
    ghost line = { plain_text None };

    fn push_line(&self, out: &mut Vec<u8>, compound: &Compound<'_>) -> Result<(), AllocError> {
        push_plain(out, compound, None)
    }
}
