//! A check of a text in JSON.

ghost use Rattle.std.specs.Prelude.{◌≡◌, ◌++◌, ℕ, List, OnOk};
ghost use Rattle.rtcp_text.specs.Counted.{AreUnfailed, FailsOnce, inner_of};
ghost use Rattle.rtcp_text.specs.Lines.{Wrote};
ghost use Rattle.rtcp_json.specs.CheckJson.{ChecksInJson, IsJsonAnswer};

use crate::lines::{begin_line, end_line};
use crate::packets::write_reading;
use hex::FromHexError;
use rtcp_text::answerer::Answerer;
use rtcp_text::blocks::answer_blocks;
use rtcp_text::{Counted, LineFault, TextFault};
use std::alloc::{AllocError, Global};
use std::io::{Read, Write};

/// [`check_up_to`](rtcp_text::check::check_up_to), where each line that is written holds an object of JSON: that of
/// [`push_json`](crate::push_json) for an accepted datagram, and that of [`push_fault_json`](crate::push_fault_json)
/// for a refused one. All else is the same.
///
/// # Errors
///
/// Those of [`check`](rtcp_text::check::check).
pub fn check_json<R: Read, W: Write>(
    alloc: Global,
    lines: u32,
    reader: &mut Counted<R>,
    writer: &mut Counted<W>,
) -> Result<(), TextFault>
    requires { AreUnfailed reader.old writer.old }

    ensures checks { ChecksInJson lines result (R.remaining (inner_of reader.new))
        (Wrote R.remaining W.contents reader.old writer.old writer.new) }
    ensures fails { FailsOnce result TextFault.Read TextFault.Write reader.new writer.new }
{
    answer_blocks(alloc, lines, JsonChecker { alloc }, reader, writer)
}

/// Answers each line of hex by itself.
#[derive(Drop)]
struct JsonChecker {
    alloc: Global,
}

impl Answerer for JsonChecker {
    ghost use Rattle.rtcp_text.specs.Check.{IsNotHex};
    ghost use Rattle.rtcp_json.specs.CheckJson.{AnswersHexInJson};

    ghost answers = { λ before line text after. AnswersHexInJson line text };

    ghost refuses = { IsNotHex };

    fn compose(&mut self, number: u64, line: &[u8], text: &mut Vec<u8>) -> Result<(), TextFault> {
        let datagram = match hex::decode(self.alloc, line) {
            Ok(datagram) => datagram,
            Err(FromHexError::OutOfMemory) => return Err(TextFault::Memory),
            Err(_) => {
                return Err(TextFault::Text {
                    line: number,
                    fault: LineFault::Hex,
                });
            }
        };
        match push_answer(text, &datagram) {
            Ok(()) => Ok(()),
            Err(AllocError) => Err(TextFault::Memory),
        }
    }
}

/// Appends the line that answers a datagram: its packets, or its first fault.
fn push_answer(out: &mut Vec<u8>, datagram: &[u8]) -> Result<(), AllocError>
    ensures { OnOk result ((text : List ℕ) × IsJsonAnswer datagram.now text × (out.new.items ≡ out.old.items ++ text)) }
{
    let alloc = *out.allocator();
    let mut writer = begin_line(alloc, out);
    let written = write_reading(&mut writer, alloc, datagram);
    end_line(out, writer, written)
}
