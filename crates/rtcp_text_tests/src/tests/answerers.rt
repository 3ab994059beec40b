//! Answers that depend on the lines before, by an answerer of the tests.

ghost use Rattle.std.specs.Prelude.{◌≡◌, ◌∷◌, ◌++◌, [], length, OnOk};
ghost use Rattle.rtcp_text.specs.declared.fault.LineFault.TheVariants.{Words};

use rtcp_text::answerer::Answerer;
use rtcp_text::blocks::answer_blocks;
use rtcp_text::{Counted, LineFault, TextFault};
use std::alloc::{AllocError, Global};

/// Answers each line by the one before it, and refuses an empty line.
#[derive(Drop)]
struct Previous {
    line: Vec<u8>,
}

impl Answerer for Previous {
    ghost answers = { λ before line text after.
        (text ≡ before.line.items ++ 10 ∷ []) × (after.line.items ≡ line) };

    ghost refuses = { λ line fault. (fault ≡ Words) × (length line ≡ 0) };

    fn compose(&mut self, number: u64, line: &[u8], text: &mut Vec<u8>) -> Result<(), TextFault> {
        if line.is_empty() {
            return Err(TextFault::Text {
                line: number,
                fault: LineFault::Words,
            });
        }
        match self.push_previous(line, text) {
            Ok(()) => Ok(()),
            Err(AllocError) => Err(TextFault::Memory),
        }
    }
}

impl Previous {
    /// Appends the previous line, and keeps this one.
    fn push_previous(&mut self, line: &[u8], text: &mut Vec<u8>) -> Result<(), AllocError>
        ensures text { OnOk result (text.new.items ≡ text.old.items ++ (self.old.line.items ++ 10 ∷ [])) }
        ensures kept { OnOk result (self.new.line.items ≡ line.now) }
    {
        text.extend_from_slice(&self.line)?;
        text.push(b'\n')?;
        self.line.clear();
        self.line.extend_from_slice(line)?;
        Ok(())
    }
}

/// What a run of at most so many lines answers, and what it writes.
fn answered(alloc: Global, lines: u32, input: &[u8]) -> (Result<(), TextFault>, Vec<u8>) {
    let mut reader = Counted::new(input);
    let mut writer = Counted::new(Vec::new(alloc));
    let previous = Previous {
        line: Vec::new(alloc),
    };
    let outcome = answer_blocks(alloc, lines, previous, &mut reader, &mut writer);
    (outcome, writer.into_inner())
}

#[test]
fn answers_by_the_line_before(rt: HostRuntime) {
    let words = Err(TextFault::Text {
        line: 3,
        fault: LineFault::Words,
    });
    let many = Err(TextFault::Text {
        line: 3,
        fault: LineFault::TooManyLines,
    });
    let rows = [
        (3, "one\ntwo\nthree", Ok(()), "\none\ntwo\n"),
        (3, "one\ntwo\nthree\n", Ok(()), "\none\ntwo\n"),
        (u32::MAX, "one\ntwo\n\nthree\n", words, "\none\n"),
        (2, "one\ntwo\n\nthree\n", many, "\none\n"),
    ];
    for (most, lines, outcome, text) in rows {
        let (ended, written) = answered(rt.alloc(), most, lines.as_bytes());
        assert_eq!(rt; ended, outcome, "{lines}");
        assert_eq!(rt; written.as_slice(), text.as_bytes(), "{lines}");
    }
}
