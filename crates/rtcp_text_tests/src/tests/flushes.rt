//! What stands flushed when the reader is asked for more.

use super::ends::ran;
use rtcp_text::{LineFault, ReplayFault, TextFault};
use std::cell::Cell;
use std::io;
use std::io::{ErrorKind, Read, Write};

/// How many octets a writer took, and how many of them stood flushed.
#[derive(Drop)]
struct Seen {
    written: Cell<usize>,
    flushed: Cell<usize>,
}

impl Seen {
    fn none() -> Self {
        Seen {
            written: Cell::new(0),
            flushed: Cell::new(0),
        }
    }
}

/// Gives a block a call, and fails where not all that was written stands flushed by then.
#[derive(Drop)]
struct Blocks<'a> {
    blocks: &'a [&'a [u8]],
    given: usize,
    seen: &'a Seen,
}

impl Read for Blocks<'_> {
    fn read(&mut self, buf: &mut [u8]) -> io::Result<usize> {
        if self.seen.flushed.get() < self.seen.written.get() {
            return Err(io::Error::from(ErrorKind::Other));
        }
        let Some(block) = self.blocks.get(self.given) else {
            return Ok(0);
        };
        self.given += 1;
        let mut octets = *block;
        octets.read(buf)
    }
}

/// Notes what it takes, and at each flush what it took. The flush after `flushes` others fails.
#[derive(Drop)]
struct Noting<'a> {
    flushes: u32,
    seen: &'a Seen,
}

impl Write for Noting<'_> {
    fn write(&mut self, buf: &[u8]) -> io::Result<usize> {
        let written = self.seen.written.get().saturating_add(buf.len());
        self.seen.written.set(written);
        Ok(buf.len())
    }

    fn flush(&mut self) -> io::Result<()> {
        if self.flushes == 0 {
            return Err(io::Error::from(ErrorKind::Other));
        }
        self.flushes -= 1;
        self.seen.flushed.set(self.seen.written.get());
        Ok(())
    }
}

/// Blocks of a run of `check`: lines for the answers to two lines, to none, to one that came in two blocks, and to the
/// first part of a last line.
const BLOCKS: &[&[u8]] = &[b"80c9000100000007\n\n", b"80c9", b"000100000008\n8", b"0"];

/// Blocks with the line feeds of three lines, and a line that is no hex in the same block.
const NO_HEX: &[&[u8]] = &[b"\n", b"\n\nq\n"];

/// Blocks of a run of `replay`: a line and the first words of one, its other words, its line feed and a word, and the
/// last octet.
const EVENTS: &[&[u8]] = &[
    b"rtcp 0 1 00000000 80c900010000000781ca00020000000701016100\ntick 1026037 ",
    b"00000000 00000000",
    b"\nrtcp 1026037 1 00000000 ",
    b"-",
];

const WRITE: Result<(), ReplayFault> = Err(ReplayFault::Run(TextFault::Write));

/// The fourth line is no hex.
const HEX: Result<(), ReplayFault> = Err(ReplayFault::Run(TextFault::Text {
    line: 4,
    fault: LineFault::Hex,
}));

/// Blocks, whether they are of a replay, and how many flushes succeed; how the run ends, and how much was written and
/// stands flushed.
type Flushed = (
    &'static [&'static [u8]],
    bool,
    u32,
    (Result<(), ReplayFault>, usize, usize),
);

static FLUSHES: [Flushed; 13] = [
    // 21 and 14 octets, then 21, then 14 for the line that the end of the input ends.
    (BLOCKS, false, 100, (Ok(()), 70, 56)),
    (NO_HEX, false, 100, (HEX, 42, 14)),
    // A flush that fails, before the first block or between two, is the fault `Write` and ends the run.
    (BLOCKS, false, 0, (WRITE, 0, 0)),
    (BLOCKS, false, 1, (WRITE, 35, 0)),
    (BLOCKS, false, 2, (WRITE, 35, 35)),
    (BLOCKS, false, 3, (WRITE, 56, 35)),
    (BLOCKS, false, 4, (WRITE, 56, 56)),
    // In a replay the start stands flushed, too.
    (EVENTS, true, 0, (WRITE, 39, 0)),
    (EVENTS, true, 1, (WRITE, 81, 39)),
    (EVENTS, true, 2, (WRITE, 81, 81)),
    (EVENTS, true, 3, (WRITE, 169, 81)),
    (EVENTS, true, 4, (WRITE, 169, 169)),
    (EVENTS, true, 5, (Ok(()), 200, 169)),
];

/// Each read finds the answers to all lines that came before it flushed, and what follows the last read is left.
#[test]
fn answers_stand_flushed(rt: HostRuntime) {
    for (blocks, is_replay, flushes, wanted) in &FLUSHES {
        let seen = Seen::none();
        let reader = Blocks {
            blocks,
            given: 0,
            seen: &seen,
        };
        let writer = Noting {
            flushes: *flushes,
            seen: &seen,
        };
        let (ended, _, _) = ran(rt.alloc(), *is_replay, reader, writer);
        let found = (ended, seen.written.get(), seen.flushed.get());
        assert_eq!(rt; found, *wanted, "{flushes} flushes of {blocks:?}");
    }
}
