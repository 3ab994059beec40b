//! Readers and writers that fail, or that give and take little at a time.

use super::same;
use super::sessions::plain;
use rtcp_text::replay::replay;
use rtcp_text::{Counted, ReplayFault, TextFault, check};
use std::alloc::Global;
use std::io;
use std::io::{ErrorKind, Read, Write};
use std::process::Abort;

/// Gives at most `piece` octets a call, and fails at the call after `calls` others.
#[derive(Drop)]
pub(super) struct Pieces<'a> {
    pub(super) rest: &'a [u8],
    pub(super) piece: usize,
    pub(super) calls: u32,
}

impl Read for Pieces<'_> {
    fn read(&mut self, buf: &mut [u8]) -> io::Result<usize> {
        if self.calls == 0 {
            return Err(io::Error::from(ErrorKind::Interrupted));
        }
        self.calls -= 1;
        let size = self.piece.min(self.rest.len()).min(buf.len());
        let (mut prefix, rest) = self.rest.split_at(size);
        self.rest = rest;
        prefix.read(buf)
    }
}

/// Takes at most `piece` octets a call, and at the call after `calls` others fails, or takes nothing.
#[derive(Drop)]
pub(super) struct Narrow {
    pub(super) taken: Vec<u8>,
    pub(super) piece: usize,
    pub(super) calls: u32,
    pub(super) fails: bool,
}

impl Write for Narrow {
    fn write(&mut self, buf: &[u8]) -> io::Result<usize> {
        if self.calls == 0 && self.fails {
            return Err(io::Error::from(ErrorKind::Other));
        }
        if self.calls == 0 {
            return Ok(0);
        }
        self.calls -= 1;
        let size = self.piece.min(buf.len());
        self.taken.extend_from_slice(buf.split_at(size).0)?;
        Ok(size)
    }

    fn flush(&mut self) -> io::Result<()> {
        Ok(())
    }
}

/// A run, of `check` or of `replay` by a plain participant, with an octet at each call.
struct Run {
    name: &'static str,
    is_replay: bool,
    /// Its last line lacks its line feed.
    lines: &'static [u8],
    text: &'static [u8],
    /// The calls after which a reader and a writer would fail that are asked for all.
    most: (u32, u32),
    /// How many calls of a reader, and how many of a writer, there are that fail in their turn.
    calls: (u32, u32),
    /// From how many octets of the lines on so many octets are written: the last line is ended by the end alone.
    answered: &'static [(u32, usize)],
    /// How many calls of a writer that takes a whole answer at each are made before one fails, and the octets of the
    /// answers that it holds.
    answers: &'static [(u32, usize)],
}

static RUNS: [Run; 2] = [
    Run {
        name: "check",
        is_replay: false,
        lines: b"80c9000100000007\n\n80c9000100000008",
        text: b"ok RR(00000007,[],0)\nF1 Short at 0\nok RR(00000008,[],0)\n",
        most: (100, 100),
        calls: (35, 56),
        answered: &[(0, 0), (17, 21), (18, 35)],
        answers: &[(0, 0), (1, 21), (2, 35)],
    },
    // The session of docs/FORMATS.md, with the start that is written first.
    Run {
        name: "replay",
        is_replay: true,
        lines: b"rtcp 0 1 00000000 80c900010000000781ca00020000000701016100\n\
            tick 1026037 00000000 00000000\n\
            rtcp 1026037 1 00000000 -",
        text: b"start members=1 senders=0 next=1026037\n\
            ok members=2 senders=0 next=1026037 out=-\n\
            ok members=2 senders=0 next=3078111 out=report:80c90001000000aa81ca0002000000aa01016100\n\
            refused E5 Wire: F1 Short at 0\n",
        most: (116, 200),
        calls: (116, 200),
        answered: &[(0, 39), (59, 81), (90, 169)],
        answers: &[(0, 0), (1, 39), (2, 81), (3, 169)],
    },
];

/// How a run ended, how many calls of the reader and of the writer failed, and the writer.
pub(super) type Ended<W> = (Result<(), ReplayFault>, (u64, u64), W);

/// A write failed.
const WRITE: Result<(), ReplayFault> = Err(ReplayFault::Run(TextFault::Write));

/// What comes of a run.
pub(super) fn ran<R: Read + Drop, W: Write>(
    alloc: Global,
    is_replay: bool,
    reader: R,
    writer: W,
) -> Ended<W> {
    let mut reader = Counted::new(reader);
    let mut writer = Counted::new(writer);
    let outcome = if is_replay {
        replay(alloc, &mut reader, &mut writer, plain(), 0)
    } else {
        match check::check(alloc, &mut reader, &mut writer) {
            Ok(()) => Ok(()),
            Err(fault) => Err(ReplayFault::Run(fault)),
        }
    };
    let failures = (reader.failures(), writer.failures());
    (outcome, failures, writer.into_inner())
}

/// What comes of one whose reader gives an octet a call, and fails at the call after `calls` others.
fn read<W: Write>(alloc: Global, run: &Run, calls: u32, writer: W) -> Ended<W> {
    let reader = Pieces {
        rest: run.lines,
        piece: 1,
        calls,
    };
    ran(alloc, run.is_replay, reader, writer)
}

/// Each run comes to its end an octet at a time, and ends at each call that fails.
#[test]
fn each_call_fails(rt: HostRuntime) {
    for run in &RUNS {
        one_octet_at_a_time(&rt, rt.alloc(), run);
        failed_reads(&rt, rt.alloc(), run);
        failed_writes(&rt, rt.alloc(), run, true);
        failed_writes(&rt, rt.alloc(), run, false);
        failed_answers(&rt, rt.alloc(), run);
    }
}

fn one_octet_at_a_time(rt: &impl Abort, alloc: Global, run: &Run) {
    let (reads, calls) = run.most;
    let writer = Narrow {
        taken: Vec::new(alloc),
        piece: 1,
        calls,
        fails: true,
    };
    let (outcome, failures, writer) = read(alloc, run, reads, writer);
    assert_eq!(rt; (outcome, failures), (Ok(()), (0, 0)), "{}", run.name);
    same(rt, &writer.taken, run.text, run.name);
}

/// At each call of the reader, the end of the input included.
fn failed_reads(rt: &impl Abort, alloc: Global, run: &Run) {
    for calls in 0..run.calls.0 {
        let (outcome, failures, written) = read(alloc, run, calls, Vec::new(alloc));
        let wanted = (Err(ReplayFault::Run(TextFault::Read)), (1, 0));
        assert_eq!(rt; (outcome, failures), wanted, "{}: {calls}", run.name);
        let octets = answered(run, calls);
        assert!(rt;
            run.text.starts_with(&written) && written.len() == octets,
            "{}: {calls}",
            run.name
        );
    }
}

/// How many octets are written where so many of the lines came.
fn answered(run: &Run, calls: u32) -> usize {
    let mut octets = 0;
    for (from, written) in run.answered {
        if *from <= calls {
            octets = *written;
        }
    }
    octets
}

/// At each call of the writer, by an error or by taking nothing.
fn failed_writes(rt: &impl Abort, alloc: Global, run: &Run, fails: bool) {
    for calls in 0..run.calls.1 {
        let writer = Narrow {
            taken: Vec::new(alloc),
            piece: 1,
            calls,
            fails,
        };
        let (outcome, failures, writer) = ran(alloc, run.is_replay, run.lines, writer);
        let wanted = (WRITE, (0, 1));
        assert_eq!(rt;
            (outcome, failures),
            wanted,
            "{}: {calls}, {fails}",
            run.name
        );
        let taken = &writer.taken;
        let is_taken = run.text.starts_with(taken) && taken.len() == calls as usize;
        assert!(rt; is_taken, "{}: {calls}, {fails}", run.name);
    }
}

/// A writer that takes a whole answer at each call holds exactly the answers before the failed one.
fn failed_answers(rt: &impl Abort, alloc: Global, run: &Run) {
    for (calls, octets) in run.answers {
        let writer = Narrow {
            taken: Vec::new(alloc),
            piece: run.text.len(),
            calls: *calls,
            fails: true,
        };
        let (outcome, _, writer) = ran(alloc, run.is_replay, run.lines, writer);
        assert_eq!(rt; outcome, WRITE, "{}: {calls}", run.name);
        let taken = &writer.taken;
        assert!(rt;
            run.text.starts_with(taken) && taken.len() == *octets,
            "{}: {calls}",
            run.name
        );
    }
}

/// A count of reads starts at 0, and a call that fails is passed on.
#[test]
fn counted_reads(rt: HostRuntime) {
    let mut reader = Counted::new(Pieces {
        rest: b"ab",
        piece: 2,
        calls: 1,
    });
    assert_eq!(rt; reader.failures(), 0);
    for (octets, failures) in [(Some(2), 0), (None, 1), (None, 2)] {
        let mut room = [0u8; 4];
        assert_eq!(rt; reader.read(&mut room).ok(), octets, "{failures}");
        assert_eq!(rt; reader.failures(), failures);
    }
}

/// A write that takes nothing of nothing does not count as failed, and nor does a flush.
#[test]
fn counted_writes(rt: HostRuntime) {
    let mut writer = Counted::new(Narrow {
        taken: Vec::new(rt.alloc()),
        piece: 1,
        calls: 1,
        fails: false,
    });
    let rows: [(&[u8], usize, u64); 3] = [(b"ab", 1, 0), (b"", 0, 0), (b"b", 0, 1)];
    for (octets, taken, failures) in rows {
        assert_eq!(rt; writer.write(octets).ok(), Some(taken), "{failures}");
        assert!(rt; writer.flush().is_ok());
        assert_eq!(rt; writer.failures(), failures);
    }
}
