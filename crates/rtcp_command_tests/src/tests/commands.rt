//! Command lines, fault lines and statuses.

use super::failing::{FailingReader, Full};
use super::{refused, same};
use rtcp_command::arguments::{order, refuse, tell, unreadable};
use rtcp_command::command::command;
use rtcp_command::{Order, OrderFault, TextOrder};
use std::alloc::{AllocError, Global};
use std::io;
use std::io::{ErrorKind, Read, Write};
use std::process::Abort;
use std::test::Fail;

/// Takes all, and fails when it is flushed.
#[derive(Drop)]
struct NeverFlushed;

impl Write for NeverFlushed {
    fn write(&mut self, buf: &[u8]) -> io::Result<usize> {
        Ok(buf.len())
    }

    fn flush(&mut self) -> io::Result<()> {
        Err(io::Error::from(ErrorKind::Other))
    }
}

/// A check of this reader to this writer ends with this status and this fault line.
fn ends_with<R: Read + Drop, W: Write + Drop>(
    rt: &impl Abort,
    alloc: Global,
    reader: R,
    writer: W,
    status: u8,
    fault: &str,
) {
    let mut faults = Vec::new(alloc);
    let check = TextOrder::Check { lines: 65_536 };
    let ended = command(alloc, check, reader, writer, &mut faults);
    assert_eq!(rt; ended, status, "{fault}");
    same(rt, &faults, fault.as_bytes(), fault);
}

#[test]
fn ends(rt: HostRuntime) {
    let alloc = rt.alloc();
    let well = b"80c9000100000007\n".as_slice();
    ends_with(&rt, alloc, well, Vec::new(alloc), 0, "");
    let faulty = b"\n80\n0".as_slice();
    ends_with(&rt, alloc, faulty, Vec::new(alloc), 2, "line 3: X4 Hex\n");
    let broken = FailingReader {
        rest: b"",
        calls: 0,
    };
    ends_with(&rt, alloc, broken, Vec::new(alloc), 1, "read\n");
    ends_with(&rt, alloc, b"\n".as_slice(), Full, 1, "write\n");
    ends_with(&rt, alloc, b"\n".as_slice(), NeverFlushed, 1, "write\n");
}

/// Refused texts: the lines, the fault line, and the answers that are written.
static REFUSED: [(&str, &str, &str); 4] = [
    (
        "80c9000100000007\n\n80c9000100000007\r\n\n",
        "line 3: X4 Hex\n",
        "ok RR(00000007,[],0)\nF1 Short at 0\n",
    ),
    ("\r\n", "line 1: X4 Hex\n", ""),
    ("80c9000100000007\r", "line 1: X4 Hex\n", ""),
    (
        "80c9000100000007\nq",
        "line 2: X4 Hex\n",
        "ok RR(00000007,[],0)\n",
    ),
];

#[test]
fn refused_texts(rt: HostRuntime) {
    for (lines, fault, answers) in &REFUSED {
        let mut written = Vec::new(rt.alloc());
        ends_with(&rt, rt.alloc(), lines.as_bytes(), &mut written, 2, fault);
        same(&rt, &written, answers.as_bytes(), lines);
    }
}

#[test]
fn limits(rt: HostRuntime) -> Result<(), Fail> {
    let alloc = rt.alloc();
    let zeros = vec![in alloc; b'0'; 131_201]?;
    let fault = "line 1: X1 LineTooLong\n";
    ends_with(&rt, alloc, zeros.as_slice(), Vec::new(alloc), 2, fault);
    let feeds = vec![in alloc; b'\n'; 65_537]?;
    let fault = "line 65537: X2 TooManyLines\n";
    ends_with(&rt, alloc, feeds.as_slice(), Vec::new(alloc), 2, fault);
    Ok(())
}

/// The last line that may be answered, and one more.
#[test]
fn as_many_lines(rt: HostRuntime) -> Result<(), Fail> {
    let alloc = rt.alloc();
    for (lines, text, status, fault) in [
        (2, "\n\n", 0, ""),
        (2, "\n\n\n", 2, "line 3: X2 TooManyLines\n"),
        (1, "\n0", 2, "line 2: X2 TooManyLines\n"),
    ] {
        let (mut written, mut faults) = (Vec::new(alloc), Vec::new(alloc));
        let check = TextOrder::Check { lines };
        let ended = command(alloc, check, text.as_bytes(), &mut written, &mut faults);
        assert_eq!(rt; ended, status, "{text:?}");
        same(&rt, &faults, fault.as_bytes(), text);
    }
    let feeds = vec![in alloc; b'\n'; 65_537]?;
    let mut faults = Vec::new(alloc);
    let check = TextOrder::Check { lines: 65_537 };
    let ended = command(alloc, check, feeds.as_slice(), Vec::new(alloc), &mut faults);
    assert_eq!(rt; ended, 0);
    Ok(())
}

/// A fault line that cannot be written does not change the status.
#[test]
fn unwritten_fault(rt: HostRuntime) {
    let alloc = rt.alloc();
    let mut faults = Full;
    let reader = b"0".as_slice();
    let status = command(
        alloc,
        TextOrder::Check { lines: 65_536 },
        reader,
        Vec::new(alloc),
        &mut faults,
    );
    assert_eq!(rt; status, 2);
    assert_eq!(rt; refuse(&OrderFault::Memory, &mut faults), 1);
}

/// Command lines that are refused, and how what they print begins.
static COMMAND_LINES: [(&[&str], &str); 7] = [
    (&["rtcp"], "error: 'rtcp' requires a subcommand"),
    (
        &["rtcp", "replay"],
        "error: the following required arguments were not provided:\n  --ssrc <HEX>\n  --cname <TEXT>\n",
    ),
    (
        &["rtcp", "check", "--fast"],
        "error: unexpected argument '--fast' found",
    ),
    (
        &["rtcp", "check", "file"],
        "error: unexpected argument 'file' found",
    ),
    (
        &["rtcp", "--help"],
        "The control half of an RTP participant",
    ),
    (&["rtcp", "check", "--help"], "Show what RTCP datagrams are"),
    (
        &["rtcp", "replay", "--help"],
        "Show what a participant answers to the events of a session.\n",
    ),
];

/// Plain words, where they are asked for. A datagram that is refused, and a line that is no hex, end as with `check`.
#[test]
fn plain(rt: HostRuntime) -> Result<(), Fail> {
    let alloc = rt.alloc();
    let asked = order(alloc, &["rtcp", "check", "--lines", "3", "--plain"]);
    assert!(rt; matches!(asked, Ok(Order::Text(TextOrder::CheckPlain { lines: 3 }))));
    let (status, line) = refused(alloc, &["rtcp", "check", "--plain", "--lines", "0"])?;
    assert_eq!(rt; status, 2);
    same(&rt, &line, b"option lines\n", "no line");
    let mut faults = Vec::new(alloc);
    let mut written = [0; 40];
    let text = "80c9000100000007\n\nx\n";
    let check = TextOrder::CheckPlain { lines: 3 };
    let ended = command(
        alloc,
        check,
        text.as_bytes(),
        written.as_mut_slice(),
        &mut faults,
    );
    assert_eq!(rt; ended, 2);
    let want = b"ok RR ssrc=00000007\nF1 Short at 0\n";
    same(&rt, written.split_at(want.len()).0, want, "plain");
    same(&rt, &faults, b"line 3: X4 Hex\n", "a line that is no hex");
    Ok(())
}

/// Rows of report blocks, where they are asked for, but not beside another form.
#[test]
fn blocks(rt: HostRuntime) -> Result<(), Fail> {
    let alloc = rt.alloc();
    let asked = order(alloc, &["rtcp", "check", "--blocks", "--lines", "2"]);
    assert!(rt; matches!(asked, Ok(Order::Text(TextOrder::CheckBlocks { lines: 2 }))));
    for other in ["--plain", "--json"] {
        let (status, _) = refused(alloc, &["rtcp", "check", "--blocks", other])?;
        assert_eq!(rt; status, 2, "{other}");
    }
    let mut faults = Vec::new(alloc);
    let mut written = [0; 120];
    let text = "81c9000700000007000000080000000000000000000000000000000000000000\n\n";
    let check = TextOrder::CheckBlocks { lines: 2 };
    let ended = command(
        alloc,
        check,
        text.as_bytes(),
        written.as_mut_slice(),
        &mut faults,
    );
    assert_eq!(rt; ended, 0);
    let want =
        b"by=00000007 about=00000008 loss=0.0% lost=0 highest=0 jitter=0units lsr=none dlsr=0.000000s\n\
        F1 Short at 0\n";
    same(&rt, written.split_at(want.len()).0, want, "blocks");
    Ok(())
}

/// The version goes to standard output, unless that is full.
#[test]
fn version(rt: HostRuntime) -> Result<(), Fail> {
    let alloc = rt.alloc();
    let line = match order(alloc, &["rtcp", "--version"]) {
        Ok(Order::Version(line)) => line,
        _other => return Err("no version")?,
    };
    assert_eq!(rt; line.as_str(), "rtcp 0.7.0\n");
    let (mut written, mut faults) = (Vec::new(alloc), Vec::new(alloc));
    assert_eq!(rt; tell(&line, &mut written, &mut faults), 0);
    same(&rt, &written, b"rtcp 0.7.0\n", "the version");
    same(&rt, &faults, b"", "no fault");
    assert_eq!(rt; tell(&line, &mut [0; 3].as_mut_slice(), &mut faults), 1);
    same(&rt, &faults, b"write\n", "no room");
    Ok(())
}

#[test]
fn orders(rt: HostRuntime) -> Result<(), Fail> {
    let alloc = rt.alloc();
    let asked = order(alloc, &["rtcp", "check"]);
    assert!(rt; matches!(asked, Ok(Order::Text(TextOrder::Check { lines: 65_536 }))));
    let asked = order(alloc, &["rtcp", "check", "--lines", "1"]);
    assert!(rt; matches!(asked, Ok(Order::Text(TextOrder::Check { lines: 1 }))));
    let (status, line) = refused(alloc, &["rtcp", "check", "--lines", "0"])?;
    assert_eq!(rt; status, 2);
    same(&rt, &line, b"option lines\n", "no line");
    for (words, beginning) in &COMMAND_LINES {
        let (status, text) = refused(alloc, words)?;
        assert_eq!(rt; status, 2, "{beginning}");
        assert!(rt; text.starts_with(beginning.as_bytes()), "{beginning}");
    }
    Ok(())
}

/// Arguments that are not UTF-8 are refused as wrong ones are, and want of memory is told apart from them.
#[test]
fn unreadable_arguments(rt: HostRuntime) {
    let mut faults = Vec::new(rt.alloc());
    let fault = unreadable(rt.alloc(), ErrorKind::InvalidData);
    assert_eq!(rt; refuse(&fault, &mut faults), 2);
    let beginning = b"error: invalid UTF-8 was detected in one or more arguments\n";
    assert!(rt; faults.starts_with(beginning));
    let fault = unreadable(rt.alloc(), ErrorKind::OutOfMemory);
    assert!(rt; matches!(fault, OrderFault::Memory));
}

#[test]
fn no_memory_for_an_order(rt: HostRuntime) -> Result<(), AllocError> {
    let mut faults = Vec::new(rt.alloc());
    assert_eq!(rt; refuse(&OrderFault::Memory, &mut faults), 1);
    assert_eq!(rt; faults.as_slice(), b"memory\n".as_slice());
    Ok(())
}
