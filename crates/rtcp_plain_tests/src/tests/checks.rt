//! Checks in plain words, over memory.

use super::same;
use rtcp_plain::{check_blocks, check_plain};
use rtcp_text::{Counted, LineFault, TextFault};
use std::alloc::{AllocError, Global};
use std::process::Abort;

/// A check of at most two lines ends so, and writes this.
fn answers_with(
    rt: &impl Abort,
    alloc: Global,
    lines: &str,
    outcome: Result<(), TextFault>,
    text: &str,
) {
    let mut reader = Counted::new(lines.as_bytes());
    let mut writer = Counted::new(Vec::new(alloc));
    let found = check_plain(alloc, 2, &mut reader, &mut writer);
    assert_eq!(rt; found, outcome, "{lines}");
    same(rt, &writer.into_inner(), text.as_bytes(), lines);
}

/// Refused datagrams have the line of `rtcp check`.
#[test]
fn lines(rt: HostRuntime) {
    answers_with(
        &rt,
        rt.alloc(),
        "80C9000100000007\n\n",
        Ok(()),
        "ok RR ssrc=00000007\nF1 Short at 0\n",
    );
}

/// A line that is no hex, and one too many, end the check as they end any.
#[test]
fn faulty(rt: HostRuntime) {
    let fault = |line, fault| Err(TextFault::Text { line, fault });
    answers_with(
        &rt,
        rt.alloc(),
        "80c9000100000007\nx\n",
        fault(2, LineFault::Hex),
        "ok RR ssrc=00000007\n",
    );
    answers_with(
        &rt,
        rt.alloc(),
        "\n\n\n",
        fault(3, LineFault::TooManyLines),
        "F1 Short at 0\nF1 Short at 0\n",
    );
}

/// A row for each block of each report: none of the other packets and of the datagrams without a block.
#[test]
fn blocks(rt: HostRuntime) -> Result<(), AllocError> {
    // An SR of 0000000b about 000000aa and 000000ab: 85/256 lost, 1 in all, then nothing. An RR without blocks. A BYE.
    let reported = "82c800120000000b0000000000000000000000000000000000000000\
                    000000aa5500000100000004000000010002000000008000\
                    000000ab00ffffff00010005000000000000000000000000\
                    81cb00010000000b";
    let lines = [reported, "\n80c9000100000007\n"].concat(rt.alloc())?;
    let mut reader = Counted::new(lines.as_bytes());
    let mut writer = Counted::new(Vec::new(rt.alloc()));
    let found = check_blocks(rt.alloc(), 2, &mut reader, &mut writer);
    assert_eq!(rt; found, Ok(()));
    let want =
        b"by=0000000b about=000000aa loss=33.2% lost=1 highest=4 jitter=1units lsr=2.000000s dlsr=0.500000s\n\
                 by=0000000b about=000000ab loss=0.0% lost=-1 highest=65541 jitter=0units lsr=none dlsr=0.000000s\n";
    same(&rt, &writer.into_inner(), want, "two blocks");
    Ok(())
}
