//! Sessions, from the order to the status.

use super::failing::FailingReader;
use super::{same, text_order};
use rtcp_command::command::command;
use std::alloc::Global;
use std::process::Abort;
use std::test::Fail;

/// The status, what is written, and the fault line.
type Ended = (u8, Vec<u8>, Vec<u8>);

/// How a command line ends over these lines, with a reader that gives all of them at once and fails at the
/// call after `calls` others.
fn ended<'a>(
    alloc: Global,
    words: &'a [&'a str],
    rest: &'a [u8],
    calls: u32,
) -> Result<Ended, Fail> {
    let asked = text_order(alloc, words)?;
    let reader = FailingReader { rest, calls };
    let mut written = Vec::new(alloc);
    let mut faults = Vec::new(alloc);
    let status = command(alloc, asked, reader, &mut written, &mut faults);
    Ok((status, written, faults))
}

/// It ends with this status, this text and this fault line.
fn ends_with(rt: &impl Abort, ended: Ended, status: u8, text: &str, fault: &str) {
    let (found, written, faults) = ended;
    assert_eq!(rt; found, status, "{fault}");
    same(rt, &written, text.as_bytes(), fault);
    same(rt, &faults, fault.as_bytes(), text);
}

/// A participant with the least options.
const PLAIN: [&str; 6] = ["rtcp", "replay", "--ssrc", "000000aa", "--cname", "a"];

/// One with a guard: an address may have two sources, for ten seconds.
const GUARDED: [&str; 8] = [
    "rtcp", "replay", "--ssrc", "000000aa", "--cname", "a", "--guard", "2,10",
];

/// The greatest word at the start.
const LATE: [&str; 8] = [
    "rtcp", "replay", "--ssrc", "000000aa", "--cname", "a", "--word", "ffffffff",
];

/// The least bandwidth for the others: Td is 3,000,000 at the start, by 48 octets a compound and 16 octets a second.
const NARROW: [&str; 8] = [
    "rtcp",
    "replay",
    "--ssrc",
    "000000aa",
    "--cname",
    "a",
    "--receiver-bw",
    "16",
];

/// The least bandwidth of a session that gives both shares enough.
const LEAST_SESSION: [&str; 8] = [
    "rtcp",
    "replay",
    "--ssrc",
    "000000aa",
    "--cname",
    "a",
    "--session-bps",
    "10240",
];

/// Sessions, and a line that is no hex: the words, the lines, the status, the text and the fault line.
static TEXTS: [(&[&str], &str, u8, &str, &str); 10] = [
    (
        &PLAIN,
        "tick 1026036 00000000 00000000\ntick 1026037 00000000 00000000\n",
        0,
        "start members=1 senders=0 next=1026037\n\
        ok members=1 senders=0 next=1026037 out=-\n\
        ok members=1 senders=0 next=3078111 out=report:80c90001000000aa81ca0002000000aa01016100\n",
        "",
    ),
    (
        &PLAIN,
        "rtcp 0 1 00000000 80c90001000000aa\nrtcp 0 1 00000000 -\n\
        rtp 0 1 00000000 80480001000000000000000a\ntick 5 zz 00000000\n",
        2,
        "start members=1 senders=0 next=1026037\n\
        ok members=1 senders=0 next=1026037 out=- ssrc=00000000\n\
        refused E5 Wire: F1 Short at 0\nrefused E6 Rtp: G3 PayloadType\n",
        "line 4: X4 Hex\n",
    ),
    // A datagram that names the own SSRC changes it to the random word, or to the next number that is free, once a
    // peer. A line without a peer and a word is none.
    (
        &PLAIN,
        "rtcp 0 7 000000bb 80c90001000000aa\nrtcp 0 7 000000bb 80c90001000000aa\n\
        rtcp 0 7 000000cc 80c90001000000bb\nrtcp 0 8 000000aa 80c90001000000bb\n\
        rtcp 0 80c90001000000aa\n",
        2,
        "start members=1 senders=0 next=1026037\n\
        ok members=1 senders=0 next=1026037 out=- ssrc=000000bb\n\
        ok members=1 senders=0 next=1026037 out=-\n\
        refused E7 OwnSsrc\n\
        ok members=1 senders=0 next=1026037 out=- ssrc=000000ab\n",
        "line 5: X3 Words\n",
    ),
    // After a report the old SSRC is given up with a BYE. The next report comes from the new one,
    (
        &PLAIN,
        "tick 1026037 00000000 00000000\n\
        rtcp 1026037 7 000000bb 80c90001000000aa81ca0002000000aa01016100\n\
        tick 3078111 00000000 00000000\n",
        0,
        "start members=1 senders=0 next=1026037\n\
        ok members=1 senders=0 next=3078111 out=report:80c90001000000aa81ca0002000000aa01016100\n\
        ok members=2 senders=0 next=3078111 \
        out=bye:80c90001000000aa81ca0002000000aa0101610081cb0001000000aa ssrc=000000bb\n\
        ok members=2 senders=0 next=5130185 out=report:80c90001000000bb81ca0002000000bb01016100\n",
        "",
    ),
    // and a leave before it is silent.
    (
        &PLAIN,
        "tick 1026037 00000000 00000000\n\
        rtcp 1026037 7 000000bb 80c90001000000aa81ca0002000000aa01016100\n\
        leave 3078111 00000000\n",
        0,
        "start members=1 senders=0 next=1026037\n\
        ok members=1 senders=0 next=3078111 out=report:80c90001000000aa81ca0002000000aa01016100\n\
        ok members=2 senders=0 next=3078111 \
        out=bye:80c90001000000aa81ca0002000000aa0101610081cb0001000000aa ssrc=000000bb\n\
        ok members=0 senders=0 next=- out=-\n",
        "",
    ),
    // With a guard of two sources an address: 65536 and 70541 are ports of one, 131072 of another. What is held back is
    // no call, so a moment of 2 may come after one of 9.
    (
        &GUARDED,
        "rtp 0 65536 000000bb 800000000000000000000007\n\
        rtp 1 70541 000000bb 800000010000000000000007\n\
        rtp 2 131072 000000bb 800000020000000000000007\n\
        rtcp 9 131072 000000bb 80c900010000000781cb000100000007\n\
        rtcp 2 65536 000000bb 80c900010000000881cb000100000008\n\
        rtcp 2 70541 000000bb 80c900010000000981cb000100000009\n\
        tick 1 00000000 00000000\nrtp x\n",
        2,
        "start members=1 senders=0 next=1026037\n\
        ok members=1 senders=0 next=1026037 out=-\n\
        ok members=2 senders=1 next=1026037 out=-\n\
        refused H1 Stranger\n\
        refused H1 Stranger\n\
        ok members=2 senders=1 next=1026037 out=-\n\
        refused H2 Crowd\n\
        refused E2 Backwards\n",
        "line 8: X3 Words\n",
    ),
    (&LATE, "", 0, "start members=1 senders=0 next=3078111\n", ""),
    (
        &NARROW,
        "",
        0,
        "start members=1 senders=0 next=1231245\n",
        "",
    ),
    (
        &LEAST_SESSION,
        "",
        0,
        "start members=1 senders=0 next=1026037\n",
        "",
    ),
    (
        &["rtcp", "check"],
        "80c9000100000007\r",
        2,
        "",
        "line 1: X4 Hex\n",
    ),
];

#[test]
fn texts(rt: HostRuntime) -> Result<(), Fail> {
    for (words, lines, status, text, fault) in &TEXTS {
        let ended = ended(rt.alloc(), words, lines.as_bytes(), 2)?;
        ends_with(&rt, ended, *status, text, fault);
    }
    Ok(())
}

/// A line that is not too long, with a datagram that is.
#[test]
fn longest_datagram(rt: HostRuntime) -> Result<(), Fail> {
    let zeros = "0".repeat(rt.alloc(), 131_072)?;
    let line = format!(in rt.alloc(); "rtcp 0 1 00000000 {zeros}")?;
    let text = "start members=1 senders=0 next=1026037\nrefused E5 Wire: F10 TooLong at 0\n";
    let ended = ended(rt.alloc(), &PLAIN, line.as_bytes(), 100)?;
    ends_with(&rt, ended, 0, text, "");
    Ok(())
}

/// Configurations that are refused: the CNAME, an option, its value, and the fault line.
static REFUSED: [(&str, &str, &str, &str); 10] = [
    ("", "--capacity", "0", "config C1 Cname\n"),
    ("a", "--capacity", "0", "config C2 Capacity\n"),
    ("a", "--capacity", "1025", "config C2 Capacity\n"),
    ("a", "--limit", "578", "config C3 Limit\n"),
    ("a", "--session-bps", "10239", "config C4 Bandwidth\n"),
    ("a", "--sender-bw", "15", "config C4 Bandwidth\n"),
    ("a", "--sender-bw", "1073741825", "config C4 Bandwidth\n"),
    ("a", "--receiver-bw", "15", "config C4 Bandwidth\n"),
    ("a", "--receiver-bw", "4294967312", "config C4 Bandwidth\n"),
    ("a", "--rate", "0", "config C5 Rate\n"),
];

/// A configuration that is refused: nothing is written, and nothing read.
#[test]
fn refused_configurations(rt: HostRuntime) -> Result<(), Fail> {
    for &(cname, option, value, fault) in &REFUSED {
        let words = [
            "rtcp", "replay", "--ssrc", "000000aa", "--cname", cname, option, value,
        ];
        let ended = ended(rt.alloc(), &words, b"tick 0 00000000 00000000\n", 0)?;
        ends_with(&rt, ended, 2, "", fault);
    }
    Ok(())
}
