//! Sessions that a participant leaves.

use super::sessions::{ended, ends_well, plain};
use std::alloc::{AllocError, Global};
use std::process::Abort;
use std::test::Fail;

/// The participant answers these lines so, and the session ends well.
fn answers_with(rt: &impl Abort, alloc: Global, lines: &str, text: &str) {
    let ended = ended(alloc, plain(), lines.as_bytes(), 1_000);
    ends_well(rt, ended, text);
}

/// Lines and their answers.
static TEXTS: [(&str, &str); 4] = [
    // One that sent nothing leaves silently. Then each call is refused, for no other reason.
    (
        "leave 0 00000000\n\
        rtcp 0 1 00000000 80c900010000000781ca00020000000701016100\n\
        rtcp 0 1 00000000 -\n\
        rtp 0 1 00000000 800000010000000000000007\n\
        sent 0 0 0\n\
        tick 0 00000000 00000000\n\
        leave 0 00000000\n",
        "start members=1 senders=0 next=1026037\n\
        ok members=0 senders=0 next=- out=-\n\
        refused E1 Left\nrefused E1 Left\nrefused E1 Left\n\
        refused E1 Left\nrefused E1 Left\nrefused E1 Left\n",
    ),
    // A tick that sends nothing does not change that. Moments that go back, or too far, and faults.
    (
        "tick 5 00000000 00000000\n\
        leave 7 ffffffff\n\
        tick 6 00000000 00000000\n\
        leave 6 00000000\n\
        sent 18446744073709551615 0 0\n\
        rtcp 0 1 00000000 80c90001000000aa\n\
        rtcp 6 1 00000000 80\n\
        rtp 6 1 00000000 -\n",
        "start members=1 senders=0 next=1026037\n\
        ok members=1 senders=0 next=1026037 out=-\n\
        ok members=0 senders=0 next=- out=-\n\
        refused E1 Left\nrefused E1 Left\nrefused E1 Left\n\
        refused E1 Left\nrefused E1 Left\nrefused E1 Left\n",
    ),
    // One that sent a report sends a BYE,
    (
        "tick 1026037 00000000 00000000\n\
        leave 10000000 00000000\n",
        "start members=1 senders=0 next=1026037\n\
        ok members=1 senders=0 next=3078111 out=report:80c90001000000aa81ca0002000000aa01016100\n\
        ok members=0 senders=0 next=- \
        out=bye:80c90001000000aa81ca0002000000aa0101610081cb0001000000aa\n",
    ),
    // and so does one that sent an RTP packet. A leave that is refused is none.
    (
        "sent 5 0 0\n\
        leave 4 00000000\n\
        leave 5 00000000\n",
        "start members=1 senders=0 next=1026037\n\
        ok members=1 senders=1 next=1026037 out=-\n\
        refused E2 Backwards\n\
        ok members=0 senders=0 next=- \
        out=bye:80c90001000000aa81ca0002000000aa0101610081cb0001000000aa\n",
    ),
];

#[test]
fn texts(rt: HostRuntime) {
    for (lines, text) in &TEXTS {
        answers_with(&rt, rt.alloc(), lines, text);
    }
}

/// A line for a compound at 9,999,999: an empty report of source 1, and a source description with this header
/// and a CNAME for each source from `first` to before `end`.
fn push_named(
    text: &mut String,
    alloc: Global,
    header: &str,
    first: u8,
    end: u8,
) -> Result<(), AllocError> {
    text.push_str("rtcp 9999999 1 00000000 80c9000100000001")?;
    text.push_str(header)?;
    for ssrc in first..end {
        text.push_str(&format!(in alloc; "{ssrc:08x}01016100")?)?;
    }
    text.push_str("\n")
}

/// The lines of a session in which the participant sent a report and then heard of the sources from 1 to
/// before `end`, those from 32 on in a source description with this header; and then these lines.
fn crowded(alloc: Global, header: &str, end: u8, lines: &str) -> Result<String, AllocError> {
    let mut text = String::from_str(alloc, "tick 1026037 00000000 00000000\n")?;
    push_named(&mut text, alloc, "9fca003e", 1, 32)?;
    push_named(&mut text, alloc, header, 32, end)?;
    text.push_str(lines)?;
    Ok(text)
}

/// The header of the second source description and the source after its last one, then lines, and the answers.
static CROWDED: [(&str, u8, &str, &str); 3] = [
    // With 50 members the BYE goes out at once.
    (
        "92ca0024",
        50,
        "leave 10000000 00000000\n",
        "start members=1 senders=0 next=1026037\n\
        ok members=1 senders=0 next=3078111 out=report:80c90001000000aa81ca0002000000aa01016100\n\
        ok members=32 senders=0 next=3078111 out=-\n\
        ok members=50 senders=0 next=3078111 out=-\n\
        ok members=0 senders=0 next=- \
        out=bye:80c90001000000aa81ca0002000000aa0101610081cb0001000000aa\n",
    ),
    // With 51 a tick sends it, at its moment.
    (
        "93ca0026",
        51,
        "leave 10000000 00000000\n\
        tick 11026036 00000000 00000000\n\
        tick 11026037 00000000 00000000\n\
        tick 11026037 00000000 00000000\n",
        "start members=1 senders=0 next=1026037\n\
        ok members=1 senders=0 next=3078111 out=report:80c90001000000aa81ca0002000000aa01016100\n\
        ok members=32 senders=0 next=3078111 out=-\n\
        ok members=51 senders=0 next=3078111 out=-\n\
        ok members=1 senders=0 next=11026037 out=-\n\
        ok members=1 senders=0 next=11026037 out=-\n\
        ok members=0 senders=0 next=- \
        out=bye:80c90001000000aa81ca0002000000aa0101610081cb0001000000aa\n\
        refused E1 Left\n",
    ),
    // Until then BYE packets count, and nothing else: no RTP packet of its own or of others, no other source,
    // no second leave. What is refused otherwise is refused so too. A collision gives the old SSRC up, and the
    // BYE of leaving is that of the new one.
    (
        "93ca0026",
        51,
        "leave 10000000 00000000\n\
        rtcp 10000000 1 00000000 80c900010000000181cb000100000001\n\
        sent 10000000 0 0\n\
        rtp 10000000 1 00000000 800000010000000000000007\n\
        rtcp 10000000 1 00000000 80c900010000000781ca00020000000701016100\n\
        leave 10000000 ffffffff\n\
        leave 9999999 00000000\n\
        rtcp 10000000 1 00000000 80c90001000000aa\n\
        tick 11026037 00000000 00000000\n",
        "start members=1 senders=0 next=1026037\n\
        ok members=1 senders=0 next=3078111 out=report:80c90001000000aa81ca0002000000aa01016100\n\
        ok members=32 senders=0 next=3078111 out=-\n\
        ok members=51 senders=0 next=3078111 out=-\n\
        ok members=1 senders=0 next=11026037 out=-\n\
        ok members=2 senders=0 next=11026037 out=-\n\
        ok members=2 senders=0 next=11026037 out=-\n\
        ok members=2 senders=0 next=11026037 out=-\n\
        ok members=2 senders=0 next=11026037 out=-\n\
        ok members=2 senders=0 next=11026037 out=-\n\
        refused E2 Backwards\n\
        ok members=2 senders=0 next=11026037 \
        out=bye:80c90001000000aa81ca0002000000aa0101610081cb0001000000aa ssrc=00000000\n\
        ok members=0 senders=0 next=- \
        out=bye:80c900010000000081ca0002000000000101610081cb000100000000\n",
    ),
];

#[test]
fn crowds(rt: HostRuntime) -> Result<(), Fail> {
    for &(header, end, lines, text) in &CROWDED {
        let session = crowded(rt.alloc(), header, end, lines)?;
        answers_with(&rt, rt.alloc(), &session, text);
    }
    Ok(())
}

/// Compounds of 65,532 octets with 16,381 BYE packets of nobody: as many as 16 bits go are counted.
#[test]
fn most_byes(rt: HostRuntime) -> Result<(), Fail> {
    let alloc = rt.alloc();
    let byes = "80cb0000".repeat(alloc, 16_381)?;
    let line = format!(in alloc; "rtcp 10000000 1 00000000 80c9000100000001{byes}\n")?;
    let lines = format!(in alloc; "leave 10000000 00000000\n{line}{line}{line}{line}{line}")?;
    let text = "start members=1 senders=0 next=1026037\n\
        ok members=1 senders=0 next=3078111 out=report:80c90001000000aa81ca0002000000aa01016100\n\
        ok members=32 senders=0 next=3078111 out=-\n\
        ok members=51 senders=0 next=3078111 out=-\n\
        ok members=1 senders=0 next=11026037 out=-\n\
        ok members=16382 senders=0 next=11026037 out=-\n\
        ok members=32763 senders=0 next=11026037 out=-\n\
        ok members=49144 senders=0 next=11026037 out=-\n\
        ok members=65525 senders=0 next=11026037 out=-\n\
        ok members=65535 senders=0 next=11026037 out=-\n";
    let session = crowded(alloc, "93ca0026", 51, &lines)?;
    answers_with(&rt, alloc, &session, text);
    Ok(())
}
