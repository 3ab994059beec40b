//! Lines of JSON, where they are asked for.

use super::{refused, same, text_order};
use rtcp_command::TextOrder;
use rtcp_command::command::command;
use std::alloc::Global;
use std::process::Abort;
use std::test::Fail;

/// An order over a text writes this, and ends with this fault line, or well where it is empty.
fn writes(rt: &impl Abort, alloc: Global, order: TextOrder, text: &str, want: &str, fault: &str) {
    let (mut written, mut faults) = (Vec::new(alloc), Vec::new(alloc));
    let status = if fault.is_empty() { 0 } else { 2 };
    let ended = command(alloc, order, text.as_bytes(), &mut written, &mut faults);
    assert_eq!(rt; ended, status, "{text}");
    same(rt, &written, want.as_bytes(), text);
    same(rt, &faults, fault.as_bytes(), text);
}

/// A datagram that is refused, and a line that is no hex, end as with `check`.
#[test]
fn checks(rt: HostRuntime) -> Result<(), Fail> {
    let asked = text_order(rt.alloc(), &["rtcp", "check", "--lines", "3", "--json"])?;
    assert!(rt; matches!(asked, TextOrder::CheckJson { lines: 3 }));
    let want =
        "{\"packets\":[{\"type\":\"RR\",\"ssrc\":\"00000007\",\"blocks\":[],\"extension\":\"\"}]}\n\
                {\"refused\":\"F1 Short\",\"at\":0}\n";
    let text = "80c9000100000007\n\nx\n";
    writes(&rt, rt.alloc(), asked, text, want, "line 3: X4 Hex\n");
    Ok(())
}

/// One form of a text excludes the other.
#[test]
fn plain_or_json(rt: HostRuntime) -> Result<(), Fail> {
    let (status, text) = refused(rt.alloc(), &["rtcp", "check", "--json", "--plain"])?;
    assert_eq!(rt; status, 2);
    let beginning = b"error: the argument '--json' cannot be used with '--plain'\n";
    assert!(rt; text.starts_with(beginning));
    let (status, line) = refused(rt.alloc(), &["rtcp", "check", "--json", "--lines", "0"])?;
    assert_eq!(rt; status, 2);
    same(&rt, &line, b"option lines\n", "no line");
    Ok(())
}

/// The words of a replay in JSON, with other options after them.
const REPLAY: [&str; 7] = [
    "rtcp", "replay", "--ssrc", "000000aa", "--cname", "a", "--json",
];

/// What comes first: the interval of the start is 2.5 seconds, drawn as 0.5 of it, over 1.21828 (RFC 3550, 6.3.1).
const START: &str = "{\"start\":{\"members\":1,\"senders\":0,\"next\":1026037}}\n";

#[test]
fn replays(rt: HostRuntime) -> Result<(), Fail> {
    let asked = text_order(rt.alloc(), &REPLAY)?;
    assert!(rt;
        matches!(
            asked,
            TextOrder::ReplayJson {
                word: 0,
                lines: 65_536,
                ..
            }
        )
    );
    let want = format!(in rt.alloc();
        "{START}{{\"members\":2,\"senders\":0,\"next\":1026037,\"out\":null,\"ssrc\":null}}\n\
         {{\"refused\":\"E5 Wire\",\"fault\":\"F1 Short\",\"at\":0}}\n"
    )?;
    let text = "rtcp 0 1 00000000 80c900010000000781ca00020000000701016100\nrtcp 0 1 00000000 -\n";
    writes(&rt, rt.alloc(), asked, text, &want, "");
    Ok(())
}

/// With a guard of one source an origin, a second source is one too many.
#[test]
fn guarded_replays(rt: HostRuntime) -> Result<(), Fail> {
    let mut words = Vec::new(rt.alloc());
    words.extend_from_slice(&REPLAY)?;
    words.extend_from_slice(&["--guard", "1", "--lines", "2"])?;
    let asked = text_order(rt.alloc(), &words)?;
    assert!(rt;
        matches!(
            asked,
            TextOrder::ReplayGuardedJson {
                word: 0,
                lines: 2,
                ..
            }
        )
    );
    let want = format!(in rt.alloc();
        "{START}{{\"members\":2,\"senders\":0,\"next\":1026037,\"out\":null,\"ssrc\":null}}\n\
         {{\"refused\":\"H2 Crowd\"}}\n"
    )?;
    let text = "rtcp 0 1 00000000 80c900010000000781ca00020000000701016100\n\
                rtcp 0 1 00000000 80c900010000000881ca00020000000801016100\nx\n";
    writes(
        &rt,
        rt.alloc(),
        asked,
        text,
        &want,
        "line 3: X2 TooManyLines\n",
    );
    Ok(())
}
