//! Checks in JSON, over memory.

use super::same;
use rtcp_json::check_json;
use rtcp_text::{Counted, LineFault, TextFault};
use std::alloc::Global;
use std::process::Abort;

/// A check of at most two lines ends so, and writes this.
fn answers_with(
    rt: &impl Abort,
    alloc: Global,
    lines: &str,
    outcome: Result<(), TextFault>,
    text: &str,
) {
    let mut reader = Counted::new(lines.as_bytes());
    let mut writer = Counted::new(Vec::new(alloc));
    let found = check_json(alloc, 2, &mut reader, &mut writer);
    assert_eq!(rt; found, outcome, "{lines}");
    same(rt, &writer.into_inner(), text.as_bytes(), lines);
}

/// Digits of either case, and a refused datagram.
#[test]
fn lines(rt: HostRuntime) {
    answers_with(
        &rt,
        rt.alloc(),
        "80C9000100000007\n\n",
        Ok(()),
        "{\"packets\":[{\"type\":\"RR\",\"ssrc\":\"00000007\",\"blocks\":[],\"extension\":\"\"}]}\n\
        {\"refused\":\"F1 Short\",\"at\":0}\n",
    );
}

/// A line that is no hex, and one too many, end the check as they end any.
#[test]
fn faulty(rt: HostRuntime) {
    let fault = |line, fault| Err(TextFault::Text { line, fault });
    answers_with(
        &rt,
        rt.alloc(),
        "80c9000100000007\nx\n",
        fault(2, LineFault::Hex),
        "{\"packets\":[{\"type\":\"RR\",\"ssrc\":\"00000007\",\"blocks\":[],\"extension\":\"\"}]}\n",
    );
    answers_with(
        &rt,
        rt.alloc(),
        "\n\n\n",
        fault(3, LineFault::TooManyLines),
        "{\"refused\":\"F1 Short\",\"at\":0}\n{\"refused\":\"F1 Short\",\"at\":0}\n",
    );
}
