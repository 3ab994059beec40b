//! Sessions of a participant, from its configuration to what is written.

use super::ends::Pieces;
use super::same;
use arrayvec::ArrayVec;
use rtcp_engine::Config;
use rtcp_text::replay::replay;
use rtcp_text::{Counted, ReplayFault};
use std::alloc::Global;
use std::process::Abort;

/// How a replay ends over these lines, and what it writes, with a reader that gives all of them at once and fails at
/// the call after `calls` others.
pub(super) fn ended(
    alloc: Global,
    config: Config,
    rest: &[u8],
    calls: u32,
) -> (Result<(), ReplayFault>, Vec<u8>) {
    let mut reader = Counted::new(Pieces {
        rest,
        piece: rest.len(),
        calls,
    });
    let mut writer = Counted::new(Vec::new(alloc));
    let outcome = replay(alloc, &mut reader, &mut writer, config, 0);
    (outcome, writer.into_inner())
}

/// It answered every line, with this text.
pub(super) fn ends_well(rt: &impl Abort, ended: (Result<(), ReplayFault>, Vec<u8>), text: &str) {
    let (outcome, written) = ended;
    assert_eq!(rt; outcome, Ok(()));
    same(rt, &written, text.as_bytes(), "the text");
}

/// A participant with the least options: `--ssrc 000000aa --cname a`.
pub(super) fn plain() -> Config {
    let mut cname = ArrayVec::new();
    cname.push(b'a');
    Config {
        ssrc: 0xaa,
        cname,
        extras: ArrayVec::new(),
        capacity: 1024,
        limit: 1472,
        sender_bw: 100,
        receiver_bw: 300,
        rate: 8000,
        clocks: ArrayVec::new(),
        ntp_base: 0,
    }
}
