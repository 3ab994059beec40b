//! What is shown of a session.

use arrayvec::ArrayVec;
use rtcp_engine::{Config, Out, OutKind, Step};
use rtcp_guarded::GuardedAnswer;
use std::process::Abort;

mod changes;
mod example;
mod header;
mod lines;
mod rows;
mod silence;
mod watching;

/// Asserts that octets are as they should be. A function that compares slices more than once takes several times
/// as long to prove as one that calls this.
pub(crate) fn same(rt: &impl Abort, found: &[u8], want: &[u8], case: &str) {
    assert_eq!(rt; found, want, "{case}");
}

/// The number of the peer 127.0.0.1:5007.
pub(crate) const PEER: u64 = 0x7f00_0001 * 65_536 + 5_007;

/// The named compound of a source below 256, whose CNAME is `a`.
pub(crate) fn named(ssrc: u8) -> [u8; 20] {
    [
        0x80, 0xc9, 0x00, 0x01, 0x00, 0x00, 0x00, ssrc, 0x81, 0xca, 0x00, 0x02, 0x00, 0x00, 0x00,
        ssrc, 0x01, 0x01, 0x61, 0x00,
    ]
}

/// The configuration of `--ssrc 000000aa --cname a`.
pub(crate) fn config() -> Config {
    let mut cname = ArrayVec::new();
    let _ = cname.try_push(b'a');
    Config {
        ssrc: 0xaa,
        cname,
        extras: ArrayVec::new(),
        capacity: 1_024,
        limit: 1_472,
        sender_bw: 100,
        receiver_bw: 300,
        rate: 8_000,
        clocks: ArrayVec::new(),
        ntp_base: 0,
    }
}

/// An answer that hands out this compound, if there is one, and has changed the SSRC to this one, if it has.
pub(crate) fn taken(compound: Option<&[u8]>, changed: Option<u32>) -> GuardedAnswer {
    let out = match compound {
        Some(octets) => {
            let mut bytes = ArrayVec::new();
            let _ = bytes.try_extend_from_slice(octets);
            Some(Out {
                kind: OutKind::Report,
                bytes,
            })
        }
        None => None,
    };
    Ok(Step {
        members: 2,
        senders: 0,
        entries: 1,
        next: None,
        changed,
        others_changed: false,
        out,
    })
}
