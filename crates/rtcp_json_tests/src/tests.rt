//! Lines of JSON.

use arrayvec::ArrayVec;
use rtcp_engine::{Config, Step};
use rtcp_json::push_json;
use rtcp_wire::Compound;
use std::process::Abort;
use std::test::Fail;

mod checks;
mod packets;
mod replays;
mod told;
mod watching;

/// Asserts that octets are as they should be. A function that compares slices more than once takes several times
/// as long to prove as one that calls this.
pub(crate) fn same(rt: &impl Abort, found: &[u8], want: &[u8], case: &str) {
    assert_eq!(rt; found, want, "{case}");
}

/// A participant with the least options: `--ssrc 000000aa --cname a`.
pub(crate) fn plain() -> Config {
    let mut cname = ArrayVec::new();
    cname.push(b'a');
    Config {
        ssrc: 0xaa,
        cname,
        extras: ArrayVec::new(),
        capacity: 1024,
        limit: 1472,
        sender_bw: 100,
        receiver_bw: 300,
        rate: 8000,
        clocks: ArrayVec::new(),
        ntp_base: 0,
    }
}

/// An answer of two members that says nothing else.
pub(crate) fn quiet() -> Step {
    Step {
        members: 2,
        senders: 1,
        entries: 1,
        next: Some(1_026_037),
        changed: None,
        others_changed: false,
        out: None,
    }
}

/// The number of the peer 127.0.0.1:5007.
pub(crate) const PEER: u64 = 0x7f00_0001 * 65_536 + 5_007;

/// The example that rtcp_json opens with.
#[test]
fn example(rt: HostRuntime) -> Result<(), Fail> {
    let datagram = [0x80, 0xc9, 0, 1, 0, 0, 0, 7];
    let Ok(compound) = Compound::read(&datagram) else {
        return Err("it is refused")?;
    };
    let mut text = Vec::new(rt.alloc());
    assert!(rt; push_json(&mut text, &compound).is_ok());
    let line =
        b"{\"packets\":[{\"type\":\"RR\",\"ssrc\":\"00000007\",\"blocks\":[],\"extension\":\"\"}]}\n";
    assert_eq!(rt; text.as_slice(), line.as_slice());
    Ok(())
}
