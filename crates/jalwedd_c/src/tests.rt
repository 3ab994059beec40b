//! The calls as a host makes them, over tables that were worked by hand.

use super::*;
use jalwedd_host::step::NEVER;
use std::alloc::Global;
use std::test::*;

mod calls;
mod changes;
mod configurations;
mod forgetting;
mod guarding;
mod heads;
mod own;
mod parts;
mod printing;
mod readings;
mod sessions;
mod settings;

const CONFIG: Config = Config {
    ntp_base: 0,
    start: 0,
    ssrc: 0xaa,
    capacity: 1_024,
    limit: 1_472,
    sender_bw: 100,
    receiver_bw: 300,
    rate: 8_000,
    clock_count: 0,
    clocks: [UNREAD; 16],
    reserved: 0,
    guard: UNGUARDED,
};

/// No guard.
const UNGUARDED: GuardConfig = GuardConfig {
    names: 0,
    trusted_names: 0,
    hold: 0,
};

/// A clock that is refused where it is read.
const UNREAD: Clock = Clock {
    payload_type: 256,
    rate: 0,
};

/// Room for 16 clocks, of which so many are said to be given: after these are such as are refused.
#[derive(Clone, Copy)]
struct Clocks<'a> {
    count: u32,
    given: &'a [Clock],
}

impl Clocks<'_> {
    fn room(&self) -> [Clock; 16] {
        let mut room = [UNREAD; 16];
        for (place, clock) in room.iter_mut().zip(self.given) {
            *place = *clock;
        }
        room
    }
}

const NO_CLOCKS: Clocks<'static> = Clocks {
    count: 0,
    given: &[],
};

/// One clock more than there is room for.
const SEVENTEEN_CLOCKS: Clocks<'static> = Clocks {
    count: 17,
    given: &[],
};

/// The first payload type that is no octet.
const STRANGE_CLOCK: Clocks<'static> = Clocks {
    count: 1,
    given: &[Clock {
        payload_type: 256,
        rate: 1,
    }],
};

/// The latest start: 2^63 - 1.
const LATEST: u64 = 9_223_372_036_854_775_807;

/// What a call tells of no participant.
const BLANK: HostStep = HostStep {
    next: NEVER,
    members: 0,
    senders: 0,
    ssrc: 0,
    changed: 0,
    kind: 0,
    size: 0,
    entries: 0,
    others_changed: 0,
};

/// A receiver report of source 7 without blocks, and its CNAME `a`.
const OF_SEVEN: [u8; 20] = [
    0x80, 0xc9, 0x00, 0x01, 0x00, 0x00, 0x00, 0x07, 0x81, 0xca, 0x00, 0x02, 0x00, 0x00, 0x00, 0x07,
    0x01, 0x01, 0x61, 0x00,
];

/// What is known of it.
const SEVEN: HostSource = HostSource {
    heard: 1_026_037,
    ssrc: 7,
    member: 1,
    ..NOBODY
};

const NOBODY: HostSource = HostSource {
    heard: 0,
    left: NEVER,
    told: NEVER,
    ntp: 0,
    received: 0,
    octets: 0,
    lost: 0,
    highest: 0,
    jitter: 0,
    rtp: 0,
    has_block: 0,
    fraction: 0,
    block_highest: 0,
    ssrc: 0,
    member: 0,
    sender: 0,
    rate: 0,
    reserved: 0,
};

/// What no call wrote.
const NO_REPORT: Report = Report {
    reporter: 99,
    ssrc: 99,
    fraction: 99,
    lost: 99,
    highest: 99,
    jitter: 99,
    lsr: 99,
    dlsr: 99,
};

/// One octet more than UDP carries: RTP packet 0x8080 of source 0x80808080, or no compound.
const TOO_LONG: [u8; 65_536] = [0x80; 65_536];

/// The block of a session has the octets that `jalwedd_new` documents.
#[test]
fn memory(rt: HostRuntime) {
    assert_eq!(rt; size_of::<jalwedd_host::session::HostSession>(), 2_760);
    assert_eq!(rt; size_of::<rtcp_guard::Guard>(), 496);
}
