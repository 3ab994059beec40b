//! A session with a guard, and datagrams of three origins: a peer's number without its lower 16 bits.

use super::*;
use crate::begin::{jalwedd_free, jalwedd_new};
use crate::calls::{jalwedd_arrive_rtcp, jalwedd_arrive_rtp};
use crate::guard::{jalwedd_expect, jalwedd_held_back, jalwedd_trust};
use jalwedd_host::guarded::NOWHERE;

/// One source for each origin, and two for a trusted one.
const GUARDED: GuardConfig = GuardConfig {
    names: 1,
    trusted_names: 2,
    hold: 60_000_000,
};

/// Peers of the origins 1, 2 and 3.
const FIRST: u64 = 0x1_1388;

const SECOND: u64 = 0x2_1388;

const THIRD: u64 = 0x3_1388;

/// RTP packet 1 of source 8, without payload.
const OF_EIGHT: [u8; 12] = [0x80, 0x00, 0x00, 0x01, 0, 0, 0, 0, 0, 0, 0, 8];

/// The same of source 9.
const OF_NINE: [u8; 12] = [0x80, 0x00, 0x00, 0x01, 0, 0, 0, 0, 0, 0, 0, 9];

const NOTHING: HostCounts = HostCounts {
    strangers: 0,
    crowds: 0,
    last_stranger: NOWHERE,
    last_crowd: NOWHERE,
};

/// A source speaks from the origin that named it first, or that it is expected from, and an origin names few.
#[test]
fn strangers_and_crowds_are_held_back(rt: HostRuntime) {
    let alloc = rt.alloc();
    let mut handle = Handle::empty(alloc);
    let mut step = HostStep::blank();
    let mut octets = [0; 1_472];
    let config = Config {
        guard: GUARDED,
        ..CONFIG
    };
    assert_eq!(rt;
        jalwedd_new(alloc, &mut handle, &config, b"a", &[], 0, &mut step),
        0
    );
    let mut came = |handle: &mut Handle, now: u64, peer: u64, datagram: &[u8]| {
        let status = jalwedd_arrive_rtp(
            alloc,
            handle,
            now,
            peer,
            0,
            datagram,
            &mut step,
            &mut octets,
        );
        (status, step.entries)
    };
    assert_eq!(rt; came(&mut handle, 1, FIRST, &OF_EIGHT), (0, 1));
    assert_eq!(rt; came(&mut handle, 2, SECOND, &OF_EIGHT), (24, 1));
    assert_eq!(rt; came(&mut handle, 3, FIRST, &OF_NINE), (25, 1));
    assert_eq!(rt; jalwedd_expect(alloc, &mut handle, 4, 9, THIRD), 0);
    assert_eq!(rt; came(&mut handle, 5, SECOND, &OF_NINE), (24, 1));
    assert_eq!(rt; came(&mut handle, 6, THIRD, &OF_NINE), (0, 2));
    assert_eq!(rt; jalwedd_expect(alloc, &mut handle, 7, 10, THIRD), 25);
    assert_eq!(rt; jalwedd_trust(alloc, &mut handle, THIRD), 0);
    assert_eq!(rt; jalwedd_expect(alloc, &mut handle, 8, 10, THIRD), 0);
    let mut counts = NOTHING;
    assert_eq!(rt; jalwedd_held_back(alloc, &mut handle, &mut counts), 0);
    let told = HostCounts {
        strangers: 2,
        crowds: 1,
        last_stranger: 2,
        last_crowd: 1,
    };
    assert_eq!(rt; counts, told);
    assert_eq!(rt; jalwedd_free(alloc, &mut handle), 0);
}

/// A compound is held back too, with nothing handed out.
#[test]
fn strange_compounds_are_held_back(rt: HostRuntime) {
    let alloc = rt.alloc();
    let mut handle = Handle::empty(alloc);
    let mut step = HostStep::blank();
    let mut octets = [0; 1_472];
    let config = Config {
        guard: GUARDED,
        ..CONFIG
    };
    assert_eq!(rt;
        jalwedd_new(alloc, &mut handle, &config, b"a", &[], 0, &mut step),
        0
    );
    let mut came = |handle: &mut Handle, now: u64, peer: u64| {
        let status = jalwedd_arrive_rtcp(
            alloc,
            handle,
            now,
            peer,
            0,
            &OF_SEVEN,
            &mut step,
            &mut octets,
        );
        (status, step.members, step.kind)
    };
    assert_eq!(rt; came(&mut handle, 1, FIRST), (0, 2, 0));
    assert_eq!(rt; came(&mut handle, 2, SECOND), (24, 2, 0));
    assert_eq!(rt; jalwedd_free(alloc, &mut handle), 0);
}

/// Without a guard there is none to be told.
#[test]
fn no_guard(rt: HostRuntime) {
    let alloc = rt.alloc();
    let mut handle = Handle::empty(alloc);
    let mut step = HostStep::blank();
    let mut counts = NOTHING;
    assert_eq!(rt; jalwedd_expect(alloc, &mut handle, 0, 9, FIRST), 20);
    assert_eq!(rt;
        jalwedd_new(alloc, &mut handle, &CONFIG, b"a", &[], 0, &mut step),
        0
    );
    assert_eq!(rt; jalwedd_expect(alloc, &mut handle, 0, 9, FIRST), 19);
    assert_eq!(rt; jalwedd_trust(alloc, &mut handle, FIRST), 19);
    assert_eq!(rt; jalwedd_held_back(alloc, &mut handle, &mut counts), 19);
    assert_eq!(rt; counts, NOTHING);
    assert_eq!(rt; jalwedd_free(alloc, &mut handle), 0);
}

/// An origin may have 1,024 sources at most, a trusted one too.
#[test]
fn limits(rt: HostRuntime) {
    let alloc = rt.alloc();
    assert_eq!(rt; status_of(alloc, 1_024, 0), 0);
    assert_eq!(rt; status_of(alloc, 1_025, 0), 18);
    assert_eq!(rt; status_of(alloc, 1, 1_025), 18);
}

/// The status of a configuration with such a guard.
fn status_of(alloc: Global, names: u32, trusted_names: u32) -> u32 {
    let mut handle = Handle::empty(alloc);
    let mut step = HostStep::blank();
    let guard = GuardConfig {
        names,
        trusted_names,
        hold: 0,
    };
    let config = Config { guard, ..CONFIG };
    let status = jalwedd_new(alloc, &mut handle, &config, b"a", &[], 0, &mut step);
    let _ = jalwedd_free(alloc, &mut handle);
    status
}
