//! What is told of the own stream.

use super::*;
use crate::begin::{jalwedd_free, jalwedd_new};
use crate::calls::{jalwedd_leave, jalwedd_sent_rtp, jalwedd_tick};
use crate::views::jalwedd_own;

/// What no call wrote.
const UNWRITTEN: HostOwn = HostOwn {
    packets: 9,
    octets: 9,
    sends: 9,
};

/// The status, and what is told.
fn told(alloc: Global, handle: &mut Handle) -> (u32, HostOwn) {
    let mut own = UNWRITTEN;
    let status = jalwedd_own(alloc, handle, &mut own);
    (status, own)
}

/// Packets and octets are told, and whether the participant counts as a sender: two intervals after the last packet it
/// does not. Nothing is told before the session, and from the leave on.
#[test]
fn own_counts(rt: HostRuntime) {
    let alloc = rt.alloc();
    let mut handle = Handle::empty(alloc);
    let (mut step, mut octets) = (HostStep::blank(), [0; 1_472]);
    assert_eq!(rt; told(alloc, &mut handle), (20, UNWRITTEN));
    assert_eq!(rt;
        jalwedd_new(alloc, &mut handle, &CONFIG, b"a", &[], 0, &mut step),
        0
    );
    let mut own = HostOwn {
        packets: 0,
        octets: 0,
        sends: 0,
    };
    assert_eq!(rt; told(alloc, &mut handle), (0, own));
    for (payload, packets, octets_sent) in [(160, 1, 160), (40, 2, 200)] {
        let status = jalwedd_sent_rtp(
            alloc,
            &mut handle,
            0,
            1_000,
            payload,
            &mut step,
            &mut octets,
        );
        assert_eq!(rt; status, 0);
        own = HostOwn {
            packets,
            octets: octets_sent,
            sends: 1,
        };
        assert_eq!(rt; told(alloc, &mut handle), (0, own));
    }
    for (moment, sends) in [(1_026_037, 1), (10_000_000, 1), (10_000_001, 0)] {
        let status = jalwedd_tick(alloc, &mut handle, moment, 0, 0, &mut step, &mut octets);
        assert_eq!(rt; status, 0);
        own.sends = sends;
        assert_eq!(rt; told(alloc, &mut handle), (0, own));
    }
    let status = jalwedd_leave(alloc, &mut handle, 10_000_001, 0, &mut step, &mut octets);
    assert_eq!(rt; status, 0);
    assert_eq!(rt; told(alloc, &mut handle), (1, UNWRITTEN));
    assert_eq!(rt; jalwedd_free(alloc, &mut handle), 0);
}
