//! Readings of datagrams that were made by hand.

use super::*;
use crate::reading::{jalwedd_about, jalwedd_check, jalwedd_ntp_of, jalwedd_round_trip};

/// One that reports twice of source 161: 2 packets more came than were sent, then 5 are lost.
const TWICE: [u8; 56] = [
    0x82, 0xc9, 0, 13, 0, 0, 0, 7, 0, 0, 0, 0xa1, 64, 0xff, 0xff, 0xfe, 0, 1, 0, 2, 0, 0, 0, 3, 0,
    1, 0, 0, 0, 0, 0x80, 0, 0, 0, 0, 0xa1, 0, 0, 0, 5, 0, 0, 0, 9, 0, 0, 0, 8, 0, 0, 0, 0, 0, 0, 0,
    0,
];

/// The datagram of 7 without its last two octets.
const SHORT: [u8; 18] = [
    0x80, 0xc9, 0x00, 0x01, 0x00, 0x00, 0x00, 0x07, 0x81, 0xca, 0x00, 0x02, 0x00, 0x00, 0x00, 0x07,
    0x01, 0x01,
];

/// What no call wrote.
const NO_FAULT: Fault = Fault {
    offset: 99,
    reason: 99,
};

/// A whole datagram, and one cut short.
#[test]
fn checks(rt: HostRuntime) {
    let short = Fault {
        offset: 8,
        reason: 5,
    };
    let rows: [(&[u8], u32, Fault); 2] = [(&OF_SEVEN, 0, NO_FAULT), (&SHORT, 5, short)];
    for (number, (datagram, status, wanted)) in rows.iter().enumerate() {
        let mut fault = NO_FAULT;
        let found = jalwedd_check(datagram, &mut fault);
        assert!(rt; found == *status && fault == *wanted, "row {number}");
    }
}

/// A datagram, an index, the status, and the block about 161 as it is then.
static BLOCKS: [(&[u8], u32, u32, Report); 4] = [
    (
        &TWICE,
        0,
        0,
        Report {
            reporter: 7,
            ssrc: 0xa1,
            fraction: 64,
            lost: -2,
            highest: 65_538,
            jitter: 3,
            lsr: 65_536,
            dlsr: 32_768,
        },
    ),
    (
        &TWICE,
        1,
        0,
        Report {
            reporter: 7,
            ssrc: 0xa1,
            fraction: 0,
            lost: 5,
            highest: 9,
            jitter: 8,
            lsr: 0,
            dlsr: 0,
        },
    ),
    (&TWICE, 2, 8, NO_REPORT),
    (&[], 0, 5, NO_REPORT),
];

/// Each block about a source is told, and no more.
#[test]
fn blocks_about_one(rt: HostRuntime) {
    for (number, (datagram, index, status, wanted)) in BLOCKS.iter().enumerate() {
        let mut report = NO_REPORT;
        let found = jalwedd_about(datagram, 0xa1, *index, &mut report);
        assert!(rt; found == *status && report == *wanted, "row {number}");
    }
}

/// The round trip of the RFC's example (RFC 3550, 6.4.1), and an NTP timestamp.
#[test]
fn times(rt: HostRuntime) {
    let trip = jalwedd_round_trip(0xb710_8000, 0xb705_2000, 0x0005_4000);
    assert_eq!(rt;
        (trip, jalwedd_ntp_of(0, 1_500_000)),
        (0x0006_2000, 0x1_8000_0000)
    );
}
