//! The heads of RTP datagrams, made by hand by RFC 3550, 5.1 and 5.3.1.

use super::*;
use crate::head::{jalwedd_rtp_fault, jalwedd_rtp_head};

/// What no call wrote.
const UNTOLD: HeadPlace = HeadPlace {
    csrcs_offset: 99,
    payload_offset: 99,
    payload_size: 99,
    ssrc: 99,
    timestamp: 99,
    sequence: 99,
    payload_type: 99,
    marker: 99,
    csrcs: 99,
};

/// Packet 0x102 of source 9, of payload type 96 with the marker: two CSRCs, an extension of one word, a payload of
/// three octets, and two octets of padding.
const WHOLE: [u8; 33] = [
    0xb2, 0xe0, 0x01, 0x02, 0x00, 0x00, 0x10, 0x00, 0x00, 0x00, 0x00, 0x09, 0x00, 0x00, 0x00, 0x05,
    0xff, 0x00, 0x00, 0x06, 0xbe, 0xde, 0x00, 0x01, 0x10, 0xaa, 0x00, 0x00, 0xa1, 0xa2, 0xa3, 0x00,
    0x02,
];

/// Its first eleven octets.
const SHORT: [u8; 11] = [
    0xb2, 0xe0, 0x01, 0x02, 0x00, 0x00, 0x10, 0x00, 0x00, 0x00, 0x00,
];

/// A head with nothing after it: packet 1 of source 10, of payload type 0.
const BARE: [u8; 12] = [
    0x80, 0x00, 0x00, 0x01, 0xff, 0xff, 0xff, 0xff, 0x00, 0x00, 0x00, 0x0a,
];

/// A datagram, the status, and the head as it is then. Refused are one cut short, one of version 1, one of a reserved
/// type, an empty one, and one that is an octet too long for UDP.
static ROWS: [(&[u8], u32, HeadPlace); 7] = [
    (
        &WHOLE,
        0,
        HeadPlace {
            csrcs_offset: 12,
            payload_offset: 28,
            payload_size: 3,
            ssrc: 9,
            timestamp: 0x1000,
            sequence: 0x102,
            payload_type: 96,
            marker: 1,
            csrcs: 2,
        },
    ),
    (
        &BARE,
        0,
        HeadPlace {
            csrcs_offset: 12,
            payload_offset: 12,
            payload_size: 0,
            ssrc: 10,
            timestamp: 0xffff_ffff,
            sequence: 1,
            payload_type: 0,
            marker: 0,
            csrcs: 0,
        },
    ),
    (&SHORT, 6, UNTOLD),
    (&[0x40; 12], 6, UNTOLD),
    (&[0x80, 0xc8, 0, 0, 0, 0, 0, 0, 0, 0, 0, 0], 6, UNTOLD),
    (&[], 6, UNTOLD),
    (&TOO_LONG, 23, UNTOLD),
];

/// Each datagram is told as its row says.
#[test]
fn heads(rt: HostRuntime) {
    for (number, (datagram, status, wanted)) in ROWS.iter().enumerate() {
        let mut head = UNTOLD;
        let found = jalwedd_rtp_head(datagram, &mut head);
        assert_eq!(rt; found, *status, "row {number}");
        assert!(rt; head == *wanted, "row {number}");
    }
}

/// What no call wrote.
const NO_FAULT: Fault = Fault {
    offset: 99,
    reason: 99,
};

/// A datagram, the status, and the fault as it is then: of two with a head, and then of one for each rule in turn. The
/// sixth has an extension bit and no word for it, and the seventh a padding bit and nothing after its head. The last is
/// an octet too long for UDP.
static FAULTS: [(&[u8], u32, Fault); 8] = [
    (&WHOLE, 0, NO_FAULT),
    (&BARE, 0, NO_FAULT),
    (
        &SHORT,
        6,
        Fault {
            offset: 0,
            reason: 11,
        },
    ),
    (
        &[0x40; 12],
        6,
        Fault {
            offset: 0,
            reason: 12,
        },
    ),
    (
        &[0x80, 0xc8, 0, 0, 0, 0, 0, 0, 0, 0, 0, 0],
        6,
        Fault {
            offset: 0,
            reason: 13,
        },
    ),
    (
        &[0x90, 0, 0, 0, 0, 0, 0, 0, 0, 0, 0, 0],
        6,
        Fault {
            offset: 0,
            reason: 14,
        },
    ),
    (
        &[0xa0, 0, 0, 0, 0, 0, 0, 0, 0, 0, 0, 0],
        6,
        Fault {
            offset: 0,
            reason: 15,
        },
    ),
    (&TOO_LONG, 23, NO_FAULT),
];

/// Each datagram has the fault of its row.
#[test]
fn faults_of_heads(rt: HostRuntime) {
    for (number, (datagram, status, wanted)) in FAULTS.iter().enumerate() {
        let mut fault = NO_FAULT;
        let found = jalwedd_rtp_fault(datagram, &mut fault);
        assert_eq!(rt; found, *status, "row {number}");
        assert!(rt; fault == *wanted, "row {number}");
    }
}
