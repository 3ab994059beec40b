//! The heads of RTP packets.

use super::*;

/// What is read of a packet: its payload type, marker, sequence number, timestamp and SSRC; its contributing sources;
/// and its payload, and the octets before it.
struct Head {
    fixed: (u8, bool, u16, u32, u32),
    csrcs: &'static [u32],
    payload: &'static [u8],
    offset: usize,
}

static HEADS: [(&[u8], Head); 10] = [
    // The words of an extension are skipped.
    (
        &[
            0x90, 0, 0, 1, // extension bit, payload type 0, sequence number 1
            0, 0, 0, 2, // timestamp
            0, 0, 0, 3, // SSRC
            0, 5, 0, 1, // an extension of one word
            0xaa, 0xbb, 0xcc, 0xdd, // that word
            1, 2, // payload
        ],
        Head {
            fixed: (0, false, 1, 2, 3),
            csrcs: &[],
            payload: &[1, 2],
            offset: 20,
        },
    ),
    // Padding is no part of the payload.
    (
        &[
            0xa0, 0, 0, 1, // padding bit, payload type 0, sequence number 1
            0, 0, 0, 2, // timestamp
            0, 0, 0, 3, // SSRC
            1, 2, // two octets of padding
        ],
        Head {
            fixed: (0, false, 1, 2, 3),
            csrcs: &[],
            payload: &[],
            offset: 12,
        },
    ),
    (
        &[
            0xa0, 0, 0, 1, // padding bit, payload type 0, sequence number 1
            0, 0, 0, 2, // timestamp
            0, 0, 0, 3, // SSRC
            9, 1, // an octet of payload, and one of padding
        ],
        Head {
            fixed: (0, false, 1, 2, 3),
            csrcs: &[],
            payload: &[9],
            offset: 12,
        },
    ),
    // One contributing source, and two.
    (
        &[
            0x81, 0, 0, 1, // one CSRC, payload type 0, sequence number 1
            0, 0, 0, 2, // timestamp
            0, 0, 0, 3, // SSRC
            0, 0, 0, 4, // CSRC
        ],
        Head {
            fixed: (0, false, 1, 2, 3),
            csrcs: &[4],
            payload: &[],
            offset: 16,
        },
    ),
    (
        &[
            0x82, 0, 0, 1, // two CSRCs, payload type 0, sequence number 1
            0, 0, 0, 2, // timestamp
            0, 0, 0, 3, // SSRC
            0, 0, 0, 4, // the first CSRC
            0xff, 0, 0, 5, // the second CSRC
            9, // payload
        ],
        Head {
            fixed: (0, false, 1, 2, 3),
            csrcs: &[4, 0xff00_0005],
            payload: &[9],
            offset: 20,
        },
    ),
    // The payload types beside the reserved ones, with and without the marker.
    (
        &[0x80, 0x47, 0, 1, 0, 0, 0, 2, 0, 0, 0, 3],
        Head {
            fixed: (71, false, 1, 2, 3),
            csrcs: &[],
            payload: &[],
            offset: 12,
        },
    ),
    (
        &[0x80, 0x4d, 0, 1, 0, 0, 0, 2, 0, 0, 0, 3],
        Head {
            fixed: (77, false, 1, 2, 3),
            csrcs: &[],
            payload: &[],
            offset: 12,
        },
    ),
    (
        &[0x80, 0xc7, 0, 1, 0, 0, 0, 2, 0, 0, 0, 3],
        Head {
            fixed: (71, true, 1, 2, 3),
            csrcs: &[],
            payload: &[],
            offset: 12,
        },
    ),
    (
        &[0x80, 0xcd, 0, 1, 0, 0, 0, 2, 0, 0, 0, 3],
        Head {
            fixed: (77, true, 1, 2, 3),
            csrcs: &[],
            payload: &[],
            offset: 12,
        },
    ),
    (
        &[0x80, 0xe0, 0, 1, 0, 0, 0, 2, 0, 0, 0, 3],
        Head {
            fixed: (96, true, 1, 2, 3),
            csrcs: &[],
            payload: &[],
            offset: 12,
        },
    ),
];

/// What is read of packets.
#[test]
fn heads(rt: HostRuntime) -> Result<(), Fail> {
    for (octets, wanted) in &HEADS {
        let head = RtpHead::read(octets)?;
        let fixed = (
            head.payload_type(),
            head.marker(),
            head.sequence(),
            head.timestamp(),
            head.ssrc(),
        );
        assert_eq!(rt; fixed, wanted.fixed, "{octets:?}");
        let csrcs: Vec<u32> = head.csrcs().collect(rt.alloc())?;
        let rest = (csrcs.as_slice(), head.payload());
        assert_eq!(rt; rest, (wanted.csrcs, wanted.payload), "{octets:?}");
        assert_eq!(rt; head.payload_offset(octets), wanted.offset, "{octets:?}");
    }
    Ok(())
}

static FAULTS: [(&[u8], RtpFault); 10] = [
    // The padding's count must fit the packet.
    (
        &[
            0xa0, 0, 0, 1, // padding bit, payload type 0, sequence number 1
            0, 0, 0, 2, // timestamp
            0, 0, 0, 3, // SSRC
            1, 3, // three octets of padding, but there are only two
        ],
        RtpFault::Padding,
    ),
    // Fewer CSRCs than the packet counts.
    (
        &[
            0x82, 0, 0, 1, // two CSRCs, payload type 0, sequence number 1
            0, 0, 0, 2, // timestamp
            0, 0, 0, 3, // SSRC
            0, 0, 0, 4, // the first CSRC
        ],
        RtpFault::Short,
    ),
    // The first and the last reserved payload type, without and with the marker.
    (
        &[0x80, 0x48, 0, 1, 0, 0, 0, 2, 0, 0, 0, 3],
        RtpFault::PayloadType,
    ),
    (
        &[0x80, 0x4c, 0, 1, 0, 0, 0, 2, 0, 0, 0, 3],
        RtpFault::PayloadType,
    ),
    (
        &[0x80, 0xc8, 0, 1, 0, 0, 0, 2, 0, 0, 0, 3],
        RtpFault::PayloadType,
    ),
    (
        &[0x80, 0xcc, 0, 1, 0, 0, 0, 2, 0, 0, 0, 3],
        RtpFault::PayloadType,
    ),
    // And each other fault.
    (&[], RtpFault::Short),
    (&[0x40, 0, 0, 1, 0, 0, 0, 2, 0, 0, 0, 3], RtpFault::Version),
    (
        &[
            0x90, 0, 0, 1, // extension bit, payload type 0, sequence number 1
            0, 0, 0, 2, // timestamp
            0, 0, 0, 3, // SSRC
            0, 5, 0, 1, // an extension of one word
            0xaa, 0xbb, 0xcc, // three octets of that word
        ],
        RtpFault::Extension,
    ),
    (&[0xa0, 0, 0, 1, 0, 0, 0, 2, 0, 0, 0, 3], RtpFault::Padding),
];

/// Each fault.
#[test]
fn faults(rt: HostRuntime) {
    for (octets, fault) in &FAULTS {
        assert_eq!(rt; RtpHead::read(octets).err(), Some(*fault), "{octets:?}");
    }
}
