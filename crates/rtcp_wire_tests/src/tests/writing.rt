//! Packets that are written.

use super::*;
use arrayvec::ArrayVec;

type Buffer = ArrayVec<u8, MAX_COMPOUND>;

/// A block about source 9, with two packets more received than expected.
const BLOCK: Block = Block {
    ssrc: 9,
    fraction: 25,
    lost: -2,
    highest: 65_538,
    jitter: 10,
    lsr: 0xb705_2000,
    dlsr: 0x0005_4000,
};

/// A receiver report of source 7 with no blocks.
const EMPTY_REPORT: PacketRef<'static> = PacketRef::Rr {
    ssrc: 7,
    blocks: &[],
    extension: &[],
};

/// A sender report of source 9 with no blocks.
const REPORT: PacketRef<'static> = PacketRef::Sr {
    ssrc: 9,
    ntp: 0x0000_b705_2000_0000,
    rtp: 10,
    packets: 3,
    octets: 480,
    blocks: &[],
    extension: &[],
};

/// The CNAME `a` of source 7.
const NAMES: PacketRef<'static> = PacketRef::Sdes {
    chunks: &[ChunkRef {
        id: 7,
        items: &[ItemRef {
            kind: 1,
            text: b"a",
        }],
    }],
};

/// Packets that are written after some octets, what comes of it, and the octets that are written.
struct Written {
    before: &'static [u8],
    packets: &'static [PacketRef<'static>],
    result: Result<(), Full>,
    octets: &'static [u8],
}

static WRITTEN: [Written; 10] = [
    // The last 28 octets of a buffer hold a sender report.
    Written {
        before: &[7; 1_444],
        packets: &[REPORT],
        result: Ok(()),
        octets: &[
            0x80, 0xc8, 0, 6, // a sender report of seven words, with no blocks
            0, 0, 0, 9, // its SSRC
            0, 0, 0xb7, 5, // NTP timestamp, the upper word
            0x20, 0, 0, 0, // NTP timestamp, the lower word
            0, 0, 0, 10, // RTP timestamp
            0, 0, 0, 3, // packets sent
            0, 0, 1, 0xe0, // octets sent
        ],
    },
    // Of it nothing is written where 24 are left.
    Written {
        before: &[7; 1_448],
        packets: &[REPORT],
        result: Err(Full),
        octets: &[],
    },
    // A report and the CNAME `a` are written as the named report.
    Written {
        before: &[],
        packets: &[EMPTY_REPORT, NAMES],
        result: Ok(()),
        octets: &NAMED,
    },
    // Of no packets nothing is written.
    Written {
        before: &[],
        packets: &[],
        result: Ok(()),
        octets: &[],
    },
    // A block with two packets more received than expected, and an extension.
    Written {
        before: &[],
        packets: &[PacketRef::Rr {
            ssrc: 7,
            blocks: &[BLOCK],
            extension: &[1, 2, 3, 4],
        }],
        result: Ok(()),
        octets: &[
            0x81, 0xc9, 0, 8, // a receiver report of nine words, with one block
            0, 0, 0, 7, // its SSRC
            0, 0, 0, 9, // the block's SSRC
            25, 0xff, 0xff, 0xfe, // fraction lost 25, packets lost -2
            0, 1, 0, 2, // highest sequence number: cycle 1, number 2
            0, 0, 0, 10, // jitter
            0xb7, 5, 0x20, 0, // LSR
            0, 5, 0x40, 0, // DLSR
            1, 2, 3, 4, // extension
        ],
    },
    // BYEs with a reason, with an empty one, and with none.
    Written {
        before: &[],
        packets: &[PacketRef::Bye {
            ids: &[9],
            reason: Some(b"bye"),
        }],
        result: Ok(()),
        octets: &[
            0x81, 0xcb, 0, 2, // a goodbye of three words, of one source
            0, 0, 0, 9, // its SSRC
            3, b'b', b'y', b'e', // a reason of three octets
        ],
    },
    Written {
        before: &[],
        packets: &[PacketRef::Bye {
            ids: &[9],
            reason: Some(b""),
        }],
        result: Ok(()),
        octets: &[
            0x81, 0xcb, 0, 2, // a goodbye of three words, of one source
            0, 0, 0, 9, // its SSRC
            0, 0, 0, 0, // a reason of no octets, and its fill
        ],
    },
    Written {
        before: &[],
        packets: &[PacketRef::Bye {
            ids: &[9],
            reason: None,
        }],
        result: Ok(()),
        octets: &[0x81, 0xcb, 0, 1, 0, 0, 0, 9],
    },
    // An application's packet, and one of another type.
    Written {
        before: &[],
        packets: &[PacketRef::App {
            subtype: 31,
            ssrc: 9,
            name: *b"test",
            data: &[1, 2, 3, 4],
        }],
        result: Ok(()),
        octets: &[
            0x9f, 0xcc, 0, 3, // an application's packet of four words, with subtype 31
            0, 0, 0, 9, // its SSRC
            b't', b'e', b's', b't', // its name
            1, 2, 3, 4, // its data
        ],
    },
    Written {
        before: &[],
        packets: &[PacketRef::Other {
            kind: 205,
            count: 1,
            body: &[5, 6, 7, 8],
        }],
        result: Ok(()),
        octets: &[0x81, 0xcd, 0, 1, 5, 6, 7, 8],
    },
];

/// Packets are written after what stands in the buffer, and that stays.
#[test]
fn writes_after_what_stands(rt: HostRuntime) -> Result<(), Fail> {
    for row in &WRITTEN {
        let mut buffer = Buffer::new();
        buffer.try_extend_from_slice(row.before)?;
        let result = append(&rt, row.packets, &mut buffer);
        assert_eq!(rt; result, row.result, "{:?}", row.packets);
        let mut wanted = Buffer::new();
        wanted.try_extend_from_slice(row.before)?;
        wanted.try_extend_from_slice(row.octets)?;
        assert_eq!(rt; buffer.as_slice(), wanted.as_slice(), "{:?}", row.packets);
    }
    Ok(())
}

/// Appends at most two packets.
fn append(rt: &impl Abort, packets: &[PacketRef<'_>], buffer: &mut Buffer) -> Result<(), Full> {
    match packets {
        [] => write_compound(&[], buffer),
        [packet] => {
            assert!(rt; packet.is_writable());
            write_compound(&[*packet], buffer)
        }
        [first, second] => {
            assert!(rt; first.is_writable());
            assert!(rt; second.is_writable());
            write_compound(&[*first, *second], buffer)
        }
        _ => panic!(rt; "there are more than two packets"),
    }
}

/// The size of a packet is that of its octets, and the header counts.
#[test]
fn sizes(rt: HostRuntime) {
    let is_writable = (EMPTY_REPORT.is_writable(), REPORT.is_writable());
    assert_eq!(rt; is_writable, (true, true));
    assert_eq!(rt; (EMPTY_REPORT.size(), REPORT.size()), (8, 28));
}

/// Packets at each limit and beyond it, and whether they can be written.
static LIMITS: [(PacketRef<'static>, bool); 17] = [
    // A report has at most 31 blocks, and whole words of extension.
    (
        PacketRef::Rr {
            ssrc: 7,
            blocks: &[BLOCK; 31],
            extension: &[],
        },
        true,
    ),
    (
        PacketRef::Rr {
            ssrc: 7,
            blocks: &[BLOCK; 32],
            extension: &[],
        },
        false,
    ),
    (
        PacketRef::Rr {
            ssrc: 7,
            blocks: &[],
            extension: &[1, 2, 3],
        },
        false,
    ),
    // A block's lost packets fit 24 bits.
    (
        PacketRef::Rr {
            ssrc: 7,
            blocks: &[Block {
                lost: 8_388_607,
                ..BLOCK
            }],
            extension: &[],
        },
        true,
    ),
    (
        PacketRef::Rr {
            ssrc: 7,
            blocks: &[Block {
                lost: 8_388_608,
                ..BLOCK
            }],
            extension: &[],
        },
        false,
    ),
    (
        PacketRef::Rr {
            ssrc: 7,
            blocks: &[Block {
                lost: -8_388_608,
                ..BLOCK
            }],
            extension: &[],
        },
        true,
    ),
    (
        PacketRef::Rr {
            ssrc: 7,
            blocks: &[Block {
                lost: -8_388_609,
                ..BLOCK
            }],
            extension: &[],
        },
        false,
    ),
    // An item has a type and at most 255 octets.
    (
        PacketRef::Sdes {
            chunks: &[ChunkRef {
                id: 7,
                items: &[ItemRef {
                    kind: 1,
                    text: &[b'a'; 255],
                }],
            }],
        },
        true,
    ),
    (
        PacketRef::Sdes {
            chunks: &[ChunkRef {
                id: 7,
                items: &[ItemRef {
                    kind: 1,
                    text: &[b'a'; 256],
                }],
            }],
        },
        false,
    ),
    (
        PacketRef::Sdes {
            chunks: &[ChunkRef {
                id: 7,
                items: &[ItemRef {
                    kind: 0,
                    text: b"a",
                }],
            }],
        },
        false,
    ),
    // So has a reason.
    (
        PacketRef::Bye {
            ids: &[],
            reason: Some(&[b'a'; 255]),
        },
        true,
    ),
    (
        PacketRef::Bye {
            ids: &[],
            reason: Some(&[b'a'; 256]),
        },
        false,
    ),
    // The count fits five bits, the type is none of the known ones, and the body is whole words.
    (
        PacketRef::Other {
            kind: 205,
            count: 31,
            body: &[],
        },
        true,
    ),
    (
        PacketRef::Other {
            kind: 205,
            count: 32,
            body: &[],
        },
        false,
    ),
    (
        PacketRef::Other {
            kind: 201,
            count: 0,
            body: &[],
        },
        false,
    ),
    (
        PacketRef::Other {
            kind: 205,
            count: 0,
            body: &[1],
        },
        false,
    ),
    // A subtype fits them too.
    (
        PacketRef::App {
            subtype: 32,
            ssrc: 9,
            name: *b"test",
            data: &[],
        },
        false,
    ),
];

/// Each limit, where it is met and where it is broken.
#[test]
fn limits(rt: HostRuntime) {
    for (packet, expected) in &LIMITS {
        assert_eq!(rt; packet.is_writable(), *expected, "{packet:?}");
    }
}

/// The longest packet, whose header can say its length, and one that is a word longer.
#[test]
fn longest(rt: HostRuntime) -> Result<(), Fail> {
    let longest = vec![in rt.alloc(); 0; 262_140]?;
    assert!(rt; other(longest.as_slice()).is_writable());
    let longer = vec![in rt.alloc(); 0; 262_144]?;
    assert!(rt; !other(longer.as_slice()).is_writable());
    Ok(())
}

/// A packet of type 192 with this body.
fn other(body: &[u8]) -> PacketRef<'_> {
    PacketRef::Other {
        kind: 192,
        count: 0,
        body,
    }
}
