//! A packet of each type, with all of its fields.

use super::*;

/// A report that comes first, and what is read of it.
struct Report {
    octets: &'static [u8],
    ssrc: u32,
    /// Of a sender report: NTP timestamp, RTP timestamp, packets, octets.
    sent: Option<(u64, u32, u32, u32)>,
    blocks: &'static [Block],
    extension: &'static [u8],
    /// Whether another packet comes after it.
    has_next: bool,
}

static REPORTS: [Report; 5] = [
    // A receiver report with no blocks.
    Report {
        octets: &NAMED,
        ssrc: 7,
        sent: None,
        blocks: &[],
        extension: &[],
        has_next: true,
    },
    // With a length of five words the report reaches to the end, and the source description is its extension.
    Report {
        octets: &[
            0x80, 0xc9, 0, 4, // a receiver report of five words, with no blocks
            0, 0, 0, 7, // its SSRC
            0x81, 0xca, 0, 2, // extension
            0, 0, 0, 7, // extension
            1, 1, 0x61, 0, // extension
        ],
        ssrc: 7,
        sent: None,
        blocks: &[],
        extension: &[0x81, 0xca, 0, 2, 0, 0, 0, 7, 1, 1, 0x61, 0],
        has_next: false,
    },
    // A block of 24 octets, each of its fields: 25/256 lost since the last report, two packets more received than
    // expected.
    Report {
        octets: &[
            0x81, 0xc9, 0, 8, // a receiver report of nine words, with one block
            0, 0, 0, 7, // its SSRC
            0, 0, 0, 9, // the block's SSRC
            25, 0xff, 0xff, 0xfe, // fraction lost 25, packets lost -2
            0, 1, 0, 2, // highest sequence number: cycle 1, number 2
            0, 0, 0, 10, // jitter
            0xb7, 5, 0x20, 0, // LSR
            0, 5, 0x40, 0, // DLSR
            1, 2, 3, 4, // extension
        ],
        ssrc: 7,
        sent: None,
        blocks: &[Block {
            ssrc: 9,
            fraction: 25,
            lost: -2,
            highest: 65_538,
            jitter: 10,
            lsr: 0xb705_2000,
            dlsr: 0x0005_4000,
        }],
        extension: &[1, 2, 3, 4],
        has_next: false,
    },
    // A sender report with no blocks.
    Report {
        octets: &[
            0x80, 0xc8, 0, 6, // a sender report of seven words, with no blocks
            0, 0, 0, 9, // its SSRC
            0, 0, 0xb7, 5, // NTP timestamp, the upper word
            0x20, 0, 0, 0, // NTP timestamp, the lower word
            0, 0, 0, 10, // RTP timestamp
            0, 0, 0, 3, // packets sent
            0, 0, 1, 0xe0, // octets sent
        ],
        ssrc: 9,
        sent: Some((0x0000_b705_2000_0000, 10, 3, 480)),
        blocks: &[],
        extension: &[],
        has_next: false,
    },
    // A sender report with one block and an extension of one word.
    Report {
        octets: &[
            0x81, 0xc8, 0, 13, // a sender report of 14 words, with one block
            0xde, 0xad, 0xbe, 0xef, // its SSRC
            1, 2, 3, 4, // NTP timestamp, the upper word
            5, 6, 7, 8, // NTP timestamp, the lower word
            9, 10, 11, 12, // RTP timestamp
            0, 0, 0, 1, // packets sent
            0, 0, 0, 2, // octets sent
            0, 0, 0, 9, // the block's SSRC
            25, 0, 0, 1, // fraction lost 25, packets lost 1
            0, 1, 0, 2, // highest sequence number: cycle 1, number 2
            0, 0, 0, 10, // jitter
            0xb7, 5, 0x20, 0, // LSR
            0, 5, 0x40, 0, // DLSR
            1, 2, 3, 4, // extension
        ],
        ssrc: 0xdead_beef,
        sent: Some((0x0102_0304_0506_0708, 0x090a_0b0c, 1, 2)),
        blocks: &[Block {
            ssrc: 9,
            fraction: 25,
            lost: 1,
            highest: 65_538,
            jitter: 10,
            lsr: 0xb705_2000,
            dlsr: 0x0005_4000,
        }],
        extension: &[1, 2, 3, 4],
        has_next: false,
    },
];

/// Each field of a report that comes first.
#[test]
fn reports(rt: HostRuntime) -> Result<(), Fail> {
    for row in &REPORTS {
        let compound = Compound::read(row.octets)?;
        let mut packets = compound.packets();
        let (fixed, blocks, extension) = match packets.next() {
            Some(PacketView::Rr(report)) => {
                ((report.ssrc, None), report.blocks(), report.extension)
            }
            Some(PacketView::Sr(report)) => {
                let sent = (report.ntp, report.rtp, report.packets, report.octets);
                ((report.ssrc, Some(sent)), report.blocks(), report.extension)
            }
            _ => panic!(rt; "the first packet is a report: {:?}", row.octets),
        };
        assert_eq!(rt; fixed, (row.ssrc, row.sent), "{:?}", row.octets);
        let blocks: Vec<Block> = blocks.collect(rt.alloc())?;
        let rest = (blocks.as_slice(), extension, packets.next().is_some());
        assert_eq!(rt;
            rest,
            (row.blocks, row.extension, row.has_next),
            "{:?}",
            row.octets
        );
    }
    Ok(())
}

/// A BYE after a receiver report of source 7, its sources, and its reason.
type Goodbye = (&'static [u8], &'static [u32], Option<&'static [u8]>);

static GOODBYES: [Goodbye; 6] = [
    // Two sources leave, and say why.
    (
        &[
            0x80, 0xc9, 0, 1, 0, 0, 0, 7, // a receiver report of source 7
            0x82, 0xcb, 0, 3, // a goodbye of four words, of two sources
            0, 0, 0, 7, // the first
            0, 0, 1, 0, // the second
            2, 0x61, 0x62, 0, // a reason of two octets, and its fill
        ],
        &[7, 256],
        Some(b"ab"),
    ),
    // A reason that ends with its word, and one with three octets after it.
    (
        &[
            0x80, 0xc9, 0, 1, 0, 0, 0, 7, // a receiver report of source 7
            0x80, 0xcb, 0, 1, // a goodbye of two words, of no source
            3, 0x61, 0x62, 0x63, // a reason of three octets
        ],
        &[],
        Some(b"abc"),
    ),
    (
        &[
            0x80, 0xc9, 0, 1, 0, 0, 0, 7, // a receiver report of source 7
            0x80, 0xcb, 0, 2, // a goodbye of three words, of no source
            4, 0x61, 0x62, 0x63, // a reason of four octets
            0x64, 9, 9, 9, // its last octet, and the fill
        ],
        &[],
        Some(b"abcd"),
    ),
    // A word of zeros is a reason without text.
    (
        &[
            0x80, 0xc9, 0, 1, 0, 0, 0, 7, // a receiver report of source 7
            0x81, 0xcb, 0, 2, // a goodbye of three words, of one source
            0, 0, 0, 7, // its SSRC
            0, 0, 0, 0, // a reason of no octets, and its fill
        ],
        &[7],
        Some(b""),
    ),
    // No reason, but padding.
    (
        &[
            0x80, 0xc9, 0, 1, 0, 0, 0, 7, // a receiver report of source 7
            0xa1, 0xcb, 0, 2, // a goodbye of three words, with padding, of one source
            0, 0, 0, 7, // its SSRC
            0, 0, 0, 4, // four octets of padding
        ],
        &[7],
        None,
    ),
    // Of nobody.
    (&[0x80, 0xc9, 0, 1, 0, 0, 0, 7, 0x80, 0xcb, 0, 0], &[], None),
];

/// Who leaves, and why.
#[test]
fn goodbyes(rt: HostRuntime) -> Result<(), Fail> {
    for (datagram, ids, reason) in &GOODBYES {
        match second_packet(&rt, datagram) {
            PacketView::Bye(goodbye) => {
                let found: Vec<u32> = goodbye.ids().collect(rt.alloc())?;
                let found = (found.as_slice(), goodbye.reason);
                assert_eq!(rt; found, (*ids, *reason), "{datagram:?}");
            }
            _ => panic!(rt; "it is a goodbye: {datagram:?}"),
        }
    }
    Ok(())
}

/// A packet of an application, and one of a type above the known ones, whose body is kept as it is.
#[test]
fn application_and_other(rt: HostRuntime) {
    let octets = [
        0x80, 0xc9, 0, 1, 0, 0, 0, 7, // a receiver report of source 7
        0x85, 0xcc, 0, 3, // an application's packet of four words, with subtype 5
        0, 0, 0, 7, // its SSRC
        0x41, 0x42, 0x43, 0x44, // its name
        1, 2, 3, 4, // its data
    ];
    match second_packet(&rt, &octets) {
        PacketView::App(packet) => {
            let found = (
                packet.subtype,
                packet.ssrc,
                packet.name.as_slice(),
                packet.data,
            );
            assert_eq!(rt; found, (5, 7, b"ABCD".as_slice(), [1, 2, 3, 4].as_slice()));
        }
        _ => panic!(rt; "it is an application's packet"),
    }
    let octets = [
        0x80, 0xc9, 0, 1, 0, 0, 0, 7, // a receiver report of source 7
        0x83, 0xcd, 0, 1, // a packet of type 205, of two words, with count 3
        1, 2, 3, 4, // its body
    ];
    match second_packet(&rt, &octets) {
        PacketView::Other(packet) => {
            let found = (packet.kind, packet.count, packet.body);
            assert_eq!(rt; found, (205, 3, [1, 2, 3, 4].as_slice()));
        }
        _ => panic!(rt; "it is a packet of another type"),
    }
}
