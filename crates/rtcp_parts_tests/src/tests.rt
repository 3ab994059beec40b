use rtcp_parts::*;
use rtcp_wire::*;
use std::process::Abort;
use std::test::*;

mod elsewhere;

/// A sender report of source 9 with blocks about 13 and 14; a source description of 7, without items, and of 9; a
/// BYE of both, with a reason; an application's packet of source 11; and a padded source description of 5.
const CALL: [u8; 152] = [
    0x82, 0xc8, 0, 18, // a sender report of 19 words, with two blocks
    0, 0, 0, 9, // its SSRC
    0xe4, 0, 0, 1, // NTP timestamp, the upper word
    0x80, 0, 0, 0, // NTP timestamp, the lower word
    0, 0, 0x1f, 0x40, // RTP timestamp
    0, 0, 0, 50, // packets sent
    0, 0, 0x20, 0, // octets sent
    0, 0, 0, 13, // the first block's SSRC
    64, 0xff, 0xff, 0xff, // fraction lost, and -1 packets lost
    0, 1, 0, 2, // highest sequence number, after one wrap
    0, 0, 0, 3, // jitter
    0, 1, 0x80, 0, // LSR
    0, 0, 0x80, 0, // DLSR
    0, 0, 0, 14, // the second block's SSRC
    0, 0, 0, 5, // fraction lost, and 5 packets lost
    0, 0, 0, 6, // highest sequence number
    0, 0, 0, 7, // jitter
    0, 0, 0, 0, // LSR
    0, 0, 0, 0, // DLSR
    0x82, 0xca, 0, 5, // a source description of six words, with two chunks
    0, 0, 0, 7, // the first chunk's SSRC
    0, 0, 0, 0, // its zero octet, and the fill
    0, 0, 0, 9, // the second chunk's SSRC
    1, 2, 0x61, 0x62, // a CNAME of two octets
    2, 0, 0, 0, // an empty NAME, the zero octet, and the fill
    0x82, 0xcb, 0, 3, // a goodbye of four words, of two sources
    0, 0, 0, 9, // the first
    0, 0, 0, 7, // the second
    3, 0x6f, 0x66, 0x66, // a reason of three octets
    0x85, 0xcc, 0, 3, // an application's packet of four words, of subtype 5
    0, 0, 0, 11, // its SSRC
    0x61, 0x62, 0x63, 0x64, // its name
    1, 2, 3, 4, // its data
    0xa1, 0xca, 0, 4, // a source description of five words, padded, with one chunk
    0, 0, 0, 5, // the chunk's SSRC
    1, 1, 0x63, 0, // a CNAME of one octet, and the zero octet
    1, 1, 0x64, 0, // padding, like another item
    0, 0, 0, 8, // padding of eight octets in all
];

/// A receiver report of source 7, and its BYE without a reason, padded.
const GONE: [u8; 24] = [
    0x80, 0xc9, 0, 1, // a receiver report of two words, with no blocks
    0, 0, 0, 7, // its SSRC
    0xa1, 0xcb, 0, 3, // a goodbye of four words, padded, of one source
    0, 0, 0, 7, // the source
    3, 0x6f, 0x66, 0x66, // padding, like a reason
    0, 0, 0, 8, // padding of eight octets in all
];

/// A receiver report of source 7, a packet of type 207, and one of an application. The last two hold octets that are
/// an application's packet too, of source 9.
const NESTED: [u8; 48] = [
    0x80, 0xc9, 0, 1, 0, 0, 0, 7, // a receiver report of source 7
    0x80, 0xcf, 0, 3, // a packet of type 207, of four words
    0x80, 0xcc, 0, 2, 0, 0, 0, 9, 0x6e, 0x6f, 0x6e, 0x65, // its body
    0x81, 0xcc, 0, 5, // an application's packet of six words, of subtype 1
    0, 0, 0, 7, // its source
    0x64, 0x61, 0x74, 0x61, // its name
    0x80, 0xcc, 0, 2, 0, 0, 0, 9, 0x6e, 0x6f, 0x6e, 0x65, // its data
];

fn span(place: usize, size: usize) -> Span {
    Span { place, size }
}

/// The example at the head of rtcp_parts.
#[test]
fn example(rt: HostRuntime) {
    let datagram = [
        0x80, 0xc9, 0, 1, 0, 0, 0, 7, // a receiver report of source 7, without blocks
        0x81, 0xca, 0, 3, 0, 0, 0, 7, 1, 2, b'a', b'b', 0, 0, 0, 0, // its CNAME, "ab"
    ];
    let mut cursor = Cursor::default();
    'items: while let Ok(Some(item)) = PlacedItem::next(&datagram, &mut cursor) {
        assert_eq!(rt;
            (item.ssrc, item.kind, item.text.place, item.text.size),
            (7, 1, 18, 2)
        );
    }
}

#[test]
fn senders(rt: HostRuntime) {
    let mut cursor = Cursor::default();
    let sender = Sender {
        ssrc: 9,
        ntp: 0xe400_0001_8000_0000,
        rtp: 8_000,
        packets: 50,
        octets: 8_192,
    };
    for (index, expected) in [Some(sender), None, None].into_iter().enumerate() {
        assert_eq!(rt;
            Sender::next(&CALL, &mut cursor),
            Ok(expected),
            "sender {index}"
        );
        assert_eq!(rt;
            Sender::nth(&CALL, index as u32),
            Ok(expected),
            "sender {index}"
        );
    }
}

/// At each index the block that the walk gives.
#[test]
fn blocks(rt: HostRuntime) {
    let first = Block {
        ssrc: 13,
        fraction: 64,
        lost: -1,
        highest: 65_538,
        jitter: 3,
        lsr: 98_304,
        dlsr: 32_768,
    };
    let second = Block {
        ssrc: 14,
        fraction: 0,
        lost: 5,
        highest: 6,
        jitter: 7,
        lsr: 0,
        dlsr: 0,
    };
    let mut cursor = Cursor::default();
    for (index, expected) in [Some((9, first)), Some((9, second)), None, None]
        .into_iter()
        .enumerate()
    {
        assert_eq!(rt;
            Reported::next(&CALL, &mut cursor),
            Ok(expected),
            "block {index}"
        );
        assert_eq!(rt;
            Reported::nth(&CALL, index as u32),
            Ok(expected),
            "block {index}"
        );
    }
}

/// At each index the item that the walk gives.
#[test]
fn items(rt: HostRuntime) {
    let item = |ssrc: u32, kind: u8, text: Span| Some(PlacedItem { ssrc, kind, text });
    let rows = [
        item(9, 1, span(94, 2)),
        item(9, 2, span(98, 0)),
        item(5, 1, span(142, 1)),
        None,
        None,
    ];
    let mut cursor = Cursor::default();
    for (index, expected) in rows.into_iter().enumerate() {
        assert_eq!(rt;
            PlacedItem::next(&CALL, &mut cursor),
            Ok(expected),
            "item {index}"
        );
        assert_eq!(rt;
            PlacedItem::nth(&CALL, index as u32),
            Ok(expected),
            "item {index}"
        );
    }
}

/// At each index the source that the walk gives.
#[test]
fn goodbyes(rt: HostRuntime) {
    let reason = Some(span(113, 3));
    let rows = [
        Some(PlacedGoodbye { ssrc: 9, reason }),
        Some(PlacedGoodbye { ssrc: 7, reason }),
        None,
        None,
    ];
    let mut cursor = Cursor::default();
    for (index, expected) in rows.into_iter().enumerate() {
        assert_eq!(rt;
            PlacedGoodbye::next(&CALL, &mut cursor),
            Ok(expected),
            "source {index}"
        );
        assert_eq!(rt;
            PlacedGoodbye::nth(&CALL, index as u32),
            Ok(expected),
            "source {index}"
        );
    }
}

/// Padding is no reason.
#[test]
fn padded_goodbye(rt: HostRuntime) {
    let gone = PlacedGoodbye {
        ssrc: 7,
        reason: None,
    };
    let mut cursor = Cursor::default();
    for expected in [Some(gone), None] {
        assert_eq!(rt; PlacedGoodbye::next(&GONE, &mut cursor), Ok(expected));
    }
}

/// At each index the packet that the walk gives.
#[test]
fn apps(rt: HostRuntime) {
    let app = PlacedApp {
        ssrc: 11,
        subtype: 5,
        name: *b"abcd",
        content: span(128, 4),
    };
    let mut cursor = Cursor::default();
    for (index, expected) in [Some(app), None, None].into_iter().enumerate() {
        assert_eq!(rt;
            PlacedApp::next(&CALL, &mut cursor),
            Ok(expected),
            "packet {index}"
        );
        assert_eq!(rt;
            PlacedApp::nth(&CALL, index as u32),
            Ok(expected),
            "packet {index}"
        );
    }
}

/// Of packets of applications, those inside other packets are not given.
#[test]
fn nested_applications(rt: HostRuntime) {
    let app = PlacedApp {
        ssrc: 7,
        subtype: 1,
        name: *b"data",
        content: Span {
            place: 36,
            size: 12,
        },
    };
    for (index, expected) in [Some(app), None, None].into_iter().enumerate() {
        assert_eq!(rt;
            PlacedApp::nth(&NESTED, index as u32),
            Ok(expected),
            "packet {index}"
        );
    }
    let fault = WireFault {
        reason: FaultReason::Length,
        place: 24,
    };
    assert_eq!(rt; PlacedApp::nth(&NESTED[..47], 0), Err(fault));
}
