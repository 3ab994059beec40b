//! The parts of datagrams that were made by hand, by index and by cursor: what is told of each part is worked there.

use super::*;
use crate::parts::{
    jalwedd_app, jalwedd_block, jalwedd_goodbye, jalwedd_sdes_item, jalwedd_sender,
};
use crate::walks::{
    jalwedd_next_app, jalwedd_next_block, jalwedd_next_goodbye, jalwedd_next_sdes_item,
    jalwedd_next_sender,
};
use std::process::Abort;

/// A sender report of 9, with a block about 0xaa; a receiver report of 7, with one about 0xbb; chunks of 5, with no
/// items, and of 9; and three BYEs.
const ALL_PARTS: [u8; 144] = [
    0x81, 0xc8, 0, 12, 0, 0, 0, 9, 0xb7, 0x10, 0x80, 0, 0, 0, 0, 5, 0, 0, 0x23, 0xf8, 0, 0, 0, 2,
    0, 0, 1, 0x40, // of 9: NTP and RTP timestamps, packets, octets
    0, 0, 0, 0xaa, 25, 0, 0, 3, 0, 0, 0, 11, 0, 0, 0, 4, 0, 0, 0, 1, 0, 0, 0, 2, // about 0xaa
    0x81, 0xc9, 0, 7, 0, 0, 0, 7, // of 7
    0, 0, 0, 0xbb, 0, 0xff, 0xff, 0xff, 0, 0, 0, 12, 0, 0, 0, 0, 0, 0, 0, 0, 0, 0, 0, 0, // about 0xbb
    0x82, 0xca, 0, 5, 0, 0, 0, 5, 0, 0, 0, 0, // octet 84: a chunk without items
    0, 0, 0, 9, 1, 2, 0x61, 0x62, 7, 0, 0, 0, // octet 96: the CNAME `ab`, and a NOTE of 0 octets
    0x82, 0xcb, 0, 3, 0, 0, 0, 9, 0, 0, 0, 7, 1, 0x63, 0, 0, // octet 108: 9 and 7 leave, and say `c`
    0x81, 0xcb, 0, 2, 0, 0, 0, 5, 0, 0, 0, 0, // octet 124: 5 leaves, with a reason of 0 octets
    0x81, 0xcb, 0, 1, 0, 0, 0, 4, // octet 136: 4 leaves, with none
];

/// A receiver report of 7; an APP of it with subtype 5 and name `qtsi`, one word of data and a word of padding; its
/// CNAME; and an APP of 9 with subtype 0 and name `none`, without data. By RFC 3550, 6.7.
const APPS: [u8; 52] = [
    0x80, 0xc9, 0x00, 0x01, 0x00, 0x00, 0x00, 0x07, 0xa5, 0xcc, 0x00, 0x04, 0x00, 0x00, 0x00, 0x07,
    0x71, 0x74, 0x73, 0x69, 0x01, 0x02, 0x03, 0x04, 0x00, 0x00, 0x00, 0x04, 0x81, 0xca, 0x00, 0x02,
    0x00, 0x00, 0x00, 0x07, 0x01, 0x01, 0x61, 0x00, 0x80, 0xcc, 0x00, 0x02, 0x00, 0x00, 0x00, 0x09,
    0x6e, 0x6f, 0x6e, 0x65,
];

/// A part as it is told.
#[derive(Clone, Copy, PartialEq, Eq)]
enum Part {
    Sender(SenderInfo),
    Block(Report),
    Item(ItemPlace),
    Goodbye(GoodbyePlace),
    App(AppPlace),
}

impl Part {
    /// Asks for the part of this kind at an index. Returns the status.
    fn at(&mut self, datagram: &[u8], index: u32) -> u32 {
        match self {
            Part::Sender(sender) => jalwedd_sender(datagram, index, sender),
            Part::Block(report) => jalwedd_block(datagram, index, report),
            Part::Item(item) => jalwedd_sdes_item(datagram, index, item),
            Part::Goodbye(goodbye) => jalwedd_goodbye(datagram, index, goodbye),
            Part::App(app) => jalwedd_app(datagram, index, app),
        }
    }

    /// Asks for the next part of this kind. Returns the status.
    fn next(&mut self, datagram: &[u8], cursor: &mut Cursor) -> u32 {
        match self {
            Part::Sender(sender) => jalwedd_next_sender(datagram, cursor, sender),
            Part::Block(report) => jalwedd_next_block(datagram, cursor, report),
            Part::Item(item) => jalwedd_next_sdes_item(datagram, cursor, item),
            Part::Goodbye(goodbye) => jalwedd_next_goodbye(datagram, cursor, goodbye),
            Part::App(app) => jalwedd_next_app(datagram, cursor, app),
        }
    }
}

/// A datagram and all its parts of one kind.
struct Walk<'a> {
    datagram: &'a [u8],
    /// One of that kind that no call wrote.
    untold: Part,
    parts: &'a [Part],
}

// What no call wrote.
const NO_SENDER: Part = Part::Sender(SenderInfo {
    ntp: 99,
    ssrc: 99,
    rtp: 99,
    packets: 99,
    octets: 99,
});

const NO_BLOCK: Part = Part::Block(NO_REPORT);

const NO_ITEM: Part = Part::Item(ItemPlace {
    offset: 99,
    size: 99,
    ssrc: 99,
    kind: 99,
});

const NO_GOODBYE: Part = Part::Goodbye(GoodbyePlace {
    offset: 99,
    size: 99,
    ssrc: 99,
    has_reason: 99,
});

const NO_APP: Part = Part::App(AppPlace {
    offset: 99,
    size: 99,
    ssrc: 99,
    subtype: 99,
    name: [0; 4],
});

/// 9 and 7 leave in one packet, with one reason.
const BOTH_LEAVE: GoodbyePlace = GoodbyePlace {
    offset: 121,
    size: 1,
    ssrc: 9,
    has_reason: 1,
};

static WALKS: [Walk<'static>; 6] = [
    Walk {
        datagram: &ALL_PARTS,
        untold: NO_SENDER,
        parts: &[Part::Sender(SenderInfo {
            ntp: 0xb710_8000_0000_0005,
            ssrc: 9,
            rtp: 9_208,
            packets: 2,
            octets: 320,
        })],
    },
    Walk {
        datagram: &ALL_PARTS,
        untold: NO_BLOCK,
        parts: &[
            Part::Block(Report {
                reporter: 9,
                ssrc: 0xaa,
                fraction: 25,
                lost: 3,
                highest: 11,
                jitter: 4,
                lsr: 1,
                dlsr: 2,
            }),
            Part::Block(Report {
                reporter: 7,
                ssrc: 0xbb,
                fraction: 0,
                lost: -1,
                highest: 12,
                jitter: 0,
                lsr: 0,
                dlsr: 0,
            }),
        ],
    },
    Walk {
        datagram: &ALL_PARTS,
        untold: NO_ITEM,
        parts: &[
            Part::Item(ItemPlace {
                offset: 102,
                size: 2,
                ssrc: 9,
                kind: 1,
            }),
            Part::Item(ItemPlace {
                offset: 106,
                size: 0,
                ssrc: 9,
                kind: 7,
            }),
        ],
    },
    Walk {
        datagram: &ALL_PARTS,
        untold: NO_GOODBYE,
        parts: &[
            Part::Goodbye(BOTH_LEAVE),
            Part::Goodbye(GoodbyePlace {
                ssrc: 7,
                ..BOTH_LEAVE
            }),
            Part::Goodbye(GoodbyePlace {
                offset: 133,
                size: 0,
                ssrc: 5,
                has_reason: 1,
            }),
            Part::Goodbye(GoodbyePlace {
                offset: 0,
                size: 0,
                ssrc: 4,
                has_reason: 0,
            }),
        ],
    },
    Walk {
        datagram: &APPS,
        untold: NO_APP,
        parts: &[
            Part::App(AppPlace {
                offset: 20,
                size: 4,
                ssrc: 7,
                subtype: 5,
                name: *b"qtsi",
            }),
            Part::App(AppPlace {
                offset: 52,
                size: 0,
                ssrc: 9,
                subtype: 0,
                name: *b"none",
            }),
        ],
    },
    Walk {
        datagram: &OF_SEVEN,
        untold: NO_APP,
        parts: &[],
    },
];

impl Walk<'_> {
    /// By both ways each part is told in turn, and after the last one none, again and again.
    fn goes(&self, rt: &impl Abort, number: usize) {
        let (mut part, mut next, mut cursor) = (self.untold, self.untold, Cursor::default());
        let mut index = 0_u32;
        for wanted in self.parts {
            let found = part.at(self.datagram, index);
            let gone_on = next.next(self.datagram, &mut cursor);
            assert_eq!(rt; (found, gone_on), (0, 0), "walk {number}, {index}");
            assert!(rt;
                part == *wanted && next == *wanted,
                "walk {number}, {index}"
            );
            index = index.saturating_add(1);
        }
        let last = part;
        let found = [
            part.at(self.datagram, index),
            next.next(self.datagram, &mut cursor),
            next.next(self.datagram, &mut cursor),
        ];
        assert_eq!(rt; found, [8; 3], "walk {number}");
        assert!(rt; part == last && next == last, "walk {number}");
    }

    /// Of no octets, and of a datagram that is cut short, no part is told, and no walk begins.
    fn is_refused(&self, rt: &impl Abort, number: usize) {
        let short = &self.datagram[..self.datagram.len().saturating_sub(1)];
        let (mut part, mut cursor) = (self.untold, Cursor::default());
        let found = [
            part.at(&[], 0),
            part.at(short, 0),
            part.next(&[], &mut cursor),
            part.next(short, &mut cursor),
        ];
        assert_eq!(rt; found, [5; 4], "walk {number}");
        assert!(rt;
            part == self.untold && cursor == Cursor::default(),
            "walk {number}"
        );
    }
}

/// The parts of each datagram are told as its row says.
#[test]
fn parts(rt: HostRuntime) {
    for (number, walk) in WALKS.iter().enumerate() {
        walk.goes(&rt, number);
        walk.is_refused(&rt, number);
    }
}

/// Where a walk begins over a datagram that is cut short, the cursor is left as it was: so the walk may begin again. It
/// then goes on over other octets, which it does not test again.
#[test]
fn cursors(rt: HostRuntime) {
    let (mut item, mut cursor) = (NO_ITEM, Cursor::default());
    for (size, status) in [(143, 5), (144, 0), (110, 0), (10, 8)] {
        let found = item.next(&ALL_PARTS[..size], &mut cursor);
        assert_eq!(rt; found, status, "with {size} octets");
        let is_untouched = item == NO_ITEM && cursor == Cursor::default();
        assert_eq!(rt; is_untouched, status == 5, "with {size} octets");
    }
}
