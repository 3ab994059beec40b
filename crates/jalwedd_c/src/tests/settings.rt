//! Other settings in a running session, worked by hand.

use super::calls::{Call, Changed, NO_SOURCE, Row, TestSession};
use super::sessions::{BEGINS, BEGUN, CLOCKS, ENDS, ONE_SENDER, REPORTS, ROW, SENDS};
use super::*;

/// Those of `CONFIG`.
pub(super) const USUAL: Changed<'static> = Changed {
    sender_bw: 100,
    receiver_bw: 300,
    clocks: NO_CLOCKS,
    rate: 8_000,
    ntp_base: 0,
};

pub(super) const MANY_CLOCKS: Changed<'static> = Changed {
    clocks: SEVENTEEN_CLOCKS,
    ..USUAL
};

/// A report of 20 octets, with headers of 28, takes 3 s of this bandwidth.
const NARROW: Changed<'static> = Changed {
    sender_bw: 16,
    receiver_bw: 16,
    ..USUAL
};

const TOO_NARROW: Changed<'static> = Changed {
    receiver_bw: 15,
    ..USUAL
};

/// A clock of payload type 96, and one that is not given.
const VIDEO: Changed<'static> = Changed {
    clocks: Clocks {
        count: 1,
        given: &[
            Clock {
                payload_type: 96,
                rate: 90_000,
            },
            Clock {
                payload_type: 97,
                rate: 48_000,
            },
        ],
    },
    ..USUAL
};

/// A clock without a rate, and a bandwidth that is refused first.
const STILL: Changed<'static> = Changed {
    clocks: Clocks {
        count: 1,
        given: &[Clock {
            payload_type: 96,
            rate: 0,
        }],
    },
    ..USUAL
};

const NARROW_AND_STILL: Changed<'static> = Changed {
    sender_bw: 15,
    ..STILL
};

/// A payload type that is no octet, and a bandwidth that is refused after it.
const STRANGE_TYPE: Changed<'static> = Changed {
    sender_bw: 15,
    clocks: STRANGE_CLOCK,
    ..USUAL
};

const NAME: Item = Item {
    kind: 2,
    size: 1,
    text: [b'n'; 255],
};

/// A CNAME is none of the items.
const CNAME: Item = Item { kind: 1, ..NAME };

// RTP packets without payload of source 9: 10 to 12 of payload type 96, and one of type 97.
const TEN: [u8; 12] = [0x80, 96, 0, 10, 0, 0, 0, 0, 0, 0, 0, 9];

const ELEVEN: [u8; 12] = [0x80, 96, 0, 11, 0, 0, 0, 0, 0, 0, 0, 9];

const TWELVE: [u8; 12] = [0x80, 97, 0, 12, 0, 0, 0, 0, 0, 0, 0, 9];

const THIRTEEN: [u8; 12] = [0x80, 96, 0, 13, 0, 0, 0, 0, 0, 0, 0, 9];

const WITH_NINE: HostStep = HostStep {
    members: 2,
    entries: 1,
    ..ONE_SENDER
};

const HEARD: Row<'static> = Row {
    step: WITH_NINE,
    ..ROW
};

const NINE: HostSource = HostSource {
    heard: 100_000,
    received: 1,
    highest: 11,
    ssrc: 9,
    member: 1,
    sender: 1,
    rate: 90_000,
    ..NOBODY
};

/// Packets that come count by the clocks that are given then, and so does what was counted until one comes.
const COUNTED: &[Row<'static>] = &[
    BEGINS,
    Row {
        calls: &[Call::Configure(0, VIDEO, &[NAME])],
        step: BEGUN,
        ..ROW
    },
    Row {
        calls: &[Call::Rtp(100_000, 9, 0, &TEN)],
        step: HostStep {
            entries: 1,
            ..BEGUN
        },
        ..ROW
    },
    Row {
        calls: &[Call::Rtp(100_000, 9, 0, &ELEVEN)],
        step: HostStep {
            others_changed: 1,
            ..WITH_NINE
        },
        sources: &[(0, 0, NINE)],
        ..ROW
    },
    Row {
        calls: &[Call::Rtp(100_000, 9, 0, &TWELVE)],
        sources: &[(
            0,
            0,
            HostSource {
                received: 2,
                highest: 12,
                rate: 8_000,
                ..NINE
            },
        )],
        ..HEARD
    },
    Row {
        calls: &[
            Call::Rtp(100_000, 9, 0, &THIRTEEN),
            Call::Configure(100_000, USUAL, &[]),
            Call::Configure(100_000, USUAL, &[]),
        ],
        sources: &[(
            0,
            0,
            HostSource {
                received: 3,
                highest: 13,
                ..NINE
            },
        )],
        ..HEARD
    },
    ENDS,
];

/// With less bandwidth the first report is put off: to half of 3 s, over 1.21828.
const PUT_OFF: &[Row<'static>] = &[
    BEGINS,
    Row {
        calls: &[Call::Configure(0, NARROW, &[])],
        step: BEGUN,
        ..ROW
    },
    Row {
        calls: &[Call::Tick(1_026_037)],
        step: HostStep {
            next: 1_231_245,
            ..BEGUN
        },
        ..ROW
    },
    ENDS,
];

/// A rate of 48,000 units a second, and a time of day that is 10 seconds later.
const LATER_AND_FASTER: Changed<'static> = Changed {
    rate: 48_000,
    ntp_base: 10 << 32,
    ..USUAL
};

/// 13.078111 seconds, and 147,749 units after the packet with the timestamp 1,000.
const REPORT_OF_THEN: [u8; 40] = [
    0x80, 0xc8, 0x00, 0x06, 0x00, 0x00, 0x00, 0xaa, 0x00, 0x00, 0x00, 0x0d, 0x13, 0xff, 0x15, 0x1e,
    0x00, 0x02, 0x45, 0x0d, 0x00, 0x00, 0x00, 0x01, 0x00, 0x00, 0x00, 0xa0, 0x81, 0xca, 0x00, 0x02,
    0x00, 0x00, 0x00, 0xaa, 0x01, 0x01, 0x61, 0x00,
];

/// A report tells its moment by the latest settings.
const TOLD_ANEW: &[Row<'static>] = &[
    BEGINS,
    SENDS,
    REPORTS,
    Row {
        calls: &[Call::Configure(1_026_037, LATER_AND_FASTER, &[])],
        step: HostStep {
            next: 3_078_111,
            ..ONE_SENDER
        },
        ..ROW
    },
    Row {
        calls: &[Call::Tick(3_078_111)],
        step: HostStep {
            next: 5_130_185,
            kind: 1,
            size: 40,
            ..ONE_SENDER
        },
        handed: &REPORT_OF_THEN,
        ..ROW
    },
    ENDS,
];

/// No clock has a rate of 0, or of more than 2^20.
const RATE_OF_ZERO: Changed<'static> = Changed { rate: 0, ..USUAL };

const RATE_TOO_GREAT: Changed<'static> = Changed {
    rate: (1 << 20) + 1,
    ..USUAL
};

const UNTAKEN: Row<'static> = Row {
    step: BEGUN,
    sources: &[(0, 9, NO_SOURCE)],
    ..ROW
};

/// What does not fit is told before all else, and then the first reason.
const REFUSED: &[Row<'static>] = &[
    BEGINS,
    Row {
        calls: &[
            Call::Configure(0, MANY_CLOCKS, &[NAME; 8]),
            Call::Configure(0, USUAL, &[NAME; 8]),
            Call::Configure(0, USUAL, &[CNAME]),
        ],
        status: 16,
        ..UNTAKEN
    },
    Row {
        calls: &[
            Call::Configure(0, MANY_CLOCKS, &[]),
            Call::Configure(0, STRANGE_TYPE, &[]),
            Call::Configure(0, STILL, &[CNAME]),
            Call::Configure(0, RATE_OF_ZERO, &[CNAME]),
            Call::Configure(0, RATE_TOO_GREAT, &[]),
        ],
        status: 15,
        ..UNTAKEN
    },
    Row {
        calls: &[
            Call::Configure(0, TOO_NARROW, &[CNAME]),
            Call::Configure(0, NARROW_AND_STILL, &[]),
        ],
        status: 14,
        ..UNTAKEN
    },
    // After 2^50 microseconds that is the reason.
    Row {
        calls: &[Call::Configure(1_125_899_906_842_625, TOO_NARROW, &[])],
        status: 3,
        ..UNTAKEN
    },
    ENDS,
];

static SESSIONS: [TestSession<'static>; 4] = [
    TestSession {
        name: "packets by other clocks",
        clocks: CLOCKS,
        rows: COUNTED,
    },
    TestSession {
        name: "a report that is put off",
        clocks: CLOCKS,
        rows: PUT_OFF,
    },
    TestSession {
        name: "a report by another clock",
        clocks: CLOCKS,
        rows: TOLD_ANEW,
    },
    TestSession {
        name: "settings that are refused",
        clocks: CLOCKS,
        rows: REFUSED,
    },
];

/// Each row of each session holds.
#[test]
fn settings(rt: HostRuntime) {
    let alloc = rt.alloc();
    for session in &SESSIONS {
        session.play(&rt, alloc);
    }
}
