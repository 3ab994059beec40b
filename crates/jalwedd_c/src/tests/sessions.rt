//! Worked sessions, on clocks that show anything at the start: all is as from 0, shifted by that.

use super::calls::{Call, NO_SOURCE, Row, TestSession};
use super::settings::{MANY_CLOCKS, USUAL};
use super::*;

/// A clock of a host that has run for ten minutes.
const TEN_MINUTES: u64 = 600_000_000;

/// CLOCK_REALTIME in November 2023: microseconds since 1970.
const REALTIME: u64 = 1_700_000_000_000_000;

pub(super) const CLOCKS: &[u64] = &[0, 1, TEN_MINUTES, REALTIME, LATEST];

/// The sender report of a participant that sent one packet of 160 octets, with its CNAME `a`.
const SENDER_REPORT: [u8; 40] = [
    0x80, 0xc8, 0x00, 0x06, 0x00, 0x00, 0x00, 0xaa, 0x00, 0x00, 0x00, 0x01, 0x06, 0xaa, 0x5c, 0x5f,
    0x00, 0x00, 0x23, 0xf8, 0x00, 0x00, 0x00, 0x01, 0x00, 0x00, 0x00, 0xa0, 0x81, 0xca, 0x00, 0x02,
    0x00, 0x00, 0x00, 0xaa, 0x01, 0x01, 0x61, 0x00,
];

/// Its BYE.
const BYE: [u8; 28] = [
    0x80, 0xc9, 0x00, 0x01, 0x00, 0x00, 0x00, 0xaa, 0x81, 0xca, 0x00, 0x02, 0x00, 0x00, 0x00, 0xaa,
    0x01, 0x01, 0x61, 0x00, 0x81, 0xcb, 0x00, 0x01, 0x00, 0x00, 0x00, 0xaa,
];

/// A sender report of source 5 without blocks, and its CNAME `a`.
pub(super) const OF_FIVE: [u8; 40] = [
    0x80, 0xc8, 0, 6, 0, 0, 0, 5, 0, 0, 0, 9, 0x80, 0, 0, 0, 0, 0, 0x23, 0xf8, 0, 0, 0, 2, 0, 0, 1,
    0x40, // NTP and RTP timestamps, packets, octets
    0x81, 0xca, 0, 2, 0, 0, 0, 5, 1, 1, 0x61, 0,
];

/// A BYE of source 7, after a receiver report of 5.
pub(super) const BYE_OF_SEVEN: [u8; 16] = [
    0x80, 0xc9, 0, 1, 0, 0, 0, 5, 0x81, 0xcb, 0, 1, 0, 0, 0, 7,
];

// RTP packets without payload: 1, 10 and 11 of source 9, and 12 of the own SSRC.
const FIRST_OF_NINE: [u8; 12] = [0x80, 0, 0, 1, 0, 0, 0, 0, 0, 0, 0, 9];

const TEN_OF_NINE: [u8; 12] = [0x80, 0, 0, 10, 0, 0, 0, 0, 0, 0, 0, 9];

const ELEVEN_OF_NINE: [u8; 12] = [0x80, 0, 0, 11, 0, 0, 0, 0, 0, 0, 0, 9];

const TWELVE_OF_OURS: [u8; 12] = [0x80, 0, 0, 12, 0, 0, 0, 0, 0, 0, 0, 0xaa];

/// The first interval is 2.5 s, of which the words 0 and 2^32 - 1 draw half and one and a half, over 1.21828.
pub(super) const BEGUN: HostStep = HostStep {
    next: 1_026_037,
    members: 1,
    ssrc: 0xaa,
    ..BLANK
};

const BEGUN_LATE: HostStep = HostStep {
    next: 3_078_111,
    ..BEGUN
};

/// One member sends RTP packets.
pub(super) const ONE_SENDER: HostStep = HostStep {
    senders: 1,
    ..BEGUN
};

/// It has left.
const GONE: HostStep = HostStep {
    ssrc: 0xaa,
    ..BLANK
};

/// It leaves with a BYE.
const LEAVING: HostStep = HostStep {
    kind: 2,
    size: 28,
    ..GONE
};

/// A call that is taken, of which nothing is seen but a blank step.
pub(super) const ROW: Row<'static> = Row {
    calls: &[],
    status: 0,
    step: BLANK,
    handed: &[],
    sources: &[],
};

pub(super) const BEGINS: Row<'static> = Row {
    calls: &[Call::New(0, 0)],
    step: BEGUN,
    ..ROW
};

pub(super) const ENDS: Row<'static> = Row {
    calls: &[Call::Free],
    ..ROW
};

pub(super) const SENDS: Row<'static> = Row {
    calls: &[Call::Sent(0, 1_000, 160)],
    step: ONE_SENDER,
    ..ROW
};

const TICKS_EARLY: Row<'static> = Row {
    calls: &[Call::Tick(1_026_036)],
    step: ONE_SENDER,
    ..ROW
};

pub(super) const REPORTS: Row<'static> = Row {
    calls: &[Call::Tick(1_026_037)],
    step: HostStep {
        next: 3_078_111,
        kind: 1,
        size: 40,
        ..ONE_SENDER
    },
    handed: &SENDER_REPORT,
    ..ROW
};

const LEAVES: Row<'static> = Row {
    calls: &[Call::Leave(1_026_037)],
    step: LEAVING,
    handed: &BYE,
    ..ROW
};

/// The seven calls at a moment.
const AT_ZERO: &[Call<'static>] = &[
    Call::Rtcp(0, &OF_SEVEN),
    Call::Rtp(0, 1, 0, &FIRST_OF_NINE),
    Call::Sent(0, 0, 0),
    Call::Tick(0),
    Call::Configure(0, USUAL, &[]),
    Call::Forget(0, 7),
    Call::Leave(0),
];

const JUST_BEFORE: &[Call<'static>] = &[
    Call::Rtcp(599_999_999, &OF_SEVEN),
    Call::Rtp(599_999_999, 1, 0, &FIRST_OF_NINE),
    Call::Sent(599_999_999, 0, 0),
    Call::Tick(599_999_999),
    Call::Configure(599_999_999, USUAL, &[]),
    Call::Forget(599_999_999, 7),
    Call::Leave(599_999_999),
];

const AT_TEN_MINUTES: &[Call<'static>] = &[
    Call::Rtcp(TEN_MINUTES, &OF_SEVEN),
    Call::Rtp(TEN_MINUTES, 1, 0, &FIRST_OF_NINE),
    Call::Sent(TEN_MINUTES, 0, 0),
    Call::Tick(TEN_MINUTES),
    Call::Configure(TEN_MINUTES, USUAL, &[]),
    Call::Forget(TEN_MINUTES, 7),
    Call::Leave(TEN_MINUTES),
];

/// What is told where nobody is listed.
pub(super) const UNLISTED: &[(u64, u32, HostSource)] = &[(0, 9, NO_SOURCE)];

/// What an empty handle tells.
const EMPTY: Row<'static> = Row {
    calls: AT_ZERO,
    status: 20,
    sources: UNLISTED,
    ..ROW
};

const ENDS_AGAIN: Row<'static> = Row { status: 20, ..ENDS };

/// A packet is sent, a report goes out, another is heard, and the participant leaves with a BYE.
const REPORTING: &[Row<'static>] = &[
    BEGINS,
    SENDS,
    TICKS_EARLY,
    REPORTS,
    Row {
        calls: &[Call::Rtcp(1_026_037, &OF_SEVEN)],
        step: HostStep {
            next: 3_078_111,
            members: 2,
            entries: 1,
            others_changed: 1,
            ..ONE_SENDER
        },
        sources: &[
            (0, 0, SEVEN),
            (7, 0, SEVEN),
            (8, 9, NO_SOURCE),
            (u64::MAX, 9, NO_SOURCE),
        ],
        ..ROW
    },
    Row {
        step: HostStep {
            others_changed: 1,
            ..LEAVING
        },
        sources: UNLISTED,
        ..LEAVES
    },
    Row {
        calls: &[Call::Tick(3_078_111)],
        status: 1,
        step: GONE,
        ..ROW
    },
    ENDS,
];

/// Two packets make a sender a member, and one that has the own SSRC changes that: 0xaa is then another source.
const COLLIDING: &[Row<'static>] = &[
    BEGINS,
    Row {
        calls: &[Call::Rtp(0, 7, 0xbb, &TEN_OF_NINE)],
        step: HostStep {
            entries: 1,
            ..BEGUN
        },
        ..ROW
    },
    Row {
        calls: &[Call::Rtp(0, 7, 0xbb, &ELEVEN_OF_NINE)],
        step: HostStep {
            members: 2,
            senders: 1,
            entries: 1,
            others_changed: 1,
            ..BEGUN
        },
        ..ROW
    },
    Row {
        calls: &[Call::Rtp(0, 7, 0xbb, &TWELVE_OF_OURS)],
        step: HostStep {
            members: 2,
            senders: 1,
            ssrc: 0xbb,
            changed: 1,
            entries: 2,
            ..BEGUN
        },
        ..ROW
    },
    ENDS,
];

/// A packet of more octets than UDP carries changes nothing, and its moment is that of no call.
const OVERSIZED: &[Row<'static>] = &[
    BEGINS,
    Row {
        calls: &[Call::Rtp(5, 7, 0, &TOO_LONG)],
        status: 23,
        step: BEGUN,
        sources: UNLISTED,
        ..ROW
    },
    Row {
        calls: &[Call::Rtp(0, 7, 0, &LONGEST)],
        step: HostStep {
            entries: 1,
            ..BEGUN
        },
        ..ROW
    },
    ENDS,
];

/// The most octets that UDP carries.
const LONGEST: [u8; 65_535] = [0x80; 65_535];

/// 9 sends two RTP packets 0.1 s after the start, 5 reports after 0.2 s, 7 joins after 0.3 s, and leaves after 0.4 s,
/// when 5 is heard again.
const LISTED: &[Row<'static>] = &[
    BEGINS,
    Row {
        calls: &[Call::Rtp(100_000, 9, 0, &TEN_OF_NINE)],
        step: HostStep {
            entries: 1,
            ..BEGUN
        },
        ..ROW
    },
    Row {
        calls: &[Call::Rtp(100_000, 9, 0, &ELEVEN_OF_NINE)],
        step: HostStep {
            members: 2,
            entries: 1,
            others_changed: 1,
            ..ONE_SENDER
        },
        ..ROW
    },
    Row {
        calls: &[Call::Rtcp(200_000, &OF_FIVE)],
        step: HostStep {
            members: 3,
            entries: 2,
            others_changed: 1,
            ..ONE_SENDER
        },
        ..ROW
    },
    Row {
        calls: &[Call::Rtcp(300_000, &OF_SEVEN)],
        step: HostStep {
            members: 4,
            entries: 3,
            others_changed: 1,
            ..ONE_SENDER
        },
        ..ROW
    },
    Row {
        calls: &[Call::Rtcp(400_000, &BYE_OF_SEVEN)],
        step: HostStep {
            members: 3,
            entries: 3,
            others_changed: 1,
            ..ONE_SENDER
        },
        sources: &[(0, 0, FIVE), (6, 0, SEVEN_GONE), (8, 0, NINE)],
        ..ROW
    },
    ENDS,
];

const FIVE: HostSource = HostSource {
    heard: 400_000,
    told: 200_000,
    ntp: 0x0000_0009_8000_0000,
    rtp: 0x23f8,
    ssrc: 5,
    member: 1,
    ..NOBODY
};

const SEVEN_GONE: HostSource = HostSource {
    heard: 300_000,
    left: 400_000,
    ssrc: 7,
    ..NOBODY
};

const NINE: HostSource = HostSource {
    heard: 100_000,
    received: 1,
    highest: 11,
    ssrc: 9,
    member: 1,
    sender: 1,
    rate: 8_000,
    ..NOBODY
};

/// A call before the start comes too early, or after the end: it changes nothing.
const TOO_EARLY: &[Row<'static>] = &[
    Row {
        calls: &[Call::New(TEN_MINUTES, 0)],
        ..BEGUN_IN_TEN_MINUTES
    },
    Row {
        calls: AT_ZERO,
        status: 2,
        ..BEGUN_IN_TEN_MINUTES
    },
    Row {
        calls: JUST_BEFORE,
        status: 2,
        ..BEGUN_IN_TEN_MINUTES
    },
    Row {
        calls: &[Call::Rtp(0, 1, 0, &TOO_LONG)],
        status: 23,
        ..BEGUN_IN_TEN_MINUTES
    },
    Row {
        calls: &[Call::Configure(0, MANY_CLOCKS, &[])],
        status: 15,
        ..BEGUN_IN_TEN_MINUTES
    },
    Row {
        calls: &[Call::Leave(TEN_MINUTES)],
        step: GONE,
        ..ROW
    },
    Row {
        calls: JUST_BEFORE,
        status: 1,
        step: GONE,
        ..ROW
    },
    Row {
        calls: AT_TEN_MINUTES,
        status: 1,
        step: GONE,
        ..ROW
    },
    ENDS,
];

const BEGUN_IN_TEN_MINUTES: Row<'static> = Row {
    step: HostStep {
        next: 601_026_037,
        ..BEGUN
    },
    ..ROW
};

static SESSIONS: [TestSession<'static>; 8] = [
    TestSession {
        name: "a session with a report",
        clocks: CLOCKS,
        rows: REPORTING,
    },
    TestSession {
        name: "nobody else is heard",
        clocks: CLOCKS,
        rows: &[BEGINS, SENDS, TICKS_EARLY, REPORTS, LEAVES, ENDS],
    },
    TestSession {
        name: "arrivals",
        clocks: &[0],
        rows: COLLIDING,
    },
    TestSession {
        name: "a packet that is too long",
        clocks: &[0],
        rows: OVERSIZED,
    },
    TestSession {
        name: "a listing",
        clocks: CLOCKS,
        rows: LISTED,
    },
    TestSession {
        name: "calls before the start",
        clocks: &[0],
        rows: TOO_EARLY,
    },
    TestSession {
        name: "a handle that is live, and empty then",
        clocks: CLOCKS,
        rows: &[
            Row {
                calls: &[Call::New(0, u32::MAX)],
                step: BEGUN_LATE,
                ..ROW
            },
            Row {
                calls: &[Call::New(0, 0)],
                status: 21,
                step: BEGUN_LATE,
                ..ROW
            },
            ENDS,
            ENDS_AGAIN,
            EMPTY,
        ],
    },
    TestSession {
        name: "a handle that never held a participant",
        clocks: &[0],
        rows: &[EMPTY, ENDS_AGAIN],
    },
];

/// Each row of each session holds.
#[test]
fn sessions(rt: HostRuntime) {
    let alloc = rt.alloc();
    for session in &SESSIONS {
        session.play(&rt, alloc);
    }
}
