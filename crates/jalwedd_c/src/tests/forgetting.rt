//! Sources that a host has forgotten, worked by hand.

use super::calls::{Call, Row, TestSession};
use super::sessions::{BEGINS, BEGUN, BYE_OF_SEVEN, CLOCKS, ENDS, OF_FIVE, ROW, UNLISTED};
use super::*;

/// The role of another source changed.
const ALONE_AGAIN: HostStep = HostStep {
    others_changed: 1,
    ..BEGUN
};

const WITH_ONE: HostStep = HostStep {
    members: 2,
    entries: 1,
    others_changed: 1,
    ..BEGUN
};

const WITH_BOTH: HostStep = HostStep {
    members: 3,
    entries: 2,
    ..WITH_ONE
};

/// One of two has sent a BYE.
const WITHOUT_SEVEN: HostStep = HostStep {
    members: 2,
    ..WITH_BOTH
};

const SEVEN_GONE: HostSource = HostSource {
    heard: 400_000,
    left: 400_000,
    ssrc: 7,
    ..NOBODY
};

/// Nobody is to be forgotten: the step says what the last one did, but that no role changed.
const UNCHANGED: Row<'static> = Row {
    step: HostStep {
        members: 2,
        entries: 2,
        ..BEGUN
    },
    sources: &[(6, 0, SEVEN_GONE)],
    ..ROW
};

/// HostSource 7 is forgotten, and comes again. Once it has sent a BYE its entry stays.
const FORGETTING: &[Row<'static>] = &[
    BEGINS,
    Row {
        calls: &[Call::Rtcp(300_000, &OF_SEVEN)],
        step: WITH_ONE,
        ..ROW
    },
    Row {
        calls: &[Call::Forget(299_999, 7)],
        status: 2,
        step: HostStep {
            others_changed: 0,
            ..WITH_ONE
        },
        ..ROW
    },
    Row {
        calls: &[Call::Forget(300_000, 7)],
        step: ALONE_AGAIN,
        sources: UNLISTED,
        ..ROW
    },
    Row {
        calls: &[
            Call::Forget(300_000, 7),
            Call::Forget(300_000, 0xaa),
            Call::Forget(300_000, 0),
        ],
        step: BEGUN,
        sources: UNLISTED,
        ..ROW
    },
    Row {
        calls: &[Call::Rtcp(400_000, &OF_FIVE)],
        step: WITH_ONE,
        ..ROW
    },
    Row {
        calls: &[Call::Rtcp(400_000, &OF_SEVEN)],
        step: WITH_BOTH,
        ..ROW
    },
    Row {
        calls: &[Call::Rtcp(400_000, &BYE_OF_SEVEN)],
        step: WITHOUT_SEVEN,
        sources: &[(6, 0, SEVEN_GONE)],
        ..ROW
    },
    Row {
        calls: &[Call::Forget(400_000, 7)],
        ..UNCHANGED
    },
    ENDS,
];

static SESSION: TestSession<'static> = TestSession {
    name: "a source that is forgotten",
    clocks: CLOCKS,
    rows: FORGETTING,
};

/// Each row of the session holds.
#[test]
fn forgetting(rt: HostRuntime) {
    SESSION.play(&rt, rt.alloc());
}
