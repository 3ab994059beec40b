//! What changed between two listings, worked by hand.

use super::*;
use crate::change::jalwedd_change;

const MEMBER: HostSource = HostSource {
    member: 1,
    ..NOBODY
};

const SENDER: HostSource = HostSource {
    sender: 1,
    ..MEMBER
};

const GONE: HostSource = HostSource { left: 7, ..NOBODY };

const FIRST_MEMBER: HostSource = HostSource { ssrc: 1, ..MEMBER };

const FIRST_SENDER: HostSource = HostSource { ssrc: 1, ..SENDER };

const SECOND_GONE: HostSource = HostSource { ssrc: 2, ..GONE };

const THIRD_MEMBER: HostSource = HostSource { ssrc: 3, ..MEMBER };

/// Sources on probation, of which no more is told.
const SECOND_UNKNOWN: HostSource = HostSource { ssrc: 2, ..NOBODY };

const FIFTH_UNKNOWN: HostSource = HostSource { ssrc: 5, ..NOBODY };

const SIXTH_UNKNOWN: HostSource = HostSource { ssrc: 6, ..NOBODY };

/// The greatest SSRC.
const LAST: u32 = u32::MAX;

/// Any number but 0 is as 1.
const LISTED: HostSource = HostSource {
    ssrc: 1,
    member: 7,
    sender: u32::MAX,
    ..NOBODY
};

/// No moment but 2^64 - 1 says that a source did not leave.
const NOT_VALID: HostSource = HostSource {
    ssrc: 1,
    sender: 1,
    left: 0,
    ..NOBODY
};

/// 1 timed out, 2 left, 3 began to send, 4 stopped, 5 came on probation, 6 is valid now, and 7 stays. The
/// greatest SSRC joined.
const BEFORE: &[HostSource] = &[
    FIRST_MEMBER,
    HostSource { ssrc: 2, ..SENDER },
    THIRD_MEMBER,
    HostSource { ssrc: 4, ..SENDER },
    SIXTH_UNKNOWN,
    HostSource { ssrc: 7, ..MEMBER },
];

const AFTER: &[HostSource] = &[
    SECOND_GONE,
    HostSource { ssrc: 3, ..SENDER },
    HostSource { ssrc: 4, ..MEMBER },
    FIFTH_UNKNOWN,
    HostSource { ssrc: 6, ..MEMBER },
    HostSource { ssrc: 7, ..MEMBER },
    HostSource {
        ssrc: LAST,
        ..SENDER
    },
];

const BOTH: &[HostSource] = &[FIRST_MEMBER, HostSource { ssrc: 9, ..SENDER }];

/// A change by its SSRC, the roles before and after, and whether the source left.
type Moved = (u32, u32, u32, u32);

/// Two listings, and the changes between them.
type Listings = (
    &'static [HostSource],
    &'static [HostSource],
    &'static [Moved],
);

static LISTINGS: [Listings; 11] = [
    (
        BEFORE,
        AFTER,
        &[
            (1, 1, 0, 0),
            (2, 2, 0, 1),
            (3, 1, 2, 0),
            (4, 2, 1, 0),
            (6, 0, 1, 0),
            (LAST, 0, 2, 0),
        ],
    ),
    (&[], &[], &[]),
    (&[FIRST_MEMBER], &[FIRST_MEMBER], &[]),
    // One that left and is then dropped, and one that left on probation, took no part.
    (
        &[SECOND_GONE, FIFTH_UNKNOWN],
        &[HostSource { ssrc: 5, ..GONE }],
        &[],
    ),
    (&[], &[HostSource { ssrc: 1, ..GONE }, SECOND_UNKNOWN], &[]),
    // Nobody was listed before, or nobody is now.
    (&[], BOTH, &[(1, 0, 1, 0), (9, 0, 2, 0)]),
    (BOTH, &[], &[(1, 1, 0, 0), (9, 2, 0, 0)]),
    (&[], &[SEVEN], &[(7, 0, 1, 0)]),
    // A host may have written any number.
    (&[], &[LISTED], &[(1, 0, 2, 0)]),
    (&[FIRST_SENDER], &[LISTED], &[]),
    (&[LISTED], &[NOT_VALID], &[(1, 2, 0, 1)]),
];

/// Two listings, where to begin, the status, and the change as it is then.
type Ask = (
    &'static [HostSource],
    &'static [HostSource],
    u64,
    u32,
    Moved,
);

const RISING: &[HostSource] = &[FIRST_MEMBER, THIRD_MEMBER];

const TWICE: &[HostSource] = &[FIRST_MEMBER, FIRST_SENDER];

const FALLING: &[HostSource] = &[MEMBER, THIRD_MEMBER, HostSource { ssrc: 2, ..MEMBER }];

static ASKS: [Ask; 8] = [
    (BEFORE, AFTER, 2, 0, (2, 2, 0, 1)),
    (BEFORE, AFTER, 5, 0, (6, 0, 1, 0)),
    (BEFORE, AFTER, 1 << 32, 9, UNTOLD),
    (BEFORE, AFTER, u64::MAX, 9, UNTOLD),
    // A listing with an SSRC twice, or with a lower one after a higher one, is refused as a whole.
    (TWICE, RISING, 0, 10, UNTOLD),
    (RISING, TWICE, 0, 10, UNTOLD),
    (FALLING, RISING, 0, 10, UNTOLD),
    (RISING, FALLING, u64::MAX, 10, UNTOLD),
];

/// What no call wrote.
const UNTOLD: Moved = (99, 99, 99, 99);

/// What a call tells: its status, and the change as it then is.
fn told(before: &[HostSource], after: &[HostSource], from: u64) -> (u32, Moved) {
    let (ssrc, was, is, left) = UNTOLD;
    let mut change = RoleChange {
        ssrc,
        was,
        is,
        left,
    };
    let status = jalwedd_change(before, after, from, &mut change);
    (status, (change.ssrc, change.was, change.is, change.left))
}

/// Begun with 0, the changes are those, one after the other, and no more.
fn are(before: &[HostSource], after: &[HostSource], changes: &[Moved]) -> bool {
    let mut from = 0;
    for change in changes {
        if told(before, after, from) != (0, *change) {
            return false;
        }
        from = u64::from(change.0) + 1;
    }
    told(before, after, from) == (9, UNTOLD)
}

/// The changes between two listings are told in turn.
#[test]
fn changes(rt: HostRuntime) {
    for (number, (before, after, wanted)) in LISTINGS.iter().enumerate() {
        assert!(rt; are(before, after, wanted), "row {number}");
    }
}

/// Begun anywhere, the next change is told; and listings that do not rise are refused.
#[test]
fn asks(rt: HostRuntime) {
    for (number, (before, after, from, status, change)) in ASKS.iter().enumerate() {
        let found = told(before, after, *from);
        assert!(rt; found == (*status, *change), "row {number}");
    }
}
