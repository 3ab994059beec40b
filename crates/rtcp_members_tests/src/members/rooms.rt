//! Who is admitted, held and dropped, over any table.

use super::session::{Call, Script, Seen};
use super::*;
use std::process::Abort;
use std::test::*;

/// Rooms, silence, and those that left.
pub(crate) static ROOMS: [Script; 3] = [
    Script {
        name: "a full table of two, in which the first leaves",
        capacity: 2,
        rows: &[
            (Call::Fact(Fact::Heard(1), 0), Seen::At(Place::Added)),
            (Call::Ask, Seen::Counts(0, 0)),
            (Call::Fact(Fact::Named(1), 0), Seen::At(Place::Kept)),
            (Call::Ask, Seen::Counts(1, 0)),
            (Call::Fact(Fact::Heard(2), 0), Seen::At(Place::Added)),
            (Call::Ask, Seen::Counts(1, 0)),
            (Call::Fact(Fact::Heard(3), 0), Seen::At(Place::NoRoom)),
            (Call::Ask, Seen::Counts(1, 0)),
            (Call::Fact(Fact::Gone(9), 0), Seen::At(Place::Ignored)),
            (Call::Ask, Seen::Counts(1, 0)),
            (Call::Fact(Fact::Gone(1), 1_000_000), Seen::At(Place::Left)),
            (Call::Ask, Seen::Counts(0, 0)),
            (
                Call::Fact(Fact::Heard(1), 1_000_001),
                Seen::At(Place::Ignored),
            ),
            (Call::Ask, Seen::Counts(0, 0)),
            (Call::Check(5_999_999, 0, 0, 1_000_000), Seen::Dropped(0, 0)),
            (Call::Check(6_000_000, 0, 0, 1_000_001), Seen::Dropped(1, 0)),
            (
                Call::Fact(Fact::Heard(3), 6_000_000),
                Seen::At(Place::Added),
            ),
        ],
    },
    // A BYE is no sighting.
    Script {
        name: "a source is dropped where its last sighting lies before the horizon, and not at it",
        capacity: 2,
        rows: &[
            (Call::Fact(Fact::Heard(7), 0), Seen::At(Place::Added)),
            (Call::Check(1, 0, 0, 0), Seen::Dropped(0, 0)),
            (Call::Check(1, 1, 0, 0), Seen::Dropped(1, 0)),
            (Call::Fact(Fact::Heard(8), 10), Seen::At(Place::Added)),
            (Call::Fact(Fact::Gone(8), 20), Seen::At(Place::Left)),
            (Call::Check(30, 11, 0, 0), Seen::Dropped(1, 0)),
        ],
    },
    Script {
        name: "whoever was admitted is held until a check drops it, whether it was only heard or has left",
        capacity: 2,
        rows: &[
            (Call::Holds(1), Seen::Holds(false)),
            (Call::Fact(Fact::Heard(1), 0), Seen::Any),
            (Call::Fact(Fact::Named(2), 0), Seen::Any),
            (Call::Fact(Fact::Heard(3), 0), Seen::Any),
            (Call::Fact(Fact::Gone(2), 10), Seen::Any),
            (Call::Holds(1), Seen::Holds(true)),
            (Call::Holds(2), Seen::Holds(true)),
            (Call::Holds(3), Seen::Holds(false)),
            (Call::Check(20, 0, 0, 11), Seen::Any),
            (Call::Holds(1), Seen::Holds(true)),
            (Call::Holds(2), Seen::Holds(false)),
            (Call::Check(20, 1, 0, 0), Seen::Any),
            (Call::Holds(1), Seen::Holds(false)),
        ],
    },
];

/// A table of 1,024, named in falling order, has no room for one source more, until one is forgotten.
pub(crate) fn full<T: InlineTable + Drop>(rt: &impl Abort) {
    let mut session: Session<T> = Session::new(1_024);
    'ssrcs: for below in 0..1_024 {
        let place = session.place(Fact::Named(2_000 - below), 0);
        assert_eq!(rt; place, Some(Place::Added));
    }
    let seen = [
        (session.place(Fact::Named(976), 0), session.members()),
        (session.place(Fact::Named(977), 0), session.members()),
        (session.place(Fact::Gone(1_500), 0), session.members()),
    ];
    assert_eq!(rt;
        seen,
        [
            (Some(Place::NoRoom), 1_024),
            (Some(Place::Kept), 1_024),
            (Some(Place::Left), 1_023),
        ]
    );
    assert!(rt; session.forget(977) && !session.forget(1_500));
    let seen = [
        (session.place(Fact::Named(976), 0), session.members()),
        (session.place(Fact::Named(977), 0), session.members()),
    ];
    assert_eq!(rt;
        seen,
        [(Some(Place::Added), 1_023), (Some(Place::NoRoom), 1_023)]
    );
}
