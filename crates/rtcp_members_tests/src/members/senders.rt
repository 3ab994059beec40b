//! Who is a member and a sender, over any table.

use super::session::{Call, Script, Seen};
use super::*;

/// Those that begin and stop sending.
pub(crate) static SENDERS: [Script; 3] = [
    Script {
        name: "a source sends from its second packet on, stops at a data horizon after its last one, and sends again \
            only with another",
        capacity: 2,
        rows: &[
            (
                Call::Fact(Fact::Media(4, 10, 0, 0, 8_000), 0),
                Seen::At(Place::Added),
            ),
            (Call::Ask, Seen::Counts(0, 0)),
            (
                Call::Fact(Fact::Media(4, 11, 0, 0, 8_000), 100),
                Seen::Counted(Place::Kept),
            ),
            (Call::Ask, Seen::Counts(1, 1)),
            (Call::Check(200, 0, 100, 0), Seen::Dropped(0, 0)),
            (Call::Ask, Seen::Counts(1, 1)),
            (Call::Check(200, 0, 101, 0), Seen::Dropped(0, 1)),
            (Call::Ask, Seen::Counts(1, 0)),
            (Call::Check(200, 0, 50, 0), Seen::Dropped(0, 0)),
            (Call::Ask, Seen::Counts(1, 0)),
            (
                Call::Fact(Fact::Media(4, 12, 0, 0, 8_000), 200),
                Seen::Counted(Place::Kept),
            ),
            (Call::Ask, Seen::Counts(1, 1)),
        ],
    },
    Script {
        name: "a sender that says goodbye is none from then on, so no check drops it as one; a sender that is dropped \
            for its silence is",
        capacity: 2,
        rows: &[
            (Call::Fact(Fact::Media(4, 10, 0, 0, 8_000), 0), Seen::Any),
            (Call::Fact(Fact::Media(4, 11, 0, 0, 8_000), 0), Seen::Any),
            (Call::Fact(Fact::Media(5, 10, 0, 0, 8_000), 0), Seen::Any),
            (Call::Fact(Fact::Media(5, 11, 0, 0, 8_000), 0), Seen::Any),
            (Call::Ask, Seen::Counts(2, 2)),
            (Call::Fact(Fact::Gone(4), 10), Seen::At(Place::Left)),
            (Call::Ask, Seen::Counts(1, 1)),
            (Call::Check(20, 1, 0, 11), Seen::Dropped(2, 1)),
            (Call::Ask, Seen::Counts(0, 0)),
        ],
    },
    Script {
        name: "a source that was dropped and comes back is on probation again",
        capacity: 2,
        rows: &[
            (Call::Fact(Fact::Media(4, 10, 0, 0, 8_000), 0), Seen::Any),
            (
                Call::Fact(Fact::Media(4, 11, 0, 0, 8_000), 0),
                Seen::Counted(Place::Kept),
            ),
            (Call::Check(20, 1, 0, 0), Seen::Dropped(1, 1)),
            (
                Call::Fact(Fact::Media(4, 12, 0, 0, 8_000), 20),
                Seen::At(Place::Added),
            ),
            (Call::Ask, Seen::Counts(0, 0)),
            (
                Call::Fact(Fact::Media(4, 13, 0, 0, 8_000), 20),
                Seen::Counted(Place::Kept),
            ),
            (Call::Ask, Seen::Counts(1, 1)),
        ],
    },
];
