//! Whose block is next, and what it says, over any table.

use super::session::{Call, Script, Seen};
use super::*;

/// Three sources send two packets each, of which the second is counted.
pub(crate) static TURNS: [Script; 3] = [
    Script {
        name: "each is reported once, by rising SSRC, after the last one and from the lowest on again",
        capacity: 3,
        rows: &[
            (Call::Fact(Fact::Media(3, 10, 0, 0, 8_000), 0), Seen::Any),
            (Call::Fact(Fact::Media(1, 10, 0, 0, 8_000), 0), Seen::Any),
            (Call::Fact(Fact::Media(2, 10, 0, 0, 8_000), 0), Seen::Any),
            (Call::Fact(Fact::Media(2, 11, 0, 0, 8_000), 0), Seen::Any),
            (Call::Fact(Fact::Media(3, 11, 0, 0, 8_000), 0), Seen::Any),
            (Call::Fact(Fact::Media(1, 11, 0, 0, 8_000), 0), Seen::Any),
            (Call::Block(Some(1), 0), Seen::Whose(Some(2))),
            (Call::Block(Some(2), 0), Seen::Whose(Some(3))),
            (Call::Block(Some(3), 0), Seen::Whose(Some(1))),
            (Call::Block(Some(1), 0), Seen::Whose(None)),
            (Call::Fact(Fact::Media(2, 12, 0, 0, 8_000), 0), Seen::Any),
            (Call::Block(Some(2), 0), Seen::Whose(Some(2))),
            (Call::Block(Some(2), 0), Seen::Whose(None)),
        ],
    },
    Script {
        name: "a source that said goodbye is not reported",
        capacity: 3,
        rows: &[
            (Call::Fact(Fact::Media(3, 10, 0, 0, 8_000), 0), Seen::Any),
            (Call::Fact(Fact::Media(1, 10, 0, 0, 8_000), 0), Seen::Any),
            (Call::Fact(Fact::Media(2, 10, 0, 0, 8_000), 0), Seen::Any),
            (Call::Fact(Fact::Media(2, 11, 0, 0, 8_000), 0), Seen::Any),
            (Call::Fact(Fact::Media(3, 11, 0, 0, 8_000), 0), Seen::Any),
            (Call::Fact(Fact::Media(1, 11, 0, 0, 8_000), 0), Seen::Any),
            (Call::Fact(Fact::Gone(1), 0), Seen::Any),
            (Call::Block(None, 0), Seen::Whose(Some(2))),
        ],
    },
    // Of 12 to 14 two came.
    Script {
        name: "the fraction lost is over what was expected since the last block",
        capacity: 3,
        rows: &[
            (Call::Fact(Fact::Media(3, 10, 0, 0, 8_000), 0), Seen::Any),
            (Call::Fact(Fact::Media(1, 10, 0, 0, 8_000), 0), Seen::Any),
            (Call::Fact(Fact::Media(2, 10, 0, 0, 8_000), 0), Seen::Any),
            (Call::Fact(Fact::Media(2, 11, 0, 0, 8_000), 0), Seen::Any),
            (Call::Fact(Fact::Media(3, 11, 0, 0, 8_000), 0), Seen::Any),
            (Call::Fact(Fact::Media(1, 11, 0, 0, 8_000), 0), Seen::Any),
            (Call::Block(None, 0), Seen::Says(0, 0, 11)),
            (Call::Fact(Fact::Media(1, 12, 0, 0, 8_000), 0), Seen::Any),
            (Call::Fact(Fact::Media(1, 14, 0, 0, 8_000), 0), Seen::Any),
            (Call::Block(Some(3), 0), Seen::Says(85, 1, 14)),
        ],
    },
];
