//! What is told of each source, over any table.

use super::session::{Call, Script, Seen};
use super::*;
use rtcp_source::{LastBlock, LastReport, Reception};
use std::process::Abort;
use std::test::*;

/// A source with its name and a sender report.
const THREE: SourceState = SourceState {
    ssrc: 3,
    is_member: true,
    is_sender: false,
    left: None,
    heard: 8,
    reception: None,
    told: Some(LastReport {
        ntp: 0x0000_0001_8000_0000,
        rtp: 720,
        moment: 8,
    }),
    last_block: None,
};

/// One that sends: 11 and 14 of 11 to 14 were counted.
const FOUR: SourceState = SourceState {
    ssrc: 4,
    is_member: true,
    is_sender: true,
    left: None,
    heard: 30,
    reception: Some(Reception {
        received: 2,
        octets: 193,
        lost: 2,
        highest: 14,
        jitter: 0,
        rate: 8_000,
    }),
    told: None,
    last_block: None,
};

/// One that was only heard, and left.
const NINE: SourceState = SourceState {
    ssrc: 9,
    is_member: false,
    is_sender: false,
    left: Some(40),
    heard: 5,
    reception: None,
    told: None,
    last_block: None,
};

/// Two of four packets were lost, 128 in 256.
const SAID: LastBlock = LastBlock {
    fraction: 128,
    highest: 14,
};

/// What is told.
pub(crate) static TOLD: [Script; 1] = [
    // And a block ends no more than an interval.
    Script {
        name: "a source tells what its last block said",
        capacity: 4,
        rows: &[
            (Call::Fact(Fact::Media(4, 10, 0, 20, 8_000), 10), Seen::Any),
            (Call::Fact(Fact::Media(4, 11, 0, 33, 8_000), 20), Seen::Any),
            (Call::Fact(Fact::Media(4, 14, 0, 160, 8_000), 30), Seen::Any),
            (Call::Above(None), Seen::Told(Some(FOUR))),
            (Call::Block(None, 40), Seen::Whose(Some(4))),
            (
                Call::Above(None),
                Seen::Told(Some(SourceState {
                    last_block: Some(SAID),
                    ..FOUR
                })),
            ),
            (Call::Fact(Fact::Media(4, 15, 0, 160, 8_000), 50), Seen::Any),
            (Call::LastBlock(None), Seen::LastBlock(Some(SAID))),
        ],
    },
];

/// Each source in its turn, and all of them.
pub(crate) fn each_in_turn<T: InlineTable + Drop>(rt: &impl Abort) {
    let mut session: Session<T> = Session::new(4);
    let rows = [
        (Call::Fact(Fact::Heard(9), 5), Seen::Any),
        (Call::Fact(Fact::Named(3), 7), Seen::Any),
        (
            Call::Fact(Fact::Told(3, 0x0000_0001_8000_0000, 720), 8),
            Seen::Any,
        ),
        (Call::Fact(Fact::Media(4, 10, 0, 20, 8_000), 10), Seen::Any),
        (Call::Fact(Fact::Media(4, 11, 0, 33, 8_000), 20), Seen::Any),
        (Call::Fact(Fact::Media(4, 14, 0, 160, 8_000), 30), Seen::Any),
        (Call::Fact(Fact::Gone(9), 40), Seen::Any),
        (Call::Ask, Seen::Counts(2, 1)),
        (Call::Above(None), Seen::Told(Some(THREE))),
        (Call::Above(Some(2)), Seen::Told(Some(THREE))),
        (Call::Above(Some(3)), Seen::Told(Some(FOUR))),
        (Call::Above(Some(4)), Seen::Told(Some(NINE))),
        (Call::Above(Some(9)), Seen::Told(None)),
    ];
    session.plays(rt, "each in turn", &rows);
    let all = [THREE, FOUR, NINE];
    let mut told = 0usize;
    for source in session.sources() {
        assert!(rt; all.get(told) == Some(&source));
        told = told.saturating_add(1);
    }
    assert_eq!(rt; (told, session.entries()), (3, 3));
}
