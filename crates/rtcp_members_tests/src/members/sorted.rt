//! The table by rising SSRC.

use super::*;
use std::test::*;

/// The example at the head of `rtcp_members`.
#[test]
fn example(rt: HostRuntime) {
    let mut table = SortedTable::empty(1_024);
    assert_eq!(rt; table.apply(Fact::Heard(7), 0).place, Place::Added);
    assert_eq!(rt; table.members(), 0);
    assert_eq!(rt; table.apply(Fact::Named(7), 0).place, Place::Kept);
    assert_eq!(rt; table.members(), 1);
    let dropped = table.check(25_000_001, 1, 0, 0);
    assert_eq!(rt; (dropped.entries, table.members()), (1, 0));
}

/// Rooms, senders, turns, what is told of each source, and those that are forgotten.
#[test]
fn sessions(rt: HostRuntime) {
    session::play::<SortedTable>(&rt, &rooms::ROOMS);
    session::play::<SortedTable>(&rt, &senders::SENDERS);
    session::play::<SortedTable>(&rt, &turns::TURNS);
    session::play::<SortedTable>(&rt, &told::TOLD);
    session::play::<SortedTable>(&rt, &forgotten::FORGOTTEN);
    told::each_in_turn::<SortedTable>(&rt);
}

/// A table of 1,024 sources.
#[test]
fn full(rt: HostRuntime) {
    rooms::full::<SortedTable>(&rt);
}
