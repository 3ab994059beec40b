//! The table as a list.

use super::*;
use std::test::*;

/// The example at the head of `rtcp_members`, with the other table.
#[test]
fn example(rt: HostRuntime) {
    let mut table = ListTable::empty(1_024);
    assert_eq!(rt; table.apply(Fact::Heard(7), 0).place, Place::Added);
    assert_eq!(rt; table.members(), 0);
    assert_eq!(rt; table.apply(Fact::Named(7), 0).place, Place::Kept);
    assert_eq!(rt; table.members(), 1);
    let dropped = table.check(25_000_001, 1, 0, 0);
    assert_eq!(rt; (dropped.entries, table.members()), (1, 0));
}

/// Rooms, senders, turns, what is told of each source, and those that are forgotten.
#[test]
fn sessions(rt: HostRuntime) {
    session::play::<ListTable>(&rt, &rooms::ROOMS);
    session::play::<ListTable>(&rt, &senders::SENDERS);
    session::play::<ListTable>(&rt, &turns::TURNS);
    session::play::<ListTable>(&rt, &told::TOLD);
    session::play::<ListTable>(&rt, &forgotten::FORGOTTEN);
    told::each_in_turn::<ListTable>(&rt);
}

/// A table of 1,024 sources.
#[test]
fn full(rt: HostRuntime) {
    rooms::full::<ListTable>(&rt);
}
