//! Sessions over the table that keeps its entries sorted.

use super::*;
use std::mem::size_of;

/// What one participant takes, whoever is there: a conference server holds thousands.
#[test]
fn size(rt: HostRuntime) {
    assert!(rt; size_of::<Participant<SortedTable>>() < 160_000);
}

/// Sessions worked by hand: present, leaving, with a changed identifier, and whose calls change the others.
#[test]
fn sessions(rt: HostRuntime) {
    session::play::<SortedTable>(&rt, &rows::SESSIONS);
    session::play::<SortedTable>(&rt, &leaving::LEAVES);
    session::play::<SortedTable>(&rt, &changes::CHANGES);
    session::play::<SortedTable>(&rt, &listing::ROLES);
    session::play::<SortedTable>(&rt, &telling::TELLING);
}

/// A sender that changes its clock.
#[test]
fn clocks(rt: HostRuntime) {
    telling::clocks::<SortedTable>(&rt);
}

/// Compounds in the room of the caller.
#[test]
fn rooms(rt: HostRuntime) {
    rooms::report_in_place::<SortedTable>(&rt);
    rooms::byes_in_place::<SortedTable>(&rt);
    rooms::left_alone::<SortedTable>(&rt);
    rooms::changed_last::<SortedTable>(&rt);
}

/// A damaged report, alone and with a name, while the participant is present and in a backoff.
#[test]
fn damaged_names(rt: HostRuntime) {
    damage::present::<SortedTable>(&rt, &damage::NAMES);
    damage::backing_off::<SortedTable>(&rt, &damage::NAMES);
}

/// Damaged padding.
#[test]
fn damaged_padding(rt: HostRuntime) {
    damage::present::<SortedTable>(&rt, &damage::PADDING);
    damage::backing_off::<SortedTable>(&rt, &damage::PADDING);
}

/// Damage of what is cut short already, and of a sender report.
#[test]
fn damaged_cut_short(rt: HostRuntime) {
    damage::present::<SortedTable>(&rt, &damage::CUT_SHORT);
    damage::backing_off::<SortedTable>(&rt, &damage::CUT_SHORT);
}

/// Damaged RTP packets, a BYE, and a packet of an application.
#[test]
fn damaged_packets(rt: HostRuntime) {
    damage::present::<SortedTable>(&rt, &damage::PACKETS);
    damage::backing_off::<SortedTable>(&rt, &damage::PACKETS);
}

/// Damaged BYEs with a reason, with an empty one, and of nobody.
#[test]
fn damaged_goodbyes(rt: HostRuntime) {
    damage::present::<SortedTable>(&rt, &damage::GOODBYES);
    damage::backing_off::<SortedTable>(&rt, &damage::GOODBYES);
}

/// A crowd joins at once, and leaves one after another.
#[test]
fn crowd_leaves(rt: HostRuntime) {
    floods::crowd_leaves::<SortedTable>(&rt);
}

/// Who is there: each once, none from the leave on, and one after the other.
#[test]
fn listings(rt: HostRuntime) {
    listing::each_once::<SortedTable>(&rt);
    listing::none_from_the_leave_on::<SortedTable>(&rt);
    listing::one_after_the_other(&rt, Session::<SortedTable>::usual(&rt));
}
