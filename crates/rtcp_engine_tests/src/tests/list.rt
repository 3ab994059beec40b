//! Sessions over the table that keeps a list.

use super::*;

/// Sessions worked by hand: present, leaving, with a changed identifier, and whose calls change the others.
#[test]
fn sessions(rt: HostRuntime) {
    session::play::<ListTable>(&rt, &rows::SESSIONS);
    session::play::<ListTable>(&rt, &leaving::LEAVES);
    session::play::<ListTable>(&rt, &changes::CHANGES);
    session::play::<ListTable>(&rt, &listing::ROLES);
    session::play::<ListTable>(&rt, &telling::TELLING);
}

/// A sender that changes its clock.
#[test]
fn clocks(rt: HostRuntime) {
    telling::clocks::<ListTable>(&rt);
}

/// Compounds in the room of the caller.
#[test]
fn rooms(rt: HostRuntime) {
    rooms::report_in_place::<ListTable>(&rt);
    rooms::byes_in_place::<ListTable>(&rt);
    rooms::left_alone::<ListTable>(&rt);
    rooms::changed_last::<ListTable>(&rt);
}

/// A damaged report, alone and with a name, while the participant is present and in a backoff.
#[test]
fn damaged_names(rt: HostRuntime) {
    damage::present::<ListTable>(&rt, &damage::NAMES);
    damage::backing_off::<ListTable>(&rt, &damage::NAMES);
}

/// Damaged padding.
#[test]
fn damaged_padding(rt: HostRuntime) {
    damage::present::<ListTable>(&rt, &damage::PADDING);
    damage::backing_off::<ListTable>(&rt, &damage::PADDING);
}

/// Damage of what is cut short already, and of a sender report.
#[test]
fn damaged_cut_short(rt: HostRuntime) {
    damage::present::<ListTable>(&rt, &damage::CUT_SHORT);
    damage::backing_off::<ListTable>(&rt, &damage::CUT_SHORT);
}

/// Damaged RTP packets, a BYE, and a packet of an application.
#[test]
fn damaged_packets(rt: HostRuntime) {
    damage::present::<ListTable>(&rt, &damage::PACKETS);
    damage::backing_off::<ListTable>(&rt, &damage::PACKETS);
}

/// Damaged BYEs with a reason, with an empty one, and of nobody.
#[test]
fn damaged_goodbyes(rt: HostRuntime) {
    damage::present::<ListTable>(&rt, &damage::GOODBYES);
    damage::backing_off::<ListTable>(&rt, &damage::GOODBYES);
}

/// A crowd joins at once, and leaves one after another.
#[test]
fn crowd_leaves(rt: HostRuntime) {
    floods::crowd_leaves::<ListTable>(&rt);
}

/// Who is there: each once, none from the leave on, and one after the other.
#[test]
fn listings(rt: HostRuntime) {
    listing::each_once::<ListTable>(&rt);
    listing::none_from_the_leave_on::<ListTable>(&rt);
    listing::one_after_the_other(&rt, Session::<ListTable>::usual(&rt));
}
