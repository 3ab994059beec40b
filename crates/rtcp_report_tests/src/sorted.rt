//! Reports of the table that keeps its entries sorted.

use crate::rows;
use rtcp_members::SortedTable;

#[test]
fn no_news(rt: HostRuntime) {
    rows::no_news::<SortedTable>(&rt);
}

#[test]
fn in_place(rt: HostRuntime) {
    rows::in_place::<SortedTable>(&rt);
}

#[test]
fn two_reports(rt: HostRuntime) {
    rows::two_reports::<SortedTable>(&rt);
}

#[test]
fn one_at_a_time(rt: HostRuntime) {
    rows::one_at_a_time::<SortedTable>(&rt);
}

#[test]
fn name_first(rt: HostRuntime) {
    rows::name_first::<SortedTable>(&rt);
}

#[test]
fn forty(rt: HostRuntime) {
    rows::forty::<SortedTable>(&rt);
}

#[test]
fn seventy(rt: HostRuntime) {
    rows::seventy::<SortedTable>(&rt);
}
