//! Reports of the table that keeps a list.

use crate::rows;
use rtcp_members::{InlineTable, ListTable};
use rtcp_report::{Sender, report};

/// The example at the head of `rtcp_report`.
#[test]
fn example(rt: HostRuntime) {
    let mut table = ListTable::empty(1_024);
    let mut cursor = None;
    let sender = Sender {
        ssrc: 7,
        cname: b"a",
        sr: None,
    };
    let octets = report(&sender, &mut table, 0, 1_472, &mut cursor, None);
    assert_eq!(rt; octets.len(), 20);
}

#[test]
fn no_news(rt: HostRuntime) {
    rows::no_news::<ListTable>(&rt);
}

#[test]
fn in_place(rt: HostRuntime) {
    rows::in_place::<ListTable>(&rt);
}

#[test]
fn two_reports(rt: HostRuntime) {
    rows::two_reports::<ListTable>(&rt);
}

#[test]
fn one_at_a_time(rt: HostRuntime) {
    rows::one_at_a_time::<ListTable>(&rt);
}

#[test]
fn name_first(rt: HostRuntime) {
    rows::name_first::<ListTable>(&rt);
}

#[test]
fn forty(rt: HostRuntime) {
    rows::forty::<ListTable>(&rt);
}

#[test]
fn seventy(rt: HostRuntime) {
    rows::seventy::<ListTable>(&rt);
}
