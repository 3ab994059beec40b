//! Sessions over the table that takes its room at its making.

use super::session::Call::*;
use super::session::Seen::*;
use super::*;
use rtcp_members::HeapTable;
use std::mem::size_of;

/// A receiver report of source 000000bb, without blocks and without a name.
const HEARD_BB: [u8; 8] = [0x80, 0xc9, 0, 1, 0, 0, 0, 0xbb];

/// What one participant takes beside its table's room.
#[test]
fn size(rt: HostRuntime) {
    assert!(rt; size_of::<Participant<HeapTable>>() < 2_760);
}

/// A participant with such a table begins, changes its identifier, and tells who is there.
#[test]
fn one_source_after_the_other(rt: HostRuntime) {
    let mut session = begun(&rt, rt.alloc());
    let rows = [
        (Ask, Counts(1, 0)),
        (Rtcp(0, 1, 0xab, &OURS), Changes(0xab, 1, 0, 1_026_037, &[])),
    ];
    session.plays(&rt, "begins", &rows);
    listing::one_after_the_other(&rt, begun(&rt, rt.alloc()));
}

/// Before its first report a participant goes by intervals of 2.5 seconds, and a source may be silent for five of them
/// (RFC 3550, 6.2, 6.3.5). Once it left it drops nobody.
#[test]
fn silent_for_five_intervals(rt: HostRuntime) {
    let mut session = begun(&rt, rt.alloc());
    assert_eq!(rt; session.participant.silent_before(12_500_000), 0);
    assert_eq!(rt; session.participant.silent_before(20_000_000), 7_500_000);
    session.plays(&rt, "leaves", &[(Leave(0, 0), LeavesSilently)]);
    assert_eq!(rt; session.participant.silent_before(20_000_000), 0);
}

/// A datagram that names the participant's SSRC would be taken under a new one (RFC 3550, 8.2), and another one under
/// the present one. A look takes none.
#[test]
fn a_look_tells_the_ssrc(rt: HostRuntime) {
    let mut session = begun(&rt, rt.alloc());
    for (octets, ssrc) in [(&HEARD_BB, 0xaa), (&OURS, 0xcc), (&HEARD_BB, 0xaa)] {
        match session.participant.inspect_rtcp(0, 7, 0xcc, octets) {
            Ok(inspected) => assert_eq!(rt; inspected.ssrc, ssrc),
            Err(_) => panic!(rt; "the datagram is refused"),
        }
    }
    if session.participant.inspect_rtcp(0, 7, 0xcc, &[]).is_ok() {
        panic!(rt; "no octets are taken");
    }
    session.plays(&rt, "is alone", &[(Ask, Counts(1, 0))]);
}

/// A session of the usual configuration.
fn begun(rt: &impl Abort, alloc: Global) -> Session<HeapTable> {
    let config = config();
    if config.error().is_some() {
        panic!(rt; "the configuration is refused");
    }
    let table = HeapTable::with_room(alloc, config.capacity);
    let table = table.expect(rt, "no memory");
    let participant = Participant::with_table(config, table, 0);
    Session { participant }
}
