//! Who is there, over any table.

use super::session::Call::*;
use super::session::Seen::*;
use super::*;
use rtcp_members::SourceState;

/// What is told of a source that gave its name at a moment, and no more.
fn named_at(ssrc: u32, heard: u64) -> SourceState {
    SourceState {
        ssrc,
        is_member: true,
        is_sender: false,
        left: None,
        heard,
        reception: None,
        told: None,
        last_block: None,
    }
}

/// Sources 3, 1 and 2 give their names, and 2 leaves, in a compound that begins with a report of it: each is told
/// once, by rising SSRC, the one that left until a check drops it, 5 seconds later.
pub(crate) fn each_once<T: InlineTable + Drop>(rt: &impl Abort) {
    let mut session = Session::<T>::usual(rt);
    assert!(rt; session.participant.source_above(None).is_none());
    let came = [
        (Named(10, 3), Taken),
        (Named(20, 1), Taken),
        (Named(30, 2), Taken),
        (Goodbye(40, 2), Taken),
        (Ask, Counts(3, 0)),
        (Ask, Entries(3)),
    ];
    session.plays(rt, "sources come", &came);
    let mut gone = named_at(2, 40);
    gone.is_member = false;
    gone.left = Some(40);
    let all = [named_at(1, 20), gone, named_at(3, 10)];
    let mut told = 0usize;
    for source in session.participant.sources() {
        assert!(rt; all.get(told) == Some(&source));
        told = told.saturating_add(1);
    }
    assert_eq!(rt; told, 3);
    assert!(rt; session.participant.source_above(Some(2)) == Some(named_at(3, 10)));
    session.plays(rt, "a check", &[(Tick(5_000_040, 0, 0), Entries(2))]);
    assert!(rt; session.participant.source_above(Some(1)) == Some(named_at(3, 10)));
}

/// From the leave on nobody is followed, so nobody is told, and none to a host that asks for one after the other.
pub(crate) fn none_from_the_leave_on<T: InlineTable + Drop>(rt: &impl Abort) {
    let mut session: Session<T> = leaving::backing_off(rt);
    assert_eq!(rt; session.participant.entries(), 0);
    assert!(rt; session.participant.source_above(None).is_none());
    assert!(rt; session.participant.sources().next().is_none());
    assert!(rt; session.participant.next_source(None).is_none());
}

/// What the source above an SSRC is, and when it was heard.
type Next = (Option<u32>, Option<(u32, u64)>);

/// Asked for one after the other, sources are told as above: also where one has joined between, so that they stand
/// elsewhere, where one is asked for anew, and above an SSRC that no source has.
pub(crate) fn one_after_the_other<T: MemberTable + Drop>(rt: &impl Abort, begun: Session<T>) {
    let mut session = begun;
    assert!(rt; session.participant.next_source(None).is_none());
    let three = [
        (Named(10, 3), Taken),
        (Named(20, 1), Taken),
        (Named(30, 7), Taken),
    ];
    session.plays(rt, "three sources come", &three);
    are_next(
        rt,
        &mut session,
        &[(None, Some((1, 20))), (Some(1), Some((3, 10)))],
    );
    session.plays(rt, "a fourth one comes", &[(Named(40, 2), Entries(4))]);
    let rows = [
        (Some(3), Some((7, 30))),
        (Some(1), Some((2, 40))),
        (Some(2), Some((3, 10))),
        (Some(5), Some((7, 30))),
        (Some(7), None),
    ];
    are_next(rt, &mut session, &rows);
    session.plays(rt, "all were asked for", &[(Ask, Entries(4))]);
}

/// Above each SSRC stands this source, asked for one after the other.
fn are_next<T: MemberTable>(rt: &impl Abort, session: &mut Session<T>, rows: &[Next]) {
    for (after, wanted) in rows {
        let found = session.participant.next_source(*after);
        let wanted = wanted.map(|(ssrc, heard)| named_at(ssrc, heard));
        assert!(rt; found == wanted, "above {after:?}");
    }
}

/// A compound in which source 5 gives its name, and leaves.
const CAME_AND_LEFT: &[u8] = &[
    0x80, 0xc9, 0, 1, 0, 0, 0, 5, 0x81, 0xca, 0, 2, 0, 0, 0, 5, 1, 1, 0x61, 0, 0x81, 0xcb, 0, 1, 0,
    0, 0, 5,
];

/// Which calls change the role of another source.
pub(crate) static ROLES: [Script; 3] = [
    Script {
        name: "what arrives does where one becomes a member, begins to send or leaves, and be it for a moment",
        setup: USUAL,
        rows: &[
            (Named(10, 3), OthersChanged(true)),
            (Named(11, 3), OthersChanged(false)),
            (Packet(20, 9, 10), OthersChanged(false)),
            (Packet(21, 9, 11), OthersChanged(true)),
            (Packet(22, 9, 12), OthersChanged(false)),
            (Goodbye(40, 2), OthersChanged(false)),
            (Goodbye(50, 3), OthersChanged(true)),
            (Goodbye(51, 3), OthersChanged(false)),
            (Rtcp(52, 1, 0, CAME_AND_LEFT), OthersChanged(true)),
            (Sent(60, 0), OthersChanged(false)),
            (Ask, Counts(2, 2)),
        ],
    },
    // Two intervals of 2.5 seconds after the packet, and then of 5; five of them after the last sighting.
    Script {
        name: "a check does where one stops sending or falls silent, and not where one that left is dropped, and a \
            leave where there is another member",
        setup: USUAL,
        rows: &[
            (Packet(21, 9, 11), OthersChanged(false)),
            (Packet(22, 9, 12), OthersChanged(true)),
            (Goodbye(30, 2), OthersChanged(false)),
            (Tick(5_000_022, 0, 0), OthersChanged(false)),
            (Tick(5_000_030, 0, 0), OthersChanged(false)),
            (Ask, Entries(1)),
            (Tick(10_000_022, 0, 0), OthersChanged(false)),
            (Tick(10_000_023, 0, 0), OthersChanged(true)),
            (Tick(10_000_023, 0, 0), OthersChanged(false)),
            (Tick(25_000_022, 0, 0), OthersChanged(false)),
            (Tick(25_000_023, 0, 0), OthersChanged(true)),
            (Ask, Entries(0)),
            (Named(25_000_023, 7), OthersChanged(true)),
            (Leave(25_000_023, 0), OthersChanged(true)),
        ],
    },
    Script {
        name: "a leave of one that is alone does not",
        setup: USUAL,
        rows: &[(Leave(0, 0), OthersChanged(false))],
    },
];
