//! What changed between two listings.

use rtcp_listing::{Change, Changes, Role, is_rising};
use rtcp_members::SourceState;
use std::alloc::{AllocError, Global};
use std::test::*;

/// The example at the head of `rtcp_listing`.
#[test]
fn example(rt: HostRuntime) {
    let member = SourceState {
        ssrc: 7,
        is_member: true,
        is_sender: false,
        left: None,
        heard: 0,
        reception: None,
        told: None,
        last_block: None,
    };
    let sender = SourceState {
        is_sender: true,
        ..member
    };
    let (before, after) = ([member], [sender]);
    let mut changes = Changes::of(&before, &after);
    assert!(rt;
        changes
            .next()
            .is_some_and(|change| change.ssrc == 7 && change.began_to_send())
    );
    assert!(rt; changes.next().is_none());
}

/// What is told of a source, beside its SSRC.
#[derive(Clone, Copy)]
enum Known {
    /// It is on probation, and no more is told of it.
    Unknown,
    Member,
    Sender,
    /// It left.
    Gone,
}

use Known::*;

/// A source of this SSRC, which is heard at 0, and of which no more is told.
fn source((ssrc, known): (u32, Known)) -> SourceState {
    SourceState {
        ssrc,
        is_member: matches!(known, Member | Sender),
        is_sender: matches!(known, Sender),
        left: matches!(known, Gone).then_some(7),
        heard: 0,
        reception: None,
        told: None,
        last_block: None,
    }
}

/// A listing of these sources.
fn listing(alloc: Global, sources: &[(u32, Known)]) -> Result<Vec<SourceState>, AllocError> {
    let mut listing = Vec::new(alloc);
    for known in sources {
        listing.push(source(*known))?;
    }
    Ok(listing)
}

/// A change: the source, its role before and after, and whether it left.
type Told = (u32, Role, Role, bool);

fn change((ssrc, was, is, has_left): Told) -> Change {
    Change {
        ssrc,
        was,
        is,
        has_left,
    }
}

/// Two listings, and the changes between them.
type Listings = (
    &'static [(u32, Known)],
    &'static [(u32, Known)],
    &'static [Told],
);

static LISTINGS: [Listings; 4] = [
    // 1 timed out, 2 left, 3 began to send, 4 stopped, 5 came on probation, 6 is valid now, and 7 stays.
    (
        &[
            (1, Member),
            (2, Sender),
            (3, Member),
            (4, Sender),
            (6, Unknown),
            (7, Member),
        ],
        &[
            (2, Gone),
            (3, Sender),
            (4, Member),
            (5, Unknown),
            (6, Member),
            (7, Member),
        ],
        &[
            (1, Role::Member, Role::Away, false),
            (2, Role::Sender, Role::Away, true),
            (3, Role::Member, Role::Sender, false),
            (4, Role::Sender, Role::Member, false),
            (6, Role::Away, Role::Member, false),
        ],
    ),
    // One that left and is then dropped, and one that left on probation, took no part, so nothing changed.
    (&[(2, Gone), (5, Unknown)], &[(5, Gone)], &[]),
    (&[(1, Member), (2, Gone)], &[(1, Member), (2, Gone)], &[]),
    // The first listing is all changes.
    (
        &[],
        &[(1, Member), (2, Gone), (9, Sender)],
        &[
            (1, Role::Away, Role::Member, false),
            (9, Role::Away, Role::Sender, false),
        ],
    ),
];

/// The changes are those, one after the other, and no more.
#[test]
fn changes_between_listings(rt: HostRuntime) -> Result<(), AllocError> {
    for (row, (before, after, wanted)) in LISTINGS.iter().enumerate() {
        let earlier = listing(rt.alloc(), before)?;
        let later = listing(rt.alloc(), after)?;
        assert!(rt;
            is_rising(earlier.as_slice()) && is_rising(later.as_slice()),
            "row {row}"
        );
        let mut changes = Changes::of(earlier.as_slice(), later.as_slice());
        for told in *wanted {
            assert!(rt; changes.next() == Some(change(*told)), "row {row}");
        }
        assert!(rt; changes.next().is_none(), "row {row}");
    }
    Ok(())
}

/// A listing has each source once, by rising SSRC, whatever it says of it.
#[test]
fn listings_rise(rt: HostRuntime) -> Result<(), AllocError> {
    let rows: [(&[(u32, Known)], bool); 4] = [
        (&[], true),
        (&[(0, Member), (1, Gone), (u32::MAX, Unknown)], true),
        (&[(1, Member), (1, Sender)], false),
        (&[(1, Member), (3, Member), (2, Member)], false),
    ];
    for (row, (sources, rises)) in rows.iter().enumerate() {
        let listing = listing(rt.alloc(), sources)?;
        assert!(rt; is_rising(listing.as_slice()) == *rises, "row {row}");
    }
    Ok(())
}

/// Changes, and what each is called: joined, left, timed out, began to send, stopped sending.
static NAMES: [(Told, [bool; 5]); 4] = [
    (
        (1, Role::Away, Role::Sender, false),
        [true, false, false, true, false],
    ),
    (
        (1, Role::Sender, Role::Away, false),
        [false, false, true, false, true],
    ),
    (
        (1, Role::Member, Role::Away, true),
        [false, true, false, false, false],
    ),
    (
        (1, Role::Sender, Role::Member, false),
        [false, false, false, false, true],
    ),
];

/// What each change is called.
#[test]
fn names_of_changes(rt: HostRuntime) {
    for (told, wanted) in &NAMES {
        let change = change(*told);
        let names = [
            change.joined(),
            change.left(),
            change.went_without_bye(),
            change.began_to_send(),
            change.stopped_sending(),
        ];
        assert_eq!(rt; names, *wanted, "{change:?}");
        assert_eq!(rt; change.timed_out(), change.went_without_bye());
    }
}
