//! A session of a participant with a guard before it.

use super::memory_link::{Coming, MemoryLink};
use super::observers::Counts;
use super::session::participant;
use super::zeros::Zeros;
use super::*;
use rtcp_guard::{Guard, HeldBack, Settings};
use rtcp_guarded::GuardedParticipant;
use rtcp_serve::{Until, serve_guarded_until};
use std::cell::Cell;
use std::rc::Rc;

/// A report of source 7 with its name.
static NAMED: [u8; 20] = [
    0x80, 0xc9, 0, 1, 0, 0, 0, 7, 0x81, 0xca, 0, 2, 0, 0, 0, 7, 1, 1, 0x61, 0,
];

/// The BYE of source 7.
static GOODBYE: [u8; 16] = [0x80, 0xc9, 0, 1, 0, 0, 0, 7, 0x81, 0xcb, 0, 1, 0, 0, 0, 7];

/// An address names 7; another one sends its BYE, which is a stranger's; and the first one names 8, one too many.
#[test]
fn held_back(rt: HostRuntime) -> Result<(), Fail> {
    let coming = [
        Coming::Datagram(1 << 16, &NAMED),
        Coming::Nothing,
        Coming::Datagram(2 << 16, &GOODBYE),
        Coming::Nothing,
        Coming::Datagram(1 << 16 | 5_005, &[0x80, 0xc9, 0, 1, 0, 0, 0, 8]),
    ];
    let made = Rc::new(rt.alloc(), Cell::new(0))?;
    let mut link = MemoryLink::new(rt.alloc(), &[0], &coming, &[], 40, &made)?;
    let settings = Settings {
        sources: 1_024,
        names: 1,
        trusted_names: 0,
        hold: 60_000_000,
    };
    let guard = Guard::new(rt.alloc(), settings)?;
    let mut guarded = GuardedParticipant::new(participant(&rt), guard);
    let (mut rng, mut buf, mut counts) = (Zeros(0), [0; 65_535], Counts::new());
    let end = serve_guarded_until(
        &mut link,
        &mut guarded,
        &mut rng,
        &mut None::<Until>,
        3,
        &mut counts,
        &mut buf,
    );
    assert_eq!(rt; (end.cause, end.received, end.refused), (Cause::Done, 3, 2));
    // Of three datagrams, three ticks and the leave two were not taken.
    assert_eq!(rt; (counts.told, counts.agreed), (7, 5));
    let held_back = HeldBack {
        strangers: 1,
        crowds: 1,
        last_stranger: Some(2),
        last_crowd: Some(1),
    };
    assert!(rt; guarded.held_back() == held_back);
    Ok(())
}
