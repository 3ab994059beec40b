//! The words that a session draws.

use super::memory_link::{Coming, MemoryLink};
use super::reader::reads_with;
use super::session::{REPORT, participant};
use super::watch::Watch;
use super::*;
use rand_core::{Rng, SeedableRng};
use rand_pcg::Pcg32;
use rtcp_serve::{Until, serve_until};
use std::cell::Cell;
use std::rc::Rc;

/// The words are drawn in their order: one for each datagram as it comes, on either port, and two at the end of a
/// turn. The fifth one is the new SSRC.
#[test]
fn draws_in_order(rt: HostRuntime) -> Result<(), Fail> {
    let coming = [
        Coming::Named(7),
        Coming::Datagram(8, &[0x80, 0, 0, 1, 0, 0, 0, 0, 0, 0, 0, 9]),
        Coming::Datagram(9, &REPORT),
    ];
    let made = Rc::new(rt.alloc(), Cell::new(0))?;
    let mut link = MemoryLink::new(rt.alloc(), &[0], &coming, &[], 100, &made)?;
    let mut watch = Watch::new(rt.alloc(), 100, made.clone()?);
    let (mut given, mut words) = (Pcg32::seed_from_u64(5), Pcg32::seed_from_u64(5));
    let mut changed = participant(&rt);
    let mut buf = [0; 65_535];
    let ending = &mut None::<Until>;
    let end = serve_until(
        &mut link,
        &mut changed,
        &mut given,
        ending,
        2,
        &mut watch,
        &mut buf,
    );
    assert_eq!(rt; (end.cause, end.received, end.refused), (Cause::Done, 3, 0));
    let mut fifth = 0;
    for _ in 0..5 {
        fifth = words.next_u32();
    }
    assert_eq!(rt; changed.ssrc(), fifth);
    // Two words of the second turn and the one for the leave remain.
    for _ in 0..3 {
        let _ = words.next_u32();
    }
    assert_eq!(rt; given.next_u32(), words.next_u32());
    let again = Pcg32::seed_from_u64(5);
    let cause = reads_with(&rt, rt.alloc(), (&link, &watch), participant(&rt), again, 2);
    assert_eq!(rt; cause, end.cause);
    Ok(())
}
