//! Long sessions, and logs without room.

use super::memory_link::{Coming, MemoryLink};
use super::rows::{ANYTHING, Case, IDLE, PLAIN, Seen, play};
use super::session::{participant, served};
use super::*;
use std::cell::Cell;
use std::rc::Rc;

/// With 52 members the participant backs off, for 1,026,037 microseconds from its leave. That is at the
/// greatest moment, 1,026,037, though the clock gives 0 in the turn before. Its BYE goes out in the second
/// turn after that, at 2,052,074, and no call comes then.
#[test]
fn backs_off(rt: HostRuntime) -> Result<(), Fail> {
    let mut coming = [(1, Coming::Nothing); 102];
    for (pair, ssrc) in coming.chunks_exact_mut(2).zip(1..52u8) {
        pair[0] = (1, Coming::Named(ssrc));
    }
    let mut moments = [1_026_037; 107];
    for at in [0, 102, 103] {
        moments[at] = 0;
    }
    moments[105] = 2_052_073;
    moments[106] = 2_052_074;
    let case = Case {
        name: "backs off",
        moments: &moments,
        coming: &coming,
        turns: 52,
        seen: Seen {
            end: Some(End {
                received: 51,
                sent: 2,
                bye: true,
                ..IDLE
            }),
            drawn: Some(52 * 2 + 51 + 1 + 2 * 2),
            is_gone: Some(true),
            calls: Some(54 * 4 + 2),
            ..ANYTHING
        },
        ..PLAIN
    };
    play(&rt, rt.alloc(), &case)
}

/// A log tells the calls that fit its room, and none of the later ones.
#[test]
fn full_log(rt: HostRuntime) -> Result<(), Fail> {
    for (turns, is_whole) in [(1, true), (2, false)] {
        let made = Rc::new(rt.alloc(), Cell::new(0))?;
        let mut link = MemoryLink::new(rt.alloc(), &[0], &[], &[], 4, &made)?;
        let _ = served(&mut link, &mut participant(&rt), turns);
        assert_eq!(rt; link.log.is_whole, is_whole);
        assert_eq!(rt; link.log.calls.len(), 4);
    }
    Ok(())
}
