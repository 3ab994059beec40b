//! Sessions that an ending ends.

ghost use Rattle.std.specs.Prelude.{◌≤◌, ◌<◌, ◌^◌, None};

use super::log::Made;
use super::memory_link::{Coming, MemoryLink};
use super::rows::IDLE;
use super::session::{BYE, REPORT, participant};
use super::zeros::Zeros;
use super::*;
use rtcp_serve::{Ending, Until, serve_until};
use std::alloc::Global;
use std::cell::Cell;
use std::rc::Rc;

/// The moments of a first turn that sends a report, and of a second one.
const MOMENTS: &[u64] = &[0, 1_026_037, 500_000, 2_000_000];

/// An ending that lets so many turns be made before the leave and after it, and keeps the questions.
#[derive(Drop)]
struct Script {
    before: usize,
    after: usize,
    asked: Vec<(u64, bool)>,
}

impl Script {
    fn new(alloc: Global, before: usize, after: usize) -> Script {
        Script {
            before,
            after,
            asked: Vec::new(alloc),
        }
    }
}

impl Ending for Script {
    ghost known = { λ script has_left at. None };

    fn is_over(&mut self, moment: u64, has_left: bool) -> bool {
        let _ = self.asked.push((moment, has_left));
        let turns = if has_left {
            &mut self.after
        } else {
            &mut self.before
        };
        if *turns == 0 {
            return true;
        }
        *turns -= 1;
        false
    }
}

/// What a session of a participant came to that may be ended, and how many words it drew, which were all 0.
fn limited<L: Link, E: Ending>(
    link: &mut L,
    participant: &mut Participant<SortedTable>,
    ending: &mut E,
    turns: u64,
) -> (End, u32)
    requires turns { turns ≤ 2 ^ 59 }
    requires receives { (L.value link.old).failed_receives < 2 ^ 63 }
    requires sends { (L.value link.old).failed_sends < 2 ^ 63 }
{
    let mut rng = Zeros(0);
    let mut buf = [0; 65_535];
    let end = serve_until(
        link,
        participant,
        &mut rng,
        ending,
        turns,
        &mut (),
        &mut buf,
    );
    (end, rng.0)
}

/// An idle session that is left at a moment, or after so many turns: the octets of the compounds that it sent, how many
/// calls it made, and how many words it drew.
fn left_at(
    rt: &impl Abort,
    alloc: Global,
    moment: u64,
    turns: u64,
) -> Result<(usize, usize, u32), Fail>
    requires { turns ≤ 2 ^ 59 }
{
    let made = Rc::new(alloc, Cell::new(0))?;
    let mut link = MemoryLink::new(alloc, MOMENTS, &[], &[], 300, &made)?;
    let mut participant = participant(rt);
    let (end, drawn) = limited(&mut link, &mut participant, &mut Until { moment }, turns);
    assert_eq!(rt; end.cause, Cause::Done);
    let mut sent = 0usize;
    for call in &link.log.calls {
        if let Made::Sent(octets, _) = call {
            sent = sent.saturating_add(octets.len());
        }
    }
    Ok((sent, link.log.calls.len(), drawn))
}

/// A session is left at the first moment at or past its end that it sees before a turn. A turn makes four calls and
/// draws two words, the leave one. The first turn sends a report, and a leave after it a BYE.
#[test]
fn moments(rt: HostRuntime) -> Result<(), Fail> {
    let alloc = rt.alloc();
    let both = REPORT.len() + BYE.len();
    assert_eq!(rt; left_at(&rt, alloc, 0, 9)?, (0, 0, 1));
    assert_eq!(rt; left_at(&rt, alloc, 1, 9)?, (both, 6, 3));
    assert_eq!(rt; left_at(&rt, alloc, 1_026_037, 9)?, (both, 6, 3));
    assert_eq!(rt; left_at(&rt, alloc, 1_026_038, 9)?, (both, 10, 5));
    assert_eq!(rt; left_at(&rt, alloc, 2_000_000, 9)?, (both, 10, 5));
    // The clock stands there, so that the turns end it.
    assert_eq!(rt; left_at(&rt, alloc, 2_000_001, 3)?, (both, 14, 7));
    assert_eq!(rt; left_at(&rt, alloc, u64::MAX, 2)?, (both, 10, 5));
    assert_eq!(rt; left_at(&rt, alloc, u64::MAX, 0)?, (0, 0, 1));
    Ok(())
}

/// It is asked before each turn at the greatest moment so far, and no more once the participant has left.
#[test]
fn questions(rt: HostRuntime) -> Result<(), Fail> {
    let made = Rc::new(rt.alloc(), Cell::new(0))?;
    let mut link = MemoryLink::new(rt.alloc(), MOMENTS, &[], &[], 300, &made)?;
    let mut ending = Script::new(rt.alloc(), 2, 9);
    let (end, drawn) = limited(&mut link, &mut participant(&rt), &mut ending, 1_000);
    let left = End {
        sent: 2,
        bye: true,
        ..IDLE
    };
    assert_eq!(rt; (end, drawn), (left, 5));
    let asked = [(0, false), (1_026_037, false), (2_000_000, false)];
    assert_eq!(rt; ending.asked.as_slice(), asked.as_slice());
    Ok(())
}

/// What became of a session that 60 others joined after its report: they are more than 50, so that the BYE waits until
/// 2,052,074, and the ending may end the wait.
fn backs_off(
    rt: &impl Abort,
    alloc: Global,
    after: usize,
    moments: &[u64],
) -> Result<(bool, Vec<(u64, bool)>), Fail> {
    let mut clock = Vec::from_slice(alloc, &[0, 1_026_037])?;
    clock.resize(2 + 120, 1_026_037)?;
    clock.extend_from_slice(moments)?;
    let mut coming = Vec::from_slice(alloc, &[Coming::Nothing, Coming::Nothing])?;
    for ssrc in 1..=60u8 {
        coming.push(Coming::Named(ssrc))?;
        coming.push(Coming::Nothing)?;
    }
    let made = Rc::new(alloc, Cell::new(0))?;
    let mut link = MemoryLink::new(alloc, &clock, &coming, &[], 900, &made)?;
    let mut ending = Script::new(alloc, 61, after);
    let (end, _) = limited(&mut link, &mut participant(rt), &mut ending, 1_000);
    assert_eq!(rt; (end.cause, end.received), (Cause::Done, 60));
    let mut waited = Vec::new(alloc);
    for (moment, has_left) in &ending.asked {
        if *has_left {
            waited.push((*moment, *has_left))?;
        }
    }
    Ok((end.bye, waited))
}

/// After the leave it is asked before each turn too, as long as the BYE waits.
#[test]
fn waits(rt: HostRuntime) -> Result<(), Fail> {
    let alloc = rt.alloc();
    let late = [1_026_037, 2_000_000, 2_000_000, 2_500_000];
    let (bye, asked) = backs_off(&rt, alloc, 0, &late)?;
    assert_eq!(rt;
        (bye, asked.as_slice()),
        (false, [(1_026_037, true)].as_slice())
    );
    let (bye, asked) = backs_off(&rt, alloc, 1, &late)?;
    let twice = [(1_026_037, true), (2_000_000, true)];
    assert_eq!(rt; (bye, asked.as_slice()), (false, twice.as_slice()));
    let (bye, asked) = backs_off(&rt, alloc, 9, &[1_026_037, 2_000_000, 2_000_000, 3_100_000])?;
    assert_eq!(rt; (bye, asked.as_slice()), (true, twice.as_slice()));
    Ok(())
}

/// A moment ends turns from then on, and after the leave from twice it on. None ends none, and one of a pair suffices.
#[test]
fn endings(rt: HostRuntime) {
    let mut until = Until { moment: 10 };
    let found = [
        until.is_over(9, false),
        until.is_over(10, false),
        until.is_over(19, true),
        until.is_over(20, true),
        until.is_over(u64::MAX, true),
    ];
    assert_eq!(rt; found, [false, true, false, true, true]);
    let mut none = None::<Until>;
    assert!(rt; !none.is_over(u64::MAX, false));
    for (first, second, wanted) in [
        (None, None, false),
        (Some(until), None, true),
        (None, Some(until), true),
        (Some(Until { moment: 11 }), Some(until), true),
        (
            Some(Until { moment: 11 }),
            Some(Until { moment: 12 }),
            false,
        ),
    ] {
        assert_eq!(rt; (first, second).is_over(10, false), wanted);
    }
}
