//! Random histories, through both tables.

ghost use Rattle.std.specs.Prelude.{◌≤◌, ◌+◌, ◌<◌};

use super::*;
use std::alloc::Global;
use std::process::Abort;
use std::test::*;

/// What a call returned.
#[derive(Clone, Copy, Debug, PartialEq, Eq)]
enum Answer {
    Fact(Applied),
    Check(Dropped),
    Block(Option<Block>),
    Forgotten(bool),
}

#[test]
fn answers_are_alike(rt: HostRuntime) {
    alike(&rt, rt.alloc(), 1);
    alike(&rt, rt.alloc(), 2);
    alike(&rt, rt.alloc(), 3);
    alike(&rt, rt.alloc(), 4);
}

/// All tables return the same in each call of a history of 500, and then have the same counts and the same
/// source next. In some step there are two senders.
fn alike(rt: &impl Abort, alloc: Global, seed: u32) {
    let mut list: Session<ListTable> = Session::new(4);
    let mut sorted: Session<SortedTable> = Session::new(4);
    let mut room = Session::with_table(HeapTable::with_room(alloc, 4).expect(rt, "no memory"), 4);
    let mut draw = seed;
    let mut most = 0;
    'steps: for step in 0..500 {
        draw = draw.wrapping_mul(1_664_525).wrapping_add(1_013_904_223);
        let answer = call(&mut sorted, draw, step);
        assert_eq!(rt; answer, call(&mut list, draw, step));
        assert_eq!(rt; answer, call(&mut room, draw, step));
        assert_eq!(rt; seen(&sorted, draw), seen(&list, draw));
        assert_eq!(rt; seen(&sorted, draw), seen(&room, draw));
        most = sorted.senders().max(most);
    }
    assert!(rt; most >= 2);
}

/// One of eight sources says something or is forgotten, the table is checked, or a block is made.
fn call<T: MemberTable>(session: &mut Session<T>, draw: u32, step: u16) -> Answer
    requires { session.old.facts < 100000 }
    ensures { session.new.facts ≤ session.old.facts + 1 }
{
    let (ssrc, t) = (draw >> 8 & 7, u64::from(step));
    let fact = match draw >> 16 & 15 {
        0 => return Answer::Check(session.check(t, horizon(t, 40), horizon(t, 20), horizon(t, 10))),
        1 => return Answer::Block(session.block(Some(ssrc), t)),
        2 => return Answer::Block(session.block_by_two(Some(ssrc), t)),
        3 => Fact::Gone(ssrc),
        4 => Fact::Heard(ssrc),
        5 => Fact::Named(ssrc),
        6 => Fact::Told(ssrc, u64::from(draw), draw),
        7 => return Answer::Forgotten(session.forget(ssrc)),
        _ => Fact::Media(ssrc, step / 16, draw, u64::from(step), 8_000),
    };
    Answer::Fact(session.apply(fact, t))
}

fn horizon(t: u64, before: u64) -> u64 {
    t.saturating_sub(before)
}

/// The members, the senders, and the source that is next.
fn seen<T: MemberTable>(session: &Session<T>, draw: u32) -> (u32, u32, Option<u32>) {
    let after = Some(draw >> 8 & 7);
    (session.members(), session.senders(), session.next(after))
}
