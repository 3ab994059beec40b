//! Runs over several events.

ghost use Rattle.std.specs.Prelude.{◌≡◌, map};
ghost use Rattle.rtcp_engine.specs.state.Views.{answer_value};

use super::*;
use std::alloc::Global;

/// A sink with room for three answers.
#[derive(Drop)]
struct Three {
    answers: Vec<Answer>,
    refusals: u64,
}

impl Sink for Three {
    ghost content = { λ three. map answer_value three.answers.items };

    ghost refusals = { λ three. three.refusals };

    fn put(&mut self, answer: Answer) -> Result<(), SinkStop> {
        if self.answers.len() < 3 && self.answers.push(answer).is_ok() {
            return Ok(());
        }
        self.refusals += 1;
        Err(SinkStop)
    }
}

fn empty_sink(alloc: Global) -> Three
    ensures { result.refusals ≡ 0 }
{
    Three {
        answers: Vec::new(alloc),
        refusals: 0,
    }
}

/// A tick with words 0.
fn tick(now: u64) -> Event<'static> {
    Event::Tick { now, w1: 0, w2: 0 }
}

/// The answers to four kinds of events, and then a sink that is full.
#[test]
fn every_kind(rt: HostRuntime) {
    let mut session = Session::<ListTable>::usual(&rt);
    let changed = (
        Call::Rtcp(0, 1, 0xab, &OURS),
        Seen::Changes(0xab, 1, 0, 1_026_037, &[]),
    );
    session.plays(&rt, "changes", &[changed]);
    let own = [0x80, 0xc9, 0, 1, 0, 0, 0, 0xab];
    let packet = [0x80, 0, 0, 1, 0, 0, 0, 0, 0, 0, 0, 9];
    let events = [
        Event::SentRtp {
            now: 5,
            rtp_ts: 0,
            octets: 0,
        },
        Event::ArriveRtcp {
            now: 5,
            peer: 1,
            w: 0,
            bytes: &own,
        },
        Event::ArriveRtp {
            now: 5,
            peer: 1,
            w: 0,
            bytes: &packet,
        },
        tick(6),
        tick(7),
    ];
    let mut sink = empty_sink(rt.alloc());
    let ran = run(&mut session.participant, &events, &mut sink);
    assert!(&rt;
        ran == Ran {
            taken: 4,
            stopped: true
        }
    );
    assert_eq!(&rt; sink.refusals, 1);
    let kinds = sink.answers.iter().map(|answer| answer.is_ok());
    for (kind, expected) in kinds.zip([true, false, true]) {
        assert!(&rt; kind == expected);
    }
    // The tick at 6 was taken though its answer is lost.
    let rows = [
        (Call::Tick(5, 0, 0), Seen::Refused(Refusal::Backwards)),
        (Call::Tick(6, 0, 0), Seen::Is(1, 1, 1_026_037)),
    ];
    session.plays(&rt, "after the run", &rows);
}

/// A run without events, and one whose answers all fit.
#[test]
fn whole(rt: HostRuntime) {
    let mut session = Session::<ListTable>::usual(&rt);
    let mut sink = empty_sink(rt.alloc());
    let none = run(&mut session.participant, &[], &mut sink);
    assert!(&rt;
        none == Ran {
            taken: 0,
            stopped: false
        }
    );
    let mut sink = empty_sink(rt.alloc());
    let events = [tick(1), tick(0), tick(1_026_037)];
    let ran = run(&mut session.participant, &events, &mut sink);
    assert!(&rt;
        ran == Ran {
            taken: 3,
            stopped: false
        }
    );
    assert_eq!(&rt; sink.answers.len(), 3);
    match sink.answers.get(2) {
        Some(Ok(step)) => match &step.out {
            Some(out) => assert!(&rt; out.bytes.as_slice() == &REPORT[..]),
            None => panic!(&rt; "there is nothing to send"),
        },
        _ => panic!(&rt; "the last event is refused"),
    }
}

/// A leave among the events: the BYE goes out at once, and what follows is refused.
#[test]
fn left(rt: HostRuntime) {
    let mut session = Session::<ListTable>::usual(&rt);
    let mut sink = empty_sink(rt.alloc());
    let leave = Event::Leave {
        now: 1_026_037,
        w: 0,
    };
    let events = [tick(1_026_037), leave, tick(1_026_037)];
    let ran = run(&mut session.participant, &events, &mut sink);
    assert_eq!(&rt; ran.taken, 3);
    match sink.answers.get(1) {
        Some(Ok(Step { out: Some(out), .. })) => assert!(&rt; out.kind == OutKind::Bye),
        _ => panic!(&rt; "there is no BYE to send"),
    }
    assert!(&rt; matches!(sink.answers.get(2), Some(Err(Refusal::Left))));
    session.plays(&rt, "gone", &[(Call::Ask, Seen::LeavesSilently)]);
}

/// What the host tells beside: other settings, and a source that is gone.
#[test]
fn told(rt: HostRuntime) {
    let mut session = Session::<ListTable>::usual(&rt);
    session.plays(&rt, "named", &[(Call::Named(0, 9), Seen::Counts(2, 0))]);
    let mut sink = empty_sink(rt.alloc());
    let slow = session::settings(16, 16, false);
    let events = [
        Event::Configure {
            now: 500_000,
            settings: &slow,
        },
        Event::Configure {
            now: 499_999,
            settings: &slow,
        },
        Event::Forget {
            now: 500_000,
            ssrc: 9,
        },
    ];
    let ran = run(&mut session.participant, &events, &mut sink);
    assert_eq!(&rt; ran.taken, 3);
    let kinds = sink.answers.iter().map(|answer| answer.is_ok());
    for (kind, expected) in kinds.zip([true, false, true]) {
        assert!(&rt; kind == expected);
    }
    let rows = [
        (Call::Ask, Seen::Is(1, 0, 1_026_037)),
        (Call::Tick(1_026_037, 0, 0), Seen::Is(1, 0, 1_231_245)),
    ];
    session.plays(&rt, "after the run", &rows);
}
