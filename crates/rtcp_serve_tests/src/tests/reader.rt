//! A reader of logs.

use super::log::Made;
use super::memory_link::MemoryLink;
use super::watch::{Watch, shown};
use super::zeros::Zeros;
use super::*;
use rand_core::Rng;
use rtcp_engine::{Event, Refusal};
use std::alloc::Global;

/// Walks a log, tells a participant of its own what the log says, and keeps what it tells and is answered.
#[derive(Drop)]
pub(crate) struct Reader<'a, R> {
    calls: &'a [Made],
    /// How many of the calls were read.
    place: usize,
    participant: Participant<SortedTable>,
    words: R,
    /// The greatest moment so far.
    moment: u64,
    /// The failed receives in a row, over both ports.
    failures: u32,
    watch: Watch,
}

/// Reads the log of a link whose session had so many turns and words of 0, with a participant that stands where that of
/// the session began. The watch was told what the reader tells, and no more. Returns why the session ended.
pub(crate) fn reads(
    rt: &impl Abort,
    alloc: Global,
    (link, watch): (&MemoryLink, &Watch),
    participant: Participant<SortedTable>,
    turns: u32,
) -> Cause {
    reads_with(rt, alloc, (link, watch), participant, Zeros(0), turns)
}

/// The same with other words.
pub(crate) fn reads_with<R: Rng + Drop>(
    rt: &impl Abort,
    alloc: Global,
    (link, watch): (&MemoryLink, &Watch),
    participant: Participant<SortedTable>,
    words: R,
    turns: u32,
) -> Cause {
    let Ok(made) = watch.made.clone() else {
        panic!(rt; "no memory");
    };
    let mut reader = Reader {
        calls: link.log.calls.as_slice(),
        place: 0,
        participant,
        words,
        moment: 0,
        failures: 0,
        watch: Watch::new(alloc, watch.tellings.len(), made),
    };
    let cause = match reader.session(rt, turns) {
        Ok(()) => Cause::Done,
        Err(cause) => cause,
    };
    assert!(rt; link.log.is_whole && watch.is_whole && reader.watch.is_whole);
    assert_eq!(rt; reader.place, link.log.calls.len());
    assert_eq!(rt; reader.watch.tellings, watch.tellings);
    cause
}

impl<'a, R: Rng> Reader<'a, R> {
    /// A session of so many turns is made to its end.
    fn session(&mut self, rt: &impl Abort, turns: u32) -> Result<(), Cause> {
        self.turns(rt, turns)?;
        if self.participant.next().is_none() {
            return Ok(());
        }
        let (now, w) = (self.moment, self.words.next_u32());
        let answer = self.participant.leave(now, w);
        self.watch
            .note(self.place, &Event::Leave { now, w }, shown(&answer));
        let was_taken = self.compound(rt, answer)?;
        assert!(rt; was_taken, "a leave is refused");
        self.turns(rt, turns)
    }

    /// Turns are made, until the participant has left.
    fn turns(&mut self, rt: &impl Abort, turns: u32) -> Result<(), Cause> {
        for _ in 0..turns {
            if self.participant.next().is_none() {
                return Ok(());
            }
            self.clock(rt);
            self.port(rt, Port::Rtcp)?;
            self.port(rt, Port::Rtp)?;
            self.clock(rt);
            let (now, w1, w2) = (self.moment, self.words.next_u32(), self.words.next_u32());
            let answer = self.participant.tick(now, w1, w2);
            self.watch
                .note(self.place, &Event::Tick { now, w1, w2 }, shown(&answer));
            let was_taken = self.compound(rt, answer)?;
            assert!(rt; was_taken, "a tick is refused");
        }
        Ok(())
    }

    /// The clock is read.
    fn clock(&mut self, rt: &impl Abort) {
        match self.next(rt) {
            Made::Clock(moment) => self.moment = self.moment.max(*moment),
            made => panic!(rt; "{:?} in place of the clock", made),
        }
    }

    /// A port is listened to, for 20,000 microseconds. The 64th failure in a row ends the session.
    fn port(&mut self, rt: &impl Abort, port: Port) -> Result<(), Cause> {
        match self.next(rt) {
            Made::Came(asked, wait, peer, octets) => {
                assert_eq!(rt; (*asked, *wait), (port, 20_000));
                self.failures = 0;
                self.datagram(rt, port, *peer, octets.as_slice())
            }
            Made::Silence(asked, wait) => {
                assert_eq!(rt; (*asked, *wait), (port, 20_000));
                self.failures = 0;
                Ok(())
            }
            Made::Failure(asked, wait) => {
                assert_eq!(rt; (*asked, *wait), (port, 20_000));
                self.failures = self.failures.saturating_add(1);
                if self.failures == 64 {
                    return Err(Cause::LinkDown);
                }
                Ok(())
            }
            made => panic!(rt; "{:?} in place of a port", made),
        }
    }

    /// A datagram came, and the compound of its answer is sent, if there is one.
    fn datagram(
        &mut self,
        rt: &impl Abort,
        port: Port,
        peer: u64,
        bytes: &[u8],
    ) -> Result<(), Cause> {
        let (now, w) = (self.moment, self.words.next_u32());
        let event = match port {
            Port::Rtcp => Event::ArriveRtcp {
                now,
                peer,
                w,
                bytes,
            },
            Port::Rtp => Event::ArriveRtp {
                now,
                peer,
                w,
                bytes,
            },
        };
        let answer = match port {
            Port::Rtcp => self.participant.arrive_rtcp(now, peer, w, bytes),
            Port::Rtp => self.participant.arrive_rtp(now, peer, w, bytes),
        };
        self.watch.note(self.place, &event, shown(&answer));
        let _ = self.compound(rt, answer)?;
        Ok(())
    }

    /// The compound that an answer hands out is sent, if there is one. Returns whether the call was taken. A limit ends
    /// the session.
    fn compound(&mut self, rt: &impl Abort, answer: Answer) -> Result<bool, Cause> {
        let step = match answer {
            Ok(step) => step,
            Err(Refusal::TooFar | Refusal::TooMany) => return Err(Cause::Limit),
            Err(_) => return Ok(false),
        };
        if let Some(out) = step.out {
            match self.next(rt) {
                Made::Sent(octets, _) => assert!(rt; octets.as_slice() == out.bytes.as_slice()),
                made => panic!(rt; "{:?} in place of a compound", made),
            }
        }
        Ok(true)
    }

    /// The next call.
    fn next(&mut self, rt: &impl Abort) -> &'a Made {
        let place = self.place;
        self.place = place.saturating_add(1);
        match self.calls.get(place) {
            Some(made) => made,
            None => panic!(rt; "the log ends"),
        }
    }
}
