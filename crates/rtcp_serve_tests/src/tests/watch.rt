//! What an observer is told, as a test reads it.

use rtcp_engine::{
    Answer, Event, Participant, Refusal, Reply, Standing, Step, Written, WrittenStep,
};
use rtcp_guarded::{GuardedAnswer, Untaken};
use rtcp_members::MemberTable;
use rtcp_serve::{Observer, Port};
use std::alloc::{AllocError, Global};
use std::cell::Cell;
use std::rc::Rc;

/// An event, as a test keeps it: with its moment, its peer and its words.
#[derive(Drop, Debug, PartialEq, Eq)]
pub(crate) enum Happening {
    /// A datagram of these octets came to a port, from the peer of this number. A word was drawn for it.
    Came(Port, u64, u64, u32, Vec<u8>),
    /// The host sent an RTP packet, of this timestamp and so many octets.
    SentRtp(u64, u32, u32),
    /// A tick, with its two words.
    Tick(u64, u32, u32),
    /// The leave, with its word.
    Leave(u64, u32),
}

/// An event that a participant was told, and what it answered, with the octets of the compound apart.
#[derive(Drop, Debug, PartialEq, Eq)]
pub(crate) struct Telling {
    /// How many calls of the link came before it.
    calls: usize,
    event: Happening,
    reply: Reply,
    octets: Vec<u8>,
}

/// What an observer was told, in its order, as long as it fits the room that was reserved for it.
#[derive(Drop)]
pub(crate) struct Watch {
    alloc: Global,
    /// How many calls of the link were made.
    pub(crate) made: Rc<Cell<usize>>,
    pub(crate) tellings: Vec<Telling>,
    /// Whether all of it fitted.
    pub(crate) is_whole: bool,
}

impl Watch {
    /// A watch with room for so many events, and none where there is no memory for them.
    pub(crate) fn new(alloc: Global, room: usize, made: Rc<Cell<usize>>) -> Watch {
        match Vec::with_capacity(alloc, room) {
            Ok(tellings) => Watch {
                alloc,
                made,
                tellings,
                is_whole: true,
            },
            Err(_) => Watch {
                alloc,
                made,
                tellings: Vec::new(alloc),
                is_whole: false,
            },
        }
    }

    /// How many calls of the link were made.
    fn calls(&self) -> usize {
        self.made.get()
    }

    /// Notes an event with its answer, after so many calls of the link, if it fits.
    pub(crate) fn note(&mut self, calls: usize, event: &Event<'_>, answer: Result<&Step, Refusal>) {
        self.is_whole = match telling_of(self.alloc, calls, event, answer) {
            Ok(noted) => self.is_whole
                && self.tellings.len() < self.tellings.capacity()
                && self.tellings.push(noted).is_ok(),
            Err(_) => false,
        };
    }
}

impl Observer for Watch {
    fn told<T: MemberTable>(
        &mut self,
        event: &Event<'_>,
        answer: &GuardedAnswer,
        _participant: &Participant<T>,
    ) {
        let calls = self.calls();
        match answer {
            Ok(step) => self.note(calls, event, Ok(step)),
            Err(Untaken::Refused(refusal)) => self.note(calls, event, Err(*refusal)),
            // Nothing is held back in the sessions that are noted.
            Err(Untaken::HeldBack(_)) => self.is_whole = false,
        }
    }

    fn sent(&mut self, _failed: bool) {}
}

/// An answer as it is noted.
pub(crate) fn shown(answer: &Answer) -> Result<&Step, Refusal> {
    match answer {
        Ok(step) => Ok(step),
        Err(refusal) => Err(*refusal),
    }
}

/// An event with its answer, as it is noted.
fn telling_of(
    alloc: Global,
    calls: usize,
    event: &Event<'_>,
    answer: Result<&Step, Refusal>,
) -> Result<Telling, AllocError> {
    let event = happening_of(alloc, event)?;
    let (reply, octets) = reply_of(alloc, answer)?;
    Ok(Telling {
        calls,
        event,
        reply,
        octets,
    })
}

/// An event, as it is noted.
fn happening_of(alloc: Global, event: &Event<'_>) -> Result<Happening, AllocError> {
    match *event {
        Event::ArriveRtcp {
            now,
            peer,
            w,
            bytes,
        } => {
            let octets = Vec::from_slice(alloc, bytes)?;
            Ok(Happening::Came(Port::Rtcp, now, peer, w, octets))
        }
        Event::ArriveRtp {
            now,
            peer,
            w,
            bytes,
        } => {
            let octets = Vec::from_slice(alloc, bytes)?;
            Ok(Happening::Came(Port::Rtp, now, peer, w, octets))
        }
        Event::SentRtp {
            now,
            rtp_ts,
            octets,
        } => Ok(Happening::SentRtp(now, rtp_ts, octets)),
        Event::Tick { now, w1, w2 } => Ok(Happening::Tick(now, w1, w2)),
        Event::Leave { now, w } => Ok(Happening::Leave(now, w)),
        // What only a host tells is not noted: `serve` never tells it.
        Event::Configure { .. } | Event::Forget { .. } => Err(AllocError),
    }
}

/// An answer without its compound, and the octets of that. An answer has no SSRC: 0 stands in its place.
fn reply_of(alloc: Global, answer: Result<&Step, Refusal>) -> Result<(Reply, Vec<u8>), AllocError> {
    let step = match answer {
        Ok(step) => step,
        Err(refusal) => return Ok((Err(refusal), Vec::new(alloc))),
    };
    let (out, octets) = match &step.out {
        Some(out) => (
            Some(Written {
                kind: out.kind,
                size: out.bytes.len(),
            }),
            Vec::from_slice(alloc, out.bytes.as_slice())?,
        ),
        None => (None, Vec::new(alloc)),
    };
    let standing = Standing {
        members: step.members,
        senders: step.senders,
        entries: step.entries,
        ssrc: 0,
        next: step.next,
    };
    let told = WrittenStep {
        others_changed: step.others_changed,
        changed: step.changed,
        out,
        standing,
    };
    Ok((Ok(told), octets))
}
