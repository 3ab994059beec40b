//! The answers to the lines of a session: what a participant answers to the event that a line says, alone or with a
//! guard before it.

ghost use Rattle.std.specs.Prelude.{◌≡◌};

use crate::answers::{push_answer_json, push_guarded_json};
use rtcp_engine::Participant;
use rtcp_guarded::GuardedParticipant;
use rtcp_members::MemberTable;
use rtcp_text::TextFault;
use rtcp_text::answerer::Answerer;
use rtcp_text::event_line::{EventBuffers, EventFault, read_event};
use rtcp_wire::MAX_COMPOUND;
use std::alloc::{AllocError, Global};

/// Tells a participant the event of each line. The buffers of the events and the room for compounds are kept from line
/// to line.
#[derive(Drop)]
pub(crate) struct JsonPlayer<T: MemberTable> {
    participant: Participant<T>,
    buffers: EventBuffers,
    octets: [u8; MAX_COMPOUND],
}

impl<T: MemberTable> JsonPlayer<T> {
    /// A player with empty buffers and an empty room.
    pub(crate) fn new(alloc: Global, participant: Participant<T>) -> Self
        ensures { result.participant ≡ participant }
    {
        JsonPlayer {
            participant,
            buffers: EventBuffers::new(alloc),
            octets: [0; MAX_COMPOUND],
        }
    }
}

impl<T: MemberTable + Drop> Answerer for JsonPlayer<T> {
    ghost use Rattle.rtcp_text.specs.Replay.{IsNoEvent};
    ghost use Rattle.rtcp_json.specs.ReplayJson.{AnswersStandingInJson};

    ghost answers = { AnswersStandingInJson (λ player. player.participant) };

    ghost refuses = { IsNoEvent };

    fn compose(&mut self, number: u64, line: &[u8], text: &mut Vec<u8>) -> Result<(), TextFault> {
        let event = match read_event(line, &mut self.buffers) {
            Ok(event) => event,
            Err(EventFault::Line(fault)) => {
                return Err(TextFault::Text {
                    line: number,
                    fault,
                });
            }
            Err(EventFault::Memory) => return Err(TextFault::Memory),
        };
        let reply = self.participant.tell_into(&event, &mut self.octets);
        match push_answer_json(text, &reply, &self.octets) {
            Ok(()) => Ok(()),
            Err(AllocError) => Err(TextFault::Memory),
        }
    }
}

/// Tells a guarded participant the event of each line, as [`JsonPlayer`] does.
#[derive(Drop)]
pub(crate) struct GuardedJsonPlayer<T: MemberTable> {
    guarded: GuardedParticipant<T>,
    buffers: EventBuffers,
    octets: [u8; MAX_COMPOUND],
}

impl<T: MemberTable> GuardedJsonPlayer<T> {
    /// A player with empty buffers and an empty room.
    pub(crate) fn new(alloc: Global, guarded: GuardedParticipant<T>) -> Self
        ensures { result.guarded ≡ guarded }
    {
        GuardedJsonPlayer {
            guarded,
            buffers: EventBuffers::new(alloc),
            octets: [0; MAX_COMPOUND],
        }
    }
}

impl<T: MemberTable + Drop> Answerer for GuardedJsonPlayer<T> {
    ghost use Rattle.rtcp_text.specs.Replay.{IsNoEvent};
    ghost use Rattle.rtcp_json.specs.GuardedReplayJson.{AnswersStandingGuardedInJson};

    ghost answers = { AnswersStandingGuardedInJson (λ player. player.guarded) };

    ghost refuses = { IsNoEvent };

    fn compose(&mut self, number: u64, line: &[u8], text: &mut Vec<u8>) -> Result<(), TextFault> {
        let event = match read_event(line, &mut self.buffers) {
            Ok(event) => event,
            Err(EventFault::Line(fault)) => {
                return Err(TextFault::Text {
                    line: number,
                    fault,
                });
            }
            Err(EventFault::Memory) => return Err(TextFault::Memory),
        };
        let reply = self.guarded.tell_into(&event, &mut self.octets);
        match push_guarded_json(text, &reply, &self.octets) {
            Ok(()) => Ok(()),
            Err(AllocError) => Err(TextFault::Memory),
        }
    }
}
