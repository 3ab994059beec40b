//! The answer to a line of a session: what a participant answers to the event that the line says.

ghost use Rattle.std.specs.Prelude.{◌≡◌};

use crate::answerer::Answerer;
use crate::event_line::{EventBuffers, EventFault, read_event};
use crate::fault::TextFault;
use crate::text::push_reply;
use rtcp_engine::Participant;
use rtcp_members::MemberTable;
use rtcp_wire::MAX_COMPOUND;
use std::alloc::{AllocError, Global};

/// Tells a participant the event of each line. The buffers of the events and the room for compounds are kept
/// from line to line.
#[derive(Drop)]
pub(crate) struct Player<T: MemberTable> {
    participant: Participant<T>,
    buffers: EventBuffers,
    octets: [u8; MAX_COMPOUND],
}

impl<T: MemberTable> Player<T> {
    /// A player with empty buffers and an empty room.
    pub(crate) fn new(alloc: Global, participant: Participant<T>) -> Self
        ensures { result.participant ≡ participant }
    {
        Player {
            participant,
            buffers: EventBuffers::new(alloc),
            octets: [0; MAX_COMPOUND],
        }
    }
}

impl<T: MemberTable + Drop> Answerer for Player<T> {
    ghost use Rattle.rtcp_text.specs.Replay.{AnswersStanding, IsNoEvent};

    ghost answers = { AnswersStanding (λ player. player.participant) };

    ghost refuses = { IsNoEvent };

    fn compose(&mut self, number: u64, line: &[u8], text: &mut Vec<u8>) -> Result<(), TextFault> {
        let event = match read_event(line, &mut self.buffers) {
            Ok(event) => event,
            Err(EventFault::Line(fault)) => {
                return Err(TextFault::Text {
                    line: number,
                    fault,
                });
            }
            Err(EventFault::Memory) => return Err(TextFault::Memory),
        };
        let reply = self.participant.tell_into(&event, &mut self.octets);
        match push_reply(text, &reply, &self.octets) {
            Ok(()) => Ok(()),
            Err(AllocError) => Err(TextFault::Memory),
        }
    }
}
