//! The answer to a line of a session: what a guarded participant answers to the event that the line says.

ghost use Rattle.std.specs.Prelude.{◌≡◌};

use crate::text::push_guarded_reply;
use rtcp_guarded::GuardedParticipant;
use rtcp_members::MemberTable;
use rtcp_text::TextFault;
use rtcp_text::answerer::Answerer;
use rtcp_text::event_line::{EventBuffers, EventFault, read_event};
use rtcp_wire::MAX_COMPOUND;
use std::alloc::{AllocError, Global};

/// Tells a guarded participant the event of each line. The buffers of the events and the room for compounds are kept
/// from line to line.
#[derive(Drop)]
pub(crate) struct GuardedPlayer<T: MemberTable> {
    guarded: GuardedParticipant<T>,
    buffers: EventBuffers,
    octets: [u8; MAX_COMPOUND],
}

impl<T: MemberTable> GuardedPlayer<T> {
    /// A player with empty buffers and an empty room.
    pub(crate) fn new(alloc: Global, guarded: GuardedParticipant<T>) -> Self
        ensures { result.guarded ≡ guarded }
    {
        GuardedPlayer {
            guarded,
            buffers: EventBuffers::new(alloc),
            octets: [0; MAX_COMPOUND],
        }
    }
}

impl<T: MemberTable + Drop> Answerer for GuardedPlayer<T> {
    ghost use Rattle.rtcp_text.specs.Replay.{IsNoEvent};
    ghost use Rattle.rtcp_guarded_text.specs.GuardedReplay.{AnswersStandingGuarded};

    ghost answers = { AnswersStandingGuarded (λ player. player.guarded) };

    ghost refuses = { IsNoEvent };

    fn compose(&mut self, number: u64, line: &[u8], text: &mut Vec<u8>) -> Result<(), TextFault> {
        let event = match read_event(line, &mut self.buffers) {
            Ok(event) => event,
            Err(EventFault::Line(fault)) => {
                return Err(TextFault::Text {
                    line: number,
                    fault,
                });
            }
            Err(EventFault::Memory) => return Err(TextFault::Memory),
        };
        let reply = self.guarded.tell_into(&event, &mut self.octets);
        match push_guarded_reply(text, &reply, &self.octets) {
            Ok(()) => Ok(()),
            Err(AllocError) => Err(TextFault::Memory),
        }
    }
}
