//! What takes part in a session over a link.

ghost use Rattle.std.specs.Prelude.{◌≡◌};
ghost use Rattle.rtcp_engine.specs.state.States.{StandsAt};
ghost use Rattle.rtcp_engine.specs.state.Views.{answer_value, event_value};
ghost use Rattle.rtcp_guarded.specs.Views.{guarded_value};
ghost use Rattle.rtcp_serve.specs.Served.{AnswersServed, Served, ServedValue, StandsServed, as_guarded, behind_guard, by_itself, next_for, passed_for};

use rtcp_engine::{Answer, Event, Participant};
use rtcp_guarded::{GuardedAnswer, GuardedParticipant, Untaken};
use rtcp_members::MemberTable;

/// What takes part in a session: a participant, or one with a guard before it.
pub trait Attendant {
    /// The table of its participant.
    type Table: MemberTable;

    /// What a clause knows of it.
    ghost value: { Self → ServedValue };

    /// Tells it an event.
    ///
    /// # Errors
    ///
    /// Why the event was not taken: the participant refuses it, or the guard holds it back.
    fn take(&mut self, event: &Event<'_>) -> GuardedAnswer
        ensures { AnswersServed (value self.old) (event_value event.now) (guarded_value result) (value self.new) };

    /// When it is to be asked next, in microseconds since the session began, or `None` once it has left.
    fn next_tick(&self) -> Option<u64>
        ensures exact { (history : Served) → StandsServed (value self.now) history → result ≡ next_for history };

    /// Its participant, to ask who is there.
    fn participant(&self) -> &Participant<Self::Table>
        ensures { (history : Served) → StandsServed (value self.now) history →
            StandsAt result.now (passed_for history) };
}

impl<T: MemberTable> Attendant for Participant<T> {
    type Table = T;

    ghost value = { λ participant. by_itself participant };

    fn take(&mut self, event: &Event<'_>) -> GuardedAnswer {
        as_untaken(self.tell(event))
    }

    fn next_tick(&self) -> Option<u64> {
        self.next()
    }

    fn participant(&self) -> &Participant<T> {
        self
    }
}

impl<T: MemberTable> Attendant for GuardedParticipant<T> {
    type Table = T;

    ghost value = { λ both. behind_guard both };

    fn take(&mut self, event: &Event<'_>) -> GuardedAnswer {
        self.tell(event)
    }

    fn next_tick(&self) -> Option<u64> {
        self.participant().next()
    }

    fn participant(&self) -> &Participant<T> {
        self.participant()
    }
}

/// The answer of a participant without a guard.
#[inline(always)]
fn as_untaken(answer: Answer) -> GuardedAnswer
    ensures { guarded_value result ≡ as_guarded (answer_value answer) }
{
    match answer {
        Ok(step) => Ok(step),
        Err(refusal) => Err(Untaken::Refused(refusal)),
    }
}
