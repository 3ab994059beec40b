//! What watches a session.

ghost use Rattle.rtcp_engine.specs.state.Views.{event_value};
ghost use Rattle.rtcp_guarded.specs.Views.{guarded_value};
ghost use Rattle.rtcp_serve.specs.Observers.{Notice, TakesIfSome, event_told, send_tried, telling};

use rtcp_engine::{Event, Participant};
use rtcp_guarded::GuardedAnswer;
use rtcp_members::MemberTable;

/// What watches a session. It cannot change it. `()` and `None` watch nothing, and of a pair the first is told before
/// the second.
pub trait Observer {
    /// What a clause knows of an observer once it took a notice, by what it was before. Where nothing else is said,
    /// nothing.
    ghost takes: { Notice → (before after : Self) → Type 0 } = { λ notice before after. Unit {0} };

    /// Is called after each event that the participant was told, refused or held back or not, with the answer and the
    /// participant as it is then, and before the compound of the answer is sent, if it has one.
    fn told<T: MemberTable>(
        &mut self,
        event: &Event<'_>,
        answer: &GuardedAnswer,
        participant: &Participant<T>,
    )
        ensures { takes (event_told (telling (event_value event.now) (guarded_value answer.now))) self.old self.new };

    /// Is called after each compound that the link was asked to send: whether that failed.
    fn sent(&mut self, failed: bool)
        ensures { takes (send_tried failed) self.old self.new };
}

impl Observer for () {
    fn told<T: MemberTable>(
        &mut self,
        _event: &Event<'_>,
        _answer: &GuardedAnswer,
        _participant: &Participant<T>,
    ) {}

    fn sent(&mut self, _failed: bool) {}
}

impl<O: Observer> Observer for Option<O> {
    ghost takes = { λ notice before after. TakesIfSome (O.takes notice) before after };

    fn told<T: MemberTable>(
        &mut self,
        event: &Event<'_>,
        answer: &GuardedAnswer,
        participant: &Participant<T>,
    ) {
        if let Some(observer) = self {
            observer.told(event, answer, participant);
        }
    }

    fn sent(&mut self, failed: bool) {
        if let Some(observer) = self {
            observer.sent(failed);
        }
    }
}

impl<A: Observer, B: Observer> Observer for (A, B) {
    ghost takes = { λ notice before after. A.takes notice before.0 after.0 × B.takes notice before.1 after.1 };

    fn told<T: MemberTable>(
        &mut self,
        event: &Event<'_>,
        answer: &GuardedAnswer,
        participant: &Participant<T>,
    ) {
        self.0.told(event, answer, participant);
        self.1.told(event, answer, participant);
    }

    fn sent(&mut self, failed: bool) {
        self.0.sent(failed);
        self.1.sent(failed);
    }
}
