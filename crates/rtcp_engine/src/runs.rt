//! Runs of a participant over events.

ghost use Rattle.std.specs.Prelude.{◌≡◌, ◌≤◌, ◌<◌, ◌+◌, ◌-◌, ◌^◌, ◌++◌, true, false, length, map, take};
ghost use Rattle.rtcp_engine.specs.answers.Outcomes.{one_if};
ghost use Rattle.rtcp_engine.specs.answers.Histories.{History};
ghost use Rattle.rtcp_engine.specs.answers.Answers.{answers_to, followed_by_all};
ghost use Rattle.rtcp_engine.specs.answers.Acts.{act_told};
ghost use Rattle.rtcp_engine.specs.bounds.Runs.{HandsOver, taken_since};
ghost use Rattle.rtcp_engine.specs.state.States.{StandsAt, KeepsCapacity};

use crate::event::Event;
use crate::participant::Participant;
use crate::sink::Sink;
use rtcp_members::MemberTable;

/// What a run did.
#[derive(Clone, Copy, Debug, PartialEq, Eq)]
pub struct Ran {
    /// How many events the participant was told, those that it refused included.
    pub taken: usize,
    /// Whether the sink took no more: the answer to the last event that was told is lost then.
    pub stopped: bool,
}

/// Tells a participant events, one after the other, and hands each answer, step or refusal, to a sink. It ends
/// with the last event, or where the sink takes no more.
///
/// Its contract is the promise of this library, for whatever the events are and whatever was told before: the
/// answers are those defined over the whole history; the table never passes its capacity, and no compound the
/// limit; two successive reports lie at least half the interval then computed, over 1.21828, apart, so that in
/// any window at most one report more lies than 2.052 seconds fit into it; a tick that comes late sends; and
/// there is at most one BYE of leaving, at the end, and at most eight of identifiers that are given up (RFC 3550,
/// 6.2, 6.3, 8.2). Members that keep falling can put a report off, or bring it sooner, but never sooner than that.
pub fn run<T: MemberTable, S: Sink>(
    participant: &mut Participant<T>,
    events: &[Event<'_>],
    sink: &mut S,
) -> Ran
    requires { S.refusals sink.old < 2 ^ 64 - 1 }

    // All events are told where the sink took every answer, and at least one where it did not. The sink gets
    // as many answers as events were told, but for the one that it refused.
    ensures most { result.taken ≤ length events.now }
    ensures whole { result.stopped ≡ false → result.taken ≡ length events.now }
    ensures some { result.stopped ≡ true → 1 ≤ result.taken }
    ensures stopped { S.refusals sink.new ≡ S.refusals sink.old + one_if result.stopped }
    ensures handed { length (S.content sink.new)
        ≡ length (S.content sink.old) + (result.taken - one_if result.stopped) }

    // The sink has the answers of the whole history to the events that it was told of, and the participant
    // stands at the history followed by all that were told.
    ensures told { (history : History) → StandsAt participant.old history → S.content sink.new ≡ S.content sink.old
        ++ answers_to history (take (result.taken - one_if result.stopped) (map act_told events.now)) }
    ensures stands { (history : History) → StandsAt participant.old history →
        StandsAt participant.new (followed_by_all history (take result.taken (map act_told events.now))) }

    // The table never passes its capacity.
    ensures within { KeepsCapacity participant.old.presence → KeepsCapacity participant.new.presence }

    // The compounds of the answers that the sink took, each at the moment of its event, keep the bounds, together with
    // all that was sent before: reports lie apart, the first one too, and few lie in a window; the BYE of leaving comes
    // last, and nothing but refusals after it; few identifiers are given up; no compound passes the limit.
    ensures sends { (history : History) → StandsAt participant.old history →
        HandsOver history (take (result.taken - one_if result.stopped) (map act_told events.now))
        (taken_since (S.content sink.old) (S.content sink.new)) }
{
    let mut taken = 0;
    'events: for event in events {
        let answer = participant.tell(event);
        taken += 1;
        if sink.put(answer).is_err() {
            return Ran {
                taken,
                stopped: true,
            };
        }
    }
    Ran {
        taken,
        stopped: false,
    }
}
