//! What observes a session and raises an alarm.

ghost use Rattle.std.specs.Prelude.{◌≡◌, None, Some, false};
ghost use Rattle.rtcp_members.specs.ListViews.{state_value};
ghost use Rattle.rtcp_engine.specs.answers.Histories.{History};
ghost use Rattle.rtcp_engine.specs.state.States.{StandsAt};
ghost use Rattle.rtcp_engine.specs.state.Views.{event_value};
ghost use Rattle.rtcp_guarded.specs.Views.{guarded_value};
ghost use Rattle.rtcp_alarm.specs.declared.alarms.Raised.{Raised as RaisedValue};
ghost use Rattle.rtcp_alarm.specs.Alarms.{IsAlarm, IsFirstLoss, IsLoss, Raises, fraction_of, hands_out, heard_after, is_above, left_after, moment_of_event, observation, silence_since};

use crate::alarms::{Alarm, AlarmLimits, Raised};
use crate::bell::Bell;
use rtcp_engine::{Event, Participant};
use rtcp_guarded::GuardedAnswer;
use rtcp_members::{MemberTable, SourceState};
use rtcp_serve::Observer;

/// Microseconds in a second.
const SECOND: u64 = 1_000_000;

/// Observes a session, and raises one alarm at most: the first that comes before the leave.
///
/// - Loss: with an event whose answer has a compound, the last report block of a source says that more than the limit
///   was lost. Of several sources the alarm names the one of least SSRC.
/// - Silence: an event comes once so many seconds have passed since the last RTP packet that was taken, or since the
///   session began if none was. An RTP packet that is taken renews the wait, however late it comes.
///
/// Where both come with one event, the alarm is that of the loss.
#[derive(Drop)]
pub struct AlarmWatcher<'b> {
    limits: AlarmLimits,
    bell: &'b Bell,
    /// The moment of the last RTP packet that was taken.
    heard: u64,
    /// Whether the participant was asked to leave.
    has_left: bool,
    raised: Option<Raised>,
}

impl<'b> AlarmWatcher<'b> {
    ghost use Rattle.rtcp_alarm.specs.Watches.{raised_by, watch_of};

    /// A watcher of a session that begins. It rings this bell once it raises an alarm.
    pub fn new(limits: AlarmLimits, bell: &'b Bell) -> AlarmWatcher<'b>
        ensures limits { (watch_of result).limits ≡ limits }
        ensures heard { (watch_of result).heard ≡ 0 }
        ensures left { (watch_of result).left ≡ false }
        ensures raised { raised_by result ≡ None }
    {
        AlarmWatcher {
            limits,
            bell,
            heard: 0,
            has_left: false,
            raised: None,
        }
    }

    /// The alarm, once one was raised.
    pub fn raised(&self) -> Option<Raised>
        ensures { result ≡ raised_by self.now }
    {
        self.raised
    }

    /// What is raised after an event.
    fn raised_after<T: MemberTable>(
        &self,
        event: &Event<'_>,
        answer: &GuardedAnswer,
        participant: &Participant<T>,
    ) -> Option<Raised>
        ensures raised { (history : History) → StandsAt participant.now history →
            Raises (watch_of self.now) (observation (event_value event.now) (guarded_value answer.now) history)
            (raised_by self.now) result }
        ensures lasting { (raised : RaisedValue) → raised_by self.now ≡ Some raised → result ≡ Some raised }
    {
        if let Some(raised) = self.raised {
            return Some(raised);
        }
        match self.alarm_with(event, answer, participant) {
            Some(alarm) => Some(Raised {
                moment: moment_of(event),
                alarm,
            }),
            None => None,
        }
    }

    /// The alarm that comes with an event.
    fn alarm_with<T: MemberTable>(
        &self,
        event: &Event<'_>,
        answer: &GuardedAnswer,
        participant: &Participant<T>,
    ) -> Option<Alarm>
        ensures { (history : History) → StandsAt participant.now history →
            IsAlarm (watch_of self.now) (observation (event_value event.now) (guarded_value answer.now) history)
            result }
    {
        if self.has_left {
            return None;
        }
        match self.loss_with(answer, participant) {
            Some(loss) => Some(loss),
            None => self.silence_at(moment_of(event)),
        }
    }

    /// The alarm of a source, by the blocks that go out with an answer.
    fn loss_with<T: MemberTable>(
        &self,
        answer: &GuardedAnswer,
        participant: &Participant<T>,
    ) -> Option<Alarm>
        ensures { (history : History) → StandsAt participant.now history →
            IsLoss (watch_of self.now).limits.loss (hands_out (guarded_value answer.now)) history result }
    {
        match self.limits.loss {
            Some(limit) if hands_out(answer) => first_loss(limit, participant),
            _ => None,
        }
    }

    /// The alarm of a silence that has lasted up to this moment.
    fn silence_at(&self, moment: u64) -> Option<Alarm>
        ensures { result ≡ silence_since (watch_of self.now).limits.silence (watch_of self.now).heard moment }
    {
        match self.limits.silence {
            Some(seconds) => {
                let waited = moment.saturating_sub(self.heard);
                if waited >= u64::from(seconds) * SECOND {
                    Some(Alarm::Silence)
                } else {
                    None
                }
            }
            None => None,
        }
    }
}

impl Observer for AlarmWatcher<'_> {
    ghost use Rattle.rtcp_alarm.specs.Watches.{raised_by, watch_of};

    /// Raises an alarm where one comes with this event, and rings the bell.
    fn told<T: MemberTable>(
        &mut self,
        event: &Event<'_>,
        answer: &GuardedAnswer,
        participant: &Participant<T>,
    )
        ensures limits { (watch_of self.new).limits ≡ (watch_of self.old).limits }
        ensures heard { (watch_of self.new).heard
            ≡ heard_after (event_value event.now) (guarded_value answer.now) (watch_of self.old).heard }
        ensures left { (watch_of self.new).left
            ≡ left_after (event_value event.now) (guarded_value answer.now) (watch_of self.old).left }
        ensures raised { (history : History) → StandsAt participant.now history →
            Raises (watch_of self.new) (observation (event_value event.now) (guarded_value answer.now) history)
            (raised_by self.old) (raised_by self.new) }
        ensures lasting { (raised : RaisedValue) → raised_by self.old ≡ Some raised →
            raised_by self.new ≡ Some raised }
    {
        self.heard = heard_after(event, answer, self.heard);
        self.has_left = left_after(event, answer, self.has_left);
        self.raised = self.raised_after(event, answer, participant);
        if let Some(raised) = self.raised {
            self.bell.ring(raised.moment);
        }
    }

    /// A send changes nothing.
    fn sent(&mut self, _failed: bool)
        ensures { self.new ≡ self.old }
    {}
}

/// The alarm of the first source that lost more than so many per cent.
fn first_loss<T: MemberTable>(limit: u32, participant: &Participant<T>) -> Option<Alarm>
    ensures { (history : History) → StandsAt participant.now history → IsFirstLoss limit history result }
{
    for state in participant.sources() {
        let fraction = fraction_of(&state);
        if is_above(limit, fraction) {
            return Some(Alarm::Loss {
                ssrc: state.ssrc,
                fraction,
            });
        }
    }
    None
}

/// The fraction of its packets that a source lost by its last report block: 0 where none was made.
fn fraction_of(state: &SourceState) -> u8
    ensures { result ≡ fraction_of (state_value state.now) }
{
    match state.last_block {
        Some(block) => block.fraction,
        None => 0,
    }
}

/// Whether a fraction, in 1/256, is more than so many per cent.
fn is_above(limit: u32, fraction: u8) -> bool
    ensures { result ≡ is_above limit fraction }
{
    u64::from(limit) * 256 < u64::from(fraction) * 100
}

/// Whether a compound goes out with an answer.
fn hands_out(answer: &GuardedAnswer) -> bool
    ensures { result ≡ hands_out (guarded_value answer.now) }
{
    match answer {
        Ok(step) => step.out.is_some(),
        Err(_) => false,
    }
}

/// The moment of the last RTP packet that was taken, after an event.
fn heard_after(event: &Event<'_>, answer: &GuardedAnswer, heard: u64) -> u64
    ensures { result ≡ heard_after (event_value event.now) (guarded_value answer.now) heard }
{
    match (event, answer) {
        (Event::ArriveRtp { now, .. }, Ok(_)) => *now,
        _ => heard,
    }
}

/// Whether the participant was asked to leave, after an event.
fn left_after(event: &Event<'_>, answer: &GuardedAnswer, has_left: bool) -> bool
    ensures { result ≡ left_after (event_value event.now) (guarded_value answer.now) has_left }
{
    match (event, answer) {
        (Event::Leave { .. }, Ok(_)) => true,
        _ => has_left,
    }
}

/// The moment of an event.
fn moment_of(event: &Event<'_>) -> u64
    ensures { result ≡ moment_of_event (event_value event.now) }
{
    match event {
        Event::ArriveRtcp { now, .. }
        | Event::ArriveRtp { now, .. }
        | Event::SentRtp { now, .. }
        | Event::Tick { now, .. }
        | Event::Leave { now, .. }
        | Event::Configure { now, .. }
        | Event::Forget { now, .. } => *now,
    }
}
