//! The participant that a handle holds, and what is told of it.

ghost use Rattle.std.specs.Prelude.{◌≡◌, ◌≤◌, ◌<◌, ◌+◌, ℕ, List, None, Ok, OnErr, MatchOption};
ghost use Rattle.rtcp_engine.specs.answers.Histories.{History, life_at, setup_at};
ghost use Rattle.rtcp_engine.specs.answers.Lives.{silent_in_life};
ghost use Rattle.rtcp_engine.specs.state.States.{StandsAt};
ghost use Rattle.rtcp_guard.specs.Guarding.{after, check_made};
ghost use Rattle.rtcp_engine.specs.answers.Acts.{rtcp_arrived, rtp_arrived, time_passed};
ghost use Rattle.rtcp_engine.specs.state.Promises.{Replies as ParticipantReplies, SaysStanding};
ghost use Rattle.rtcp_engine.specs.state.Views.{LeavesRest, reply_value, size_written};
ghost use Rattle.jalwedd_host.specs.Answers.{HandsNothing, HandsOut, Shows, early_refusal};
ghost use Rattle.rtcp_guarded.specs.Views.{as_refused};
ghost use Rattle.jalwedd_host.specs.Guards.{Checks, GoesBy, IsJudged, Judges, RepliesGuarded};
ghost use Rattle.jalwedd_host.specs.Handles.{Leads};

use crate::status::{TAKEN, of_judged};
use crate::step::{Handing, HostStep};
use rtcp_engine::{Participant, Refusal, Reply, WrittenStep};
use rtcp_guard::Guard;
use rtcp_guarded::apart;
use rtcp_members::HeapTable;

/// What a host in C has on the heap.
#[derive(Drop)]
pub struct HostSession {
    /// What the host's clock showed at moment 0, in microseconds.
    pub start: u64,
    /// The participant, whose moments are counted from the start.
    pub participant: Participant<HeapTable>,
    /// The guard before the participant, if the host wants one.
    pub guard: Option<Box<Guard>>,
}

impl HostSession {
    /// Why a call before the start is refused: as one that comes before the latest, unless the participant has left.
    pub(crate) fn early_refusal(&self) -> Refusal
        ensures { (start : ℕ) (history : History) → Leads self.now start history →
            result ≡ early_refusal (life_at history) }
    {
        match self.participant.next() {
            Some(_) => Refusal::Backwards,
            None => Refusal::Left,
        }
    }

    /// Says to the guard that an RTCP datagram came. Returns the status by which the participant is not to be told of it,
    /// or 0 if it is to be.
    // A status, and not what it stands for: a host without a guard has nothing to lay out then.
    #[inline(always)]
    pub fn judge_rtcp(&mut self, moment: u64, peer: u64, w: u32, datagram: &[u8]) -> u32
        ensures judges { Judges self.old (rtcp_arrived moment peer w datagram.now) result self.new }
    {
        match &mut self.guard {
            Some(guard) => judged_rtcp(&self.participant, guard, moment, peer, w, datagram),
            None => TAKEN,
        }
    }

    /// The same of an RTP datagram.
    #[inline(always)]
    pub fn judge_rtp(&mut self, moment: u64, peer: u64, w: u32, datagram: &[u8]) -> u32
        ensures judges { Judges self.old (rtp_arrived moment peer w datagram.now) result self.new }
    {
        match &mut self.guard {
            Some(guard) => judged_rtp(&self.participant, guard, moment, peer, w, datagram),
            None => TAKEN,
        }
    }

    /// Asks the participant whether a report or the BYE is due, and lets its guard make a check, if there is one.
    #[inline(always)]
    pub fn tick(&mut self, moment: u64, w1: u32, w2: u32, octets: &mut [u8; 1472]) -> Reply
        ensures participant { ParticipantReplies self.old.participant (time_passed moment w1 w2) octets.old octets.new
            result self.new.participant }
        ensures guarded { RepliesGuarded self.old (time_passed moment w1 w2) octets.old octets.new (as_refused result)
            self.new }
        ensures unguarded { self.old.guard ≡ None → self.new.guard ≡ None }
        ensures start { self.new.start ≡ self.old.start }
        ensures refused { OnErr result (self.new ≡ self.old) }
    {
        let silent_before = self.silent_before(moment);
        let reply = self.participant.tick_into(moment, w1, w2, octets);
        self.check(moment, silent_before, &reply);
        reply
    }

    /// The horizon of silence of a tick at this moment, where there is a guard that goes by it.
    #[inline(always)]
    fn silent_before(&self, moment: u64) -> u64
        ensures { GoesBy self.now moment result }
    {
        match &self.guard {
            Some(_) => horizon(&self.participant, moment),
            None => 0,
        }
    }

    /// Lets the guard make its check of a tick that was taken.
    #[inline(always)]
    fn check(&mut self, moment: u64, silent_before: u64, reply: &Reply)
        ensures { Checks self.old moment silent_before reply.now self.new }
    {
        match (&mut self.guard, reply) {
            (Some(guard), Ok(_)) => make_check(guard, moment, silent_before),
            _ => (),
        }
    }

    /// What there is to tell of the participant at any time.
    pub fn step(&self) -> HostStep
        ensures shown { (start : ℕ) (history : History) → Leads self.now start history →
            Shows start result history }
        ensures nothing { HandsNothing result }
    {
        HostStep::standing(self.start, &self.participant.standing())
    }

    /// What there is to tell of a call that was taken, and left the participant so.
    #[inline(always)]
    pub(crate) fn step_after(&self, told: &WrittenStep, handing: Handing) -> HostStep
        requires written { size_written told.now.out ≤ 1472 }
        requires standing { SaysStanding told.now.standing self.now.participant }
        ensures shown { (start : ℕ) (history : History) → Leads self.now start history →
            Shows start result history }
        ensures handed { (was octets : List ℕ) → LeavesRest was octets told.now.out →
            HandsOut result was octets (reply_value octets (Ok told.now)) }
    {
        HostStep::written(self.start, told, handing)
    }
}

// What a guard does is out of line, so that a host without one pays for a test alone.

/// The status of an RTCP datagram before a guard.
#[cold]
#[inline(never)]
fn judged_rtcp(
    participant: &Participant<HeapTable>,
    guard: &mut Guard,
    moment: u64,
    peer: u64,
    w: u32,
    datagram: &[u8],
) -> u32
    ensures { IsJudged participant.now guard.old (rtcp_arrived moment peer w datagram.now) result guard.new }
{
    of_judged(&apart::judge_rtcp(participant, guard, moment, peer, w, datagram))
}

/// The status of an RTP datagram before a guard.
#[cold]
#[inline(never)]
fn judged_rtp(
    participant: &Participant<HeapTable>,
    guard: &mut Guard,
    moment: u64,
    peer: u64,
    w: u32,
    datagram: &[u8],
) -> u32
    ensures { IsJudged participant.now guard.old (rtp_arrived moment peer w datagram.now) result guard.new }
{
    of_judged(&apart::judge_rtp(participant, guard, moment, peer, w, datagram))
}

/// The horizon of silence of a tick.
#[cold]
#[inline(never)]
fn horizon(participant: &Participant<HeapTable>, moment: u64) -> u64
    ensures { (history : History) → StandsAt participant.now history →
        result ≡ silent_in_life (setup_at history) moment (life_at history) }
{
    participant.silent_before(moment)
}

/// Makes the check of a tick.
#[cold]
#[inline(never)]
fn make_check(guard: &mut Guard, moment: u64, silent_before: u64)
    ensures { guard.new ≡ after (check_made moment silent_before) guard.old }
{
    guard.check(moment, silent_before);
}
