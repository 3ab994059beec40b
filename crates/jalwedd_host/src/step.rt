//! What a call tells of the participant.

ghost use Rattle.std.specs.Prelude.{◌≡◌, ◌↔◌, ◌≤◌, ◌<◌, ◌+◌, ◌-◌, ◌^◌, ℕ, List, Ok, Some, None, IfSome};
ghost use Rattle.rtcp_engine.specs.state.Views.{LeavesRest, reply_value, size_written};
ghost use Rattle.jalwedd_host.specs.Answers.{HandsNothing, HandsOut, IsBlank, ShowsStanding, moment_shown, number_written};

use rtcp_engine::{OutKind, Standing, Written, WrittenStep};

/// What `next` is where there is no moment to tick at.
pub const NEVER: u64 = u64::MAX;

/// What a call tells of the participant, whether or not it was taken.
#[repr(C)]
#[derive(Clone, Copy, Debug, PartialEq, Eq)]
pub struct HostStep {
    /// When to call `jalwedd_tick` next, in microseconds of the host's clock: 2^64 - 1 once the participant has left.
    /// It may lie before the moment of the call: then a report or the BYE is overdue.
    pub next: u64,
    /// The members of the session, the participant included (RFC 3550, 6.2.1); in the backoff after a leave, the
    /// participant and one for each BYE packet that came since (6.3.7); 0 once it has left.
    pub members: u32,
    /// Those of them that send RTP packets.
    pub senders: u32,
    /// The participant's SSRC.
    pub ssrc: u32,
    /// 1 if the call changed that (8.2), else 0.
    pub changed: u32,
    /// What the call hands out to be sent: 0 nothing, 1 a report, 2 a BYE.
    pub kind: u32,
    /// The octets of it.
    pub size: u32,
    /// How many entries the table holds, as `jalwedd_entries` says.
    pub entries: u32,
    /// 1 if the call changed the role of another source (away, member or sender), if only for a moment, else 0: then
    /// each source that `jalwedd_source` tells of has the role that it had.
    pub others_changed: u32,
}

/// How often a call hands out a compound. Where it seldom does, its path has nothing to choose for that.
#[derive(Clone, Copy)]
pub enum Handing {
    Seldom,
    Often,
}

impl HostStep {
    /// That of no participant.
    pub fn blank() -> HostStep
        ensures { IsBlank result }
    {
        HostStep {
            next: NEVER,
            members: 0,
            senders: 0,
            ssrc: 0,
            changed: 0,
            kind: 0,
            size: 0,
            entries: 0,
            others_changed: 0,
        }
    }

    /// That of a participant that stands so, where nothing is handed out and nothing changed. The host's clock showed
    /// `start` at moment 0.
    #[inline(always)]
    pub(crate) fn standing(start: u64, standing: &Standing) -> HostStep
        ensures shown { IfSome standing.now.next (λ next. start + next < 2 ^ 64 - 1) →
            ShowsStanding start result standing.now }
        ensures nothing { HandsNothing result }
    {
        HostStep {
            next: on_clock(start, standing.next),
            members: standing.members,
            senders: standing.senders,
            ssrc: standing.ssrc,
            entries: standing.entries,
            ..HostStep::blank()
        }
    }

    /// That of a call that was taken.
    #[inline(always)]
    pub(crate) fn written(start: u64, told: &WrittenStep, handing: Handing) -> HostStep
        requires { size_written told.now.out ≤ 1472 }
        ensures shown { IfSome told.now.standing.next (λ next. start + next < 2 ^ 64 - 1) →
            ShowsStanding start result told.now.standing }
        ensures handed { (was octets : List ℕ) → LeavesRest was octets told.now.out →
            HandsOut result was octets (reply_value octets (Ok told.now)) }
    {
        let (kind, size) = handed(&told.out, handing);
        HostStep {
            changed: u32::from(told.changed.is_some()),
            kind,
            size,
            others_changed: u32::from(told.others_changed),
            ..HostStep::standing(start, &told.standing)
        }
    }
}

/// What is written of a compound: 0 and 0 where there is none, 1 for a report or 2 for a BYE, and its octets.
#[inline(always)]
fn handed(written: &Option<Written>, handing: Handing) -> (u32, u32)
    requires { size_written written.now ≤ 1472 }
    ensures kind { result.0 ≡ number_written written.now }
    ensures size { result.1 ≡ size_written written.now }
{
    match (written, handing) {
        (None, _) => (0, 0),
        (Some(out), Handing::Often) => number_and_size(out),
        (Some(out), Handing::Seldom) => seldom_handed(out),
    }
}

/// The same where there is one.
#[inline(always)]
fn number_and_size(out: &Written) -> (u32, u32)
    requires { out.now.size ≤ 1472 }
    ensures kind { result.0 ≡ number_written (Some out.now) }
    ensures size { result.1 ≡ out.now.size }
{
    let kind = match out.kind {
        OutKind::Report => 1,
        OutKind::Bye => 2,
    };
    (kind, out.size as u32)
}

/// The same, out of line.
#[cold]
#[inline(never)]
fn seldom_handed(out: &Written) -> (u32, u32)
    requires { out.now.size ≤ 1472 }
    ensures kind { result.0 ≡ number_written (Some out.now) }
    ensures size { result.1 ≡ out.now.size }
{
    number_and_size(out)
}

/// What the host's clock shows at a moment, or 2^64 - 1 where there is none. The clock showed `start` at moment 0.
pub(crate) fn on_clock(start: u64, moment: Option<u64>) -> u64
    ensures shown { IfSome moment (λ m. start + m < 2 ^ 64 - 1) → result ≡ moment_shown start moment }
    ensures never { IfSome moment (λ m. start + m < 2 ^ 64 - 1) → (result ≡ 2 ^ 64 - 1) ↔ (moment ≡ None) }
{
    match moment {
        Some(moment) => start.wrapping_add(moment),
        None => NEVER,
    }
}
