//! The schedule of reports (RFC 3550, 6.3.2, 6.3.4 and 6.3.6; appendix A.7).

ghost use Rattle.std.specs.Prelude.{◌≡◌, ◌≤◌, ◌<◌, ◌+◌, ◌^◌, ◌↔◌, List, [], ◌∷◌};
ghost use Rattle.rtcp_clock.specs.Intervals.{drawn_interval};
ghost use Rattle.rtcp_timer.specs.Schedules.{Happening, transmitted, tried, recounted, IsDue, after, schedule_at};

use rtcp_clock::{draw, scale_down};
use std::marker::Model;

/// What `Schedule::expire` finds (RFC 3550, 6.3.6).
#[derive(Clone, Copy, Debug, PartialEq, Eq)]
pub enum Verdict {
    /// The moment of the next transmission has not come.
    Early,
    /// It has come, but the interval drawn now has not passed yet: the next transmission is put off.
    Later,
    /// A report is due.
    Due,
}

/// When the participant is to send its next report (RFC 3550, 6.3). Moments are in microseconds since the
/// session began; those given to `sent` and `departed` are at most 2^50.
#[derive(Debug, Drop)]
pub struct Schedule {
    /// tp, the moment of the last transmission, as departures have moved it
    last: u64,
    /// tn, the moment of the next transmission
    next: u64,
    /// pmembers, the members at the last draw or departure
    known: u32,
}

impl Model for Schedule {
    ghost use Rattle.std.specs.Prelude.{◌<◌, ◌≤◌, ◌^◌};
    ghost use Rattle.rtcp_timer.specs.Schedules.{Timing};

    ghost Value = { Timing };

    ghost view = { λ s. record { last = s.last; next = s.next; known = s.known } };

    ghost invariant = { λ schedule. (schedule.last ≤ 2 ^ 50) × (schedule.next < 2 ^ 51) };
}

impl Schedule {
    /// The schedule of a session that starts at 0 with one member (RFC 3550, 6.3.2). `td` is the
    /// deterministic interval, below 2^49, and `w` a random word. Call `expire` at `next`.
    pub fn begin(td: u64, w: u32) -> Schedule
        requires { td < 2 ^ 49 }
        ensures { result ≡ schedule_at (transmitted 0 (drawn_interval td w) 1 ∷ []) }
    {
        Schedule {
            last: 0,
            next: draw(td, w),
            known: 1,
        }
    }

    /// Whether a report is due at `tc` (RFC 3550, 6.3.6). `td` is the deterministic interval now, below
    /// 2^49, `w1` a random word, and `members` the number of members now. Before `next` the call returns
    /// `Early` and changes nothing. From `next` on it draws an interval and returns `Due` if that has passed
    /// since `last`: send a report and call `sent`. Otherwise it returns `Later` and moves `next` to when the
    /// interval will have passed: call `expire` again then. From `next` on `members` becomes the number that
    /// `departed` compares with.
    pub fn expire(&mut self, tc: u64, td: u64, w1: u32, members: u32) -> Verdict
        requires { td < 2 ^ 49 }
        ensures early { (result ≡ Verdict.Early) ↔ (tc < self.old.next) }
        ensures due { (result ≡ Verdict.Due) ↔ IsDue self.old tc (drawn_interval td w1) }
        ensures later { (result ≡ Verdict.Later) ↔
            ((self.old.next ≤ tc) × (tc < self.old.last + drawn_interval td w1)) }
        ensures unchanged { tc < self.old.next → self.new ≡ self.old }
        ensures steps { self.old.next ≤ tc →
            self.new ≡ after (tried tc (drawn_interval td w1) members) self.old }
        ensures stands { (events : List Happening) → self.old ≡ schedule_at events → self.old.next ≤ tc →
            self.new ≡ schedule_at (tried tc (drawn_interval td w1) members ∷ events) }
    {
        if tc < self.next {
            return Verdict::Early;
        }
        self.known = members;
        let drawn = self.last + draw(td, w1);
        if drawn <= tc {
            return Verdict::Due;
        }
        self.next = drawn;
        Verdict::Later
    }

    /// Records that a report was sent at `tc`, at most 2^50 (RFC 3550, 6.3.6). `last` becomes `tc`, and
    /// `next` is drawn from it by the deterministic interval from now on, `td`, below 2^49, and a random word
    /// `w2`. `members` is the number of members now. Call `expire` at `next`.
    pub fn sent(&mut self, tc: u64, td: u64, w2: u32, members: u32)
        requires moment_fits { tc ≤ 2 ^ 50 }
        requires interval_fits { td < 2 ^ 49 }
        ensures steps { self.new ≡ after (transmitted tc (drawn_interval td w2) members) self.old }
        ensures stands { (events : List Happening) → self.old ≡ schedule_at events →
            self.new ≡ schedule_at (transmitted tc (drawn_interval td w2) members ∷ events) }
    {
        self.last = tc;
        self.next = tc + draw(td, w2);
        self.known = members;
    }

    /// Records that the participant leaves at `tc`, at most 2^50, where too many would leave with it at once
    /// (RFC 3550, 6.3.7): from now on it counts itself alone. `last` becomes `tc`, and `next`, the first moment
    /// for its BYE, is drawn from it by the deterministic interval from now on, `td`, below 2^49, and a random
    /// word `w`. Call `expire` at `next`.
    pub fn leave(&mut self, tc: u64, td: u64, w: u32)
        requires moment_fits { tc ≤ 2 ^ 50 }
        requires interval_fits { td < 2 ^ 49 }
        ensures steps { self.new ≡ after (transmitted tc (drawn_interval td w) 1) self.old }
        ensures stands { (events : List Happening) → self.old ≡ schedule_at events →
            self.new ≡ schedule_at (transmitted tc (drawn_interval td w) 1 ∷ events) }
    {
        self.sent(tc, td, w, 1);
    }

    /// Takes a new count of `members` at `tc`, which is at most 2^50 and not before `last` (RFC 3550,
    /// 6.3.4). If they are fewer than at the last draw or departure, the distances from `tc` to `last` and
    /// `next` shrink in proportion, except that an overdue `next` stays. Otherwise nothing changes, so a
    /// needless call does no harm. Ask for `next` afterwards.
    pub fn departed(&mut self, tc: u64, members: u32)
        requires moment_fits { tc ≤ 2 ^ 50 }
        requires in_order { self.old.last ≤ tc }
        ensures steps { self.new ≡ after (recounted tc members) self.old }
        ensures stands { (events : List Happening) → self.old ≡ schedule_at events →
            self.new ≡ schedule_at (recounted tc members ∷ events) }
    {
        if members >= self.known {
            return;
        }
        self.last = tc - scale_down(tc - self.last, members, self.known);
        if self.next >= tc {
            self.next = tc + scale_down(self.next - tc, members, self.known);
        }
        self.known = members;
    }

    /// The moment of the next transmission, tn (RFC 3550, 6.3), below 2^51. Call `expire` then.
    pub fn next(&self) -> u64
        ensures exact { result ≡ self.now.next }
        ensures bounded { result < 2 ^ 51 }
    {
        self.next
    }

    /// The moment of the last transmission, a report, the start or a leave, as departures since have moved it:
    /// tp (RFC 3550, 6.3).
    pub fn last(&self) -> u64
        ensures { result ≡ self.now.last }
    {
        self.last
    }
}
