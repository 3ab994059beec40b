//! What a host with a guard before its participant is told, and what it says to the guard.

ghost use Rattle.std.specs.Prelude.{◌≡◌, ◌+◌, ◌<◌, ℕ, None, Option, Some};
ghost use Rattle.rtcp_guard.specs.Guarding.{GuardValue, may_have, may_trust};
ghost use Rattle.rtcp_guarded.specs.Guarded.{GuardedHistory, expected, guard_at, origin_of, trusted};
ghost use Rattle.jalwedd_host.specs.Guards.{Expects, Instructs, LeadsGuarded, LeadsGuardedTo, RefusesBeforeStart, SaysUnguarded, ShowsHeldBack, Trusts, guard_of};
ghost use Rattle.jalwedd_host.specs.Handles.{IsUnguarded, told_in};

use crate::handle::Handle;
use crate::session::HostSession;
use crate::status::{BACKWARDS, CROWD, EMPTY, TAKEN, UNGUARDED};
use rtcp_guard::HeldBack;
use rtcp_guarded::apart::origin;
use std::alloc::Global;

/// What `last_stranger` and `last_crowd` are where there was none.
pub const NOWHERE: u64 = u64::MAX;

/// What a guard held back so far. Where a datagram came from is its peer's number without the lower 16 bits.
#[repr(C)]
#[derive(Clone, Copy, Debug, PartialEq, Eq)]
pub struct HostCounts {
    /// How many datagrams named a source of another origin.
    pub strangers: u64,
    /// How many datagrams named too many sources, or brought a BYE too many.
    pub crowds: u64,
    /// Where the last datagram came from that named a source of another origin; 2^64 - 1 if there was none.
    pub last_stranger: u64,
    /// Where the last datagram came from that named too many sources, or brought a BYE too many; 2^64 - 1 if there was
    /// none.
    pub last_crowd: u64,
}

/// The name that [`HostCounts`] had before.
pub type HostHeldBack = HostCounts;

impl HostCounts {
    /// What a host in C is told of it.
    fn of(counts: &HeldBack) -> HostCounts
        ensures { ShowsHeldBack result counts.now }
    {
        HostCounts {
            strangers: counts.strangers,
            crowds: counts.crowds,
            last_stranger: counts.last_stranger.unwrap_or(NOWHERE),
            last_crowd: counts.last_crowd.unwrap_or(NOWHERE),
        }
    }
}

impl HostSession {
    /// Says to the guard, when the host's clock shows `now`, that a source is expected from a peer. Returns the status.
    fn expect(&mut self, now: u64, ssrc: u32, peer: u64) -> u32
        ensures expects { (start moment : ℕ) (history : GuardedHistory) → LeadsGuarded self.old start history →
            now ≡ start + moment → Instructs (may_have ssrc (origin_of peer) moment)
            (expected ssrc (origin_of peer) moment) start history (Some self.new) result }
        ensures told { told_in (Some self.new) ≡ told_in (Some self.old) }
        ensures unguarded { self.old.guard ≡ None → (self.new ≡ self.old) × (result ≡ 19) }
        ensures early { (guard : GuardValue) → guard_of self.old ≡ Some guard → now < self.old.start →
            (self.new ≡ self.old) × (result ≡ 2) }
    {
        let Some(guard) = &mut self.guard else {
            return UNGUARDED;
        };
        if now < self.start {
            return BACKWARDS;
        }
        if guard.expect(ssrc, origin(peer), now - self.start) {
            return TAKEN;
        }
        CROWD
    }

    /// Says to the guard that a peer is trusted. Returns the status.
    fn trust(&mut self, peer: u64) -> u32
        ensures trusts { (start : ℕ) (history : GuardedHistory) → LeadsGuarded self.old start history →
            Instructs (λ guard. may_trust (origin_of peer) guard.trusted) (trusted (origin_of peer)) start history
            (Some self.new) result }
        ensures told { told_in (Some self.new) ≡ told_in (Some self.old) }
        ensures unguarded { self.old.guard ≡ None → (self.new ≡ self.old) × (result ≡ 19) }
    {
        let Some(guard) = &mut self.guard else {
            return UNGUARDED;
        };
        if guard.trust(origin(peer)) {
            return TAKEN;
        }
        CROWD
    }

    /// What its guard held back so far, if it has one.
    fn held_back(&self) -> Option<HostCounts>
        ensures told { (start : ℕ) (history : GuardedHistory) → LeadsGuarded self.now start history →
            (shown : HostCounts) × (result ≡ Some shown) × ShowsHeldBack shown (guard_at history).held_back }
        ensures unguarded { self.now.guard ≡ None → result ≡ None }
    {
        match &self.guard {
            Some(guard) => Some(HostCounts::of(&guard.held_back())),
            None => None,
        }
    }
}

impl Handle {
    /// Says to the guard that a source is expected from a peer, when the host's clock shows `now`. Returns the status.
    pub fn expect(&mut self, alloc: Global, now: u64, ssrc: u32, peer: u64) -> u32
        ensures expects { Expects ssrc peer now self.old.owned.held self.new.owned.held result }
        ensures told { told_in self.new.owned.held ≡ told_in self.old.owned.held }
        ensures unguarded { IsUnguarded self.old.owned.held → self.new.owned.held ≡ self.old.owned.held }
        ensures live { SaysUnguarded self.old.owned.held result }
        ensures early { RefusesBeforeStart now self.old.owned.held self.new.owned.held result }
        ensures empty { self.old.owned.held ≡ None → result ≡ 20 }
    {
        let Some(mut session) = self.take(alloc) else {
            return EMPTY;
        };
        let status = session.expect(now, ssrc, peer);
        self.put(session);
        status
    }

    /// Says to the guard that a peer is trusted. Returns the status.
    pub fn trust(&mut self, alloc: Global, peer: u64) -> u32
        ensures trusts { Trusts peer self.old.owned.held self.new.owned.held result }
        ensures told { told_in self.new.owned.held ≡ told_in self.old.owned.held }
        ensures unguarded { IsUnguarded self.old.owned.held → self.new.owned.held ≡ self.old.owned.held }
        ensures live { SaysUnguarded self.old.owned.held result }
        ensures empty { self.old.owned.held ≡ None → result ≡ 20 }
    {
        let Some(mut session) = self.take(alloc) else {
            return EMPTY;
        };
        let status = session.trust(peer);
        self.put(session);
        status
    }

    /// What the guard held back so far, written where the host says. Returns the status.
    pub fn held_back(&mut self, alloc: Global, shown: &mut HostCounts) -> u32
        ensures told { (start : ℕ) (history : GuardedHistory) → LeadsGuardedTo self.old.owned.held start history →
            (result ≡ 0) × ShowsHeldBack shown.new (guard_at history).held_back }
        ensures unguarded { IsUnguarded self.old.owned.held → shown.new ≡ shown.old }
        ensures live { SaysUnguarded self.old.owned.held result }
        ensures empty { self.old.owned.held ≡ None → result ≡ 20 }
        ensures kept { self.new.owned.held ≡ self.old.owned.held }
    {
        let Some(session) = self.take(alloc) else {
            return EMPTY;
        };
        let counts = session.held_back();
        self.put(session);
        match counts {
            Some(counts) => {
                *shown = counts;
                TAKEN
            }
            None => UNGUARDED,
        }
    }
}
