//! A participant and the guard before it.

ghost use Rattle.std.specs.Prelude.{◌≡◌, ℕ, []};
ghost use Rattle.rtcp_engine.specs.answers.Setups.{Setup};
ghost use Rattle.rtcp_engine.specs.state.States.{StandsAt as IsAtHistory};
ghost use Rattle.rtcp_engine.specs.state.Taken.{begun};
ghost use Rattle.rtcp_guard.specs.Guarding.{may_have, may_trust, new_guard};
ghost use Rattle.rtcp_guard.specs.declared.settings.Settings.{Settings};
ghost use Rattle.rtcp_guarded.specs.Guarded.{GuardedHistory, expected, guard_at, trusted, with_guarded};
ghost use Rattle.rtcp_guarded.specs.Views.{StandsAt};

use rtcp_engine::Participant;
use rtcp_guard::{Guard, HeldBack};
use rtcp_members::MemberTable;
use std::marker::Model;

/// A participant that is told only what its guard passes on. The calls are the participant's, and a datagram's origin
/// is its `peer` without the lower 16 bits: where a peer's number is its address and then its port, the address.
#[derive(Drop)]
pub struct GuardedParticipant<T: MemberTable> {
    pub(crate) participant: Participant<T>,
    pub(crate) guard: Guard,
}

impl<T: MemberTable> Model for GuardedParticipant<T> {
    ghost use Rattle.rtcp_guarded.specs.Codes.{guarded_code};
    ghost use Rattle.rtcp_guarded.specs.Views.{GuardedValue};

    ghost Value = { GuardedValue };

    ghost coded = { guarded_code };

    ghost view = { λ g. record { participant = g.participant; guard = g.guard } };
}

impl<T: MemberTable> GuardedParticipant<T> {
    /// A guarded participant whose session begins now, of a participant that was told nothing yet, and of a new guard.
    /// The guard's settings are to have the capacity of the participant's table as `sources`.
    pub fn new(participant: Participant<T>, guard: Guard) -> GuardedParticipant<T>
        ensures { (settings : Settings) (setup : Setup) (word : ℕ) → IsAtHistory participant (begun setup word) →
            guard ≡ new_guard settings →
            StandsAt result (record { settings = settings; setup = setup; word = word; acts = [] }) }
    {
        GuardedParticipant { participant, guard }
    }

    /// The participant, to ask who is there. All that it says holds of its history, which is what was passed on to it.
    pub fn participant(&self) -> &Participant<T>
        ensures { result.now ≡ self.now.participant }
    {
        &self.participant
    }

    /// What was held back so far.
    pub fn held_back(&self) -> HeldBack
        ensures { (history : GuardedHistory) → StandsAt self.now history → result ≡ (guard_at history).held_back }
    {
        self.guard.held_back()
    }

    /// Says at the moment `now` that a source is expected at an origin, as signalling knows: it belongs to that origin
    /// from now on, as if the origin had named it now. Returns whether it does: not where the origin would have more
    /// sources than it may, or all origins together would. The participant is not told.
    pub fn expect(&mut self, ssrc: u32, origin: u64, now: u64) -> bool
        ensures result { (history : GuardedHistory) → StandsAt self.old history →
            result ≡ may_have ssrc origin now (guard_at history) }
        ensures stands { (history : GuardedHistory) → StandsAt self.old history →
            StandsAt self.new (with_guarded history (expected ssrc origin now)) }
        ensures participant { self.new.participant ≡ self.old.participant }
    {
        self.guard.expect(ssrc, origin, now)
    }

    /// Trusts an origin with as many sources as the guard's `trusted_names` says. Returns whether it is trusted: at
    /// most [`MAX_TRUSTED`](rtcp_guard::MAX_TRUSTED) are. The participant is not told.
    pub fn trust(&mut self, origin: u64) -> bool
        ensures result { (history : GuardedHistory) → StandsAt self.old history →
            result ≡ may_trust origin (guard_at history).trusted }
        ensures stands { (history : GuardedHistory) → StandsAt self.old history →
            StandsAt self.new (with_guarded history (trusted origin)) }
        ensures participant { self.new.participant ≡ self.old.participant }
    {
        self.guard.trust(origin)
    }
}
