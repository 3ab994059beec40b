//! A participant from its leave until its BYE is sent (RFC 3550, 6.3.7).

ghost use Rattle.std.specs.Prelude.{◌≡◌, ◌≤◌, ℕ, Bool, Ok, None, false};
ghost use Rattle.rtcp_engine.specs.answers.Acts.{arrived, left, rtcp, ticked};
ghost use Rattle.rtcp_engine.specs.state.States.{Acts, HasOthers, leaving, taking_part, KeepsCapacity};
ghost use Rattle.rtcp_engine.specs.state.Views.{LeavesRest, out_in};

use super::{FEW_MEMBERS, Participant, Phase};
use crate::byes::{MAX_LEAVING, count_byes};
use crate::step::Written;
use rtcp_members::MemberTable;
use rtcp_wire::{Compound, MAX_COMPOUND};

impl<T: MemberTable> Participant<T> {
    /// Leaves: silently, with a BYE at once, or into a backoff. If some other is a member, nobody is told of any more.
    pub(super) fn depart(&mut self, w: u32, octets: &mut [u8; MAX_COMPOUND]) -> Option<Written>
        requires phase { self.old.phase ≡ taking_part }
        ensures new { (others_changed : Bool) → HasOthers self.old.presence others_changed →
            Acts self.old self.new (left self.old.presence.latest w) (out_in octets.new result)
            others_changed }
        ensures within { KeepsCapacity self.new.presence }
        ensures leaves { LeavesRest octets.old octets.new result }
    {
        if self.presence.sent_nothing() {
            self.phase = Phase::Finished;
            return None;
        }
        if self.presence.member_count() <= FEW_MEMBERS {
            self.phase = Phase::Finished;
            return Some(self.presence.write_bye(octets));
        }
        self.presence.back_off(w);
        self.phase = Phase::BackingOff(1);
        None
    }

    /// Counts the BYE packets of a compound, which moves the average if it has some.
    pub(super) fn count_byes_of(&mut self, compound: &Compound<'_>, size: usize, members: u32)
        requires phase { self.old.phase ≡ leaving members }
        requires size { size ≤ 65535 }
        requires within { KeepsCapacity self.old.presence }
        ensures new { (now peer word : ℕ) →
            Acts self.old self.new (arrived now peer word (rtcp size (Ok compound.now))) None false }
        ensures within { KeepsCapacity self.new.presence }
    {
        let byes = count_byes(compound.packets());
        if byes == 0 {
            return;
        }
        self.presence.hear_byes(size);
        self.phase = Phase::BackingOff(MAX_LEAVING.min(members + byes));
    }

    /// Writes the BYE if it is due, and is gone then.
    #[cold]
    pub(super) fn try_bye(
        &mut self,
        w1: u32,
        members: u32,
        octets: &mut [u8; MAX_COMPOUND],
    ) -> Option<Written>
        requires phase { self.old.phase ≡ leaving members }
        ensures new { (w2 : ℕ) →
            Acts self.old self.new (ticked self.old.presence.latest w1 w2) (out_in octets.new result) false }
        ensures within { KeepsCapacity self.new.presence }
        ensures leaves { LeavesRest octets.old octets.new result }
    {
        if !self.presence.expire_backoff(w1, members) {
            return None;
        }
        self.phase = Phase::Finished;
        Some(self.presence.write_bye(octets))
    }
}
