//! What a participant does with an act in each phase. A tick and a leave come at the moment of the latest call. A
//! datagram and a sent packet are told that moment again: these calls are frequent, and have it at hand.

ghost use Rattle.std.specs.Prelude.{◌≡◌, ◌≤◌, ◌<◌, ◌-◌, ℕ, None, false};
ghost use Rattle.rtcp_engine.specs.answers.Acts.{arrived, configured, forgotten, left, rtp_sent, ticked, settings_value};
ghost use Rattle.rtcp_engine.specs.answers.Setups.{settings_error};
ghost use Rattle.rtcp_engine.specs.state.States.{Acts, Admits, called, taking_part, KeepsCapacity};
ghost use Rattle.rtcp_engine.specs.state.Views.{LeavesRest, datagram_of, out_in, size_of};
ghost use Rattle.rtcp_members.specs.Tables.{HasFew};

use super::{Participant, Phase};
use crate::arrival::Arrival;
use crate::settings::Settings;
use crate::step::{Brought, NOTHING};
use rtcp_members::MemberTable;
use rtcp_wire::MAX_COMPOUND;

impl<T: MemberTable> Participant<T> {
    /// Takes a call.
    pub(super) fn take_call(&mut self, now: u64)
        requires { Admits self.old.presence now }
        ensures new { self.new ≡ called now self.old }
        ensures reports { self.new.presence.reports < self.new.presence.calls }
        ensures few { HasFew (self.new.presence.calls - 1) self.new.presence.table }
    {
        self.presence.take_call(now);
    }

    /// Takes a datagram under the present SSRC: nothing of it counts in a backoff but BYE packets. Returns whether it
    /// changed who of the others is a member or who sends.
    // Inlined, so that each call takes its own kind of datagram on a path without the other.
    #[inline(always)]
    pub(super) fn take_datagram(&mut self, now: u64, arrival: &Arrival<'_>) -> bool
        requires order { self.old.presence.latest ≡ now }
        requires size { size_of arrival.now ≤ 65535 }
        requires reports { self.old.presence.reports < self.old.presence.calls }
        requires few { HasFew (self.old.presence.calls - 1) self.old.presence.table }
        ensures new { (peer word : ℕ) →
            Acts self.old self.new (arrived now peer word (datagram_of arrival.now)) None result }
        ensures within { KeepsCapacity self.new.presence }
    {
        match self.phase {
            Phase::Present => self.take_in_session(now, arrival),
            Phase::BackingOff(members) => {
                if let Arrival::Rtcp(compound, size) = arrival {
                    self.count_byes_of(compound, *size, members);
                }
                false
            }
            Phase::Finished => false,
        }
    }

    /// Takes a datagram of a participant that takes part, as `take_datagram`.
    #[inline(always)]
    pub(super) fn take_in_session(&mut self, now: u64, arrival: &Arrival<'_>) -> bool
        requires present { self.old.phase ≡ taking_part }
        requires order { self.old.presence.latest ≡ now }
        requires size { size_of arrival.now ≤ 65535 }
        requires reports { self.old.presence.reports < self.old.presence.calls }
        requires few { HasFew (self.old.presence.calls - 1) self.old.presence.table }
        ensures new { (peer word : ℕ) →
            Acts self.old self.new (arrived now peer word (datagram_of arrival.now)) None result }
        ensures present { self.new.phase ≡ taking_part }
        ensures within { KeepsCapacity self.new.presence }
    {
        self.presence.take_datagram(now, arrival)
    }

    /// Takes a packet that the host sent, which counts as long as the participant takes part.
    pub(super) fn take_sent(&mut self, now: u64, rtp_ts: u32, octets: u32)
        ensures new { Acts self.old self.new (rtp_sent now rtp_ts octets) None false }
        ensures within { KeepsCapacity self.new.presence }
    {
        match self.phase {
            Phase::Present => self.presence.take_sent(now, rtp_ts, octets),
            Phase::BackingOff(_) => {}
            Phase::Finished => {}
        }
    }

    /// Writes a report or the BYE, if it is due.
    pub(super) fn take_tick(&mut self, w1: u32, w2: u32, octets: &mut [u8; MAX_COMPOUND]) -> Brought
        requires reports { self.old.presence.reports < self.old.presence.calls }
        ensures new { Acts self.old self.new (ticked self.old.presence.latest w1 w2)
            (out_in octets.new result.out) result.others_changed }
        ensures within { KeepsCapacity self.new.presence }
        ensures leaves { LeavesRest octets.old octets.new result.out }
    {
        match self.phase {
            Phase::Present => self.presence.tick(w1, w2, octets),
            Phase::BackingOff(members) => Brought {
                out: self.try_bye(w1, members, octets),
                others_changed: false,
            },
            Phase::Finished => NOTHING,
        }
    }

    /// Leaves, if it has not left yet.
    pub(super) fn take_leave(&mut self, w: u32, octets: &mut [u8; MAX_COMPOUND]) -> Brought
        ensures new { Acts self.old self.new (left self.old.presence.latest w)
            (out_in octets.new result.out) result.others_changed }
        ensures within { KeepsCapacity self.new.presence }
        ensures leaves { LeavesRest octets.old octets.new result.out }
    {
        match self.phase {
            Phase::Present => {
                let others_changed = self.presence.has_others();
                Brought {
                    out: self.depart(w, octets),
                    others_changed,
                }
            }
            Phase::BackingOff(_) => NOTHING,
            Phase::Finished => NOTHING,
        }
    }

    /// Takes other settings, whatever the phase.
    pub(super) fn take_settings(&mut self, settings: &Settings)
        requires { settings_error (settings_value settings.now) ≡ None }
        ensures new { Acts self.old self.new (configured self.old.presence.latest (settings_value settings.now)) None
            false }
        ensures within { KeepsCapacity self.new.presence }
    {
        self.presence.configure(settings);
    }

    /// Lets a source go, as long as the participant takes part. Returns whether that changed who of the others is a
    /// member or who sends.
    pub(super) fn take_forget(&mut self, ssrc: u32) -> bool
        ensures new { Acts self.old self.new (forgotten self.old.presence.latest ssrc) None result }
        ensures within { KeepsCapacity self.new.presence }
    {
        match self.phase {
            Phase::Present => self.presence.forget(ssrc),
            Phase::BackingOff(_) => false,
            Phase::Finished => false,
        }
    }
}
