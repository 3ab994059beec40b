//! What a participant is told of: datagrams that come, and packets that its host sends.

ghost use Rattle.std.specs.Prelude.{◌≡◌, ◌≤◌, ◌<◌, ◌-◌, ◌^◌};
ghost use Rattle.rtcp_members.specs.Tables.{HasFew};
ghost use Rattle.rtcp_engine.specs.answers.Arrivals.{with_facts_of, with_packet};
ghost use Rattle.rtcp_engine.specs.state.States.{Admits, Does, MovesOthers, with_call, KeepsCapacity};
ghost use Rattle.rtcp_engine.specs.state.Views.{datagram_of, size_of};
ghost use Rattle.rtcp_engine.specs.answers.Lives.{with_compound, with_datagram, with_media};

use super::Presence;
use crate::arrival::Arrival;
use crate::sayings::apply_compound;
use crate::table::apply_media;
use rtcp_members::MemberTable;
use rtcp_wire::{Compound, RtpHead};

impl<T: MemberTable> Presence<T> {
    /// Takes a call.
    pub(crate) fn take_call(&mut self, now: u64)
        requires { Admits self.old now }
        ensures new { self.new ≡ with_call now self.old }
        ensures reports { self.new.reports < self.new.calls }
        ensures few { HasFew (self.new.calls - 1) self.new.table }
        ensures within { KeepsCapacity self.new }
    {
        self.latest = now;
        self.calls += 1;
    }

    /// Takes a packet that the host sent.
    pub(crate) fn take_sent(&mut self, now: u64, rtp_ts: u32, octets: u32)
        ensures { Does self.old self.new (λ setup. with_packet now rtp_ts octets) }
    {
        self.own.sent(now, rtp_ts, octets);
    }

    /// Takes a datagram that came at the moment of the latest call, and returns whether that changed who of the others
    /// is a member or who sends.
    // Inlined, as in `Participant::take_datagram`.
    #[inline(always)]
    pub(crate) fn take_datagram(&mut self, now: u64, arrival: &Arrival<'_>) -> bool
        requires order { self.old.latest ≡ now }
        requires size { size_of arrival.now ≤ 65535 }
        requires reports { self.old.reports < self.old.calls }
        requires few { HasFew (self.old.calls - 1) self.old.table }
        ensures new { Does self.old self.new (λ setup. with_datagram setup now (datagram_of arrival.now)) }
        ensures moved { MovesOthers self.old result (λ setup. with_datagram setup now (datagram_of arrival.now)) }
    {
        match arrival {
            Arrival::Rtcp(compound, size) => self.take_compound(now, *size, compound),
            Arrival::Rtp(head) => self.take_media(now, head),
        }
    }

    /// Takes a compound of `size` octets, and counts the members again, as some may have departed.
    fn take_compound(&mut self, now: u64, size: usize, compound: &Compound<'_>) -> bool
        requires order { self.old.latest ≡ now }
        requires size { size ≤ 65535 }
        ensures new { Does self.old self.new (λ setup. with_compound setup now size compound.now) }
        ensures moved { MovesOthers self.old result (λ setup. with_compound setup now size compound.now) }
    {
        let moved = self.take_facts(now, size, compound);
        self.recount();
        moved
    }

    /// Takes the facts of a compound of `size` octets, which moves the average.
    fn take_facts(&mut self, now: u64, size: usize, compound: &Compound<'_>) -> bool
        requires size { size ≤ 65535 }
        ensures new { Does self.old self.new (λ setup. with_facts_of now size compound.now) }
        ensures moved { MovesOthers self.old result (λ setup. with_facts_of now size compound.now) }
    {
        let moved = apply_compound(&mut self.table, compound, now);
        self.average.add(size as u32);
        moved
    }

    /// Takes an RTP packet, and its contributing sources if it is counted.
    // Inlined, as `Participant::take_datagram`.
    #[inline(always)]
    fn take_media(&mut self, now: u64, head: &RtpHead<'_>) -> bool
        requires reports { self.old.reports < self.old.calls }
        requires few { HasFew (self.old.calls - 1) self.old.table }
        ensures new { Does self.old self.new (λ setup. with_media setup now head.now) }
        ensures moved { MovesOthers self.old result (λ setup. with_media setup now head.now) }
    {
        let rate = self.config.rate_of(head);
        apply_media(&mut self.table, head, self.config.ssrc, rate, now)
    }
}
