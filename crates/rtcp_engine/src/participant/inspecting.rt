//! A datagram before a participant takes it: what it says, and under which SSRC the participant would take it.

ghost use Rattle.std.specs.Prelude.{◌≡◌, ℕ, IfOk, None, true};
ghost use Rattle.rtcp_wire.specs.Grammar.{IsAccepted};
ghost use Rattle.rtcp_wire.specs.RtpHeads.{IsRtpHead};
ghost use Rattle.rtcp_engine.specs.answers.Acts.{arrived, rtcp_arrived, rtp_arrived};
ghost use Rattle.rtcp_engine.specs.answers.Answers.{taken_under};
ghost use Rattle.rtcp_engine.specs.answers.Changes.{is_about};
ghost use Rattle.rtcp_engine.specs.answers.Histories.{History};
ghost use Rattle.rtcp_engine.specs.state.Promises.{Foretells, IsAdmitted, Replies};
ghost use Rattle.rtcp_engine.specs.state.States.{StandsAt, refusal_by};
ghost use Rattle.rtcp_engine.specs.state.Views.{NamesFewer, datagram_of, ssrc_for_compound, ssrc_for_packet};

use super::Participant;
use crate::arrival::Arrival;
use crate::refusal::Refusal;
use crate::sayings::tells_of;
use crate::step::Reply;
use rtcp_members::MemberTable;
use rtcp_wire::{Compound, MAX_COMPOUND, RtpHead};

/// An RTCP datagram that a participant would take.
#[derive(Debug, Drop)]
pub struct InspectedRtcp<'a> {
    /// What it says.
    pub compound: Compound<'a>,
    /// The octets that UDP carried.
    pub octets: &'a [u8],
    /// The SSRC under which the participant would take it: a new one, where the datagram names the present one.
    pub ssrc: u32,
}

/// An RTP datagram that a participant would take.
#[derive(Debug, Drop)]
pub struct InspectedRtp<'a> {
    /// What it says.
    pub head: RtpHead<'a>,
    /// The octets that UDP carried.
    pub octets: &'a [u8],
    /// The SSRC under which the participant would take it, as in [`InspectedRtcp::ssrc`].
    pub ssrc: u32,
}

impl<T: MemberTable> Participant<T> {
    /// Reads an RTCP datagram that is yet to be taken, for a host that takes only some of them. It changes nothing:
    /// [`take_rtcp_into`](Participant::take_rtcp_into) with the same arguments takes the datagram, under the SSRC that
    /// is told here (RFC 3550, 8.2).
    ///
    /// # Errors
    ///
    /// The first of E1 to E5 and E7 that applies: `arrive_rtcp` refuses the datagram so.
    #[inline]
    pub fn inspect_rtcp<'a>(
        &self,
        now: u64,
        peer: u64,
        w: u32,
        bytes: &'a [u8],
    ) -> Result<InspectedRtcp<'a>, Refusal>
        ensures read { IfOk result (λ inspected. IsAccepted bytes.now inspected.compound) }
        ensures octets { IfOk result (λ inspected. inspected.octets.now ≡ bytes.now) }
        ensures admitted { IfOk result (λ _. IsAdmitted now self.now) }
        ensures foretold { Foretells self.now (rtcp_arrived now peer w bytes.now) (ssrc_for_compound result) }
    {
        if let Some(refusal) = self.refusal(now) {
            return Err(refusal);
        }
        let compound = match Compound::read(bytes) {
            Ok(compound) => compound,
            Err(fault) => return Err(Refusal::Wire(fault)),
        };
        let present = self.presence.ssrc();
        if !tells_of(&compound, present) {
            return Ok(InspectedRtcp {
                compound,
                octets: bytes,
                ssrc: present,
            });
        }
        let ssrc = match self.ssrc_for_own(peer, w, &Arrival::Rtcp(compound, bytes.len())) {
            Ok(ssrc) => ssrc,
            Err(refusal) => return Err(refusal),
        };
        // Read again, as the `Arrival` has taken the first reading: few datagrams name the participant's SSRC.
        match Compound::read(bytes) {
            Ok(again) => Ok(InspectedRtcp {
                compound: again,
                octets: bytes,
                ssrc,
            }),
            Err(fault) => Err(Refusal::Wire(fault)),
        }
    }

    /// Reads an RTP datagram that is yet to be taken, as [`inspect_rtcp`](Participant::inspect_rtcp).
    ///
    /// # Errors
    ///
    /// The first of E1 to E4, E6 and E7 that applies: [`arrive_rtp`](Participant::arrive_rtp) refuses the datagram so.
    #[inline]
    pub fn inspect_rtp<'a>(
        &self,
        now: u64,
        peer: u64,
        w: u32,
        bytes: &'a [u8],
    ) -> Result<InspectedRtp<'a>, Refusal>
        ensures read { IfOk result (λ inspected. IsRtpHead bytes.now inspected.head) }
        ensures octets { IfOk result (λ inspected. inspected.octets.now ≡ bytes.now) }
        ensures admitted { IfOk result (λ _. IsAdmitted now self.now) }
        ensures foretold { Foretells self.now (rtp_arrived now peer w bytes.now) (ssrc_for_packet result) }
    {
        if let Some(refusal) = self.refusal(now) {
            return Err(refusal);
        }
        let head = match RtpHead::read(bytes) {
            Ok(head) => head,
            Err(fault) => return Err(Refusal::Rtp(fault)),
        };
        let present = self.presence.ssrc();
        if head.ssrc() != present {
            return Ok(InspectedRtp {
                head,
                octets: bytes,
                ssrc: present,
            });
        }
        let ssrc = match self.ssrc_for_own(peer, w, &Arrival::Rtp(head)) {
            Ok(ssrc) => ssrc,
            Err(refusal) => return Err(refusal),
        };
        match RtpHead::read(bytes) {
            Ok(again) => Ok(InspectedRtp {
                head: again,
                octets: bytes,
                ssrc,
            }),
            Err(fault) => Err(Refusal::Rtp(fault)),
        }
    }

    /// Takes an RTCP datagram that [`inspect_rtcp`](Participant::inspect_rtcp) with the same arguments has read, since
    /// which the participant was told nothing: it is not read again. Else as
    /// [`arrive_rtcp_into`](Participant::arrive_rtcp_into).
    ///
    /// # Errors
    ///
    /// E7 alone may apply. Then the participant and `octets` are unchanged.
    pub fn take_rtcp_into(
        &mut self,
        now: u64,
        peer: u64,
        w: u32,
        inspected: InspectedRtcp<'_>,
        octets: &mut [u8; MAX_COMPOUND],
    ) -> Reply
        requires read { IsAccepted inspected.octets.now inspected.compound }
        requires admitted { IsAdmitted now self.old }
        ensures { Replies self.old (rtcp_arrived now peer w inspected.entry.octets.now) octets.old octets.new result
            self.new }
    {
        let datagram = Arrival::Rtcp(inspected.compound, inspected.octets.len());
        self.arrive_once_read(now, peer, w, datagram, octets)
    }

    /// Takes an RTP datagram that [`inspect_rtp`](Participant::inspect_rtp) has read, as
    /// [`take_rtcp_into`](Participant::take_rtcp_into).
    ///
    /// # Errors
    ///
    /// E7 alone may apply. Then the participant and `octets` are unchanged.
    pub fn take_rtp_into(
        &mut self,
        now: u64,
        peer: u64,
        w: u32,
        inspected: InspectedRtp<'_>,
        octets: &mut [u8; MAX_COMPOUND],
    ) -> Reply
        requires read { IsRtpHead inspected.octets.now inspected.head }
        requires admitted { IsAdmitted now self.old }
        ensures { Replies self.old (rtp_arrived now peer w inspected.entry.octets.now) octets.old octets.new result
            self.new }
    {
        self.arrive_once_read(now, peer, w, Arrival::Rtp(inspected.head), octets)
    }

    /// The SSRC under which a datagram is taken that names the participant's own, or why it is refused.
    #[cold]
    fn ssrc_for_own(&self, peer: u64, w: u32, arrival: &Arrival<'_>) -> Result<u32, Refusal>
        requires own { is_about self.now.presence.setup.ssrc (datagram_of arrival.now) ≡ true }
        requires few { NamesFewer arrival.now }
        ensures { (moment : ℕ) (history : History) → refusal_by moment self.now ≡ None →
            StandsAt self.now history →
            result ≡ taken_under history (arrived moment peer w (datagram_of arrival.now)) }
    {
        if !self.changes.allows(peer) {
            return Err(Refusal::OwnSsrc);
        }
        Ok(self.free_ssrc(w, arrival))
    }
}
