//! The calls of a participant, one for each event: each writes its compound, if it has one, to the start of the
//! caller's octets, and tells of it. The octets after it stay as they were, so a call without a compound leaves all.

ghost use Rattle.std.specs.Prelude.{◌≡◌, ◌≤◌, ◌<◌, ◌^◌, ℕ, List, None, Ok, false};
ghost use Rattle.rtcp_engine.specs.answers.Acts.{arrived, forget_asked, leave_asked, packet_sent, rtcp_arrived, rtp_arrived, settings_given, time_passed, settings_value};
ghost use Rattle.rtcp_engine.specs.answers.Changes.{is_about};
ghost use Rattle.rtcp_engine.specs.state.Promises.{IsAdmitted, Replies, SaysStanding, Spares, Takes, WritesReply};
ghost use Rattle.rtcp_engine.specs.state.States.{Admits, refusal_by, KeepsCapacity};
ghost use Rattle.rtcp_engine.specs.state.Views.{NamesFewer, datagram_of, out_written, reply_value, size_of, written_step_value};

use super::{Participant, Phase};
use crate::arrival::Arrival;
use crate::refusal::Refusal;
use crate::settings::Settings;
use crate::step::{Brought, NOTHING, Reply, WrittenStep};
use rtcp_members::MemberTable;
use rtcp_wire::{Compound, MAX_COMPOUND, RtpHead};

impl<T: MemberTable> Participant<T> {
    /// [`arrive_rtcp`](Participant::arrive_rtcp), with the BYE of an SSRC that is given up in `octets`.
    ///
    /// # Errors
    ///
    /// The first of E1 to E5 and E7 that applies. Then the participant and `octets` are unchanged.
    pub fn arrive_rtcp_into(
        &mut self,
        now: u64,
        peer: u64,
        w: u32,
        bytes: &[u8],
        octets: &mut [u8; MAX_COMPOUND],
    ) -> Reply
        ensures { Replies self.old (rtcp_arrived now peer w bytes.now) octets.old octets.new result self.new }
    {
        if let Some(refusal) = self.refusal(now) {
            return Err(refusal);
        }
        let compound = match Compound::read(bytes) {
            Ok(compound) => compound,
            Err(fault) => return Err(Refusal::Wire(fault)),
        };
        let datagram = Arrival::Rtcp(compound, bytes.len());
        if self.is_named_by(&datagram) {
            return self.arrive_as_own(now, peer, w, datagram, octets);
        }
        Ok(self.arrive_as_other(now, &datagram))
    }

    /// [`arrive_rtp`](Participant::arrive_rtp), with the BYE of an SSRC that is given up in `octets`.
    ///
    /// # Errors
    ///
    /// The first of E1 to E4, E6 and E7 that applies. Then the participant and `octets` are unchanged.
    pub fn arrive_rtp_into(
        &mut self,
        now: u64,
        peer: u64,
        w: u32,
        bytes: &[u8],
        octets: &mut [u8; MAX_COMPOUND],
    ) -> Reply
        ensures { Replies self.old (rtp_arrived now peer w bytes.now) octets.old octets.new result self.new }
    {
        if let Some(refusal) = self.refusal(now) {
            return Err(refusal);
        }
        let head = match RtpHead::read(bytes) {
            Ok(head) => head,
            Err(fault) => return Err(Refusal::Rtp(fault)),
        };
        let packet = Arrival::Rtp(head);
        if self.is_named_by(&packet) {
            return self.arrive_as_own(now, peer, w, packet, octets);
        }
        Ok(self.arrive_as_other(now, &packet))
    }

    /// [`sent_rtp`](Participant::sent_rtp), which never has a compound.
    ///
    /// # Errors
    ///
    /// The first of E1 to E4 that applies. Then the participant is unchanged.
    pub fn sent_rtp_into(
        &mut self,
        now: u64,
        rtp_ts: u32,
        size: u32,
        octets: &mut [u8; MAX_COMPOUND],
    ) -> Reply
        ensures replies { Replies self.old (packet_sent now rtp_ts size) octets.old octets.new result self.new }
        ensures empty { out_written result ≡ None }
    {
        if let Some(refusal) = self.refusal(now) {
            return Err(refusal);
        }
        self.take_call(now);
        self.take_sent(now, rtp_ts, size);
        Ok(self.written_step(NOTHING))
    }

    /// [`tick`](Participant::tick), with a report or the BYE in `octets`.
    ///
    /// # Errors
    ///
    /// The first of E1 to E4 that applies. Then the participant and `octets` are unchanged.
    pub fn tick_into(
        &mut self,
        now: u64,
        w1: u32,
        w2: u32,
        octets: &mut [u8; MAX_COMPOUND],
    ) -> Reply
        ensures { Replies self.old (time_passed now w1 w2) octets.old octets.new result self.new }
    {
        if let Some(refusal) = self.refusal(now) {
            return Err(refusal);
        }
        self.take_call(now);
        let brought = self.take_tick(w1, w2, octets);
        Ok(self.written_step(brought))
    }

    /// [`leave`](Participant::leave), with the BYE in `octets`.
    ///
    /// # Errors
    ///
    /// The first of E1 to E4 that applies. Then the participant and `octets` are unchanged.
    pub fn leave_into(&mut self, now: u64, w: u32, octets: &mut [u8; MAX_COMPOUND]) -> Reply
        ensures { Replies self.old (leave_asked now w) octets.old octets.new result self.new }
    {
        if let Some(refusal) = self.refusal(now) {
            return Err(refusal);
        }
        self.take_call(now);
        let brought = self.take_leave(w, octets);
        Ok(self.written_step(brought))
    }

    /// [`configure`](Participant::configure), which never has a compound.
    ///
    /// # Errors
    ///
    /// The first of E1 to E4 and E8 that applies. Then the participant is unchanged.
    pub fn configure_into(
        &mut self,
        now: u64,
        settings: &Settings,
        octets: &mut [u8; MAX_COMPOUND],
    ) -> Reply
        ensures replies { Replies self.old (settings_given now (settings_value settings.now)) octets.old octets.new
            result self.new }
        ensures empty { out_written result ≡ None }
    {
        if let Some(refusal) = self.refusal(now) {
            return Err(refusal);
        }
        if let Some(error) = settings.error() {
            return Err(Refusal::Settings(error));
        }
        self.take_call(now);
        self.take_settings(settings);
        let told = self.written_step(NOTHING);
        Ok(told)
    }

    /// [`forget`](Participant::forget), which never has a compound.
    ///
    /// # Errors
    ///
    /// The first of E1 to E4 that applies. Then the participant is unchanged.
    pub fn forget_into(&mut self, now: u64, ssrc: u32, octets: &mut [u8; MAX_COMPOUND]) -> Reply
        ensures replies { Replies self.old (forget_asked now ssrc) octets.old octets.new result self.new }
        ensures empty { out_written result ≡ None }
    {
        if let Some(refusal) = self.refusal(now) {
            return Err(refusal);
        }
        self.take_call(now);
        let others_changed = self.take_forget(ssrc);
        Ok(self.written_step(Brought {
            out: None,
            others_changed,
        }))
    }

    /// Why a call at the moment `now` is refused, whatever it tells.
    pub(super) fn refusal(&self, now: u64) -> Option<Refusal>
        ensures exact { result ≡ refusal_by now self.now }
        ensures in_order { result ≡ None → Admits self.now.presence now }
        ensures within { KeepsCapacity self.now.presence }
    {
        match self.phase {
            Phase::Present | Phase::BackingOff(_) => self.presence.refusal(now),
            Phase::Finished => Some(Refusal::Left),
        }
    }

    /// Takes a datagram that was read, at a moment at which no call is refused.
    // The calls that read have the same lines of their own: handed to a function, a datagram is copied, and an arrival
    // takes twice its time.
    pub(super) fn arrive_once_read(
        &mut self,
        now: u64,
        peer: u64,
        w: u32,
        arrival: Arrival<'_>,
        octets: &mut [u8; MAX_COMPOUND],
    ) -> Reply
        requires admitted { IsAdmitted now self.old }
        requires size { size_of arrival ≤ 65535 }
        requires few { NamesFewer arrival }
        ensures takes { Takes self.old (arrived now peer w (datagram_of arrival.entry))
            (reply_value octets.new result) self.new }
        ensures spares { Spares self.old result self.new }
        ensures writes { WritesReply octets.old octets.new result self.new }
    {
        if self.is_named_by(&arrival) {
            return self.arrive_as_own(now, peer, w, arrival, octets);
        }
        Ok(self.arrive_as_other(now, &arrival))
    }

    /// Whether a datagram names the participant's SSRC.
    // Inlined, as `Arrival::is_of`.
    #[inline(always)]
    fn is_named_by(&self, arrival: &Arrival<'_>) -> bool
        ensures { result ≡ is_about self.now.presence.setup.ssrc (datagram_of arrival.now) }
    {
        arrival.is_of(self.presence.ssrc())
    }

    /// Takes a datagram that does not name the participant's SSRC: it hands out nothing.
    // Inlined, so that a call goes on with the datagram at hand, and writes its answer once, into its caller's
    // room for that: what answers otherwise has returned before. The phase is asked once for the most frequent one.
    #[inline(always)]
    fn arrive_as_other(&mut self, now: u64, arrival: &Arrival<'_>) -> WrittenStep
        requires other { is_about self.old.presence.setup.ssrc (datagram_of arrival.now) ≡ false }
        requires admitted { refusal_by now self.old ≡ None }
        requires in_order { Admits self.old.presence now }
        requires size { size_of arrival.now ≤ 65535 }
        ensures takes { (peer w : ℕ) (room : List ℕ) → w < 2 ^ 32 →
            Takes self.old (arrived now peer w (datagram_of arrival.now)) (Ok (written_step_value room result)) self.new }
        ensures empty { result.out ≡ None }
        ensures standing { SaysStanding result.standing self.new }
        ensures within { KeepsCapacity self.new.presence }
    {
        self.take_call(now);
        if let Phase::Present = self.phase {
            let others_changed = self.take_in_session(now, arrival);
            return self.written_step_in_session(others_changed);
        }
        let others_changed = self.take_datagram(now, arrival);
        self.written_step(Brought {
            out: None,
            others_changed,
        })
    }
}
