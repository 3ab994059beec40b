//! The calls of a guarded participant, one for each event, as those of a participant: each writes its compound, if it
//! has one, to the start of the caller's octets.

ghost use Rattle.std.specs.Prelude.{◌≡◌};
ghost use Rattle.rtcp_engine.specs.answers.Acts.{forget_asked, leave_asked, packet_sent, rtcp_arrived, rtp_arrived, settings_given, time_passed, settings_value};
ghost use Rattle.rtcp_engine.specs.state.Views.{event_value};
ghost use Rattle.rtcp_guarded.specs.Promises.{Replies};
ghost use Rattle.rtcp_guarded.specs.Views.{as_refused};

use crate::apart;
use crate::guarded::GuardedParticipant;
use crate::untaken::{GuardedReply, Untaken};
use rtcp_engine::{Event, Reply, Settings};
use rtcp_members::MemberTable;
use rtcp_wire::MAX_COMPOUND;

impl<T: MemberTable> GuardedParticipant<T> {
    /// An RTCP datagram came, as [`Participant::arrive_rtcp_into`](rtcp_engine::Participant::arrive_rtcp_into) is told.
    /// It is taken unless the guard holds it back.
    ///
    /// # Errors
    ///
    /// `Refused`, with the participant's refusal, of which the guard learns nothing: the first of E1 to E5 and E7 that
    /// applies. Else `HeldBack`, which the guard counts. The participant and `octets` are unchanged then.
    pub fn arrive_rtcp_into(
        &mut self,
        now: u64,
        peer: u64,
        w: u32,
        bytes: &[u8],
        octets: &mut [u8; MAX_COMPOUND],
    ) -> GuardedReply
        ensures { Replies self.old (rtcp_arrived now peer w bytes.now) octets.old octets.new result self.new }
    {
        let (participant, guard) = (&self.participant, &mut self.guard);
        match apart::admit_rtcp(participant, guard, now, peer, w, bytes) {
            Ok(inspected) => {
                as_untaken(
                    self.participant
                        .take_rtcp_into(now, peer, w, inspected, octets),
                )
            }
            Err(untaken) => Err(untaken),
        }
    }

    /// An RTP datagram came, as [`Participant::arrive_rtp_into`](rtcp_engine::Participant::arrive_rtp_into) is told. It
    /// is taken unless the guard holds it back.
    ///
    /// # Errors
    ///
    /// `Refused`, with the participant's refusal, of which the guard learns nothing: the first of E1 to E4, E6 and E7
    /// that applies. Else `HeldBack`, which the guard counts. The participant and `octets` are unchanged then.
    pub fn arrive_rtp_into(
        &mut self,
        now: u64,
        peer: u64,
        w: u32,
        bytes: &[u8],
        octets: &mut [u8; MAX_COMPOUND],
    ) -> GuardedReply
        ensures { Replies self.old (rtp_arrived now peer w bytes.now) octets.old octets.new result self.new }
    {
        let (participant, guard) = (&self.participant, &mut self.guard);
        match apart::admit_rtp(participant, guard, now, peer, w, bytes) {
            Ok(inspected) => {
                as_untaken(
                    self.participant
                        .take_rtp_into(now, peer, w, inspected, octets),
                )
            }
            Err(untaken) => Err(untaken),
        }
    }

    /// The host sent an RTP packet: [`Participant::sent_rtp_into`](rtcp_engine::Participant::sent_rtp_into).
    ///
    /// # Errors
    ///
    /// The first of E1 to E4 that applies. Then nothing changes.
    pub fn sent_rtp_into(
        &mut self,
        now: u64,
        rtp_ts: u32,
        size: u32,
        octets: &mut [u8; MAX_COMPOUND],
    ) -> Reply
        ensures { Replies self.old (packet_sent now rtp_ts size) octets.old octets.new (as_refused result) self.new }
    {
        self.participant.sent_rtp_into(now, rtp_ts, size, octets)
    }

    /// Asks whether a report or the BYE is due: [`Participant::tick_into`](rtcp_engine::Participant::tick_into). The
    /// guard lets the claims lapse to sources that were silent for its hold, and for so long that the table drops them
    /// (RFC 3550, 6.3.5).
    ///
    /// # Errors
    ///
    /// The first of E1 to E4 that applies. Then nothing changes.
    pub fn tick_into(
        &mut self,
        now: u64,
        w1: u32,
        w2: u32,
        octets: &mut [u8; MAX_COMPOUND],
    ) -> Reply
        ensures { Replies self.old (time_passed now w1 w2) octets.old octets.new (as_refused result) self.new }
    {
        let silent_before = self.participant.silent_before(now);
        match self.participant.tick_into(now, w1, w2, octets) {
            Ok(step) => {
                self.guard.check(now, silent_before);
                Ok(step)
            }
            Err(refusal) => Err(refusal),
        }
    }

    /// Leaves the session: [`Participant::leave_into`](rtcp_engine::Participant::leave_into).
    ///
    /// # Errors
    ///
    /// The first of E1 to E4 that applies. Then nothing changes.
    pub fn leave_into(&mut self, now: u64, w: u32, octets: &mut [u8; MAX_COMPOUND]) -> Reply
        ensures { Replies self.old (leave_asked now w) octets.old octets.new (as_refused result) self.new }
    {
        self.participant.leave_into(now, w, octets)
    }

    /// Gives the participant other settings: [`Participant::configure_into`](rtcp_engine::Participant::configure_into).
    ///
    /// # Errors
    ///
    /// The first of E1 to E4 and E8 that applies. Then nothing changes.
    pub fn configure_into(
        &mut self,
        now: u64,
        settings: &Settings,
        octets: &mut [u8; MAX_COMPOUND],
    ) -> Reply
        ensures { Replies self.old (settings_given now (settings_value settings.now)) octets.old octets.new
            (as_refused result) self.new }
    {
        self.participant.configure_into(now, settings, octets)
    }

    /// Tells that another source is gone: [`Participant::forget_into`](rtcp_engine::Participant::forget_into). Its
    /// claim lapses once the hold is over.
    ///
    /// # Errors
    ///
    /// The first of E1 to E4 that applies. Then nothing changes.
    pub fn forget_into(&mut self, now: u64, ssrc: u32, octets: &mut [u8; MAX_COMPOUND]) -> Reply
        ensures { Replies self.old (forget_asked now ssrc) octets.old octets.new (as_refused result) self.new }
    {
        self.participant.forget_into(now, ssrc, octets)
    }

    /// Makes the call that an event names.
    ///
    /// # Errors
    ///
    /// Those of the call. Then the participant and `octets` are unchanged.
    pub fn tell_into(&mut self, event: &Event<'_>, octets: &mut [u8; MAX_COMPOUND]) -> GuardedReply
        ensures { Replies self.old (event_value event.now) octets.old octets.new result self.new }
    {
        match *event {
            Event::ArriveRtcp {
                now,
                peer,
                w,
                bytes,
            } => self.arrive_rtcp_into(now, peer, w, bytes, octets),
            Event::ArriveRtp {
                now,
                peer,
                w,
                bytes,
            } => self.arrive_rtp_into(now, peer, w, bytes, octets),
            Event::SentRtp {
                now,
                rtp_ts,
                octets: size,
            } => as_untaken(self.sent_rtp_into(now, rtp_ts, size, octets)),
            Event::Tick { now, w1, w2 } => as_untaken(self.tick_into(now, w1, w2, octets)),
            Event::Leave { now, w } => as_untaken(self.leave_into(now, w, octets)),
            Event::Configure { now, settings } => {
                as_untaken(self.configure_into(now, settings, octets))
            }
            Event::Forget { now, ssrc } => as_untaken(self.forget_into(now, ssrc, octets)),
        }
    }
}

/// The reply of a participant.
#[inline(always)]
fn as_untaken(reply: Reply) -> GuardedReply
    ensures { result ≡ as_refused reply }
{
    match reply {
        Ok(step) => Ok(step),
        Err(refusal) => Err(Untaken::Refused(refusal)),
    }
}
