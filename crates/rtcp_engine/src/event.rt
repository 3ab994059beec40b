//! What a host tells a participant, as a value.

ghost use Rattle.rtcp_engine.specs.state.Promises.{Answers, Replies};
ghost use Rattle.rtcp_engine.specs.state.Views.{event_value};

use crate::participant::Participant;
use crate::settings::Settings;
use crate::step::{Answer, Reply, answer_with};
use rtcp_members::MemberTable;
use rtcp_wire::MAX_COMPOUND;

/// A call of a participant, for [`run`](crate::run). Moments are in microseconds since the session began.
#[derive(Clone, Copy, Debug)]
pub enum Event<'a> {
    /// [`arrive_rtcp`](crate::Participant::arrive_rtcp).
    ArriveRtcp {
        /// When the datagram came.
        now: u64,
        /// A number for where it came from, which two peers do not share.
        peer: u64,
        /// A random word, for a new SSRC.
        w: u32,
        /// The octets of the datagram.
        bytes: &'a [u8],
    },
    /// [`arrive_rtp`](crate::Participant::arrive_rtp).
    ArriveRtp {
        /// When the datagram came.
        now: u64,
        /// A number for where it came from, which two peers do not share.
        peer: u64,
        /// A random word, for a new SSRC.
        w: u32,
        /// The octets of the datagram.
        bytes: &'a [u8],
    },
    /// [`sent_rtp`](crate::Participant::sent_rtp).
    SentRtp {
        /// When the packet was sent.
        now: u64,
        /// Its RTP timestamp.
        rtp_ts: u32,
        /// The octets of its payload, without padding.
        octets: u32,
    },
    /// [`tick`](crate::Participant::tick).
    Tick {
        /// When the host asks.
        now: u64,
        /// A random word, for the draw that decides whether a report is due.
        w1: u32,
        /// A random word, for the draw of the next interval.
        w2: u32,
    },
    /// [`leave`](crate::Participant::leave).
    Leave {
        /// When the host asks.
        now: u64,
        /// A random word, for the draw of a backoff.
        w: u32,
    },
    /// [`configure`](crate::Participant::configure).
    Configure {
        /// When the host gives them.
        now: u64,
        /// What holds from then on.
        settings: &'a Settings,
    },
    /// [`forget`](crate::Participant::forget).
    Forget {
        /// When the host asks.
        now: u64,
        /// The source that is gone.
        ssrc: u32,
    },
}

impl<T: MemberTable> Participant<T> {
    /// Makes the call that an event names.
    ///
    /// # Errors
    ///
    /// Those of the call. Then the participant is unchanged.
    pub fn tell(&mut self, event: &Event<'_>) -> Answer
        ensures { Answers self.old (event_value event.now) result self.new }
    {
        let mut octets = [0; MAX_COMPOUND];
        let reply = self.tell_into(event, &mut octets);
        answer_with(reply, &octets)
    }

    /// [`tell`](Participant::tell), with a compound in `octets`.
    ///
    /// # Errors
    ///
    /// Those of the call. Then the participant and `octets` are unchanged.
    pub fn tell_into(&mut self, event: &Event<'_>, octets: &mut [u8; MAX_COMPOUND]) -> Reply
        ensures { Replies self.old (event_value event.now) octets.old octets.new result self.new }
    {
        match *event {
            Event::ArriveRtcp {
                now,
                peer,
                w,
                bytes,
            } => self.arrive_rtcp_into(now, peer, w, bytes, octets),
            Event::ArriveRtp {
                now,
                peer,
                w,
                bytes,
            } => self.arrive_rtp_into(now, peer, w, bytes, octets),
            Event::SentRtp {
                now,
                rtp_ts,
                octets: size,
            } => self.sent_rtp_into(now, rtp_ts, size, octets),
            Event::Tick { now, w1, w2 } => self.tick_into(now, w1, w2, octets),
            Event::Leave { now, w } => self.leave_into(now, w, octets),
            Event::Configure { now, settings } => self.configure_into(now, settings, octets),
            Event::Forget { now, ssrc } => self.forget_into(now, ssrc, octets),
        }
    }
}
