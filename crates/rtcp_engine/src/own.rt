//! The participant's own RTP stream (RFC 3550, 6.3.8, 6.4.1).

ghost use Rattle.std.specs.Prelude.{◌≡◌, ◌≤◌, ℕ, [], IsTrue, is_some, option_map};
ghost use Rattle.rtcp_report.specs.Views.{sent_value};
ghost use Rattle.rtcp_engine.specs.answers.OwnStreams.{Adds, packet_sent, check_passed, report_sent, own_of, timestamp_from, sent_of};
ghost use Rattle.rtcp_engine.specs.answers.OwnCounts.{counts_of};
ghost use Rattle.rtcp_engine.specs.state.OwnValues.{own_anew, packet_value};

use rtcp_clock::{ntp_of, rtp_units};
use rtcp_report::SrPart;
use std::marker::Model;

/// The last packet that was sent.
#[derive(Clone, Copy, Debug)]
pub(crate) struct NewestPacket {
    moment: u64,
    timestamp: u32,
}

/// What a participant has sent under its present SSRC, as a sender report of now would tell it (RFC 3550, 6.4.1).
#[derive(Clone, Copy, Debug, PartialEq, Eq)]
pub struct OwnCounts {
    /// Whether it counts as a sender (RFC 3550, 6.3.8): so that a report of now would be a sender report.
    pub sends: bool,
    /// How many RTP packets it sent, modulo 2^32.
    pub packets: u32,
    /// How many octets of payload they had, without headers and padding, modulo 2^32.
    pub octets: u32,
}

/// What the participant sent, as far as its reports go.
#[derive(Debug, Drop)]
pub(crate) struct OwnStream {
    /// The moment of the last packet, until a check finds that too long ago.
    sending: Option<u64>,
    newest: Option<NewestPacket>,
    /// How many packets were sent, modulo 2^32.
    packets: u32,
    /// How many octets of payload were sent, modulo 2^32.
    octets: u32,
    /// Whether a report or a packet was sent under the present identifier.
    heard: bool,
}

impl Model for OwnStream {
    ghost use Rattle.std.specs.Prelude.{option_map};
    ghost use Rattle.rtcp_engine.specs.answers.OwnStreams.{OwnValue};
    ghost use Rattle.rtcp_engine.specs.state.OwnValues.{packet_value};

    ghost Value = { OwnValue };

    ghost view = { λ own. record {
      sending = own.sending;
      newest = option_map packet_value own.newest;
      packets = own.packets;
      octets = own.octets;
      heard = own.heard;
    } };
}

impl OwnStream {
    /// Nothing was sent.
    pub(crate) fn new() -> OwnStream
        ensures { result ≡ own_of [] }
    {
        OwnStream {
            sending: None,
            newest: None,
            packets: 0,
            octets: 0,
            heard: false,
        }
    }

    /// Records that a packet with this timestamp and so many octets of payload was sent.
    pub(crate) fn sent(&mut self, moment: u64, timestamp: u32, octets: u32)
        ensures { Adds self.old self.new (packet_sent moment timestamp octets) }
    {
        self.sending = Some(moment);
        self.newest = Some(NewestPacket { moment, timestamp });
        self.packets = self.packets.wrapping_add(1);
        self.octets = self.octets.wrapping_add(octets);
        self.heard = true;
    }

    /// The participant is no sender any more if its last packet was sent before `idle`.
    pub(crate) fn check(&mut self, idle: u64)
        ensures { Adds self.old self.new (check_passed idle) }
    {
        if self.sending.is_some_and(|moment| moment < idle) {
            self.sending = None;
        }
    }

    /// Whether a check with this horizon changes nothing, nor any with an earlier one.
    pub(crate) fn lasts_through(&self, idle: u64) -> bool
        ensures { IsTrue result → (earlier : ℕ) → earlier ≤ idle → Adds self.now self.now (check_passed earlier) }
    {
        !self.sending.is_some_and(|moment| moment < idle)
    }

    /// Records that a report was sent.
    pub(crate) fn reported(&mut self)
        ensures { Adds self.old self.new report_sent }
    {
        self.heard = true;
    }

    /// Begins to count anew, under another identifier. The stream goes on.
    pub(crate) fn count_anew(&mut self)
        ensures { self.new ≡ own_anew self.old }
    {
        self.packets = 0;
        self.octets = 0;
        self.heard = false;
    }

    /// Whether a report or a packet was sent under the present identifier.
    pub(crate) fn did_send(&self) -> bool
        ensures { result ≡ self.now.heard }
    {
        self.heard
    }

    /// Whether the participant is a sender.
    pub(crate) fn is_sending(&self) -> bool
        ensures { result ≡ is_some self.now.sending }
    {
        self.sending.is_some()
    }

    /// What was sent so far.
    pub(crate) fn counts(&self) -> OwnCounts
        ensures { result ≡ counts_of self.now }
    {
        OwnCounts {
            sends: self.is_sending(),
            packets: self.packets,
            octets: self.octets,
        }
    }

    /// What a report at the moment `t` says of the stream, where the participant is a sender. `ntp_base` is
    /// the NTP timestamp of moment 0, and `rate` the units a second of the media's clock.
    pub(crate) fn report(&self, ntp_base: u64, rate: u32, t: u64) -> Option<SrPart>
        ensures { option_map sent_value result ≡ sent_of ntp_base rate t self.now }
    {
        if !self.is_sending() {
            return None;
        }
        Some(SrPart {
            ntp: ntp_of(ntp_base, t),
            rtp: timestamp_of(self.newest, rate, t),
            packets: self.packets,
            octets: self.octets,
        })
    }
}

/// The RTP timestamp of the moment `t`: that of the last packet, and the units of the media's clock since.
fn timestamp_of(newest: Option<NewestPacket>, rate: u32, t: u64) -> u32
    ensures { result ≡ timestamp_from rate t (option_map packet_value newest) }
{
    match newest {
        Some(packet) => {
            let since = rtp_units(t.saturating_sub(packet.moment), rate);
            packet.timestamp.wrapping_add(since)
        }
        None => 0,
    }
}
