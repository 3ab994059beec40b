//! How a host is told of the head of an RTP datagram, and why a datagram has none.

ghost use Rattle.std.specs.Prelude.{◌≡◌};
ghost use Rattle.rtcp_wire.specs.RtpHeads.{IsRtpHead};
ghost use Rattle.jalwedd_host.specs.Heads.{ShowsHead, number_of_head_fault};

use rtcp_wire::{RtpFault, RtpHead};

/// The octets of a head before its CSRCs (RFC 3550, 5.1).
const FIXED_SIZE: u64 = 12;

/// The head of an RTP datagram (RFC 3550, 5.1), and where its CSRCs and its payload stand.
#[repr(C)]
#[derive(Clone, Copy, Debug, PartialEq, Eq)]
pub struct HeadPlace {
    /// The octets of the datagram before its CSRCs.
    pub csrcs_offset: u64,
    /// The octets of the datagram before its payload.
    pub payload_offset: u64,
    /// The octets of its payload, without the padding after it.
    pub payload_size: u64,
    /// The SSRC of the source that sent it.
    pub ssrc: u32,
    /// Its timestamp, in units of the payload type's clock.
    pub timestamp: u32,
    /// Its sequence number: below 2^16.
    pub sequence: u32,
    /// Its payload type: below 128, and none of 72 to 76.
    pub payload_type: u32,
    /// 1 where its marker is set; else 0.
    pub marker: u32,
    /// How many CSRCs it has, of four octets each: 0 to 15.
    pub csrcs: u32,
}

/// What a head says, and where its CSRCs and its payload stand in its datagram.
pub fn head_place(datagram: &[u8], head: &RtpHead<'_>) -> HeadPlace
    requires { IsRtpHead datagram.now head.now }
    ensures { (spelled : IsRtpHead datagram.now head.now) → ShowsHead datagram.now head.now spelled result }
{
    HeadPlace {
        csrcs_offset: FIXED_SIZE,
        payload_offset: head.payload_offset(datagram) as u64,
        payload_size: head.payload().len() as u64,
        ssrc: head.ssrc(),
        timestamp: head.timestamp(),
        sequence: u32::from(head.sequence()),
        payload_type: u32::from(head.payload_type()),
        marker: u32::from(head.marker()),
        csrcs: head.csrcs().count() as u32,
    }
}

/// 11 to 15, for G1 to G5: no fault of a compound has these numbers.
pub fn head_reason_number(fault: RtpFault) -> u32
    ensures { result ≡ number_of_head_fault fault }
{
    match fault {
        RtpFault::Short => 11,
        RtpFault::Version => 12,
        RtpFault::PayloadType => 13,
        RtpFault::Extension => 14,
        RtpFault::Padding => 15,
    }
}
