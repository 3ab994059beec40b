//! The sender reports of a datagram, one after the other (RFC 3550, 6.4.1).

ghost use Rattle.std.specs.Prelude.{◌≤◌, ◌<◌, length, take, MatchOption};
ghost use Rattle.byteorder.specs.Endian.{big_number};
ghost use Rattle.rtcp_wire.specs.Contents.{packet_senders};
ghost use Rattle.rtcp_wire.specs.Readings.{sender_in};
ghost use Rattle.rtcp_wire.specs.Values.{SenderValue};
ghost use Rattle.rtcp_parts.specs.Cursors.{LeavesNone};
ghost use Rattle.rtcp_parts.specs.Senders.{ShowsSender};

use crate::cursor::Cursor;
use crate::octets::u32_at;
use crate::packet::{Wanted, packet_from};
use crate::walk::Walk;
use byteorder::{BigEndian, ByteOrder};

/// The octets of a sender report's body before its blocks.
const SENDER_SIZE: usize = 24;

/// Sender reports.
const REPORTS: Wanted = Wanted {
    first: 200,
    last: 200,
    least: 0,
};

/// What a sender report says of its sender (RFC 3550, 6.4.1).
#[repr(C)]
#[derive(Clone, Copy, Debug, PartialEq, Eq)]
pub struct Sender {
    /// When it was sent, as an NTP timestamp: seconds since 1900 in the upper 32 bits, and 1/2^32 of a second in the
    /// lower ones.
    pub ntp: u64,
    /// The SSRC of the source that sent it.
    pub ssrc: u32,
    /// The same moment in units of the sender's RTP timestamps.
    pub rtp: u32,
    /// How many RTP packets were sent up to then.
    pub packets: u32,
    /// How many octets their payloads have, without headers and padding.
    pub octets: u32,
}

impl Walk for Sender {
    ghost Value = { SenderValue };

    ghost parts_of = { packet_senders };

    ghost is_left = { LeavesNone };

    ghost shows = { λ datagram. ShowsSender };

    #[inline(always)]
    fn take(datagram: &[u8], cursor: &mut Cursor) -> Option<Sender> {
        let next = cursor.next as usize;
        *cursor = Cursor::ended(datagram.len());
        let packet = packet_from(datagram, next, REPORTS)?;
        let sender = sender_from(packet.body)?;
        *cursor = Cursor::ended(packet.next);
        Some(sender)
    }
}

/// The sender that a sender report's body begins with.
#[inline(always)]
fn sender_from(body: &[u8]) -> Option<Sender>
    ensures { MatchOption result (length body.now < 24)
        (λ sender. (24 ≤ length body.now) × ShowsSender (sender_in (take 24 body.now)) sender) }
{
    let (octets, _) = body.split_at_checked(SENDER_SIZE)?;
    Some(Sender {
        ntp: BigEndian::read_u64(octets.split_at(4).1),
        ssrc: u32_at(octets, 0),
        rtp: u32_at(octets, 12),
        packets: u32_at(octets, 16),
        octets: u32_at(octets, 20),
    })
}
