//! Who reports.

use arrayvec::ArrayVec;

/// What a participant says of itself in a report, but for an extra item.
#[derive(Clone, Copy, Debug)]
pub struct Sender<'a> {
    /// Its SSRC.
    pub ssrc: u32,
    /// Its CNAME (RFC 3550, 6.5.1), at most 255 octets. RFC 3550 asks for one, but an empty one is written
    /// too.
    pub cname: &'a [u8],
    /// What it sent, where it reports as a sender.
    pub sr: Option<SrPart>,
}

/// What a sender report says of its sender (RFC 3550, 6.4.1).
#[derive(Clone, Copy, Debug, PartialEq, Eq)]
pub struct SrPart {
    /// When the report is sent, as an NTP timestamp: seconds since 1900 in the upper 32 bits, their fraction
    /// in the lower.
    pub ntp: u64,
    /// The same moment in the units of the sender's RTP timestamps.
    pub rtp: u32,
    /// The RTP packets sent up to then.
    pub packets: u32,
    /// The octets of their payloads, without headers and padding.
    pub octets: u32,
}

/// Something that a participant says of itself beside its CNAME (RFC 3550, 6.5.2 to 6.5.8).
#[derive(Debug, Default, Drop)]
pub struct Item {
    /// The item's type, from 1 to 255. RFC 3550 has, beside CNAME: NAME 2, EMAIL 3, PHONE 4, LOC 5, TOOL 6,
    /// NOTE 7, PRIV 8.
    pub kind: u8,
    /// The text. Nothing checks that it is UTF-8.
    pub text: ArrayVec<u8, 255>,
}
