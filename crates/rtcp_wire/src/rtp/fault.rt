//! Why octets are no RTP packet.

use thiserror::Error;

/// The rule that an RTP packet breaks, in the order in which the rules are tested.
#[derive(Clone, Copy, Debug, PartialEq, Eq, Error)]
pub enum RtpFault {
    /// G1. A packet has a fixed part of 12 octets and the CSRCs that it counts, 4 octets each (RFC 3550,
    /// 5.1), and there are fewer octets.
    #[error("fewer octets than the fixed part and its CSRC list (RFC 3550, 5.1)")]
    Short,
    /// G2. The version is 2 (RFC 3550, 5.1), and this packet has another.
    #[error("version is not 2 (RFC 3550, 5.1)")]
    Version,
    /// G3. The payload types from 72 to 76 are reserved, since with the marker they look like RTCP (RFC 3551,
    /// 6), and this packet has one of them.
    #[error("payload type is reserved, from 72 to 76 (RFC 3551, 6)")]
    PayloadType,
    /// G4. Where the extension bit is set a word and the words that it counts follow the CSRC list (RFC 3550,
    /// 5.3.1), and fewer octets do.
    #[error("header extension runs past the packet (RFC 3550, 5.3.1)")]
    Extension,
    /// G5. Where the padding bit is set the last octet counts the octets of padding, itself included (RFC
    /// 3550, 5.1), and no octet follows the header, or the last one is 0 or more than follow it.
    #[error("number of padding octets is missing, 0, or too large (RFC 3550, 5.1)")]
    Padding,
}
