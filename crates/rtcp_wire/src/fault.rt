//! Why octets were not read.

use thiserror::Error;

/// Why a datagram was not read: its first fault.
#[derive(Clone, Copy, Debug, PartialEq, Eq, Error)]
#[error("{reason}, in the packet at octet {place}")]
pub struct WireFault {
    /// The rule that is broken.
    pub reason: FaultReason,
    /// Where the packet at fault begins: its offset in the datagram, in octets. It is 0 for `TooLong`.
    pub place: usize,
}

/// The rule that a datagram breaks. `TooLong` is tested before all others, which are tested at each packet in
/// this order.
#[derive(Clone, Copy, Debug, PartialEq, Eq, Error)]
pub enum FaultReason {
    /// F1. A packet begins with a header of four octets (RFC 3550, 6.4.1), and fewer are left.
    #[error("fewer than 4 octets for a packet's header (RFC 3550, 6.4.1)")]
    Short,
    /// F2. The version is 2 (RFC 3550, 6.4.1), and this packet has another.
    #[error("version is not 2 (RFC 3550, 6.4.1)")]
    Version,
    /// F3. A compound begins with a report (RFC 3550, 6.1), and the first packet's type is neither 200 nor
    /// 201.
    #[error("first packet is not a report (RFC 3550, 6.1)")]
    FirstType,
    /// F4. The first packet has no padding (RFC 3550, A.2), and this one has its padding bit set. A later
    /// packet may be padded wherever it stands.
    #[error("first packet has its padding bit set (RFC 3550, A.2)")]
    FirstPadding,
    /// F5. The lengths of the packets add up to that of the datagram (RFC 3550, A.2), and this packet runs
    /// past its end.
    #[error("packet runs past the end of the datagram (RFC 3550, A.2)")]
    Length,
    /// F6. Where the padding bit is set the last octet counts the octets of padding, a multiple of four (RFC
    /// 3550, 6.4.1), and it is 0, no multiple of four, or more than the octets after the header.
    #[error("number of padding octets is 0, not a multiple of 4, or too large (RFC 3550, 6.4.1)")]
    Padding,
    /// F7. A body holds what its type asks for and the header's count says (RFC 3550, 6.4 to 6.7), and this
    /// one is too short for that, or is a source description with octets after its last chunk.
    #[error("body does not have the size that its type and count ask for (RFC 3550, 6.4 to 6.7)")]
    Body,
    /// F8. The items of an SDES chunk end with a zero octet (RFC 3550, 6.5), and here an item or the zero
    /// octet runs past the end of the body.
    #[error("SDES item runs past its body (RFC 3550, 6.5)")]
    Item,
    /// F9. The reason of a BYE fills the words after its identifiers (RFC 3550, 6.6), and this one runs past
    /// the end of the body, or a word or more is left after it.
    #[error("BYE reason does not end in the last word of its body (RFC 3550, 6.6)")]
    Reason,
    /// F10. A datagram has at most 65,535 octets, UDP's own limit, and this one has more.
    #[error("datagram has more than 65,535 octets")]
    TooLong,
}
