//! Sizes and numbers of the formats that several modules read or write.

/// The octets of a word: what lengths and extensions count (RFC 3550, 5.3.1 and 6.4.1).
pub const WORD_SIZE: usize = 4;

/// The octets of an identifier of a source, an SSRC or a CSRC (RFC 3550, 5.1).
pub const ID_SIZE: usize = 4;

/// The octets of an RTCP packet's header (RFC 3550, 6.4.1).
pub const HEADER_SIZE: usize = 4;

/// The most octets of an RTCP packet: the length in its header counts at most 65,536 words (RFC 3550, 6.4.1).
pub(crate) const MAX_PACKET: usize = 262_144;

/// The version of RTP and of RTCP (RFC 3550, 5.1 and 6.4.1). Packets of other versions are refused.
pub(crate) const VERSION: u8 = 2;

/// The type of a sender report (RFC 3550, 6.4.1).
pub const SENDER_REPORT: u8 = 200;

/// The type of a receiver report (RFC 3550, 6.4.2).
pub const RECEIVER_REPORT: u8 = 201;

/// The type of a source description (RFC 3550, 6.5).
pub const SOURCE_DESCRIPTION: u8 = 202;

/// The type of a BYE (RFC 3550, 6.6).
pub const GOODBYE: u8 = 203;

/// The type of a packet that an application defines (RFC 3550, 6.7).
pub(crate) const APPLICATION: u8 = 204;
