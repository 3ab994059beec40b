//! Datagrams to damage: some are read whole, and some have a fault already.

/// A receiver report of source 7 with no blocks.
pub(super) const REPORT: &[u8] = &[0x80, 0xc9, 0, 1, 0, 0, 0, 7];

/// The named report, and an octet more.
pub(super) const NAMED_AND_OCTET: &[u8] = &[
    0x80, 0xc9, 0, 1, // a receiver report of two words, with no blocks
    0, 0, 0, 7, // its SSRC
    0x81, 0xca, 0, 2, // a source description of three words, with one chunk
    0, 0, 0, 7, // the chunk's SSRC
    1, 1, 0x61, 0, // a CNAME of one octet, and the zero octet
    0, // the octet
];

/// A first packet with padding.
pub(super) const PADDED_REPORT: &[u8] = &[
    0xa0, 0xc9, 0, 2, // a receiver report of three words, with padding
    0, 0, 0, 7, // its SSRC
    0, 0, 0, 4, // four octets of padding
];

/// A later packet with padding.
pub(super) const PADDED_GOODBYE: &[u8] = &[
    0x80, 0xc9, 0, 1, // a receiver report of two words, with no blocks
    0, 0, 0, 7, // its SSRC
    0xa1, 0xcb, 0, 2, // a goodbye of three words, of one source, with padding
    0, 0, 0, 7, // its SSRC
    0, 0, 0, 4, // four octets of padding
];

/// A report that lacks its last octet.
pub(super) const CUT_REPORT: &[u8] = &[0x80, 0xc9, 0, 1, 0, 0, 0];

/// A report that counts a block, and has none.
pub(super) const MISSING_BLOCK: &[u8] = &[0x81, 0xc9, 0, 1, 0, 0, 0, 7];

/// An item that runs past its body.
pub(super) const LONG_ITEM: &[u8] = &[
    0x80, 0xc9, 0, 1, // a receiver report of two words, with no blocks
    0, 0, 0, 7, // its SSRC
    0x81, 0xca, 0, 2, // a source description of three words, with one chunk
    0, 0, 0, 7, // the chunk's SSRC
    1, 5, 0x61, 0, // a CNAME of five octets, but only two follow
];

/// A reason that runs past its body.
pub(super) const LONG_REASON: &[u8] = &[
    0x80, 0xc9, 0, 1, // a receiver report of two words, with no blocks
    0, 0, 0, 7, // its SSRC
    0x81, 0xcb, 0, 2, // a goodbye of three words, of one source
    0, 0, 0, 7, // its SSRC
    5, 0x61, 0x62, 0x63, // a reason of five octets, but only three follow
];

/// A sender report of source 9 with no blocks.
pub(super) const SENDER_REPORT: &[u8] = &[
    0x80, 0xc8, 0, 6, // a sender report of seven words, with no blocks
    0, 0, 0, 9, // its SSRC
    0, 0, 0xb7, 5, // NTP timestamp, the upper word
    0x20, 0, 0, 0, // NTP timestamp, the lower word
    0, 0, 0, 10, // RTP timestamp
    0, 0, 0, 3, // packets sent
    0, 0, 1, 0xe0, // octets sent
];

/// An RTP packet of source 9 with sequence number 10 and timestamp 0.
pub(super) const PACKET: &[u8] = &[0x80, 0, 0, 10, 0, 0, 0, 0, 0, 0, 0, 9];

/// The packet after it.
pub(super) const NEXT_PACKET: &[u8] = &[0x80, 0, 0, 11, 0, 0, 0, 0, 0, 0, 0, 9];

/// A BYE of source 1.
pub(super) const GOODBYE: &[u8] = &[
    0x80, 0xc9, 0, 1, // a receiver report of two words, with no blocks
    0, 0, 0, 1, // its SSRC
    0x81, 0xcb, 0, 1, // a goodbye of two words, of one source
    0, 0, 0, 1, // its SSRC
];

/// A packet of an application.
pub(super) const APPLICATION: &[u8] = &[
    0x80, 0xc9, 0, 1, // a receiver report of two words, with no blocks
    0, 0, 0, 7, // its SSRC
    0x85, 0xcc, 0, 3, // an application's packet of four words, of subtype 5
    0, 0, 0, 7, // its SSRC
    0x41, 0x42, 0x43, 0x44, // its name
    1, 2, 3, 4, // its data
];

/// A BYE with a reason.
pub(super) const GOODBYE_WITH_REASON: &[u8] = &[
    0x80, 0xc9, 0, 1, // a receiver report of two words, with no blocks
    0, 0, 0, 7, // its SSRC
    0x81, 0xcb, 0, 2, // a goodbye of three words, of one source
    0, 0, 0, 7, // its SSRC
    2, 0x61, 0x62, 0, // a reason of two octets, and its fill
];

/// A BYE with a reason that has no text.
pub(super) const GOODBYE_WITH_EMPTY_REASON: &[u8] = &[
    0x80, 0xc9, 0, 1, // a receiver report of two words, with no blocks
    0, 0, 0, 7, // its SSRC
    0x81, 0xcb, 0, 2, // a goodbye of three words, of one source
    0, 0, 0, 7, // its SSRC
    0, 0, 0, 0, // a reason of no octets, and its fill
];

/// A BYE of nobody.
pub(super) const GOODBYE_OF_NOBODY: &[u8] = &[
    0x80, 0xc9, 0, 1, // a receiver report of two words, with no blocks
    0, 0, 0, 7, // its SSRC
    0x80, 0xcb, 0, 0, // a goodbye of one word
];
