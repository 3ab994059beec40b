//! Packets to be written, which borrow what they hold.

use crate::block::Block;

/// A packet to be written. `is_writable` says whether its fields keep the bounds that are given here.
#[derive(Clone, Copy, Debug)]
pub enum PacketRef<'a> {
    /// A sender report (RFC 3550, 6.4.1).
    Sr {
        /// The SSRC of the source that reports.
        ssrc: u32,
        /// When the report is sent, as an NTP timestamp: seconds since 1900 in the upper 32 bits, and 1/2^32
        /// of a second in the lower ones.
        ntp: u64,
        /// The same moment in units of the sender's RTP timestamps.
        rtp: u32,
        /// How many RTP packets were sent up to then.
        packets: u32,
        /// How many octets their payloads have, without headers and padding.
        octets: u32,
        /// What it reports of the sources that it hears: at most 31 blocks.
        blocks: &'a [Block],
        /// The octets after the blocks: whole words that a profile may define.
        extension: &'a [u8],
    },
    /// A receiver report (RFC 3550, 6.4.2).
    Rr {
        /// The SSRC of the source that reports.
        ssrc: u32,
        /// What it reports of the sources that it hears: at most 31 blocks.
        blocks: &'a [Block],
        /// The octets after the blocks: whole words that a profile may define.
        extension: &'a [u8],
    },
    /// A source description (RFC 3550, 6.5).
    Sdes {
        /// At most 31 chunks.
        chunks: &'a [ChunkRef<'a>],
    },
    /// A BYE (RFC 3550, 6.6).
    Bye {
        /// The SSRCs and CSRCs of the sources that leave: at most 31, perhaps none.
        ids: &'a [u32],
        /// Why they leave, at most 255 octets. An empty reason is written too.
        reason: Option<&'a [u8]>,
    },
    /// A packet that an application defines (RFC 3550, 6.7).
    App {
        /// Five bits that the application defines: at most 31.
        subtype: u8,
        /// The SSRC of the source that sends the packet.
        ssrc: u32,
        /// The name of the set of packets that this one belongs to.
        name: [u8; 4],
        /// What the application says: whole words.
        data: &'a [u8],
    },
    /// A packet of any other type.
    Other {
        /// The packet's type: below 200 or above 204.
        kind: u8,
        /// The header's five bits: at most 31.
        count: u8,
        /// The octets after the header: whole words.
        body: &'a [u8],
    },
}

/// An SDES chunk to be written (RFC 3550, 6.5).
#[derive(Clone, Copy, Debug)]
pub struct ChunkRef<'a> {
    /// The SSRC or CSRC that the chunk describes.
    pub id: u32,
    /// The items, in their order.
    pub items: &'a [ItemRef<'a>],
}

/// An SDES item to be written (RFC 3550, 6.5).
#[derive(Clone, Copy, Debug)]
pub struct ItemRef<'a> {
    /// The item's type, from 1 to 255: CNAME is 1.
    pub kind: u8,
    /// The text, at most 255 octets.
    pub text: &'a [u8],
}
