//! Which packets can be written.

ghost use Rattle.std.specs.Prelude.{◌≡◌, ◌≤◌, ◌↔◌, All, IsTrue, map, option_copied};
ghost use Rattle.rtcp_wire.specs.Values.{ChunkValue, ItemValue, ReportBlock};
ghost use Rattle.rtcp_wire.specs.Views.{block_value};
ghost use Rattle.rtcp_wire.specs.WriterViews.{item_ref_of, chunk_ref_of, packet_ref_of};
ghost use Rattle.rtcp_wire.specs.Writing.{IsWords, IsWritableBlock, IsWritableItem, IsWritableChunk, IsWritableReason, IsWritableEnd, HasWritableParts, IsWritable};

use crate::block::Block;
use crate::layout::{APPLICATION, HEADER_SIZE, MAX_PACKET, SENDER_REPORT, WORD_SIZE};
use crate::writer::refs::{ChunkRef, ItemRef, PacketRef};
use crate::writer::size::body_size;

/// The greatest count or subtype: five bits of the header say it (RFC 3550, 6.4.1).
const MAX_COUNT: usize = 31;

/// The most octets of the text of an item or a reason: one octet says its length (RFC 3550, 6.5 and 6.6).
const MAX_TEXT: usize = 255;

/// The least number of packets lost that the 24 bits of a block say (RFC 3550, 6.4.1).
const MIN_LOST: i32 = -8_388_608;

/// The greatest such number.
const MAX_LOST: i32 = 8_388_607;

/// The most octets of a packet's body.
const MAX_BODY: usize = MAX_PACKET - HEADER_SIZE;

impl PacketRef<'_> {
    /// Whether the packet can be written (RFC 3550, 6.4 to 6.7). It can if all of these hold:
    ///
    /// - It has at most 31 blocks, chunks or identifiers, and its subtype or count is at most 31.
    /// - Each text and reason has at most 255 octets, and no item has the type 0.
    /// - Each number of packets lost is from -8,388,608 to 8,388,607.
    /// - An extension, the data of an application and the body of an `Other` are whole words.
    /// - The type of an `Other` is below 200 or above 204.
    /// - The whole packet has at most 262,144 octets, so that its header can say its length.
    pub fn is_writable(&self) -> bool
        ensures { IsTrue result ↔ IsWritable (packet_ref_of self.now) }
    {
        has_writable_parts(self) && body_size(self) <= MAX_BODY
    }
}

fn has_writable_parts(packet: &PacketRef<'_>) -> bool
    ensures { IsTrue result ↔ HasWritableParts (packet_ref_of packet.now) }
{
    match *packet {
        PacketRef::Sr {
            blocks,
            extension,
            ..
        } => is_writable_end(blocks, extension),
        PacketRef::Rr {
            blocks,
            extension,
            ..
        } => is_writable_end(blocks, extension),
        PacketRef::Sdes { chunks } => chunks.len() <= MAX_COUNT && are_writable(chunks),
        PacketRef::Bye { ids, reason } => ids.len() <= MAX_COUNT && is_writable_reason(reason),
        PacketRef::App { subtype, data, .. } => subtype as usize <= MAX_COUNT && is_words(data),
        PacketRef::Other { kind, count, body } => {
            (kind < SENDER_REPORT || kind > APPLICATION)
                && count as usize <= MAX_COUNT
                && is_words(body)
        }
    }
}

fn is_writable_end(blocks: &[Block], extension: &[u8]) -> bool
    ensures { IsTrue result ↔ IsWritableEnd (map block_value blocks.now) extension.now }
{
    blocks.len() <= MAX_COUNT && are_writable(blocks) && is_words(extension)
}

/// A part of a packet, of which there may be several.
trait Part {
    ghost Value: { Type 0 };

    ghost view: { Self → Value };

    ghost may_be_written: { Value → Type 0 };

    /// Whether the part can be written.
    fn is_writable(&self) -> bool
        ensures { IsTrue result ↔ may_be_written (view self.now) };
}

impl Part for Block {
    ghost Value = { ReportBlock };

    ghost view = { block_value };

    ghost may_be_written = { IsWritableBlock };

    fn is_writable(&self) -> bool {
        MIN_LOST <= self.lost && self.lost <= MAX_LOST
    }
}

impl Part for ChunkRef<'_> {
    ghost Value = { ChunkValue };

    ghost view = { chunk_ref_of };

    ghost may_be_written = { IsWritableChunk };

    fn is_writable(&self) -> bool {
        are_writable(self.items)
    }
}

impl Part for ItemRef<'_> {
    ghost Value = { ItemValue };

    ghost view = { item_ref_of };

    ghost may_be_written = { IsWritableItem };

    fn is_writable(&self) -> bool {
        self.kind != 0 && self.text.len() <= MAX_TEXT
    }
}

fn are_writable<P: Part>(parts: &[P]) -> bool
    ensures { IsTrue result ↔ All P.may_be_written (map P.view parts.now) }
{
    for part in parts {
        if !part.is_writable() {
            return false;
        }
    }
    true
}

fn is_writable_reason(reason: Option<&[u8]>) -> bool
    ensures { IsTrue result ↔ IsWritableReason (option_copied reason.entry) }
{
    match reason {
        Some(text) => text.len() <= MAX_TEXT,
        None => true,
    }
}

fn is_words(octets: &[u8]) -> bool
    ensures { IsTrue result ↔ IsWords octets.now }
{
    octets.len() % WORD_SIZE == 0
}
