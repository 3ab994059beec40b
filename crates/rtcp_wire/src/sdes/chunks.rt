//! The chunks of a source description (RFC 3550, 6.5).

ghost use Rattle.std.specs.Prelude.{◌≡◌, []};
ghost use Rattle.std.specs.Iterator.{YieldsFirst, item_count};
ghost use Rattle.std.specs.List.{list_any};
ghost use Rattle.rtcp_wire.specs.Facts.{is_cname};
ghost use Rattle.rtcp_wire.specs.Validity.{HasItems, HasChunks};
ghost use Rattle.rtcp_wire.specs.Walks.{items_after, chunk_size, chunks_in};

use super::CNAME;
use super::items::{Items, octets_of_items};
use crate::layout::{ID_SIZE, WORD_SIZE};
use byteorder::{BigEndian, ByteOrder};
use std::marker::Model;

/// A source description (RFC 3550, 6.5).
#[derive(Debug, Drop)]
pub struct SourceDescription<'a> {
    count: u8,
    octets: &'a [u8],
}

impl<'a> Model for SourceDescription<'a> {
    ghost use Rattle.std.specs.Prelude.{List};
    ghost use Rattle.rtcp_wire.specs.Values.{ChunkValue};
    ghost use Rattle.rtcp_wire.specs.Validity.{HasChunks};
    ghost use Rattle.rtcp_wire.specs.Walks.{chunks_in};

    ghost Value = { List ChunkValue };

    ghost view = { λ description. chunks_in description.count description.octets.now };

    // So many chunks stand first.
    ghost invariant = { λ description. HasChunks description.count description.octets.now };
}

impl<'a> SourceDescription<'a> {
    /// The source description whose body this is, under a header that counts `count` chunks.
    pub(crate) fn new(count: u8, octets: &'a [u8]) -> SourceDescription<'a>
        requires { HasChunks count octets.now }
        ensures { result ≡ chunks_in count octets.now }
    {
        SourceDescription { count, octets }
    }

    /// The chunks, in their order: at most 31, perhaps none.
    pub fn chunks(&self) -> Chunks<'a>
        ensures { result ≡ self.now }
    {
        Chunks::new(self.count, self.octets)
    }
}

/// A chunk: a source, and what it says of itself (RFC 3550, 6.5).
#[derive(Debug, Drop)]
pub struct Chunk<'a> {
    id: u32,
    item_octets: &'a [u8],
}

impl<'a> Model for Chunk<'a> {
    ghost use Rattle.rtcp_wire.specs.Values.{ChunkValue};
    ghost use Rattle.rtcp_wire.specs.Validity.{HasItems};
    ghost use Rattle.rtcp_wire.specs.Walks.{items_after};

    ghost Value = { ChunkValue };

    ghost view = { λ chunk. record { id = chunk.id; items = items_after 0 chunk.item_octets.now } };

    ghost invariant = { λ chunk. HasItems chunk.item_octets.now };
}

impl<'a> Chunk<'a> {
    /// The SSRC or CSRC that the chunk describes.
    pub fn id(&self) -> u32
        ensures { result ≡ self.now.id }
    {
        self.id
    }

    /// The items, in their order.
    pub fn items(&self) -> Items<'a>
        ensures { result ≡ self.now.items }
    {
        Items::new(self.item_octets)
    }

    /// Whether an item of the chunk is a CNAME.
    pub fn has_cname(&self) -> bool
        ensures { result ≡ list_any is_cname self.now.items }
    {
        self.items().any(|item| item.kind == CNAME)
    }
}

/// The chunks of a source description, in their order: an iterator that reads them from the datagram.
/// `SourceDescription::chunks` makes it.
#[derive(Debug, Drop)]
pub struct Chunks<'a> {
    count: u8,
    octets: &'a [u8],
}

impl<'a> Model for Chunks<'a> {
    ghost use Rattle.std.specs.Prelude.{List};
    ghost use Rattle.rtcp_wire.specs.Values.{ChunkValue};
    ghost use Rattle.rtcp_wire.specs.Validity.{HasChunks};
    ghost use Rattle.rtcp_wire.specs.Walks.{chunks_in};

    ghost Value = { List ChunkValue };

    ghost view = { λ chunks. chunks_in chunks.count chunks.octets.now };

    // So many chunks stand first.
    ghost invariant = { λ chunks. HasChunks chunks.count chunks.octets.now };
}

impl<'a> Chunks<'a> {
    /// So many chunks, which these octets begin with.
    pub(crate) fn new(count: u8, octets: &'a [u8]) -> Chunks<'a>
        requires { HasChunks count octets.now }
        ensures { result ≡ chunks_in count octets.now }
    {
        Chunks { count, octets }
    }

    /// No chunks.
    pub(crate) fn none() -> Chunks<'a>
        ensures { result ≡ [] }
    {
        Chunks {
            count: 0,
            octets: &[],
        }
    }
}

impl<'a> Iterator for Chunks<'a> {
    type Item = Chunk<'a>;

    ghost next_gives = { YieldsFirst (λ chunks. chunks) };

    ghost remaining = { item_count (λ chunks. chunks) };

    fn next(&mut self) -> Option<Chunk<'a>> {
        if self.count == 0 {
            return None;
        }
        let (id, item_octets) = self.octets.split_at(ID_SIZE);
        let (_, others) = self.octets.split_at(size_with_items(item_octets));
        self.count -= 1;
        self.octets = others;
        Some(Chunk {
            id: BigEndian::read_u32(id),
            item_octets,
        })
    }
}

/// The size of the chunk whose items these octets begin with: its identifier, the items with their zero octet,
/// and the fill of the last word.
fn size_with_items(item_octets: &[u8]) -> usize
    requires { HasItems item_octets.now }
    ensures { result ≡ chunk_size (items_after 0 item_octets.now) }
{
    // The zero octet after the items is in the chunk's last word.
    let words = (octets_of_items(item_octets) + ID_SIZE + WORD_SIZE) / WORD_SIZE;
    WORD_SIZE * words
}
