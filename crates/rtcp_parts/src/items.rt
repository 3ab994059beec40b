//! The SDES items of a datagram, one after the other (RFC 3550, 6.5).

ghost use Rattle.std.specs.Prelude.{◌≡◌, ◌≤◌, ◌<◌, ◌+◌, ℕ, length, true, IfSome};
ghost use Rattle.rtcp_wire.specs.Contents.{packet_items};
ghost use Rattle.rtcp_wire.specs.Values.{ItemValue};
ghost use Rattle.rtcp_parts.specs.Placed.{HasText, PlacesItem};
ghost use Rattle.rtcp_parts.specs.Cursors.{LeavesItems, is_within};
ghost use Rattle.rtcp_parts.specs.Walks.{Enters, GoesOn, HasNoItem, Opens, PassesOn, TakesHere, TakesNext};

use crate::cursor::Cursor;
use crate::octets::{ID_SIZE, u32_at};
use crate::packet::{Wanted, packet_from};
use crate::placed::{PlacedItem, Span};
use crate::walk::Walk;

/// Source descriptions with at least one chunk.
const WITH_CHUNKS: Wanted = Wanted {
    first: 202,
    last: 202,
    least: 1,
};

impl Walk for PlacedItem {
    ghost Value = { ℕ × ItemValue };

    ghost parts_of = { packet_items };

    ghost is_left = { LeavesItems };

    ghost shows = { PlacesItem };

    ghost lies_in = { HasText };

    #[inline(always)]
    fn take(datagram: &[u8], cursor: &mut Cursor) -> Option<PlacedItem> {
        item_from(datagram, cursor)
    }
}

/// Takes the next item, of this chunk or of a later one.
#[inline(always)]
fn item_from(datagram: &[u8], cursor: &mut Cursor) -> Option<PlacedItem>
    requires { is_within (length datagram.now) cursor.old ≡ true }
    ensures takes { TakesNext packet_items LeavesItems (PlacesItem datagram.now)
        datagram.now cursor.old cursor.new result }
    ensures within { IfSome result (HasText datagram.now) }
{
    'chunks: loop {
        if let Some(item) = take_item(datagram, cursor) {
            return Some(item);
        }
        if !pass_on(datagram, cursor) {
            return None;
        }
    }
}

/// Takes the next item of the chunk that a walk is in.
#[inline(always)]
fn take_item(datagram: &[u8], cursor: &mut Cursor) -> Option<PlacedItem>
    requires { is_within (length datagram.now) cursor.old ≡ true }
    ensures takes { TakesHere packet_items LeavesItems (PlacesItem datagram.now) HasNoItem
        datagram.now cursor.old cursor.new result }
    ensures within { IfSome result (HasText datagram.now) }
{
    if cursor.left == 0 {
        return None;
    }
    let (head, texts) = cursor.rest(datagram).split_at_checked(2)?;
    if head[0] == 0 {
        return None;
    }
    let (text, _) = texts.split_at_checked(usize::from(head[1]))?;
    let place = cursor.place as usize + 2;
    cursor.place += 2 + text.len() as u64;
    Some(PlacedItem {
        ssrc: cursor.ssrc,
        kind: head[0],
        text: Span {
            place,
            size: text.len(),
        },
    })
}

/// Moves a walk that has no more items in its chunk to the next chunk, of this packet or of a later one; or returns
/// `false`, where there is none.
fn pass_on(datagram: &[u8], cursor: &mut Cursor) -> bool
    requires { is_within (length datagram.now) cursor.old ≡ true }
    ensures { PassesOn packet_items LeavesItems HasNoItem datagram.now cursor.old cursor.new result }
{
    *cursor = if cursor.left > 1 {
        chunk_after(datagram, cursor)
    } else {
        description_from(datagram, cursor.next)
    };
    cursor.left != 0
}

/// A walk at the chunk after the one that has no more items. Its zero octet is followed by what is left of a word.
fn chunk_after(datagram: &[u8], cursor: &Cursor) -> Cursor
    requires within { is_within (length datagram.now) cursor.now ≡ true }
    requires others { 1 < cursor.now.left }
    ensures { GoesOn packet_items LeavesItems HasNoItem datagram.now cursor.now result }
{
    if cursor.place == cursor.end {
        return Cursor::ended(datagram.len());
    }
    let fill = (cursor.end - cursor.place - 1) % 4;
    let chunk = Cursor {
        place: cursor.place + 1 + fill,
        left: cursor.left - 1,
        ..*cursor
    };
    opened(datagram, &chunk)
}

/// A walk at the first chunk of a source description after so many octets, or after the last packet.
fn description_from(datagram: &[u8], from: u64) -> Cursor
    requires { from ≤ length datagram.now }
    ensures { Enters packet_items LeavesItems datagram.now from result }
{
    match packet_from(datagram, from as usize, WITH_CHUNKS) {
        Some(packet) => {
            let chunk = Cursor {
                next: packet.next as u64,
                place: packet.place as u64,
                end: (packet.place + packet.body.len()) as u64,
                left: u32::from(packet.count),
                ssrc: 0,
            };
            opened(datagram, &chunk)
        }
        None => Cursor::ended(datagram.len()),
    }
}

/// A walk at the first item of the first of the chunks that are left.
fn opened(datagram: &[u8], chunks: &Cursor) -> Cursor
    requires { is_within (length datagram.now) chunks.now ≡ true }
    ensures { Opens datagram.now chunks.now result }
{
    let rest = chunks.rest(datagram);
    if rest.len() < ID_SIZE {
        return Cursor::ended(datagram.len());
    }
    Cursor {
        place: chunks.place + 4,
        ssrc: u32_at(rest, 0),
        ..*chunks
    }
}
