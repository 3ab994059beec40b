//! The sources that the BYEs of a datagram name, one after the other (RFC 3550, 6.6).

ghost use Rattle.std.specs.Prelude.{◌≡◌, ◌≤◌, ◌+◌, ◌<◌, ◌^◌, ℕ, List, length, Option, true, IfSome};
ghost use Rattle.rtcp_wire.specs.Contents.{packet_goodbyes};
ghost use Rattle.rtcp_wire.specs.Grammar.{IsReasonPart};
ghost use Rattle.rtcp_parts.specs.Placed.{HasReason, PlacesGoodbye, span_at};
ghost use Rattle.rtcp_parts.specs.Cursors.{LeavesGoodbyes, is_within};
ghost use Rattle.rtcp_parts.specs.Walks.{Readies, HasNoneLeft, TakesHere};

use crate::cursor::Cursor;
use crate::octets::{ID_SIZE, u32_at};
use crate::packet::{Wanted, packet_from};
use crate::placed::{PlacedGoodbye, Span};
use crate::walk::Walk;

/// BYEs that name at least one source.
const WITH_SOURCES: Wanted = Wanted {
    first: 203,
    last: 203,
    least: 1,
};

impl Walk for PlacedGoodbye {
    ghost Value = { ℕ × Option (List ℕ) };

    ghost parts_of = { packet_goodbyes };

    ghost is_left = { LeavesGoodbyes };

    ghost shows = { PlacesGoodbye };

    ghost lies_in = { HasReason };

    #[inline(always)]
    fn take(datagram: &[u8], cursor: &mut Cursor) -> Option<PlacedGoodbye> {
        *cursor = ready(datagram, cursor);
        take_source(datagram, cursor)
    }
}

/// A walk at the next source: at the first of another BYE where it is in none.
#[inline(always)]
fn ready(datagram: &[u8], cursor: &Cursor) -> Cursor
    requires { is_within (length datagram.now) cursor.now ≡ true }
    ensures { Readies packet_goodbyes LeavesGoodbyes datagram.now cursor.now result }
{
    if cursor.left != 0 {
        return *cursor;
    }
    match packet_from(datagram, cursor.next as usize, WITH_SOURCES) {
        Some(packet) => Cursor {
            next: packet.next as u64,
            place: packet.place as u64,
            end: (packet.place + packet.body.len()) as u64,
            left: u32::from(packet.count),
            ssrc: 0,
        },
        None => Cursor::ended(datagram.len()),
    }
}

/// Takes the next source of the BYE that a walk is in.
#[inline(always)]
fn take_source(datagram: &[u8], cursor: &mut Cursor) -> Option<PlacedGoodbye>
    requires { is_within (length datagram.now) cursor.old ≡ true }
    ensures takes { TakesHere packet_goodbyes LeavesGoodbyes (PlacesGoodbye datagram.now) HasNoneLeft
        datagram.now cursor.old cursor.new result }
    ensures within { IfSome result (HasReason datagram.now) }
{
    if cursor.left == 0 {
        return None;
    }
    let rest = cursor.rest(datagram);
    let (ids, ends) = rest.split_at_checked(ID_SIZE * cursor.left as usize)?;
    let reason = reason_in(ends, cursor.end as usize - ends.len());
    cursor.left -= 1;
    cursor.place += 4;
    Some(PlacedGoodbye {
        ssrc: u32_at(ids, 0),
        reason,
    })
}

/// Where the reason stands in octets that stand after so many, if it is there.
fn reason_in(octets: &[u8], before: usize) -> Option<Span>
    requires { before + length octets.now < 2 ^ 63 }
    ensures reason { (reason : Option (List ℕ)) → IsReasonPart reason octets.now →
        result ≡ span_at (before + 1) reason }
    ensures within { IfSome result (λ span. span.place + span.size ≤ before + length octets.now) }
{
    let (size, text) = octets.split_first()?;
    Some(Span {
        place: before + 1,
        size: usize::from(*size).min(text.len()),
    })
}
