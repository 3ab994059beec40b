//! The packets of a datagram that applications define, one after the other (RFC 3550, 6.7).

ghost use Rattle.std.specs.Prelude.{◌≤◌, ◌+◌, ◌<◌, ◌^◌, length, ⊤, MatchOption};
ghost use Rattle.rtcp_wire.specs.Contents.{packet_apps};
ghost use Rattle.rtcp_wire.specs.Values.{AppValue};
ghost use Rattle.rtcp_parts.specs.Placed.{HasData, PlacesApp};
ghost use Rattle.rtcp_parts.specs.Cursors.{LeavesNone};
ghost use Rattle.rtcp_parts.specs.Walks.{IsOwnApp, ReadsApp};

use crate::cursor::Cursor;
use crate::octets::u32_at;
use crate::packet::{Packet, Wanted, packet_from};
use crate::placed::{PlacedApp, Span};
use crate::walk::Walk;

/// The octets of the body of an application's packet before its data: its SSRC and its name.
const BEFORE_DATA: usize = 8;

/// Packets that applications define.
const APPLICATIONS: Wanted = Wanted {
    first: 204,
    last: 204,
    least: 0,
};

/// From a cursor at a boundary of the datagram's packets, as a walk over an accepted one leaves it, each is one of the
/// datagram's own, and none inside another.
impl Walk for PlacedApp {
    ghost Value = { AppValue };

    ghost parts_of = { packet_apps };

    ghost is_left = { LeavesNone };

    ghost shows = { PlacesApp };

    ghost lies_in = { HasData };

    ghost keeps_boundary = { ⊤ };

    ghost is_own = { IsOwnApp };

    #[inline(always)]
    fn take(datagram: &[u8], cursor: &mut Cursor) -> Option<PlacedApp> {
        let next = cursor.next as usize;
        *cursor = Cursor::ended(datagram.len());
        let packet = packet_from(datagram, next, APPLICATIONS)?;
        let app = app_in(&packet)?;
        *cursor = Cursor::ended(packet.next);
        Some(app)
    }
}

/// What an application's packet says, and where its data stand, if its body has room for what stands before these.
#[inline(always)]
fn app_in(packet: &Packet<'_>) -> Option<PlacedApp>
    requires { packet.now.place + length packet.now.body.now < 2 ^ 63 }
    ensures { MatchOption result (length packet.now.body.now < 8)
        (λ app. (8 ≤ length packet.now.body.now) × ReadsApp packet.now app) }
{
    if packet.body.len() < BEFORE_DATA {
        return None;
    }
    let (_, rest) = packet.body.split_at(4);
    let mut name = [0; 4];
    name.copy_from_slice(rest.split_at(4).0);
    Some(PlacedApp {
        ssrc: u32_at(packet.body, 0),
        subtype: packet.count,
        name,
        content: Span {
            place: packet.place + BEFORE_DATA,
            size: packet.body.len() - BEFORE_DATA,
        },
    })
}
