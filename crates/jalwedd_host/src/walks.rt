//! How a host is told of the parts of a datagram: the next one of a walk by a cursor, or the one at an index.

ghost use Rattle.std.specs.Prelude.{◌≡◌, ℕ, List, ⊤, flat_map};
ghost use Rattle.rtcp_wire.specs.Grammar.{IsAccepted};
ghost use Rattle.rtcp_wire.specs.Values.{RtcpPacket};
ghost use Rattle.rtcp_parts.specs.Cursors.{IsBoundary};
ghost use Rattle.jalwedd_host.specs.Parts.{Locates};
ghost use Rattle.jalwedd_host.specs.Walks.{Continues, ShowsGiven};

use crate::status::{NO_COMPOUND, NO_PART, TAKEN};
use rtcp_parts::{Cursor, Walk};

/// A part of a datagram that a host in C can be told of.
pub trait Shown: Walk {
    /// The host's structure.
    type Place: Copy;

    /// The structure tells what was given of a part.
    ghost shows_given: { Self.Place → Self → Type 0 };

    /// What the structure tells lies in the datagram.
    ghost shows_within: { List ℕ → Self.Place → Type 0 } = { λ datagram place. ⊤ };

    /// The structure tells of one of the datagram's own packets.
    ghost shows_own: { List ℕ → Self.Place → Type 0 } = { λ datagram place. ⊤ };

    /// The structure that tells of this part.
    fn shown(&self) -> Self::Place
        ensures shows { shows_given result self.now }
        ensures within { (datagram : List ℕ) → Self.lies_in datagram self.now → shows_within datagram result }
        ensures own { (datagram : List ℕ) → Self.is_own datagram self.now → shows_own datagram result };
}

/// Tells of the next part of a walk, and moves the cursor after it. Else `place` is left as it is.
#[inline(always)]
pub fn show_next<P: Shown>(datagram: &[u8], cursor: &mut Cursor, place: &mut P::Place) -> u32
    ensures tells { Continues P.parts_of P.is_left (ShowsGiven (P.shows datagram.now) P.shows_given)
        datagram.now cursor.old cursor.new result place.old place.new }
    ensures within { result ≡ 0 → P.shows_within datagram.now place.new }
    ensures own { P.keeps_boundary → IsBoundary datagram.now cursor.old.next →
        IsBoundary datagram.now cursor.new.next × (result ≡ 0 → P.shows_own datagram.now place.new) }
{
    match P::next(datagram, cursor) {
        Ok(Some(part)) => {
            *place = part.shown();
            TAKEN
        }
        Ok(None) => NO_PART,
        Err(_) => NO_COMPOUND,
    }
}

/// Tells of the part at `index`, from 0 on. Else `place` is left as it is.
pub fn show_at<P: Shown>(datagram: &[u8], index: u32, place: &mut P::Place) -> u32
    ensures tells { Locates (λ packets. flat_map P.parts_of packets) (ShowsGiven (P.shows datagram.now) P.shows_given)
        datagram.now index result place.old place.new }
    ensures own { P.keeps_boundary → (packets : List RtcpPacket) → IsAccepted datagram.now packets → result ≡ 0 →
        P.shows_own datagram.now place.new }
{
    match P::nth(datagram, index) {
        Ok(Some(part)) => {
            *place = part.shown();
            TAKEN
        }
        Ok(None) => NO_PART,
        Err(_) => NO_COMPOUND,
    }
}
