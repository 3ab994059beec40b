//! A walk over the parts of one kind in a datagram: the same for all kinds.

ghost use Rattle.std.specs.Prelude.{◌≡◌, ◌≢◌, ℕ, List, length, true, IfOk, IfSome};
ghost use Rattle.rtcp_wire.specs.Grammar.{IsAccepted};
ghost use Rattle.rtcp_wire.specs.Values.{RtcpPacket};
ghost use Rattle.rtcp_parts.specs.declared.cursor.Cursor.{Cursor as Stand};
ghost use Rattle.rtcp_parts.specs.Cursors.{IsBoundary, is_within};
ghost use Rattle.rtcp_parts.specs.Walks.{Gives, GivesAt, HasNoPlace, TakesNext};

use crate::cursor::{Cursor, begun};
use rtcp_wire::WireFault;

/// What is given of the parts of one kind: a `Sender`, a `Reported` block, a `PlacedItem`, a `PlacedGoodbye` or a
/// `PlacedApp`.
pub trait Walk: Copy {
    /// What a part says.
    ghost Value: { Type 0 };

    /// The parts of a packet.
    ghost parts_of: { RtcpPacket → List Value };

    /// These parts are left of the packet that a walk is in.
    ghost is_left: { List ℕ → Stand → List Value → Type 0 };

    /// What is given shows a part of a datagram.
    ghost shows: { List ℕ → Value → Self → Type 0 };

    /// What is given lies in the datagram.
    ghost lies_in: { List ℕ → Self → Type 0 } = { HasNoPlace };

    /// That a walk at a boundary of the datagram's packets stays at one, and gives there what is the datagram's own.
    ghost keeps_boundary: { Type 0 } = { ⊥ };

    /// What is given is one of the datagram's own packets.
    ghost is_own: { List ℕ → Self → Type 0 } = { HasNoPlace };

    /// Takes the next part that is left to a walk which has begun, if there is one: what `next` calls.
    fn take(datagram: &[u8], cursor: &mut Cursor) -> Option<Self>
        requires within { is_within (length datagram.now) cursor.old ≡ true }
        requires begun { cursor.old.left ≢ 0 → cursor.old.next ≢ 0 }
        ensures takes { TakesNext parts_of is_left (shows datagram.now) datagram.now cursor.old cursor.new result }
        ensures within { IfSome result (lies_in datagram.now) }
        ensures own { keeps_boundary → IsBoundary datagram.now cursor.old.next →
            IsBoundary datagram.now cursor.new.next × IfSome result (is_own datagram.now) };

    /// The next part of a walk over those of a datagram, in their order; `None` after the last one, and again from then
    /// on.
    ///
    /// # Errors
    ///
    /// The datagram's first fault, where a walk begins over one that is not a compound. The cursor is then left as it
    /// was.
    // Inlined with what it calls, as a host in C calls it for each part.
    #[inline(always)]
    final fn next(datagram: &[u8], cursor: &mut Cursor) -> Result<Option<Self>, WireFault>
        ensures gives { Gives parts_of is_left (shows datagram.now) datagram.now cursor.old cursor.new result }
        ensures within { IfOk result (λ given. IfSome given (lies_in datagram.now)) }
        ensures own { keeps_boundary → IsBoundary datagram.now cursor.old.next →
            IsBoundary datagram.now cursor.new.next × IfOk result (λ given. IfSome given (is_own datagram.now)) }
    {
        let mut at = match begun(datagram, cursor) {
            Ok(at) => at,
            Err(fault) => return Err(fault),
        };
        let part = Self::take(datagram, &mut at);
        *cursor = at;
        Ok(part)
    }

    /// Of the parts of a datagram, in their order, the one at `index`, from 0 on; `None` where there are no more. Each
    /// call walks there from the first.
    ///
    /// # Errors
    ///
    /// The datagram's first fault, where it is not a compound.
    final fn nth(datagram: &[u8], index: u32) -> Result<Option<Self>, WireFault>
        ensures gives { GivesAt parts_of (shows datagram.now) datagram.now index result }
        ensures own { keeps_boundary → (packets : List RtcpPacket) → IsAccepted datagram.now packets →
            IfOk result (λ given. IfSome given (is_own datagram.now)) }
    {
        let mut cursor = match begun(datagram, &Cursor::default()) {
            Ok(cursor) => cursor,
            Err(fault) => return Err(fault),
        };
        let mut passed = 0;
        'parts: while passed < index {
            match Self::take(datagram, &mut cursor) {
                Some(_) => passed += 1,
                None => return Ok(None),
            }
        }
        Ok(Self::take(datagram, &mut cursor))
    }
}
