//! Where a walk stands.

ghost use Rattle.std.specs.Prelude.{◌≡◌, ◌≢◌, ◌+◌, true, List, length, Err, IfOk, IsOk};
ghost use Rattle.rtcp_wire.specs.declared.fault.WireFault.{WireFault as FirstFault};
ghost use Rattle.rtcp_wire.specs.Faults.{IsFirstFault};
ghost use Rattle.rtcp_wire.specs.Grammar.{IsAccepted};
ghost use Rattle.rtcp_wire.specs.Values.{RtcpPacket};
ghost use Rattle.rtcp_parts.specs.Cursors.{begun_at, ended_at, is_within, rest_of};

use rtcp_wire::{Compound, WireFault};

/// Where a walk over the parts of one kind in a datagram stands. A walk begins with a cursor of zeros,
/// `Cursor::default()`. The fields are for the walk alone: a cursor belongs to one datagram and to one kind.
#[repr(C)]
#[derive(Clone, Copy, Debug, Default, PartialEq, Eq)]
pub struct Cursor {
    /// The octets of the datagram before the packet that is to be looked at next: 0 before a walk begins.
    pub next: u64,
    /// Those before the next part in the packet that the walk is in.
    pub place: u64,
    /// Those before the padding of that packet.
    pub end: u64,
    /// How many blocks, chunks or sources are left of that packet: 0 in none.
    pub left: u32,
    /// The SSRC of its report or of its chunk.
    pub ssrc: u32,
}

/// The cursor with which a walk goes on. Where it begins, this tests the datagram; of a cursor that is none of this
/// datagram, the walk is over.
pub(crate) fn begun(datagram: &[u8], cursor: &Cursor) -> Result<Cursor, WireFault>
    ensures begins { IfOk result (λ begun. begun ≡ begun_at (length datagram.now) cursor.now) }
    ensures accepted { (packets : List RtcpPacket) → IsAccepted datagram.now packets → IsOk result }
    ensures refused { (fault : FirstFault) → IsFirstFault datagram.now fault → cursor.now.next ≡ 0 →
        result ≡ Err fault }
    ensures later { cursor.now.next ≢ 0 → IsOk result }
    ensures reads { cursor.now.next ≡ 0 →
        IfOk result (λ begun. (packets : List RtcpPacket) × IsAccepted datagram.now packets) }
{
    if cursor.next != 0 {
        return Ok(if cursor.is_within(datagram.len()) {
            *cursor
        } else {
            Cursor::ended(datagram.len())
        });
    }
    match Compound::read(datagram) {
        Ok(_) => Ok(Cursor::ended(0)),
        Err(fault) => Err(fault),
    }
}

impl Cursor {
    /// After the last packet of so many octets.
    pub(crate) fn ended(octets: usize) -> Cursor
        ensures { result ≡ ended_at octets }
    {
        Cursor {
            next: octets as u64,
            place: 0,
            end: 0,
            left: 0,
            ssrc: 0,
        }
    }

    /// Whether the walk is in a packet of a datagram of so many octets.
    fn is_within(&self, octets: usize) -> bool
        ensures { result ≡ is_within octets self.now }
    {
        self.place <= self.end && self.end <= self.next && self.next <= octets as u64
    }

    /// What is left of the packet that the walk is in, up to its padding.
    pub(crate) fn rest<'a>(&self, datagram: &'a [u8]) -> &'a [u8]
        requires { is_within (length datagram.now) self.now ≡ true }
        ensures rest { result.now ≡ rest_of datagram.now self.now }
        ensures size { length result.now + self.now.place ≡ self.now.end }
    {
        let (body, _) = datagram.split_at(self.end as usize);
        body.split_at(self.place as usize).1
    }
}
