//! The next packet of a datagram that has parts of a kind.

ghost use Rattle.std.specs.Prelude.{◌≡◌, ◌≤◌, ◌<◌, ◌+◌, ◌-◌, ◌↔◌, List, [], ◌∷◌, length, drop, IfSome, MatchOption, IsTrue, None};
ghost use Rattle.rtcp_wire.specs.Grammar.{Joins, IsSpelling};
ghost use Rattle.rtcp_wire.specs.Readings.{size_of};
ghost use Rattle.rtcp_wire.specs.Headers.{body_of, padding_of};
ghost use Rattle.rtcp_wire.specs.Values.{RtcpPacket};
ghost use Rattle.rtcp_parts.specs.Cursors.{IsBoundary};
ghost use Rattle.rtcp_parts.specs.Walks.{ComesFirst, ComesNext, IsOwnPacket, IsWanted, AreUnwanted, IsPlaced};

/// The octets of a packet's header (RFC 3550, 6.4.1).
const HEADER_SIZE: usize = 4;

/// A packet, and where it stands in its datagram.
#[derive(Clone, Copy)]
pub(crate) struct Packet<'a> {
    pub(crate) kind: u8,
    pub(crate) count: u8,
    /// What stands between its header and its padding.
    pub(crate) body: &'a [u8],
    /// The octets of the datagram before its body.
    pub(crate) place: usize,
    /// The octets of the datagram before the next packet.
    pub(crate) next: usize,
}

/// The packets that have parts of a kind.
#[derive(Clone, Copy)]
pub(crate) struct Wanted {
    /// Their types.
    pub(crate) first: u8,
    pub(crate) last: u8,
    /// The least count in their headers.
    pub(crate) least: u8,
}

impl Wanted {
    fn has(&self, packet: &Packet<'_>) -> bool
        ensures { IsTrue result ↔ IsWanted self.now packet.now.kind packet.now.count }
    {
        self.first <= packet.kind && packet.kind <= self.last && self.least <= packet.count
    }
}

/// The first packet after so many octets that is wanted. A packet whose header does not fit is the last one.
pub(crate) fn packet_from<'a>(datagram: &'a [u8], from: usize, wanted: Wanted) -> Option<Packet<'a>>
    ensures placed { IfSome result (λ packet. IsPlaced datagram.now from packet
        × IsWanted wanted packet.kind packet.count) }
    ensures next { (packets : List RtcpPacket) → Joins IsSpelling packets (drop from datagram.now) →
        MatchOption result (AreUnwanted wanted packets) (ComesNext wanted datagram.now packets) }
    ensures own { IsBoundary datagram.now from → IfSome result (IsOwnPacket datagram.now) }
{
    let mut at = from;
    'packets: loop {
        let packet = packet_at(datagram, at)?;
        if wanted.has(&packet) {
            return Some(packet);
        }
        at = packet.next;
    }
}

/// The packet after so many octets, if a whole one can be there.
fn packet_at(datagram: &[u8], at: usize) -> Option<Packet<'_>>
    ensures placed { IfSome result (λ packet. IsPlaced datagram.now at packet) }
    ensures place { IfSome result (λ packet. packet.place ≡ at + 4) }
    ensures none { drop at datagram.now ≡ [] → result ≡ None }
    ensures first { (packet : RtcpPacket) (packets : List RtcpPacket) →
        Joins IsSpelling (packet ∷ packets) (drop at datagram.now) →
        MatchOption result ⊥ (ComesFirst datagram.now packet packets) }
{
    let (_, rest) = datagram.split_at_checked(at)?;
    let (octets, _) = rest.split_at_checked(size_at(rest)?)?;
    let body = body_in(octets)?;
    Some(Packet {
        kind: octets[1],
        count: octets[0] % 32,
        body,
        place: at + HEADER_SIZE,
        next: at + octets.len(),
    })
}

/// The size of the packet that these octets begin with, as its header says (RFC 3550, 6.4.1).
fn size_at(octets: &[u8]) -> Option<usize>
    ensures { MatchOption result (length octets.now < 4)
        (λ size. (4 ≤ length octets.now) × (size ≡ size_of octets.now)) }
{
    if octets.len() < HEADER_SIZE {
        return None;
    }
    let words = usize::from(octets[2]) * 256 + usize::from(octets[3]);
    Some(4 * (words + 1))
}

/// What stands between the header and the padding of a packet, if its padding fits (RFC 3550, 6.4.1).
fn body_in(octets: &[u8]) -> Option<&[u8]>
    requires { length octets.now ≡ size_of octets.now }
    ensures { MatchOption result (size_of octets.now - 4 < padding_of octets.now)
        (λ body. body.now ≡ body_of octets.now) }
{
    let padding = if octets[0] / 32 % 2 == 1 {
        usize::from(octets[octets.len() - 1])
    } else {
        0
    };
    let (_, rest) = octets.split_at(HEADER_SIZE);
    let size = rest.len().checked_sub(padding)?;
    Some(rest.split_at(size).0)
}
