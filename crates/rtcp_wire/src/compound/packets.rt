//! The packets of a compound, one after the other.

ghost use Rattle.std.specs.Prelude.{◌≡◌};
ghost use Rattle.std.specs.Iterator.{YieldsFirstBy, item_count};
ghost use Rattle.rtcp_wire.specs.Grammar.{Joins, IsSpelling};
ghost use Rattle.rtcp_wire.specs.Views.{packet_value};
ghost use Rattle.rtcp_wire.specs.Walks.{packets_in};

use crate::header::{accepted_body, header_at};
use crate::packet::{PacketView, packet_from};
use std::marker::Model;

/// The packets of a compound, in their order: an iterator that reads them from the datagram.
/// `Compound::packets` makes it.
#[derive(Debug, Drop)]
pub struct Packets<'a> {
    octets: &'a [u8],
}

impl<'a> Model for Packets<'a> {
    ghost use Rattle.std.specs.Prelude.{List};
    ghost use Rattle.rtcp_wire.specs.Values.{RtcpPacket};
    ghost use Rattle.rtcp_wire.specs.Grammar.{Joins, IsSpelling};
    ghost use Rattle.rtcp_wire.specs.Walks.{packets_in};

    ghost Value = { List RtcpPacket };

    ghost view = { λ packets. packets_in packets.octets.now };

    // The octets are encodings of packets, one after the other.
    ghost invariant = { λ packets. Joins IsSpelling (packets_in packets.octets.now) packets.octets.now };
}

impl<'a> Packets<'a> {
    /// The packets that these octets encode.
    pub(crate) fn new(octets: &'a [u8]) -> Packets<'a>
        requires { Joins IsSpelling (packets_in octets.now) octets.now }
        ensures { result ≡ packets_in octets.now }
    {
        Packets { octets }
    }
}

impl<'a> Iterator for Packets<'a> {
    type Item = PacketView<'a>;

    ghost next_gives = { YieldsFirstBy packet_value (λ packets. packets) };

    ghost remaining = { item_count (λ packets. packets) };

    // Inlined, so that a loop over packets makes no more of them than it reads.
    #[inline(always)]
    fn next(&mut self) -> Option<PacketView<'a>> {
        if self.octets.is_empty() {
            return None;
        }
        let header = header_at(self.octets);
        let (packet, others) = self.octets.split_at(header.size);
        self.octets = others;
        let body = accepted_body(packet, header.is_padded);
        Some(packet_from(header.kind, header.count, body))
    }
}
