//! The facts of a compound that are left.

ghost use Rattle.std.specs.Prelude.{◌≡◌};
ghost use Rattle.std.specs.Iterator.{YieldsFirst, item_count};
ghost use Rattle.rtcp_wire.specs.Facts.{facts_of};
ghost use Rattle.rtcp_wire.specs.FactsLeft.{fact_if_any, name_in};

use super::Fact;
use crate::compound::Packets;
use crate::ids::Ids;
use crate::packet::PacketView;
use crate::sdes::{Chunk, Chunks};
use std::marker::Model;

/// The facts of a compound, in order: an iterator that reads them from the datagram. `facts` makes it.
#[derive(Debug, Drop)]
pub struct Facts<'a> {
    /// A fact that comes before all others.
    first: Option<Fact>,
    /// The chunks of the source description that was reached.
    chunks: Chunks<'a>,
    /// The sources of the BYE that was reached.
    gone: Ids<'a>,
    packets: Packets<'a>,
}

impl<'a> Model for Facts<'a> {
    ghost use Rattle.std.specs.Prelude.{List};
    ghost use Rattle.rtcp_wire.specs.declared.fact.Fact.{Fact};
    ghost use Rattle.rtcp_wire.specs.FactsLeft.{facts_left};

    ghost Value = { List Fact };

    ghost view = { λ facts. facts_left facts.first facts.chunks facts.gone facts.packets };
}

impl<'a> Facts<'a> {
    /// All facts of these packets.
    pub(super) fn new(packets: Packets<'a>) -> Facts<'a>
        ensures { result ≡ facts_of packets.entry }
    {
        Facts {
            first: None,
            chunks: Chunks::none(),
            gone: Ids::new(&[]),
            packets,
        }
    }
}

impl<'a> Iterator for Facts<'a> {
    type Item = Fact;

    ghost next_gives = { YieldsFirst (λ facts. facts) };

    ghost remaining = { item_count (λ facts. facts) };

    fn next(&mut self) -> Option<Fact> {
        'packets: loop {
            if let Some(fact) = self.first.take() {
                return Some(fact);
            }
            if let Some(chunk) = self.chunks.next() {
                self.first = name_of(&chunk);
                return Some(Fact::Heard(chunk.id()));
            }
            if let Some(id) = self.gone.next() {
                return Some(Fact::Gone(id));
            }
            match self.packets.next()? {
                PacketView::Sr(report) => {
                    self.first = Some(Fact::Told(report.ssrc, report.ntp, report.rtp));
                    return Some(Fact::Heard(report.ssrc));
                }
                PacketView::Rr(report) => return Some(Fact::Heard(report.ssrc)),
                PacketView::Sdes(description) => self.chunks = description.chunks(),
                PacketView::Bye(goodbye) => self.gone = goodbye.ids(),
                PacketView::App(packet) => return Some(Fact::Heard(packet.ssrc)),
                PacketView::Other(_) => (),
            }
        }
    }
}

/// That the chunk's source gave its CNAME, if an item of the chunk is one.
fn name_of(chunk: &Chunk<'_>) -> Option<Fact>
    ensures { fact_if_any result ≡ name_in chunk.now }
{
    if chunk.has_cname() {
        Some(Fact::Named(chunk.id()))
    } else {
        None
    }
}
