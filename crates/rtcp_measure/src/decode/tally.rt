//! What was decoded, added up.

use rtcp_wire::{Blocks, Compound, Goodbye, Items, PacketView, SenderReport, SourceDescription};
use std::fmt;

/// How much was decoded, and the sum of every field, so that each has to be read. All numbers wrap.
#[derive(Clone, Copy, Debug, Default)]
pub struct Tally {
    accepted: u64,
    packets: u64,
    blocks: u64,
    chunks: u64,
    items: u64,
    sum: u32,
}

impl Tally {
    /// Decodes a datagram. One that is refused adds nothing.
    pub fn add_datagram(&mut self, datagram: &[u8]) {
        if let Ok(compound) = Compound::read(datagram) {
            self.accepted = self.accepted.wrapping_add(1);
            for packet in compound.packets() {
                self.add_packet(&packet);
            }
        }
    }

    fn add_packet(&mut self, packet: &PacketView<'_>) {
        self.packets = self.packets.wrapping_add(1);
        match packet {
            PacketView::Sr(report) => self.add_sender_report(report),
            PacketView::Rr(report) => {
                self.add(report.ssrc);
                self.add_blocks(report.blocks());
            }
            PacketView::Sdes(description) => self.add_description(description),
            PacketView::Bye(goodbye) => self.add_goodbye(goodbye),
            PacketView::App(_) | PacketView::Other(_) => (),
        }
    }

    fn add_sender_report(&mut self, report: &SenderReport<'_>) {
        self.add(report.ssrc);
        self.add((report.ntp / (1 << 32)) as u32);
        self.add((report.ntp % (1 << 32)) as u32);
        self.add(report.rtp);
        self.add(report.packets);
        self.add(report.octets);
        self.add_blocks(report.blocks());
    }

    fn add_blocks(&mut self, blocks: Blocks<'_>) {
        for block in blocks {
            self.blocks = self.blocks.wrapping_add(1);
            self.add(block.ssrc);
            self.add(u32::from(block.fraction));
            self.add(block.lost.cast_unsigned() & 0xff_ffff);
            self.add(block.highest);
            self.add(block.jitter);
            self.add(block.lsr);
            self.add(block.dlsr);
        }
    }

    fn add_description(&mut self, description: &SourceDescription<'_>) {
        for chunk in description.chunks() {
            self.chunks = self.chunks.wrapping_add(1);
            self.add(chunk.id());
            self.add_items(chunk.items());
        }
    }

    fn add_items(&mut self, items: Items<'_>) {
        for item in items {
            self.items = self.items.wrapping_add(1);
            self.add(u32::from(item.kind));
            self.add_length(item.text);
            self.add(item.text.first().copied().map_or(0, u32::from));
        }
    }

    fn add_goodbye(&mut self, goodbye: &Goodbye<'_>) {
        for id in goodbye.ids() {
            self.add(id);
        }
        if let Some(reason) = goodbye.reason {
            self.add_length(reason);
        }
    }

    fn add_length(&mut self, octets: &[u8]) {
        self.add((octets.len() % (1 << 32)) as u32);
    }

    fn add(&mut self, number: u32) {
        self.sum = self.sum.wrapping_add(number);
    }
}

impl fmt::Display for Tally {
    fn fmt<W: fmt::Write>(&self, f: &mut fmt::Formatter<W>) -> fmt::Result {
        write!(
            f,
            "accepted={} packets={} blocks={} chunks={} items={} sum={:08x}",
            self.accepted, self.packets, self.blocks, self.chunks, self.items, self.sum
        )
    }
}
