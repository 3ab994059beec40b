//! What the reports of a compound say of one source.

ghost use Rattle.std.specs.Prelude.{◌≡◌};
ghost use Rattle.std.specs.Iterator.{YieldsFirstBy, item_count};
ghost use Rattle.rtcp_wire.specs.About.{blocks_naming, blocks_about};
ghost use Rattle.rtcp_wire.specs.Views.{block_value, reported_value};

use super::packets::Packets;
use crate::block::{Block, Blocks};
use crate::packet::PacketView;
use std::marker::Model;

/// The blocks of a compound that name one source, each with the SSRC of its packet's source, in their order:
/// an iterator that reads them from the datagram. `Compound::about` makes it.
#[derive(Debug, Drop)]
pub struct About<'a> {
    ssrc: u32,
    reporter: u32,
    blocks: Blocks<'a>,
    packets: Packets<'a>,
}

impl<'a> Model for About<'a> {
    ghost use Rattle.std.specs.Prelude.{List, ℕ};
    ghost use Rattle.rtcp_wire.specs.Values.{ReportBlock};
    ghost use Rattle.rtcp_wire.specs.About.{about_left};

    ghost Value = { List (ℕ × ReportBlock) };

    ghost view = { λ about. about_left about.ssrc about.reporter about.blocks about.packets };
}

impl<'a> About<'a> {
    /// The blocks of these packets that name `ssrc`.
    pub(crate) fn new(ssrc: u32, packets: Packets<'a>) -> About<'a>
        ensures { result ≡ blocks_about ssrc packets.entry }
    {
        About {
            ssrc,
            reporter: 0,
            blocks: Blocks::new(&[]),
            packets,
        }
    }
}

impl<'a> Iterator for About<'a> {
    type Item = (u32, Block);

    ghost next_gives = { YieldsFirstBy reported_value (λ about. about) };

    ghost remaining = { item_count (λ about. about) };

    fn next(&mut self) -> Option<(u32, Block)> {
        'packets: loop {
            if let Some(block) = next_about(&mut self.blocks, self.ssrc) {
                return Some((self.reporter, block));
            }
            match self.packets.next()? {
                PacketView::Sr(report) => {
                    self.reporter = report.ssrc;
                    self.blocks = report.blocks();
                }
                PacketView::Rr(report) => {
                    self.reporter = report.ssrc;
                    self.blocks = report.blocks();
                }
                _ => (),
            }
        }
    }
}

/// The next block that names `ssrc`, if there is one.
fn next_about(blocks: &mut Blocks<'_>, ssrc: u32) -> Option<Block>
    // Of the blocks that name it, the first; the others are left.
    ensures { YieldsFirstBy block_value (blocks_naming ssrc) blocks.old result blocks.new }
{
    blocks.find(|block| block.ssrc == ssrc)
}
