//! Reception report blocks (RFC 3550, 6.4.1).

ghost use Rattle.std.specs.Prelude.{◌≡◌, length};
ghost use Rattle.std.specs.Iterator.{YieldsFirstBy, item_count};
ghost use Rattle.rtcp_wire.specs.Readings.{block_in};
ghost use Rattle.rtcp_wire.specs.Views.{block_value, block_values};

use crate::reader::Reader;
use std::marker::Model;

/// The octets of a block.
pub(crate) const BLOCK_SIZE: usize = 24;

/// What a report says of one source (RFC 3550, 6.4.1).
///
/// ```text
///  0                   1                   2                   3
///  0 1 2 3 4 5 6 7 8 9 0 1 2 3 4 5 6 7 8 9 0 1 2 3 4 5 6 7 8 9 0 1
/// +-+-+-+-+-+-+-+-+-+-+-+-+-+-+-+-+-+-+-+-+-+-+-+-+-+-+-+-+-+-+-+-+
/// |                             ssrc                              |
/// +---------------+-----------------------------------------------+
/// |   fraction    |              lost (signed)                    |
/// +---------------+-----------------------------------------------+
/// |                            highest                            |
/// |                            jitter                             |
/// |                              lsr                              |
/// |                             dlsr                              |
/// +---------------------------------------------------------------+
/// ```
#[derive(Clone, Copy, Debug, Default, PartialEq, Eq)]
pub struct Block {
    /// The SSRC of the source that the block speaks of.
    pub ssrc: u32,
    /// The fraction of its packets lost since the last report, in units of 1/256.
    pub fraction: u8,
    /// How many packets were lost since the beginning, from -8,388,608 to 8,388,607. A packet that comes
    /// twice counts as received twice, so the number may be negative.
    pub lost: i32,
    /// The highest sequence number received in the low 16 bits, and above them how often sequence numbers
    /// wrapped.
    pub highest: u32,
    /// The jitter of the packets' arrival, in units of their RTP timestamps.
    pub jitter: u32,
    /// The middle 32 bits of the NTP timestamp of the source's last sender report, or 0 where none came.
    pub lsr: u32,
    /// The time since that report, in units of 1/65,536 of a second, or 0 where none came.
    pub dlsr: u32,
}

/// The blocks of a report, in their order: an iterator that reads them from the datagram.
/// `SenderReport::blocks` and `ReceiverReport::blocks` make it.
#[derive(Debug, Drop)]
pub struct Blocks<'a> {
    octets: &'a [u8],
}

impl<'a> Model for Blocks<'a> {
    ghost use Rattle.std.specs.Prelude.{List};
    ghost use Rattle.rtcp_wire.specs.Values.{ReportBlock};
    ghost use Rattle.rtcp_wire.specs.Views.{block_values};

    ghost Value = { List ReportBlock };

    ghost view = { λ blocks. block_values blocks.octets.now };
}

impl<'a> Blocks<'a> {
    /// The blocks that these octets are, 24 octets each.
    pub(crate) fn new(octets: &'a [u8]) -> Blocks<'a>
        ensures { result ≡ block_values octets.now }
    {
        Blocks { octets }
    }
}

impl<'a> Iterator for Blocks<'a> {
    type Item = Block;

    ghost next_gives = { YieldsFirstBy block_value (λ blocks. blocks) };

    ghost remaining = { item_count (λ blocks. blocks) };

    fn next(&mut self) -> Option<Block> {
        let (block, others) = self.octets.split_at_checked(BLOCK_SIZE)?;
        self.octets = others;
        Some(block_from(block))
    }
}

/// The block that these octets are.
fn block_from(octets: &[u8]) -> Block
    requires { length octets.now ≡ 24 }
    ensures { block_value result ≡ block_in octets.now }
{
    let mut reader = Reader::new(octets);
    let ssrc = reader.u32();
    let fraction = reader.octet();
    let lost = reader.i24();
    let highest = reader.u32();
    let jitter = reader.u32();
    let lsr = reader.u32();
    let dlsr = reader.u32();
    Block {
        ssrc,
        fraction,
        lost,
        highest,
        jitter,
        lsr,
        dlsr,
    }
}
