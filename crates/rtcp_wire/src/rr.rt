//! Receiver reports (RFC 3550, 6.4.2).

ghost use Rattle.std.specs.Prelude.{◌≡◌, ◌≤◌, ◌+◌, ◌*◌, length, take, drop};
ghost use Rattle.byteorder.specs.Endian.{big_number};
ghost use Rattle.rtcp_wire.specs.Views.{receiver_blocks};
ghost use Rattle.rtcp_wire.specs.Walks.{blocks_in};

use crate::block::{BLOCK_SIZE, Blocks};
use crate::reader::Reader;

/// A receiver report (RFC 3550, 6.4.2).
///
/// ```text
/// +-+-+-+-+-+-+-+-+-+-+-+-+-+-+-+-+-+-+-+-+-+-+-+-+-+-+-+-+-+-+-+-+
/// |V=2|P|   RC    |   PT = 201    |            length             |
/// |                             ssrc                              |
/// |                       RC blocks of six words                  |
/// |                           extension                           |
/// +---------------------------------------------------------------+
/// ```
#[derive(Clone, Copy, Debug)]
pub struct ReceiverReport<'a> {
    /// The SSRC of the source that reports.
    pub ssrc: u32,
    block_octets: &'a [u8],
    /// The octets after the blocks: whole words that a profile may define.
    pub extension: &'a [u8],
}

impl<'a> ReceiverReport<'a> {
    ghost use Rattle.rtcp_wire.specs.Views.{receiver_blocks};

    /// What it reports of the sources that it hears: at most 31 blocks.
    pub fn blocks(&self) -> Blocks<'a>
        ensures { result ≡ receiver_blocks self.now }
    {
        Blocks::new(self.block_octets)
    }
}

/// The receiver report whose body this is, under a header that counts `count` blocks.
pub(crate) fn receiver_report_from(count: u8, body: &[u8]) -> ReceiverReport<'_>
    requires { 4 + 24 * count ≤ length body.now }
    ensures sender { result.ssrc ≡ big_number 4 (take 4 body.now) }
    ensures blocks { receiver_blocks result ≡ blocks_in count (drop 4 body.now) }
    ensures extension { result.extension.now ≡ drop (24 * count) (drop 4 body.now) }
{
    let mut reader = Reader::new(body);
    let ssrc = reader.u32();
    let block_octets = reader.take(BLOCK_SIZE * count as usize);
    ReceiverReport {
        ssrc,
        block_octets,
        extension: reader.rest(),
    }
}
