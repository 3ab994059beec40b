//! Sender reports (RFC 3550, 6.4.1).

ghost use Rattle.std.specs.Prelude.{◌≡◌, ◌≤◌, ◌+◌, ◌*◌, length, take, drop};
ghost use Rattle.rtcp_wire.specs.Readings.{sender_in};
ghost use Rattle.rtcp_wire.specs.Walks.{blocks_in};
ghost use Rattle.rtcp_wire.specs.Views.{sender_value, sender_blocks};

use crate::block::{BLOCK_SIZE, Blocks};
use crate::reader::Reader;

/// The octets of a sender report's body before its blocks.
pub(crate) const SENDER_SIZE: usize = 24;

/// A sender report (RFC 3550, 6.4.1).
///
/// ```text
/// +-+-+-+-+-+-+-+-+-+-+-+-+-+-+-+-+-+-+-+-+-+-+-+-+-+-+-+-+-+-+-+-+
/// |V=2|P|   RC    |   PT = 200    |            length             |
/// |                             ssrc                              |
/// |                   ntp, its more significant word              |
/// |                   ntp, its less significant word              |
/// |                              rtp                              |
/// |                            packets                            |
/// |                            octets                             |
/// |                       RC blocks of six words                  |
/// |                           extension                           |
/// +---------------------------------------------------------------+
/// ```
#[derive(Clone, Copy, Debug)]
pub struct SenderReport<'a> {
    /// The SSRC of the source that reports.
    pub ssrc: u32,
    /// When the report was sent, as an NTP timestamp: seconds since 1900 in the upper 32 bits, and 1/2^32 of
    /// a second in the lower ones.
    pub ntp: u64,
    /// The same moment in units of the sender's RTP timestamps.
    pub rtp: u32,
    /// How many RTP packets were sent up to then.
    pub packets: u32,
    /// How many octets their payloads have, without headers and padding.
    pub octets: u32,
    block_octets: &'a [u8],
    /// The octets after the blocks: whole words that a profile may define.
    pub extension: &'a [u8],
}

impl<'a> SenderReport<'a> {
    ghost use Rattle.rtcp_wire.specs.Views.{sender_blocks};

    /// What it reports of the sources that it hears: at most 31 blocks.
    pub fn blocks(&self) -> Blocks<'a>
        ensures { result ≡ sender_blocks self.now }
    {
        Blocks::new(self.block_octets)
    }
}

/// The sender report whose body this is, under a header that counts `count` blocks.
pub(crate) fn sender_report_from(count: u8, body: &[u8]) -> SenderReport<'_>
    requires { 24 + 24 * count ≤ length body.now }
    ensures sender { sender_value result ≡ sender_in (take 24 body.now) }
    ensures blocks { sender_blocks result ≡ blocks_in count (drop 24 body.now) }
    ensures extension { result.extension.now ≡ drop (24 * count) (drop 24 body.now) }
{
    let (sender, ends) = body.split_at(SENDER_SIZE);
    let (block_octets, extension) = ends.split_at(BLOCK_SIZE * count as usize);
    report_from(sender, block_octets, extension)
}

/// The report that begins with these octets, and has these blocks and this extension.
fn report_from<'a>(octets: &[u8], block_octets: &'a [u8], extension: &'a [u8]) -> SenderReport<'a>
    requires { length octets.now ≡ 24 }
    ensures sender { sender_value result ≡ sender_in octets.now }
    ensures reports { result.block_octets.now ≡ block_octets.now }
    ensures extension { result.extension.now ≡ extension.now }
{
    let mut reader = Reader::new(octets);
    let ssrc = reader.u32();
    let ntp = reader.u64();
    let rtp = reader.u32();
    let packets = reader.u32();
    let octets = reader.u32();
    SenderReport {
        ssrc,
        ntp,
        rtp,
        packets,
        octets,
        block_octets,
        extension,
    }
}
