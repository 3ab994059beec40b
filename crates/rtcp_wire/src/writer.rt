//! Packets to octets (RFC 3550, 6.1 and 6.4 to 6.7). Nothing here allocates.

ghost use Rattle.std.specs.Prelude.{◌≡◌, ◌+◌, ◌<◌, ◌↔◌, ◌++◌, All, length, OnOk, OnErr, IsErr};
ghost use Rattle.arrayvec.specs.ArrayVec.{array_vec_len};
ghost use Rattle.rtcp_wire.specs.WriterViews.{packet_refs_of};
ghost use Rattle.rtcp_wire.specs.Writing.{written_all, IsWritable, IsInRange, ReadsBack};

use crate::writer::packets::append_packets;
use crate::writer::size::compound_size;
use arrayvec::ArrayVec;
use thiserror::Error;

mod append;
mod descriptions;
mod goodbyes;
mod packets;
mod puts;
mod refs;
mod reports;
mod size;
mod writable;

pub use puts::{put_block, put_header, put_item, put_long, put_word};
pub use refs::{ChunkRef, ItemRef, PacketRef};

/// How many octets a buffer for compounds holds: what an Ethernet frame carries after the headers of IPv4 and
/// UDP.
pub const MAX_COMPOUND: usize = 1_472;

/// Appends the packets to what stands in the buffer, one after the other (RFC 3550, 6.1): without padding,
/// and with zeros in each octet that may be anything.
///
/// The caller has tested each packet with `is_writable`. With no packets the call appends nothing and returns
/// `Ok`. That the first packet is a report is not tested: where it is, what is appended is read back as the
/// same packets.
///
/// # Errors
///
/// [`Full`] where the packets do not all fit into what is left of the 1,472 octets. The buffer is then
/// unchanged.
pub fn write_compound(
    packets: &[PacketRef<'_>],
    buffer: &mut ArrayVec<u8, MAX_COMPOUND>,
) -> Result<(), Full>
    requires { All IsWritable (packet_refs_of packets.now) }
    ensures ok { OnOk result
        (buffer.new.items ≡ buffer.old.items ++ written_all (packet_refs_of packets.now)) }
    ensures full { IsErr result ↔
        (1472 < array_vec_len buffer.old + length (written_all (packet_refs_of packets.now))) }
    ensures unchanged { OnErr result (buffer.new ≡ buffer.old) }
    // The octets that are appended are a datagram of these packets, if the first is a report.
    ensures reads_back { OnOk result
        (ReadsBack (written_all (packet_refs_of packets.now)) (packet_refs_of packets.now)) }
    // Their numbers are in the ranges of their fields: so what several calls append, one after the other, is
    // one datagram if the first packet of all is a report (law `read_back_together`).
    ensures in_range { OnOk result (All IsInRange (packet_refs_of packets.now)) }
{
    if buffer.remaining_capacity() < compound_size(packets) {
        return Err(Full);
    }
    append_packets(buffer, packets);
    Ok(())
}

/// The packets do not fit: the buffer has fewer octets left than they have.
#[derive(Clone, Copy, Debug, PartialEq, Eq, Error)]
#[error("packets do not fit in the buffer")]
pub struct Full;
