//! Numbers in octets, in network order.

ghost use Rattle.std.specs.Prelude.{◌≡◌, ◌≤◌, ◌+◌, length, drop};
ghost use Rattle.byteorder.specs.Endian.{big_number};

use byteorder::{BigEndian, ByteOrder};

/// The octets of an identifier of a source, an SSRC or a CSRC (RFC 3550, 5.1).
pub(crate) const ID_SIZE: usize = 4;

/// The number that the four octets after so many are.
pub(crate) fn u32_at(octets: &[u8], before: usize) -> u32
    requires { before + 4 ≤ length octets.now }
    ensures { result ≡ big_number 4 (drop before octets.now) }
{
    BigEndian::read_u32(octets.split_at(before).1)
}
