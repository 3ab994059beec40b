//! The fixed part of an RTP header (RFC 3550, 5.1).

ghost use Rattle.std.specs.Prelude.{◌≡◌, ◌≤◌, length, drop};
ghost use Rattle.byteorder.specs.Endian.{big_number};
ghost use Rattle.rtcp_wire.specs.RtpHeads.{rtp_version_of, has_padding, has_extension, csrc_count_of, marker_of, payload_type_of};

use crate::reader::Reader;

/// The octets of the fixed part (RFC 3550, 5.1).
pub(crate) const FIXED_SIZE: usize = 12;

/// The fixed part of an RTP header (RFC 3550, 5.1).
///
/// ```text
///  0                   1                   2                   3
///  0 1 2 3 4 5 6 7 8 9 0 1 2 3 4 5 6 7 8 9 0 1 2 3 4 5 6 7 8 9 0 1
/// +-+-+-+-+-+-+-+-+-+-+-+-+-+-+-+-+-+-+-+-+-+-+-+-+-+-+-+-+-+-+-+-+
/// |V=2|P|X|  CC   |M|payload type |           sequence            |
/// +-+-+-+-+-+-+-+-+-+-+-+-+-+-+-+-+-+-+-+-+-+-+-+-+-+-+-+-+-+-+-+-+
/// |                           timestamp                           |
/// +-+-+-+-+-+-+-+-+-+-+-+-+-+-+-+-+-+-+-+-+-+-+-+-+-+-+-+-+-+-+-+-+
/// |                             SSRC                              |
/// +-+-+-+-+-+-+-+-+-+-+-+-+-+-+-+-+-+-+-+-+-+-+-+-+-+-+-+-+-+-+-+-+
/// ```
#[derive(Clone, Copy)]
pub(crate) struct FixedPart {
    pub(crate) version: u8,
    pub(crate) has_padding: bool,
    pub(crate) has_extension: bool,
    pub(crate) csrc_count: u8,
    pub(crate) marker: bool,
    pub(crate) payload_type: u8,
    pub(crate) sequence: u16,
    pub(crate) timestamp: u32,
    pub(crate) ssrc: u32,
}

/// Takes the fixed part, the next twelve octets.
pub(crate) fn take_fixed(reader: &mut Reader<'_>) -> FixedPart
    requires { 12 ≤ length reader.old }
    ensures version { result.version ≡ rtp_version_of reader.old }
    ensures has_padding { result.has_padding ≡ has_padding reader.old }
    ensures has_extension { result.has_extension ≡ has_extension reader.old }
    ensures csrc_count { result.csrc_count ≡ csrc_count_of reader.old }
    ensures marker { result.marker ≡ marker_of reader.old }
    ensures payload_type { result.payload_type ≡ payload_type_of reader.old }
    ensures sequence { result.sequence ≡ big_number 2 (drop 2 reader.old) }
    ensures timestamp { result.timestamp ≡ big_number 4 (drop 4 reader.old) }
    ensures ssrc { result.ssrc ≡ big_number 4 (drop 8 reader.old) }
    ensures rest { reader.new ≡ drop 12 reader.old }
{
    let first = reader.octet();
    let second = reader.octet();
    let sequence = reader.u16();
    let timestamp = reader.u32();
    let ssrc = reader.u32();
    FixedPart {
        version: first >> 6,
        has_padding: first >> 5 & 1 == 1,
        has_extension: first >> 4 & 1 == 1,
        csrc_count: first & 0x0f,
        marker: second >> 7 & 1 == 1,
        payload_type: second & 0x7f,
        sequence,
        timestamp,
        ssrc,
    }
}
