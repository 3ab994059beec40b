//! The word that begins each packet (RFC 3550, 6.4.1).

ghost use Rattle.std.specs.Prelude.{◌≡◌, ◌≤◌, length, MatchResult, IfOk, false};
ghost use Rattle.rtcp_wire.specs.Readings.{size_of};
ghost use Rattle.rtcp_wire.specs.Headers.{version_of, is_padded, count_of, type_of, body_of};
ghost use Rattle.rtcp_wire.specs.Validity.{IsSomePacket};
ghost use Rattle.rtcp_wire.specs.Parts.{IsWhole, IsUnpadded};
ghost use Rattle.rtcp_wire.specs.Faults.{Finds, IsFirstFound};

use crate::fault::FaultReason;
use crate::layout::{HEADER_SIZE, RECEIVER_REPORT, SENDER_REPORT, VERSION, WORD_SIZE};
use crate::reader::Reader;

/// A packet's first word (RFC 3550, 6.4.1).
///
/// ```text
///  0                   1                   2                   3
///  0 1 2 3 4 5 6 7 8 9 0 1 2 3 4 5 6 7 8 9 0 1 2 3 4 5 6 7 8 9 0 1
/// +-+-+-+-+-+-+-+-+-+-+-+-+-+-+-+-+-+-+-+-+-+-+-+-+-+-+-+-+-+-+-+-+
/// |V=2|P|  count  |     kind      |      words that follow        |
/// +-+-+-+-+-+-+-+-+-+-+-+-+-+-+-+-+-+-+-+-+-+-+-+-+-+-+-+-+-+-+-+-+
/// ```
#[derive(Clone, Copy)]
pub(crate) struct Header {
    pub(crate) version: u8,
    pub(crate) is_padded: bool,
    pub(crate) count: u8,
    pub(crate) kind: u8,
    /// The size of the whole packet, in octets.
    pub(crate) size: usize,
}

/// The header of the packet that begins here, if all of the packet is there and it may be in this position:
/// a datagram's first packet is a report without padding.
pub(crate) fn read_header(octets: &[u8], is_first: bool) -> Result<Header, FaultReason>
    ensures whole { MatchResult result
        (λ _. IsWhole is_first octets.now)
        (λ reason. IsFirstFound reason is_first octets.now) }
    ensures fields { IfOk result (λ header.
        (header.count ≡ count_of octets.now) × (header.kind ≡ type_of octets.now)
        × (header.size ≡ size_of octets.now) × (header.is_padded ≡ is_padded octets.now)) }
{
    if octets.len() < HEADER_SIZE {
        return Err(FaultReason::Short);
    }
    let header = header_at(octets);
    if header.version != VERSION {
        return Err(FaultReason::Version);
    }
    if is_first && header.kind != SENDER_REPORT && header.kind != RECEIVER_REPORT {
        return Err(FaultReason::FirstType);
    }
    if is_first && header.is_padded {
        return Err(FaultReason::FirstPadding);
    }
    if octets.len() < header.size {
        return Err(FaultReason::Length);
    }
    Ok(header)
}

/// The header in the first four octets.
pub(crate) fn header_at(octets: &[u8]) -> Header
    requires { 4 ≤ length octets.now }
    ensures version { result.version ≡ version_of octets.now }
    ensures padded { result.is_padded ≡ is_padded octets.now }
    ensures count { result.count ≡ count_of octets.now }
    ensures kind { result.kind ≡ type_of octets.now }
    ensures size { result.size ≡ size_of octets.now }
{
    let mut reader = Reader::new(octets);
    let first = reader.octet();
    let kind = reader.octet();
    let words = reader.u16() as usize;
    Header {
        version: first >> 6,
        is_padded: first >> 5 & 1 == 1,
        count: first & 0x1f,
        kind,
        size: WORD_SIZE * (words + 1),
    }
}

/// What stands between the header and the padding of a whole packet (RFC 3550, 6.4.1). The last octet of the
/// padding counts all of it; the others are not checked.
pub(crate) fn unpadded(octets: &[u8]) -> Result<&[u8], FaultReason>
    requires { length octets.now ≡ size_of octets.now }
    ensures { MatchResult result
        (λ body. IsUnpadded octets.now body.now)
        (λ reason. (reason ≡ FaultReason.Padding) × Finds FaultReason.Padding false octets.now) }
{
    let mut reader = Reader::new(octets);
    reader.take(HEADER_SIZE);
    // The bit is tested where it stands: a flag of the header would be made for each packet.
    if octets[0] % 64 < 32 {
        return Ok(reader.rest());
    }
    let padding = octets.last().copied().unwrap_or(0) as usize;
    if padding == 0 || padding % 4 != 0 || reader.left() < padding {
        return Err(FaultReason::Padding);
    }
    let size = reader.left() - padding;
    Ok(reader.take(size))
}

/// What stands between the header and the padding of a packet that was accepted.
pub(crate) fn accepted_body(octets: &[u8], has_padding: bool) -> &[u8]
    requires packet { IsSomePacket octets.now }
    requires padding { has_padding ≡ is_padded octets.now }
    ensures { result.now ≡ body_of octets.now }
{
    let padding = if has_padding {
        octets[octets.len() - 1] as usize
    } else {
        0
    };
    let (_, rest) = octets.split_at(HEADER_SIZE);
    rest.split_at(rest.len() - padding).0
}
