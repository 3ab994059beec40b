//! The tests of a datagram (RFC 3550, appendix A.2 and 6.4 to 6.7): each packet's header, padding and body,
//! in the order of `FaultReason`. They make no values.

ghost use Rattle.std.specs.Prelude.{◌≡◌, ◌+◌, ◌≤◌, ◌<◌, ◌%◌, ◌==◌, length, true, IfOk, MatchResult};
ghost use Rattle.byteorder.specs.Endian.{big_number};
ghost use Rattle.rtcp_wire.specs.Faults.{FindsInBody, IsNoReason, IsFirstFound, IsFirstFault, MayStand};
ghost use Rattle.rtcp_wire.specs.Parts.{TakesPrefix};
ghost use Rattle.rtcp_wire.specs.Summaries.{AddsPacket, IsNone, SumsUp, sender_of};
ghost use Rattle.rtcp_wire.specs.Validity.{IsSomeBody, IsSomePacket, IsSomeDatagram};
ghost use Rattle.rtcp_wire.specs.Walks.{body_says, packet_in, packets_in};

mod chunks;
mod summary;

use crate::block::BLOCK_SIZE;
use crate::compound::MAX_DATAGRAM;
use crate::fault::{FaultReason, WireFault};
use crate::header::{read_header, unpadded};
use crate::layout::{
    APPLICATION, GOODBYE, HEADER_SIZE, ID_SIZE, RECEIVER_REPORT, SENDER_REPORT, SOURCE_DESCRIPTION,
    WORD_SIZE,
};
use crate::reader::Reader;
use crate::sr::SENDER_SIZE;
use chunks::check_chunks;
pub(crate) use summary::Summary;

/// Tests a datagram: whether it is one packet or more, up to its last octet. Sums up what its packets say of sources,
/// against the one of the first.
pub(crate) fn check_datagram(datagram: &[u8], summary: &mut Summary) -> Result<(), WireFault>
    requires { IsNone summary.old }
    ensures valid { MatchResult result
        (λ _. IsSomeDatagram datagram.now)
        (λ fault. IsFirstFault datagram.now fault) }
    ensures sums { IfOk result (λ _.
        SumsUp (sender_of datagram.now) true summary.new (packets_in datagram.now)) }
{
    if datagram.len() > MAX_DATAGRAM {
        return Err(WireFault {
            reason: FaultReason::TooLong,
            place: 0,
        });
    }
    check_packets(datagram, summary)
}

/// The source of a datagram's first packet, a report: the identifier after its header.
pub(crate) fn first_id(datagram: &[u8]) -> u32
    requires { 8 ≤ length datagram.now }
    ensures { result ≡ sender_of datagram.now }
{
    id_in(datagram.split_at(HEADER_SIZE).1)
}

/// The identifier in the first four octets.
fn id_in(octets: &[u8]) -> u32
    requires { 4 ≤ length octets.now }
    ensures { result ≡ big_number 4 octets.now }
{
    Reader::new(octets).u32()
}

/// Whether the identifier in the first four octets is the source of the datagram's first packet.
fn is_of_first(octets: &[u8], datagram: &[u8]) -> bool
    requires octets { 4 ≤ length octets.now }
    requires datagram { 8 ≤ length datagram.now }
    ensures { result ≡ (big_number 4 octets.now == sender_of datagram.now) }
{
    id_in(octets) == first_id(datagram)
}

/// Tests packet after packet, to the end of the datagram or to its first fault. Sums up what they say.
fn check_packets(datagram: &[u8], summary: &mut Summary) -> Result<(), WireFault>
    requires none { IsNone summary.old }
    requires short { length datagram.now ≤ 65535 }
    ensures valid { MatchResult result
        (λ _. IsSomeDatagram datagram.now)
        (λ fault. IsFirstFault datagram.now fault) }
    ensures sums { IfOk result (λ _.
        SumsUp (sender_of datagram.now) true summary.new (packets_in datagram.now)) }
{
    let mut reader = Reader::new(datagram);
    'packets: loop {
        let place = datagram.len() - reader.left();
        match pass_packet(&mut reader, place == 0, datagram, summary) {
            Ok(()) => {}
            Err(reason) => return Err(WireFault { reason, place }),
        }
        if reader.left() == 0 {
            return Ok(());
        }
    }
}

/// Tests the next packet, and takes it. Sums up what it says.
fn pass_packet(
    reader: &mut Reader<'_>,
    is_first: bool,
    datagram: &[u8],
    summary: &mut Summary,
) -> Result<(), FaultReason>
    requires { length reader.old ≤ length datagram.now }
    ensures valid { MatchResult result
        (λ _. TakesPrefix reader.old reader.new (λ octets. IsSomePacket octets × MayStand is_first octets))
        (λ reason. IsFirstFound reason is_first reader.old) }
    ensures sums { IfOk result (λ _.
        AddsPacket (sender_of datagram.now) is_first summary.old summary.new (packet_in reader.old)) }
{
    let header = read_header(reader.rest(), is_first)?;
    let octets = reader.take(header.size);
    let body = unpadded(octets)?;
    check_body(header.kind, header.count, body, is_first, datagram, summary)
}

/// Tests a body under its packet's type and count. Sums up what it says.
fn check_body(
    kind: u8,
    count: u8,
    body: &[u8],
    is_first: bool,
    datagram: &[u8],
    summary: &mut Summary,
) -> Result<(), FaultReason>
    requires words { length body.now % 4 ≡ 0 }
    requires within { 4 + length body.now ≤ length datagram.now }
    ensures valid { MatchResult result
        (λ _. IsSomeBody kind count body.now)
        (λ reason. FindsInBody reason kind count body.now) }
    ensures sums { IfOk result (λ _.
        AddsPacket (sender_of datagram.now) is_first summary.old summary.new (body_says kind count body.now)) }
{
    match kind {
        SENDER_REPORT => {
            has_room(body, SENDER_SIZE + BLOCK_SIZE * count as usize)?;
            summary.keep(is_first & is_of_first(body, datagram));
        }
        RECEIVER_REPORT => {
            has_room(body, ID_SIZE + BLOCK_SIZE * count as usize)?;
            summary.keep(is_of_first(body, datagram));
        }
        SOURCE_DESCRIPTION => check_chunks(count, body, datagram, summary)?,
        GOODBYE => {
            check_goodbye(count, body)?;
            summary.keep(count == 0);
        }
        APPLICATION => {
            has_room(body, 2 * WORD_SIZE)?;
            summary.keep(is_of_first(body, datagram));
        }
        _ => {}
    }
    Ok(())
}

/// Tests that a body has so many octets at least.
fn has_room(body: &[u8], fewest: usize) -> Result<(), FaultReason>
    ensures { MatchResult result
        (λ _. fewest ≤ length body.now)
        (λ reason. (reason ≡ FaultReason.Body) × (length body.now < fewest)) }
{
    if body.len() < fewest {
        return Err(FaultReason::Body);
    }
    Ok(())
}

/// Tests the body of a BYE.
fn check_goodbye(count: u8, body: &[u8]) -> Result<(), FaultReason>
    requires { length body.now % 4 ≡ 0 }
    ensures { MatchResult result
        (λ _. IsSomeBody 203 count body.now)
        (λ reason. FindsInBody reason 203 count body.now) }
{
    let size = ID_SIZE * count as usize;
    has_room(body, size)?;
    check_reason(body.split_at(size).1)
}

/// Tests what follows the identifiers of a BYE, whole words: a reason, or nothing. The octets after the
/// text, up to the end of its last word, are not checked (RFC 3550, 6.6).
fn check_reason(octets: &[u8]) -> Result<(), FaultReason>
    ensures { MatchResult result
        (λ _. IsNoReason octets.now → ⊥)
        (λ reason. (reason ≡ FaultReason.Reason) × IsNoReason octets.now) }
{
    if let Some((size, text)) = octets.split_first() {
        let size = *size as usize;
        if text.len() < size || text.len() - size >= WORD_SIZE {
            return Err(FaultReason::Reason);
        }
    }
    Ok(())
}
