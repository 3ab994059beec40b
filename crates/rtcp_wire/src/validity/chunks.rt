//! The tests of a source description's chunks (RFC 3550, 6.5).

ghost use Rattle.std.specs.Prelude.{◌≡◌, ◌+◌, ◌≤◌, ◌%◌, Bool, true, List, ℕ, ◌∷◌, length, IfOk, IfSome, MatchResult, MatchOption};
ghost use Rattle.rtcp_wire.specs.Faults.{FindsInBody};
ghost use Rattle.rtcp_wire.specs.Parts.{TakesPrefix, EndsInItems, EndsInChunk};
ghost use Rattle.rtcp_wire.specs.Summaries.{sender_of, AddsChunk, AddsPacket};
ghost use Rattle.rtcp_wire.specs.Validity.{PassesItems, IsSomeChunk, IsSomeBody};
ghost use Rattle.rtcp_wire.specs.Values.{sdes};
ghost use Rattle.rtcp_wire.specs.Walks.{chunk_in, chunks_in};

use super::is_of_first;
use super::summary::Summary;
use crate::fault::FaultReason;
use crate::layout::{ID_SIZE, WORD_SIZE};
use crate::reader::Reader;
use crate::sdes::CNAME;

/// Tests the body of a source description whose header counts `count` chunks, and sums up what it says, against the
/// source of the datagram's first packet.
pub(super) fn check_chunks(
    count: u8,
    body: &[u8],
    datagram: &[u8],
    summary: &mut Summary,
) -> Result<(), FaultReason>
    requires words { length body.now % 4 ≡ 0 }
    requires within { 4 + length body.now ≤ length datagram.now }
    ensures valid { MatchResult result
        (λ _. IsSomeBody 202 count body.now)
        (λ reason. FindsInBody reason 202 count body.now) }
    ensures sums { IfOk result (λ _. (is_first : Bool) →
        AddsPacket (sender_of datagram.now) is_first summary.old summary.new (sdes (chunks_in count body.now))) }
{
    let mut reader = Reader::new(body);
    for _ in 0..count {
        if reader.left() < ID_SIZE {
            return Err(FaultReason::Body);
        }
        match pass_chunk(&mut reader, datagram, summary) {
            Some(()) => {}
            None => return Err(FaultReason::Item),
        }
    }
    if reader.left() > 0 {
        return Err(FaultReason::Body);
    }
    Ok(())
}

/// Takes the next chunk, or returns `None` where an item or the zero octet runs past the end. Whole words are
/// left before it and after it, so its fill is what is left of the word of its zero octet. The octets of the
/// fill are not checked (RFC 3550, 6.5). Sums up what the chunk says.
fn pass_chunk(reader: &mut Reader<'_>, datagram: &[u8], summary: &mut Summary) -> Option<()>
    requires room { 4 ≤ length reader.old }
    requires words { length reader.old % 4 ≡ 0 }
    requires datagram { 8 ≤ length datagram.now }
    ensures valid { MatchOption result
        (EndsInChunk reader.old)
        (λ _. TakesPrefix reader.old reader.new IsSomeChunk × (length reader.new % 4 ≡ 0)) }
    ensures sums { IfSome result (λ _.
        AddsChunk (sender_of datagram.now) summary.old summary.new (chunk_in reader.old)) }
{
    let id = reader.take(ID_SIZE);
    let items = reader.rest();
    pass_items(reader)?;
    summary.keep(is_of_first(id, datagram));
    summary.name(is_name_first(items));
    let fill = reader.left() % WORD_SIZE;
    reader.take(fill);
    Some(())
}

/// Whether the octets begin as a CNAME does, which RFC 3550 has in each compound, and its participants put first in
/// their chunk (6.1 and 6.5).
fn is_name_first(octets: &[u8]) -> bool
    ensures { result ≡ true → (after : List ℕ) × (octets.now ≡ 1 ∷ after) }
{
    octets.first() == Some(&CNAME)
}

/// Takes the items up to the zero octet after them, and that octet; returns `None` where one runs past the
/// end.
fn pass_items(reader: &mut Reader<'_>) -> Option<()>
    ensures { MatchOption result
        (EndsInItems reader.old)
        (λ _. PassesItems reader.old reader.new) }
{
    'items: loop {
        let kind = reader.next_octet()?;
        if kind == 0 {
            return Some(());
        }
        let size = reader.next_octet()? as usize;
        reader.pass(size)?;
    }
}
