//! Laws of packets and the octets that the writer gives them (`specs/Writing`). Each is an empty function
//! whose postcondition is the law; `proofs/LawLemmas` has a lemma of its name, or one for each clause.

ghost use Rattle.std.specs.Prelude.{◌≡◌, ◌+◌, ◌*◌, ◌≤◌, ◌++◌, ℕ, false, List, [], All, length, sum_by};
ghost use Rattle.rtcp_wire.specs.Contents.{all_items, all_goodbyes, all_blocks};
ghost use Rattle.rtcp_wire.specs.Grammar.{AreOctets, IsSpelling, IsAccepted};
ghost use Rattle.rtcp_wire.specs.Headers.{is_padded};
ghost use Rattle.rtcp_wire.specs.Values.{RtcpPacket, ReportBlock, SenderValue, rr, sr};
ghost use Rattle.rtcp_wire.specs.Writing.{written, written_all, IsWritable, IsInRange, BeginsWithReport, IsWritableBlock, IsWritableItem, IsWritableReason};

/// What is written of a packet that can be written is one of its encodings, and has no padding. Its numbers
/// are in the ranges of their fields, as those of a `PacketRef` always are.
pub fn written_is_spelling()
    ensures { (packet : RtcpPacket) → IsWritable packet → IsInRange packet →
        IsSpelling packet (written packet) × (is_padded (written packet) ≡ false) }
{}

/// What is written of such packets, of which the first is a report, is a datagram of these packets, unless it
/// is too long.
#[tactic(auto, using(crate::proofs::LawLemmas::reads_back))]
pub fn reads_back()
    ensures { (packets : List RtcpPacket) → All IsWritable packets → All IsInRange packets →
        BeginsWithReport packets → length (written_all packets) ≤ 65535 → IsAccepted (written_all packets) packets }
{}

/// What two calls write of such packets, one after the other, is one datagram of all of them, if the first of
/// all is a report.
pub fn read_back_together()
    ensures { (first others : List RtcpPacket) → All IsWritable first → All IsWritable others →
        All IsInRange first → All IsInRange others → BeginsWithReport (first ++ others) →
        length (written_all first ++ written_all others) ≤ 65535 →
        IsAccepted (written_all first ++ written_all others) (first ++ others) }
{}

/// What a relay reads it may write: the packets of an accepted datagram begin with a report, can be written in
/// no more octets than the datagram has, and are read back from these as the same packets.
///
/// So `writable` also states the ranges that the doc comments of the views give: at most 31 blocks, chunks and
/// identifiers, at most 31 as a subtype or count, at most 255 octets of a text or a reason, no item of type 0,
/// packets lost in 24 bits with a sign, whole words of an extension, of an application's data and of the body
/// of another packet, and the type of that: below 200 or above 204.
pub fn accepted_packets_are_writable()
    ensures writable { (octets : List ℕ) (packets : List RtcpPacket) → AreOctets octets →
        IsAccepted octets packets → All IsWritable packets }
    ensures in_range { (octets : List ℕ) (packets : List RtcpPacket) → AreOctets octets →
        IsAccepted octets packets → All IsInRange packets }
    ensures begins { (octets : List ℕ) (packets : List RtcpPacket) → IsAccepted octets packets →
        BeginsWithReport packets }
    ensures no_longer { (octets : List ℕ) (packets : List RtcpPacket) → IsAccepted octets packets →
        length (written_all packets) ≤ length octets }
    ensures read_back { (octets : List ℕ) (packets : List RtcpPacket) → AreOctets octets →
        IsAccepted octets packets → IsAccepted (written_all packets) packets }
{}

/// The same ranges of the parts that `item_at`, `goodbye_at`, `Compound::about` and `Compound::blocks` give: each
/// item has a type from 1 to 255 and a text of at most 255 octets, each reason at most 255 octets, and each
/// block a number of lost packets that 24 bits with a sign can hold.
pub fn accepted_parts_are_writable()
    ensures items { (octets : List ℕ) (packets : List RtcpPacket) → AreOctets octets →
        IsAccepted octets packets → All (λ item. IsWritableItem item.1) (all_items packets) }
    ensures goodbyes { (octets : List ℕ) (packets : List RtcpPacket) → AreOctets octets →
        IsAccepted octets packets → All (λ goodbye. IsWritableReason goodbye.1) (all_goodbyes packets) }
    ensures blocks { (octets : List ℕ) (packets : List RtcpPacket) → AreOctets octets →
        IsAccepted octets packets → All (λ block. IsWritableBlock block.1) (all_blocks packets) }
{}

/// A report without an extension can be written if it has at most 31 blocks, each with a number of lost
/// packets that 24 bits with a sign can hold (RFC 3550, 6.4.1).
pub fn reports_are_writable()
    ensures receiver { (ssrc : ℕ) (blocks : List ReportBlock) → length blocks ≤ 31 →
        All IsWritableBlock blocks → IsWritable (rr ssrc blocks []) }
    ensures sender { (sender : SenderValue) (blocks : List ReportBlock) → length blocks ≤ 31 →
        All IsWritableBlock blocks → IsWritable (sr sender blocks []) }
{}

/// Sizes in octets. A compound has those of its packets, in sum. A report without an extension has 8 octets
/// (RFC 3550, 6.4.2), or 28 where it is a sender's (6.4.1), and 24 more for each block.
pub fn sizes_add_up()
    ensures compound { (packets : List RtcpPacket) →
        length (written_all packets) ≡ sum_by (λ packet. length (written packet)) packets }
    ensures receiver { (ssrc : ℕ) (blocks : List ReportBlock) →
        length (written (rr ssrc blocks [])) ≡ 8 + 24 * length blocks }
    ensures sender { (sender : SenderValue) (blocks : List ReportBlock) →
        length (written (sr sender blocks [])) ≡ 28 + 24 * length blocks }
{}
