//! Laws of the RTCP grammar (`specs/Grammar`, `specs/Faults`, `specs/Facts`), whatever reads the octets. Each
//! is an empty function whose postcondition is the law; `proofs/LawLemmas` has a lemma of its name, or one
//! for each clause.

ghost use Rattle.std.specs.Prelude.{◌≡◌, ℕ, ◌==◌, ◌≤◌, ◌++◌, ◌⊎◌, ◌↔◌, false, List, Ok, Err, All, filter, length};
ghost use Rattle.rtcp_wire.specs.About.{blocks_about};
ghost use Rattle.rtcp_wire.specs.Contents.{all_blocks};
ghost use Rattle.rtcp_wire.specs.Grammar.{IsSpelling, IsAccepted};
ghost use Rattle.rtcp_wire.specs.Faults.{IsFirstFault};
ghost use Rattle.rtcp_wire.specs.Facts.{is_media, facts_of};
ghost use Rattle.rtcp_wire.specs.Readings.{rtcp_in};
ghost use Rattle.rtcp_wire.specs.Walks.{packets_in};
ghost use Rattle.rtcp_wire.specs.Values.{RtcpPacket};
ghost use Rattle.rtcp_wire.specs.declared.fault.WireFault.{WireFault};

/// The encoding of a packet is never a proper prefix of another's, whatever follows either, and it encodes
/// one packet.
pub fn one_spelling()
    ensures { (p q : RtcpPacket) (s t x y : List ℕ) → IsSpelling p s → IsSpelling q t → s ++ x ≡ t ++ y →
        (s ≡ t) × (p ≡ q) }
{}

/// A datagram that is accepted is one list of packets.
pub fn one_reading()
    ensures { (octets : List ℕ) (ps qs : List RtcpPacket) → IsAccepted octets ps → IsAccepted octets qs →
        ps ≡ qs }
{}

/// A datagram has at most one first fault: one reason, at one offset.
pub fn one_fault()
    ensures { (octets : List ℕ) (f g : WireFault) → IsFirstFault octets f → IsFirstFault octets g → f ≡ g }
{}

/// Each datagram is accepted or has a first fault, and never both.
pub fn accepted_or_faulty()
    ensures never_both { (octets : List ℕ) (packets : List RtcpPacket) (fault : WireFault) →
        IsAccepted octets packets → IsFirstFault octets fault → ⊥ }
    ensures always_one { (octets : List ℕ) → ((packets : List RtcpPacket) × IsAccepted octets packets)
        ⊎ ((fault : WireFault) × IsFirstFault octets fault) }
{}

/// What the octets of a datagram say is computed: the packets that it is accepted as are those that `rtcp_in`
/// reads of it, and its first fault is the one that `rtcp_in` tells. So this one function is the whole grammar,
/// and the reasons and places of its refusals.
pub fn readings_are_computed()
    ensures accepted { (octets : List ℕ) (packets : List RtcpPacket) →
        (IsAccepted octets packets) ↔ (rtcp_in octets ≡ Ok packets) }
    ensures faulty { (octets : List ℕ) (fault : WireFault) →
        (IsFirstFault octets fault) ↔ (rtcp_in octets ≡ Err fault) }
{}

/// RTCP packets say nothing of RTP packets that came: no fact of a compound is `Media`.
#[tactic(auto, using(crate::proofs::NoMedia::packets_give_none))]
pub fn compounds_give_no_media()
    ensures { (packets : List RtcpPacket) → All (λ fact. is_media fact ≡ false) (facts_of packets) }
{}

/// An accepted datagram gives no more facts than it has octets.
#[tactic(auto, using(crate::proofs::FewFacts::few_facts))]
pub fn facts_are_few()
    ensures { (octets : List ℕ) (packets : List RtcpPacket) → IsAccepted octets packets →
        length (facts_of packets) ≤ length octets }
{}

/// Where a datagram is accepted as packets, a walk over its octets reads these (`packets_in`): what it holds
/// is computed from the octets alone, packet by packet.
#[tactic(auto, using(crate::proofs::LawLemmas::walks_read_encodings))]
pub fn walks_read_encodings()
    ensures { (octets : List ℕ) (packets : List RtcpPacket) → IsAccepted octets packets →
        packets_in octets ≡ packets }
{}

/// The blocks of a compound that name a source are those of all its blocks that do, in the same order.
#[tactic(auto, using(crate::proofs::BlockLists::about_of_all))]
pub fn about_of_all()
    ensures { (ssrc : ℕ) (packets : List RtcpPacket) → blocks_about ssrc packets
        ≡ filter (λ block. block.1.ssrc == ssrc) (all_blocks packets) }
{}
