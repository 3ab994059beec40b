//! Laws of RTP packets (`specs/RtpHeads`), whatever reads the octets. Each is an empty function whose
//! postcondition is the law; `proofs/LawLemmas` has a lemma of its name, or one for each clause.

ghost use Rattle.std.specs.Prelude.{◌≡◌, ◌↔◌, ℕ, ◌^◌, ◌<◌, ◌≤◌, ◌⊎◌, List, All, length, Ok, Err};
ghost use Rattle.rtcp_wire.specs.Grammar.{AreOctets};
ghost use Rattle.rtcp_wire.specs.RtpHeads.{IsReserved, IsRtpHead, IsRtpFault};
ghost use Rattle.rtcp_wire.specs.RtpReadings.{rtp_in};
ghost use Rattle.rtcp_wire.specs.declared.rtp.fault.RtpFault.{RtpFault};
ghost use Rattle.rtcp_wire.specs.Values.{RtpValue};

/// Octets are at most one RTP packet.
pub fn one_head()
    ensures { (octets : List ℕ) (h k : RtpValue) → IsRtpHead octets h → IsRtpHead octets k → h ≡ k }
{}

/// Octets have at most one first fault.
pub fn one_rtp_fault()
    ensures { (octets : List ℕ) (f g : RtpFault) → IsRtpFault octets f → IsRtpFault octets g → f ≡ g }
{}

/// Each list of octets is an RTP packet or has a first fault, and never both.
pub fn packet_or_fault()
    ensures never_both { (octets : List ℕ) (head : RtpValue) (fault : RtpFault) →
        IsRtpHead octets head → IsRtpFault octets fault → ⊥ }
    ensures always_one { (octets : List ℕ) →
        ((head : RtpValue) × IsRtpHead octets head) ⊎ ((fault : RtpFault) × IsRtpFault octets fault) }
{}

/// What octets say as an RTP packet, or their first fault, is computed: `rtp_in` gives a packet exactly where the
/// octets are that packet, and a fault exactly where it is their first one.
pub fn rtp_readings_are_computed()
    ensures head { (octets : List ℕ) (head : RtpValue) → (IsRtpHead octets head) ↔ (rtp_in octets ≡ Ok head) }
    ensures fault { (octets : List ℕ) (fault : RtpFault) → (IsRtpFault octets fault) ↔ (rtp_in octets ≡ Err fault) }
{}

/// The numbers of an RTP packet are in the ranges of their fields: the payload type is below 128 and none of
/// 72 to 76, the sequence number is below 65,536, there are at most 15 CSRCs, and the timestamp, the SSRC and
/// each CSRC are numbers of 32 bits.
pub fn heads_are_in_range()
    ensures payload_type { (octets : List ℕ) (head : RtpValue) → IsRtpHead octets head →
        (head.payload_type < 128) × (IsReserved head.payload_type → ⊥) }
    ensures sequence { (octets : List ℕ) (head : RtpValue) → AreOctets octets → IsRtpHead octets head →
        head.sequence < 65536 }
    ensures csrcs { (octets : List ℕ) (head : RtpValue) → IsRtpHead octets head → length head.csrcs ≤ 15 }
    ensures words { (octets : List ℕ) (head : RtpValue) → AreOctets octets → IsRtpHead octets head →
        (head.timestamp < 2 ^ 32) × (head.ssrc < 2 ^ 32) × All (λ csrc. csrc < 2 ^ 32) head.csrcs }
{}
