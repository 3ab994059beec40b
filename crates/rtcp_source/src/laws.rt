//! Laws of the definitions of a source: each is an empty function whose postcondition is the law.

ghost use Rattle.std.specs.Prelude.{◌≡◌, [], ◌∷◌, ◌+◌, ◌≤◌, ◌<◌, ◌↔◌, ℕ, ℤ, pos, true, List, ◌-◌, ◌%◌, ◌^◌, unsigned_abs, option_map, Some};
ghost use Rattle.rtcp_wire.specs.Values.{ReportBlock};
ghost use Rattle.std.specs.Int.{cast_signed, w32};
ghost use Rattle.rtcp_source.specs.declared.taken.Taken.TheVariants.{Counted};
ghost use Rattle.rtcp_source.specs.Packets.{Given, CountedPacket, packet_came, report_came, block_made, greatest_ordinal, is_near, ordinal_near, is_counted_in, run_of, has_news_since};
ghost use Rattle.rtcp_source.specs.Takings.{HasCounted, packet_at, with_counted, taken_in, is_counted, transit_of, counted_since_block};
ghost use Rattle.rtcp_source.specs.Integers.{IsIntegerNear, HasIntegerNear, HasOrdinalNear, IsOrdinalOfInteger, ordinal_of, greatest_integer};
ghost use Rattle.rtcp_source.specs.LastBlocks.{last_block};
ghost use Rattle.rtcp_source.specs.Blocks.{block_for, news_of};
ghost use Rattle.rtcp_source.specs.Receptions.{reception_in, reception_over, figures_of, figures_in, said_by};
ghost use Rattle.rtcp_source.specs.Steps.{no_source, taken_by, after_packet, after_report_came, after_block_made};
ghost use Rattle.rtcp_source.specs.Summary.{summary_of, HasOneRate, interarrival_jitter, since_change};
ghost use Rattle.rtcp_source.specs.ReportBlocks.{transit_distance, jitter_of, block_over};
ghost use Rattle.rtcp_source.specs.Fields.{last_report_of, lsr_of, dlsr_of};

/// What is kept of a source gives the same results as the list of all that it was given: what a packet is,
/// whether it is counted, whether there is news, how its packets are received, and the report block.
pub fn summary_suffices()
    ensures taken { (given : List Given) (seq : ℕ) →
        taken_by (summary_of given) seq ≡ taken_in (run_of given) seq }
    ensures counted { (given : List Given) (seq : ℕ) →
        is_counted (taken_by (summary_of given) seq) ≡ is_counted_in (run_of given) seq }
    ensures news { (given : List Given) → news_of (summary_of given).run ≡ has_news_since given }
    ensures block { (given : List Given) (ssrc t : ℕ) →
        block_for ssrc t (summary_of given) ≡ block_over ssrc t given }
    ensures reception { (given : List Given) → reception_in (summary_of given) ≡ reception_over given }
{}

/// A source has news exactly where some packet was counted since its last block, or at all if no block was made.
#[tactic(auto, using(crate::proofs::News::news_is_counted))]
pub fn news_is_that_of_packets()
    ensures { (given : List Given) → has_news_since given ≡ counted_since_block given }
{}

/// How a source's packets are received is what its report block would say at any moment, but for the fraction
/// lost; and no block changes it.
pub fn reception_is_that_of_blocks()
    ensures figures { (ssrc t : ℕ) (given : List Given) →
        option_map figures_of (reception_over given) ≡ option_map figures_in (block_over ssrc t given) }
    ensures kept { (given : List Given) → reception_over (block_made ∷ given) ≡ reception_over given }
{}

/// The LSR and the DLSR of a source's report block, at any moment, are those of the last sender report that is told of
/// it; and no block changes that (RFC 3550, 6.4.1).
pub fn last_report_is_that_of_blocks()
    ensures clock { (ssrc t : ℕ) (given : List Given) (block : ReportBlock) → block_over ssrc t given ≡ Some block →
        (block.lsr ≡ lsr_of (last_report_of given)) × (block.dlsr ≡ dlsr_of (last_report_of given) t) }
    ensures kept { (given : List Given) → last_report_of (block_made ∷ given) ≡ last_report_of given }
{}

/// What is told of a source's last report block is what that block said, until the next one is made.
pub fn last_block_is_that_block()
    ensures said { (ssrc t : ℕ) (given : List Given) →
        last_block (block_made ∷ given) ≡ option_map said_by (block_over ssrc t given) }
    ensures packet { (seq timestamp arrival octets rate : ℕ) (given : List Given) →
        last_block (packet_came seq timestamp arrival octets rate ∷ given) ≡ last_block given }
    ensures report { (ntp rtp moment : ℕ) (given : List Given) →
        last_block (report_came ntp rtp moment ∷ given) ≡ last_block given }
{}

/// What is kept of a source after one thing more is computed from what was kept before it.
pub fn summary_moves()
    ensures none { summary_of [] ≡ no_source }
    ensures packet { (seq timestamp arrival octets rate : ℕ) (given : List Given) →
        summary_of (packet_came seq timestamp arrival octets rate ∷ given)
        ≡ after_packet seq timestamp arrival octets rate (summary_of given) }
    ensures report { (ntp rtp moment : ℕ) (given : List Given) →
        summary_of (report_came ntp rtp moment ∷ given) ≡ after_report_came ntp rtp moment (summary_of given) }
    ensures block { (given : List Given) →
        summary_of (block_made ∷ given) ≡ after_block_made (summary_of given) }
{}

/// The greatest integer of a run is never negative. Once a run was started, a packet is counted in it exactly
/// where its number has an integer near the greatest one; there is at most one such integer, and the packet
/// enters the run with its ordinal (RFC 3550, A.1).
pub fn counted_by_integer()
    ensures greatest { (given : List Given) → HasCounted (run_of given) →
        65536 ≤ greatest_ordinal (run_of given).counted }
    ensures counted { (given : List Given) (seq : ℕ) → seq < 65536 → HasCounted (run_of given) →
        (taken_in (run_of given) seq ≡ Counted) ↔ HasIntegerNear (greatest_integer (run_of given)) seq }
    ensures enters { (given : List Given) (seq timestamp arrival octets rate : ℕ) (integer : ℤ) → seq < 65536 →
        HasCounted (run_of given) → IsIntegerNear (greatest_integer (run_of given)) seq integer →
        run_of (packet_came seq timestamp arrival octets rate ∷ given)
        ≡ with_counted (packet_at (ordinal_of integer) (transit_of timestamp arrival) octets rate) (run_of given) }
    ensures one { (greatest : ℤ) (seq : ℕ) (a b : ℤ) →
        IsIntegerNear greatest seq a → IsIntegerNear greatest seq b → a ≡ b }
{}

/// A number that has an integer near the greatest one is near the greatest ordinal, and has that integer's
/// ordinal (RFC 3550, A.1).
pub fn integer_is_found()
    ensures { (greatest seq : ℕ) (integer : ℤ) → seq < 65536 → IsIntegerNear (pos greatest) seq integer →
        HasOrdinalNear (greatest + 65536) seq (ordinal_of integer) }
{}

/// A number that is near the greatest ordinal has an integer near the greatest one, and its ordinal there is the
/// ordinal of that integer.
#[tactic(auto, using(crate::proofs::Integers::has_integer))]
pub fn ordinal_has_integer()
    ensures { (greatest seq : ℕ) → seq < 65536 → is_near (greatest + 65536) seq ≡ true →
        IsOrdinalOfInteger (pos greatest) seq (ordinal_near (greatest + 65536) seq) }
{}

/// The distance of two transits is the absolute value of their difference, as a signed number of 32 bits
/// (RFC 3550, A.8).
#[tactic(auto, using(crate::proofs::LawLemmas::distance_is_signed))]
pub fn distance_is_signed()
    ensures { (transit before : ℕ) → transit < 2 ^ 32 → before < 2 ^ 32 →
        transit_distance transit before
        ≡ unsigned_abs (cast_signed w32 ((transit + 2 ^ 32 - before) % 2 ^ 32)) }
{}

/// The jitter of a run is that of RFC 3550 (A.8) over the packets since the rate of their clock changed last: in the
/// units of that clock, and without a difference of transits by two clocks (RFC 7160, 4.3). Where all packets that a
/// source was given have one rate, it is that of the whole run.
pub fn jitter_is_of_one_rate()
    ensures newest { (counted : List CountedPacket) → jitter_of counted ≡ interarrival_jitter (since_change counted) }
    ensures alone { (rate : ℕ) (given : List Given) → HasOneRate rate given →
        jitter_of (run_of given).counted ≡ interarrival_jitter (run_of given).counted }
{}
