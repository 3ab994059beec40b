//! Laws of the formulas. Each is an empty function whose postcondition is the law.

ghost use Rattle.std.specs.Prelude.{ℕ, ◌<◌, ◌≤◌, ◌^◌};
ghost use Rattle.rtcp_clock.specs.Intervals.{drawn_interval, shortest_draw, longest_draw};

/// Whatever the random word, a draw lies between the shortest draw, `1/2 · td / 1.21828` rounded up, and the
/// longest one (RFC 3550, 6.3.1).
#[tactic(auto, using(crate::proofs::LawLemmas::draw_within_bounds))]
pub fn draw_within_bounds()
    ensures { (td : ℕ) (w : ℕ) → w < 2 ^ 32 →
        (shortest_draw td ≤ drawn_interval td w) × (drawn_interval td w ≤ longest_draw td) }
{}

/// The longest draw never falls as the deterministic interval grows (RFC 3550, 6.3.1).
#[tactic(auto, using(crate::proofs::LawLemmas::longest_never_falls))]
pub fn longest_never_falls()
    ensures { (td greater : ℕ) → td ≤ greater → longest_draw td ≤ longest_draw greater }
{}
