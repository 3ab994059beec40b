//! Laws of guarded participants. Each is an empty function whose postcondition is the law.

ghost use Rattle.std.specs.Prelude.{◌≡◌, ℕ, List, Some, is_some, true};
ghost use Rattle.rtcp_engine.specs.answers.Acts.{Act};
ghost use Rattle.rtcp_guard.specs.Histories.{claim_of};
ghost use Rattle.rtcp_guarded.specs.Claimed.{AllFrom, IsForward, IsHeldBack, IsNotMoved, IsPresentThroughout, followed, is_present, owner_at};
ghost use Rattle.rtcp_guarded.specs.Guarded.{GuardedAct, GuardedHistory, course_at, guarded_answer, passed_at, with_told};

use rtcp_guard::laws::one_origin_speaks_for_a_source;

/// Each source that the participant has an entry of is claimed at the guard, so it belongs to an origin (RFC 3550,
/// 8.2). The host's clock is not to go back, neither from what is held back nor to what the host expects.
#[tactic(auto, using(crate::proofs::Joining::claimed))]
pub fn present_sources_are_claimed()
    ensures { (history : GuardedHistory) (ssrc : ℕ) → IsForward history → is_present ssrc history ≡ true →
        is_some (claim_of history.settings ssrc (course_at history).steps) ≡ true }
{}

/// As long as a source is present, all datagrams that the participant takes and that name it come from the origin that
/// it belonged to at first (RFC 3550, 8.2), and it stays that origin's.
pub fn one_origin_speaks_for_a_present_source()
    ensures datagrams { (older : GuardedHistory) (newer : List GuardedAct) (ssrc owner : ℕ) →
        IsForward (followed older newer) → IsPresentThroughout ssrc newer older → IsNotMoved ssrc newer →
        owner_at ssrc older ≡ Some owner → AllFrom ssrc owner newer older }
    ensures owner { (older : GuardedHistory) (newer : List GuardedAct) (ssrc owner : ℕ) →
        IsForward (followed older newer) → IsPresentThroughout ssrc newer older → IsNotMoved ssrc newer →
        owner_at ssrc older ≡ Some owner → owner_at ssrc (followed older newer) ≡ Some owner }
{
    one_origin_speaks_for_a_source();
}

/// A datagram that is held back changes nothing of what is passed on later, nor of any later answer: both are as if it
/// had not come. Only the guard's counts tell of it.
pub fn held_back_datagrams_change_nothing()
    ensures passed { (older : GuardedHistory) (act : Act) (newer : List GuardedAct) → IsHeldBack older act →
        passed_at (followed (with_told older act) newer) ≡ passed_at (followed older newer) }
    ensures answers { (older : GuardedHistory) (act : Act) (newer : List GuardedAct) (next : Act) →
        IsHeldBack older act →
        guarded_answer (followed (with_told older act) newer) next ≡ guarded_answer (followed older newer) next }
{}
