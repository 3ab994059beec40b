//! What the guard and the table of a participant say of the same datagrams and checks, side by side.
#![tactic(auto)]

ghost use Rattle.std.specs.Prelude.{◌≡◌, ℕ, List, Some, is_some, true};
ghost use Rattle.rtcp_members.specs.Traces.{TraceStep};
ghost use Rattle.rtcp_members.specs.Stays.{stay_of};
ghost use Rattle.rtcp_guard.specs.declared.settings.Settings.{Settings};
ghost use Rattle.rtcp_guard.specs.Histories.{claim_of};
ghost use Rattle.rtcp_guard_laws.specs.Together.{JointStep, IsInOrder, trace_of, steps_of};

/// A source that is present in the participant's table is claimed in the guard: so from its admission on, as long as it
/// is present, one origin speaks for it. This holds where the table is told of just what the guard passes on, where
/// each check of the guard looks back no less far than the table's, and where the datagrams come in the order of their
/// moments.
#[tactic(auto, using(crate::proofs::Presence::present_is_claimed))]
pub fn present_sources_are_claimed()
    ensures { (settings : Settings) (capacity ssrc : ℕ) (joint : List JointStep) (stay : List TraceStep) →
        IsInOrder joint → stay_of capacity (trace_of settings joint) ssrc ≡ Some stay →
        is_some (claim_of settings ssrc (steps_of joint)) ≡ true }
{}
