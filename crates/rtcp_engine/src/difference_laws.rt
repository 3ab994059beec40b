//! Laws of the changes between two listings. Each is an empty function whose postcondition is the law. Those of
//! listings alone are `rtcp_listing`'s.

ghost use Rattle.std.specs.Prelude.{◌≡◌, ℕ, false};
ghost use Rattle.rtcp_members.specs.Roles.{IsSameRole};
ghost use Rattle.rtcp_engine.specs.answers.Acts.{Act};
ghost use Rattle.rtcp_engine.specs.answers.Answers.{step_by};
ghost use Rattle.rtcp_engine.specs.answers.Histories.{History, life_at, setup_at, with_act};
ghost use Rattle.rtcp_engine.specs.answers.Lives.{entry_in_life};

pub use rtcp_listing::laws::{
    changes_have_each_once, changes_lead_to_the_later, sources_are_listings,
};

/// Where a call does not say that the others changed, each source is a member and sends where it was and did
/// before it: so who lists the sources only after calls that say so misses no change.
pub fn others_change_where_said()
    ensures { (history : History) (act : Act) → (step_by history act).others_changed ≡ false → (ssrc : ℕ) →
        IsSameRole (entry_in_life (setup_at history) (life_at history) ssrc)
        (entry_in_life (setup_at (with_act history act)) (life_at (with_act history act)) ssrc) }
{}
