//! Laws of listings and of the changes between two. Each is an empty function whose postcondition is the law.

ghost use Rattle.std.specs.Prelude.{◌≡◌, ◌==◌, ℕ, List, map, count_by, true, None, if◌then◌else◌};
ghost use Rattle.rtcp_members.specs.Listings.{StateValue, RiseAbove};
ghost use Rattle.rtcp_listing.specs.Differences.{
  ListedValue,
  listed_of,
  rises_from,
  role_in,
  is_same,
  changes,
  changed,
  changes_rise_from,
};
ghost use Rattle.rtcp_listing.specs.declared.change.Change.{Change};

/// The changes tell of a source once where its roles in both listings differ, and else not at all; and they tell
/// of the sources by rising SSRC.
#[tactic(auto, using(crate::proofs::DifferenceLaws::each_once, crate::proofs::DifferenceLaws::all_rise))]
pub fn changes_have_each_once()
    ensures once { (before after : List ListedValue) (ssrc : ℕ) →
        count_by (λ (change : Change). change.ssrc == ssrc) (changes before after)
        ≡ (if is_same (role_in before ssrc) (role_in after ssrc) then 0 else 1) }
    ensures rising { (before after : List ListedValue) → changes_rise_from 0 (changes before after) ≡ true }
{}

/// Who knows each role by the earlier listing, and follows the changes, knows each role by the later one.
#[tactic(auto, using(crate::proofs::DifferenceLaws::lead_to_the_later))]
pub fn changes_lead_to_the_later()
    ensures { (before after : List ListedValue) (ssrc : ℕ) →
        changed (changes before after) (role_in before) ssrc ≡ role_in after ssrc }
{}

/// What is told of the sources of a session, one after the other, is a listing that [`Changes`](crate::Changes)
/// takes.
#[tactic(auto, using(crate::proofs::DifferenceLaws::listed_rise))]
pub fn sources_are_listings()
    ensures { (states : List StateValue) → RiseAbove None states →
        rises_from 0 (map listed_of states) ≡ true }
{}
