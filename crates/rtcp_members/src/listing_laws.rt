//! Laws of what is told of the sources of a session. Each is an empty function whose postcondition is the law.

ghost use Rattle.std.specs.Prelude.{◌≡◌, ◌≤◌, ◌==◌, ◌&&◌, ℕ, List, [], ◌∷◌, Option, Some, None, is_some, All, count_by, if◌then◌else◌};
ghost use Rattle.rtcp_wire.specs.declared.fact.Fact.{Fact};
ghost use Rattle.rtcp_members.specs.Traces.{TraceStep, with_facts};
ghost use Rattle.rtcp_members.specs.Stays.{stay_of};
ghost use Rattle.rtcp_members.specs.News.{is_after};
ghost use Rattle.rtcp_members.specs.Tables.{TableValue, StandsAt};
ghost use Rattle.rtcp_members.specs.Listings.{StateValue, state_above, states_above, RiseAbove, ListsAbove, IsWalk};
ghost use Rattle.rtcp_members.specs.Past.{CameBy, IsKnownBy};

/// What a table that stands at a trace tells of the sources above an SSRC is what the trace says: of the one of
/// least SSRC that is present, what its stay tells. There is only one answer that the trace allows.
pub fn listings_follow_traces()
    ensures listed { (after : Option ℕ) (table : TableValue) (trace : List TraceStep) → StandsAt table trace →
        ListsAbove after table.capacity trace (state_above after table) }
    ensures only { (after : Option ℕ) (capacity : ℕ) (trace : List TraceStep) (a b : Option StateValue) →
        ListsAbove after capacity trace a → ListsAbove after capacity trace b → a ≡ b }
{}

/// Who asks for the source above `after`, and each time for the one above the last answer, until there is none, is
/// told of each source above `after` that is present once, by rising SSRC.
pub fn walks_list_each_once()
    ensures once { (after : Option ℕ) (capacity : ℕ) (trace : List TraceStep) (ssrc : ℕ)
        (states : List StateValue) → IsWalk after capacity trace states →
        count_by (λ (state : StateValue). state.ssrc == ssrc) states
        ≡ (if is_after after ssrc && is_some (stay_of capacity trace ssrc) then 1 else 0) }
    ensures rising { (after : Option ℕ) (capacity : ℕ) (trace : List TraceStep) (states : List StateValue) →
        IsWalk after capacity trace states → RiseAbove after states }
{}

/// What a table has to tell, one source after the other, is such a walk: each answer is the first of it, and what is
/// left is the walk above that source.
pub fn tables_list_walks()
    ensures walk { (after : Option ℕ) (table : TableValue) (trace : List TraceStep) → StandsAt table trace →
        IsWalk after table.capacity trace (states_above after table) }
    ensures more { (after : Option ℕ) (table : TableValue) (state : StateValue) →
        state_above after table ≡ Some state →
        states_above after table ≡ state ∷ states_above (Some state.ssrc) table }
    ensures none { (after : Option ℕ) (table : TableValue) → state_above after table ≡ None →
        states_above after table ≡ [] }
{}

/// Where each fact of a trace came by a moment, what is told of a source by that trace lies at or before it: its last
/// sighting, its BYE and its last sender report. Facts that came by a moment came by any later one too, and further
/// facts that come by it change nothing of that.
pub fn listings_lie_in_the_past()
    ensures listed { (latest capacity : ℕ) (trace : List TraceStep) → CameBy latest trace →
        (after : Option ℕ) (state : StateValue) → ListsAbove after capacity trace (Some state) →
        IsKnownBy latest state }
    ensures walk { (latest capacity : ℕ) (trace : List TraceStep) → CameBy latest trace →
        (after : Option ℕ) (states : List StateValue) → IsWalk after capacity trace states →
        All (IsKnownBy latest) states }
    ensures later { (earlier latest : ℕ) (trace : List TraceStep) → earlier ≤ latest → CameBy earlier trace →
        CameBy latest trace }
    ensures facts { (latest moment : ℕ) (facts : List Fact) (trace : List TraceStep) → moment ≤ latest →
        CameBy latest trace → CameBy latest (with_facts facts moment trace) }
{}
