//! Laws of who is a member and who sends. Each is an empty function whose postcondition is the law.

ghost use Rattle.std.specs.Prelude.{◌≡◌, ℕ, false, List, [], ◌∷◌, None, drop, length};
ghost use Rattle.rtcp_wire.specs.declared.fact.Fact.{Fact};
ghost use Rattle.rtcp_wire.specs.declared.fact.Fact.TheVariants.{Heard, Named, Told};
ghost use Rattle.rtcp_wire.specs.declared.sole.SoleSource.{SoleSource};
ghost use Rattle.rtcp_wire.specs.Sole.{facts_of_sole, IsSole};
ghost use Rattle.rtcp_members.specs.Traces.{Horizons, TraceStep, block_made_of, check_made, source_forgotten, with_facts};
ghost use Rattle.rtcp_members.specs.Entries.{entry_at, members_at, step_moves, moved_within};
ghost use Rattle.rtcp_members.specs.Tables.{TableValue, StandsAt, after_facts};
ghost use Rattle.rtcp_members.specs.Roles.{IsSameRole, facts_move, check_moves, forgetting_moves};

/// A step changes who is a member or who sends exactly where it changes how many are members or how many send;
/// and where none of the newest steps does, who is a member and who sends is as it was before them. A block
/// changes neither. Where there is no member, no source is one.
pub fn roles_move_with_counts()
    ensures kept { (capacity : ℕ) (step : TraceStep) (earlier : List TraceStep) →
        step_moves capacity step earlier ≡ false → (ssrc : ℕ) →
        IsSameRole (entry_at capacity earlier ssrc) (entry_at capacity (step ∷ earlier) ssrc) }
    ensures moved { (capacity : ℕ) (step : TraceStep) (earlier : List TraceStep) →
        ((ssrc : ℕ) →
        IsSameRole (entry_at capacity earlier ssrc) (entry_at capacity (step ∷ earlier) ssrc)) →
        step_moves capacity step earlier ≡ false }
    ensures within { (capacity : ℕ) (steps : ℕ) (trace : List TraceStep) →
        moved_within capacity steps trace ≡ false → (ssrc : ℕ) →
        IsSameRole (entry_at capacity (drop steps trace) ssrc) (entry_at capacity trace ssrc) }
    ensures block { (capacity ssrc : ℕ) (trace : List TraceStep) →
        step_moves capacity (block_made_of ssrc) trace ≡ false }
    ensures none { (capacity : ℕ) (trace : List TraceStep) → members_at capacity trace ≡ 0 → (ssrc : ℕ) →
        IsSameRole None (entry_at capacity trace ssrc) }
{}

/// Facts, checks and sources that are forgotten change who is a member or who sends by the table where they do by the
/// trace that it stands at.
pub fn moves_follow_traces()
    ensures facts { (facts : List Fact) (moment : ℕ) (table : TableValue) (trace : List TraceStep) →
        StandsAt table trace → facts_move facts moment table
        ≡ moved_within table.capacity (length facts) (with_facts facts moment trace) }
    ensures check { (table : TableValue) (trace : List TraceStep) (horizons : Horizons) → StandsAt table trace →
        check_moves horizons table ≡ step_moves table.capacity (check_made horizons) trace }
    ensures forgotten { (table : TableValue) (trace : List TraceStep) (ssrc : ℕ) → StandsAt table trace →
        forgetting_moves ssrc table ≡ step_moves table.capacity (source_forgotten ssrc) trace }
{}

/// A source that gives its CNAME, or tells of its clock in a sender report (RFC 3550, 6.4.1), is heard by that: both
/// facts make of a table what the one does, and change who is a member or who sends where the one does.
pub fn heard_by_what_it_says()
    ensures named { (ssrc moment : ℕ) (table : TableValue) →
        after_facts (Heard ssrc ∷ Named ssrc ∷ []) moment table ≡ after_facts (Named ssrc ∷ []) moment table }
    ensures named_moves { (ssrc moment : ℕ) (table : TableValue) →
        facts_move (Heard ssrc ∷ Named ssrc ∷ []) moment table ≡ facts_move (Named ssrc ∷ []) moment table }
    ensures told { (ssrc ntp rtp moment : ℕ) (table : TableValue) →
        after_facts (Heard ssrc ∷ Told ssrc ntp rtp ∷ []) moment table
        ≡ after_facts (Told ssrc ntp rtp ∷ []) moment table }
    ensures told_moves { (ssrc ntp rtp moment : ℕ) (table : TableValue) →
        facts_move (Heard ssrc ∷ Told ssrc ntp rtp ∷ []) moment table
        ≡ facts_move (Told ssrc ntp rtp ∷ []) moment table }
{}

/// Where all that a compound says of sources is about one (`Compound::sole` of rtcp_wire), it says as much as one or
/// two facts: what the source told of its clock and that it gave its CNAME, or else that it was heard. They make the
/// same of each table, and change who is a member or who sends where the compound does.
pub fn sole_sources_say_it_all()
    ensures content { (source : SoleSource) (facts : List Fact) (moment : ℕ) (table : TableValue) →
        IsSole source facts → after_facts facts moment table ≡ after_facts (facts_of_sole source) moment table }
    ensures moves { (source : SoleSource) (facts : List Fact) (moment : ℕ) (table : TableValue) →
        IsSole source facts → facts_move facts moment table ≡ facts_move (facts_of_sole source) moment table }
{}
