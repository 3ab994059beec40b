//! Laws of the turn in which sources are reported (RFC 3550, 6.4). Each is an empty function whose
//! postcondition is the law.

ghost use Rattle.std.specs.Prelude.{◌≡◌, ◌==◌, ℕ, List, ◌∷◌, Option, Some, IsTrue, count_by, map, take, if◌then◌else◌};
ghost use Rattle.std.specs.FinMap as finite;
ghost use Rattle.rtcp_members.specs.Traces.{TraceStep};
ghost use Rattle.rtcp_members.specs.Entries.{is_such, entry_at};
ghost use Rattle.rtcp_members.specs.Tables.{TableValue, StandsAt};
ghost use Rattle.rtcp_members.specs.Pending.{EntryRow, first_ssrc, is_due, is_due_at, pending, block_at, block_of_row, blocks_of, after_block, pending_rows_at};
ghost use Rattle.rtcp_members.specs.News.{is_due_by, blocks_at, pending_at};

/// The first pending source is in the table, and a block is due of it: the one of its row. So `block_of` may
/// be called with what `next_with_news` returns.
pub fn first_is_due()
    ensures there { (last : Option ℕ) (table : TableValue) (row : EntryRow) (rest : List EntryRow) →
        pending last table ≡ row ∷ rest →
        finite.get table.entries row.0 ≡ Some row.1 }
    ensures due { (last : Option ℕ) (table : TableValue) (row : EntryRow) (rest : List EntryRow) →
        pending last table ≡ row ∷ rest →
        IsTrue (is_due_at row.0 table) }
    ensures block { (t : ℕ) (last : Option ℕ) (table : TableValue) (row : EntryRow) (rest : List EntryRow) →
        pending last table ≡ row ∷ rest → block_at row.0 t table ≡ block_of_row t row }
    ensures answered { (last : Option ℕ) (table : TableValue) (ssrc : ℕ) →
        Some ssrc ≡ first_ssrc (pending last table) →
        IsTrue (is_due_at ssrc table) }
{}

/// After the block of the first pending source just the others are pending, with what they had, in the same
/// turn.
pub fn others_stay_pending()
    ensures { (last : Option ℕ) (table : TableValue) (row : EntryRow) (rest : List EntryRow) →
        pending last table ≡ row ∷ rest →
        pending (Some row.0) (after_block row.0 table) ≡ rest }
{}

/// Each source that a block is due of is pending once, and no other source is.
pub fn each_is_pending_once()
    ensures { (last : Option ℕ) (table : TableValue) (ssrc : ℕ) →
        count_by (λ (row : EntryRow). row.0 == ssrc) (pending last table)
        ≡ (if is_due_at ssrc table then 1 else 0) }
{}

/// The pending sources of a table that stands at a trace are exactly those whose stay has no mark and holds a
/// counted packet after their last block, or at all if there is no block: by rising SSRC, those above the
/// last one reported first, each with what the trace says of it.
pub fn turns_follow_traces()
    ensures sources { (last : Option ℕ) (table : TableValue) (trace : List TraceStep) → StandsAt table trace →
        map (λ (row : EntryRow). row.0) (pending last table)
        ≡ pending_at last table.capacity trace }
    ensures rows { (last : Option ℕ) (table : TableValue) (trace : List TraceStep) → StandsAt table trace →
        pending last table ≡ pending_rows_at last table.capacity trace }
    ensures due { (capacity : ℕ) (trace : List TraceStep) (ssrc : ℕ) →
        is_such is_due (entry_at capacity trace ssrc) ≡ is_due_by capacity trace ssrc }
{}

/// The rows of the pending sources are of just these sources. Of as many of them as one likes, the blocks by what is kept
/// of each are those of the packets and sender reports in its stay (RFC 3550, 6.4.1, A.3).
pub fn rows_are_of_stays()
    ensures all { (last : Option ℕ) (capacity : ℕ) (trace : List TraceStep) →
        map (λ (row : EntryRow). row.0) (pending_rows_at last capacity trace) ≡ pending_at last capacity trace }
    ensures sources { (most : ℕ) (last : Option ℕ) (capacity : ℕ) (trace : List TraceStep) →
        map (λ (row : EntryRow). row.0) (take most (pending_rows_at last capacity trace))
        ≡ take most (pending_at last capacity trace) }
    ensures blocks { (t most : ℕ) (last : Option ℕ) (capacity : ℕ) (trace : List TraceStep) →
        blocks_of t (take most (pending_rows_at last capacity trace))
        ≡ blocks_at t capacity trace (take most (pending_at last capacity trace)) }
{}
