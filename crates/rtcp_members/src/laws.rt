//! Laws of tables and traces, whatever the table. Each is an empty function whose postcondition is the law;
//! `proofs/LawLemmas` has a lemma of its name, or one for each clause.

ghost use Rattle.std.specs.Prelude.{◌≡◌, ◌<◌, ◌≤◌, ◌+◌, ◌^◌, ◌==◌, ◌&&◌, if◌then◌else◌, false, is_some, All, IfSome, IsTrue, ℕ, List, [], ◌∷◌, Some, None};
ghost use Rattle.std.specs.FinMap as map;
ghost use Rattle.rtcp_wire.specs.declared.fact.Fact.{Fact};
ghost use Rattle.rtcp_wire.specs.Facts.{subject, is_gone, is_media};
ghost use Rattle.rtcp_members.specs.Traces.{Horizons, TraceStep, fact_came, check_made, block_made_of, source_forgotten, names, with_facts};
ghost use Rattle.rtcp_source.specs.ReportBlocks.{block_over};
ghost use Rattle.rtcp_members.specs.Stays.{mark_of, present_among, stay_of};
ghost use Rattle.rtcp_members.specs.Entries.{counted_at, count_at, given_of, is_member, is_sender, is_such, members_at, senders_at};
ghost use Rattle.rtcp_members.specs.Pending.{EntryRow, block_at, is_due_at, after_block, after_blocks};
ghost use Rattle.rtcp_members.specs.Tables.{TableValue, StandsAt, KeepsBounds, table_at, HasFew, IsFew, no_members, counted, after_fact, after_facts, after_check, after_forgetting, is_unmarked, members_in, senders_in};

/// The empty table stands at the empty trace. A table that stands at a trace goes with each fact, each check,
/// each block that is due, and each source that the host says is gone to one that stands at the trace with that step.
pub fn tables_follow_traces()
    ensures none { (capacity : ℕ) → StandsAt (no_members capacity) [] }
    ensures fact { (table : TableValue) (trace : List TraceStep) (fact : Fact) (moment : ℕ) →
        StandsAt table trace →
        StandsAt (after_fact fact moment table) (fact_came fact moment ∷ trace) }
    ensures facts { (table : TableValue) (trace : List TraceStep) (facts : List Fact) (moment : ℕ) →
        StandsAt table trace →
        StandsAt (after_facts facts moment table) (with_facts facts moment trace) }
    ensures check { (table : TableValue) (trace : List TraceStep) (horizons : Horizons) →
        StandsAt table trace →
        StandsAt (after_check horizons table) (check_made horizons ∷ trace) }
    ensures block { (table : TableValue) (trace : List TraceStep) (ssrc : ℕ) → IsTrue (is_due_at ssrc table) →
        StandsAt table trace →
        StandsAt (after_block ssrc table) (block_made_of ssrc ∷ trace) }
    ensures forgotten { (table : TableValue) (trace : List TraceStep) (ssrc : ℕ) →
        StandsAt table trace →
        StandsAt (after_forgetting ssrc table) (source_forgotten ssrc ∷ trace) }
{}

/// A trace has, for a capacity, one table that stands at it: so whatever is said of a table is
/// said of its trace.
#[tactic(auto, using(crate::proofs::standing::TraceTables::table_stands, crate::proofs::standing::TraceTables::only_table))]
pub fn trace_has_one_table()
    ensures stands { (capacity : ℕ) (trace : List TraceStep) →
        StandsAt (table_at capacity trace) trace }
    ensures only { (table : TableValue) (trace : List TraceStep) → StandsAt table trace →
        table ≡ table_at table.capacity trace }
{}

/// A table that stands at a trace has as many entries as sources are present, and as many members and senders
/// as the trace; and a packet is counted by the one as by the other.
pub fn counts_agree()
    ensures entries { (table : TableValue) (trace : List TraceStep) → StandsAt table trace →
        map.len table.entries ≡ present_among (names trace) (stay_of table.capacity trace) }
    ensures members { (table : TableValue) (trace : List TraceStep) → StandsAt table trace →
        members_in table ≡ members_at table.capacity trace }
    ensures senders { (table : TableValue) (trace : List TraceStep) → StandsAt table trace →
        senders_in table ≡ senders_at table.capacity trace }
    ensures counted { (table : TableValue) (trace : List TraceStep) (fact : Fact) → StandsAt table trace →
        counted table fact ≡ counted_at table.capacity trace fact }
{}

/// As many sources are members and senders by their stays as are by their entries.
#[tactic(auto, using(crate::proofs::standing::Counts::members_by_entries, crate::proofs::standing::Counts::senders_by_entries))]
pub fn counts_are_of_entries()
    ensures members { (capacity : ℕ) (trace : List TraceStep) →
        members_at capacity trace ≡ count_at is_member capacity trace }
    ensures senders { (capacity : ℕ) (trace : List TraceStep) →
        senders_at capacity trace ≡ count_at is_sender capacity trace }
{}

/// A table that stands at a trace has an entry of just the sources that have a stay; and the block of one that did not
/// leave is that of all that its stay gave: its packets, its sender reports and the blocks made of it.
#[tactic(auto, using(crate::proofs::standing::Holding::held_as_stayed, crate::proofs::standing::Holding::block_of_stay))]
pub fn tables_hold_stays()
    ensures held { (table : TableValue) (trace : List TraceStep) (ssrc : ℕ) → StandsAt table trace →
        is_some (map.get table.entries ssrc) ≡ is_some (stay_of table.capacity trace ssrc) }
    ensures block { (table : TableValue) (trace : List TraceStep) (ssrc t : ℕ) (stay : List TraceStep) →
        StandsAt table trace → stay_of table.capacity trace ssrc ≡ Some stay → mark_of ssrc stay ≡ None →
        block_at ssrc t table ≡ block_over ssrc t (given_of ssrc stay) }
{}

/// No step changes how many entries a table may hold.
pub fn bounds_are_kept()
    ensures fact { (table : TableValue) (fact : Fact) (moment : ℕ) →
        KeepsBounds table (after_fact fact moment table) }
    ensures facts { (table : TableValue) (facts : List Fact) (moment : ℕ) →
        KeepsBounds table (after_facts facts moment table) }
    ensures check { (table : TableValue) (horizons : Horizons) →
        KeepsBounds table (after_check horizons table) }
    ensures block { (table : TableValue) (ssrc : ℕ) → KeepsBounds table (after_block ssrc table) }
    ensures forgotten { (table : TableValue) (ssrc : ℕ) → KeepsBounds table (after_forgetting ssrc table) }
    ensures blocks { (table : TableValue) (rows : List EntryRow) →
        KeepsBounds table (after_blocks rows table) }
{}

/// No step takes a table past its capacity.
pub fn capacity_is_kept()
    ensures none { (capacity : ℕ) → map.len (no_members capacity).entries ≤ capacity }
    ensures fact { (table : TableValue) (fact : Fact) (moment : ℕ) → map.len table.entries ≤ table.capacity →
        map.len (after_fact fact moment table).entries ≤ table.capacity }
    ensures facts { (table : TableValue) (facts : List Fact) (moment : ℕ) →
        map.len table.entries ≤ table.capacity →
        map.len (after_facts facts moment table).entries ≤ table.capacity }
    ensures check { (table : TableValue) (horizons : Horizons) → map.len table.entries ≤ table.capacity →
        map.len (after_check horizons table).entries ≤ table.capacity }
    ensures block { (table : TableValue) (ssrc : ℕ) → map.len table.entries ≤ table.capacity →
        map.len (after_block ssrc table).entries ≤ table.capacity }
    ensures forgotten { (table : TableValue) (ssrc : ℕ) → map.len table.entries ≤ table.capacity →
        map.len (after_forgetting ssrc table).entries ≤ table.capacity }
    ensures blocks { (table : TableValue) (rows : List EntryRow) → map.len table.entries ≤ table.capacity →
        map.len (after_blocks rows table).entries ≤ table.capacity }
{}

/// In any table the senders are at most the members, and these at most the entries. A check adds no entry and
/// no sender, so that `Dropped` says how many there are fewer.
pub fn counts_are_ordered()
    ensures senders { (table : TableValue) → senders_in table ≤ members_in table }
    ensures members { (table : TableValue) → members_in table ≤ map.len table.entries }
    ensures check_entries { (table : TableValue) (horizons : Horizons) →
        map.len (after_check horizons table).entries ≤ map.len table.entries }
    ensures check_senders { (table : TableValue) (horizons : Horizons) →
        senders_in (after_check horizons table) ≤ senders_in table }
{}

/// To forget a source is to drop it as a check drops one that is silent, and it alone: its entry goes, unless it said
/// BYE, and each other entry stays as it is. So who was there without a mark is not there after it, and there are
/// no more members and senders than before.
pub fn forgetting_goes_as_silence()
    ensures left { (table : TableValue) (ssrc other : ℕ) →
        map.get (after_forgetting ssrc table).entries other
        ≡ (if other == ssrc && is_such is_unmarked (map.get table.entries ssrc) then None else
        map.get table.entries other) }
    ensures gone { (capacity : ℕ) (trace : List TraceStep) (ssrc : ℕ) (stay : List TraceStep) →
        stay_of capacity trace ssrc ≡ Some stay → mark_of ssrc stay ≡ None →
        stay_of capacity (source_forgotten ssrc ∷ trace) ssrc ≡ None }
    ensures members { (capacity : ℕ) (trace : List TraceStep) (ssrc : ℕ) →
        members_at capacity (source_forgotten ssrc ∷ trace) ≤ members_at capacity trace }
    ensures senders { (capacity : ℕ) (trace : List TraceStep) (ssrc : ℕ) →
        senders_at capacity (source_forgotten ssrc ∷ trace) ≤ senders_at capacity trace }
{}

/// A fact that is no BYE never lowers the members of a trace.
#[tactic(auto, using(crate::proofs::standing::Growing::members_stay))]
pub fn facts_keep_members()
    ensures { (capacity : ℕ) (trace : List TraceStep) (fact : Fact) (moment : ℕ) → is_gone fact ≡ false →
        members_at capacity trace ≤ members_at capacity (fact_came fact moment ∷ trace) }
{}

/// If no source was given more than some number of packets, none was given more than one above it after an
/// RTP packet, nor more than it after any other fact, a check, a block or a source that is forgotten. So `apply` may
/// be called as long as fewer than 2^40 RTP packets came.
pub fn packets_are_few()
    ensures none { (capacity : ℕ) → HasFew 0 (no_members capacity) }
    ensures fact { (packets : ℕ) (table : TableValue) (fact : Fact) (moment : ℕ) → HasFew packets table →
        HasFew (if is_media fact then packets + 1 else packets) (after_fact fact moment table) }
    ensures facts { (packets : ℕ) (table : TableValue) (facts : List Fact) (moment : ℕ) →
        All (λ fact. is_media fact ≡ false) facts →
        HasFew packets table → HasFew packets (after_facts facts moment table) }
    ensures check { (packets : ℕ) (table : TableValue) (horizons : Horizons) → HasFew packets table →
        HasFew packets (after_check horizons table) }
    ensures block { (packets : ℕ) (table : TableValue) (ssrc : ℕ) → HasFew packets table →
        HasFew packets (after_block ssrc table) }
    ensures forgotten { (packets : ℕ) (table : TableValue) (ssrc : ℕ) → HasFew packets table →
        HasFew packets (after_forgetting ssrc table) }
    ensures more { (packets more : ℕ) (table : TableValue) → packets ≤ more → HasFew packets table →
        HasFew more table }
    ensures apply { (packets : ℕ) (table : TableValue) (fact : Fact) → packets < 2 ^ 40 →
        HasFew packets table →
        IfSome (map.get table.entries (subject fact)) IsFew }
{}
