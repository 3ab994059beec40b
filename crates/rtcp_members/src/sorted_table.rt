//! A table that keeps its entries by rising SSRC, with running counts.

ghost use Rattle.std.specs.Prelude.{◌≡◌, ℕ, [], ◌<◌, ◌≤◌, ◌^◌, false, List, length, filter, take, drop, not, IfSome, IfOk, option_map};
ghost use Rattle.std.specs.FinMap as finite;
ghost use Rattle.rtcp_wire.specs.Facts.{subject};
ghost use Rattle.rtcp_members.specs.Traces.{horizons_at};
ghost use Rattle.rtcp_members.specs.Listings.{first_state};
ghost use Rattle.rtcp_members.specs.Entries.{is_such};
ghost use Rattle.rtcp_members.specs.ListViews.{state_value, rows_of, map_of, table_of, tally_of, IsRankOf};
ghost use Rattle.rtcp_members.specs.storage.Shelves.{Joins, LieAsBefore, tallies_differ};
ghost use Rattle.rtcp_members.specs.storage.SortedViews.{CutsAbove, RanksFirst, IsRising, IsSortedTable, IsGapFor, Locates};
ghost use Rattle.rtcp_members.specs.declared.bounds.Bounds.{Bounds as BoundsOf};
ghost use Rattle.rtcp_members.specs.storage.Standing.{AllStandBy, IsUpTo};
ghost use Rattle.rtcp_members.specs.Pending.{is_due, is_above, pending};
ghost use Rattle.rtcp_members.specs.Tables.{no_members, placed, after_fact, after_check, after_forgetting, is_unmarked, dropped_entries, dropped_senders};

use crate::blocks::Blocks;
use crate::bounds::Bounds;
use crate::cells::{Cell, Slot};
use crate::shelf::Shelf;
use crate::state::SourceState;
use crate::table::{Applied, Dropped, Effect, InlineTable, MAX_CAPACITY, MemberTable, Place};
use arrayvec::ArrayVec;
use rtcp_wire::{Block, Fact};
use std::alloc::{AllocError, Global};
use std::marker::Model;

/// A table of members by rising SSRC, over where its entries lie. It finds a source by a hint or binary search,
/// and knows its counts without a walk. It keeps bounds of what a check goes by, so a check that they rule out
/// reads no entry. No call allocates.
#[derive(Drop)]
pub struct Sorted<C: Blocks<Cell>, S: Blocks<Slot>> {
    capacity: u16,
    /// Where the source of the last block stands, or would.
    last_rank: u16,
    entries: Shelf<C, S>,
    /// Up to which moments a check changes nothing.
    bounds: Bounds,
}

impl<C: Blocks<Cell>, S: Blocks<Slot>> Model for Sorted<C, S> {
    ghost use Rattle.rtcp_members.specs.Tables.{TableValue};
    ghost use Rattle.rtcp_members.specs.Codes.{table_code};
    ghost use Rattle.rtcp_members.specs.ListViews.{table_of};
    ghost use Rattle.rtcp_members.specs.storage.Standing.{IsKept};

    ghost Value = { TableValue };

    ghost coded = { table_code };

    ghost view = { λ t. table_of t.capacity t.entries.items };

    ghost invariant = { λ t. IsKept t.capacity t.entries.room t.bounds t.entries.items };
}

/// A sorted table with room for 1,024 entries in itself, whatever its capacity: some 148 KB.
pub type SortedTable = Sorted<ArrayVec<Cell, MAX_CAPACITY>, ArrayVec<Slot, MAX_CAPACITY>>;

/// A sorted table whose entries and index lie in two blocks of memory of their own, with room for its capacity: for
/// each source 136 octets, of which 8 are for hints, and 8 octets. The blocks are taken when the table is made, and
/// none later.
pub type HeapTable = Sorted<Vec<Cell>, Vec<Slot>>;

impl InlineTable for SortedTable {
    fn empty(capacity: u32) -> SortedTable {
        Sorted::over(ArrayVec::new(), ArrayVec::new(), capacity)
    }
}

impl Sorted<Vec<Cell>, Vec<Slot>> {
    /// A table without entries, for at most `capacity` of them, from 1 to 1,024. It takes the memory
    /// for all of them here, and none later.
    ///
    /// # Errors
    ///
    /// There is no memory.
    pub fn with_room(alloc: Global, capacity: u32) -> Result<HeapTable, AllocError>
        requires some { 1 ≤ capacity }
        requires few { capacity ≤ 1024 }
        ensures { IfOk result (λ table. table ≡ no_members capacity) }
    {
        let cells = Vec::with_capacity(alloc, capacity as usize)?;
        let slots = Vec::with_capacity(alloc, capacity as usize)?;
        Ok(Sorted::over(cells, slots, capacity))
    }
}

impl<C: Blocks<Cell>, S: Blocks<Slot>> Sorted<C, S> {
    /// A table without entries, over a block without cells.
    fn over(cells: C, slots: S, capacity: u32) -> Sorted<C, S>
        requires few { C.room cells ≤ 1024 }
        requires vacant { C.items cells ≡ [] }
        requires vacant_index { S.items slots ≡ [] }
        requires room { capacity ≤ C.room cells }
        requires index_room { C.room cells ≤ S.room slots }
        ensures { result ≡ no_members capacity }
    {
        Sorted {
            capacity: capacity as u16,
            last_rank: 0,
            entries: Shelf::over(cells, slots),
            bounds: Bounds::none(),
        }
    }

    /// Makes a check that the bounds do not rule out, and finds them anew. Where it changes nothing, it only reads.
    #[inline(never)]
    fn sweep(&mut self, silent: u64, idle: u64, gone: u64) -> Dropped
        ensures entries { result.entries ≡ dropped_entries (horizons_at silent idle gone) self.old }
        ensures senders { result.senders ≡ dropped_senders (horizons_at silent idle gone) self.old }
        ensures content { self.new ≡ after_check (horizons_at silent idle gone) self.old }
    {
        if let Some(bounds) = self.entries.bounds_if_left(silent, idle, gone) {
            self.bounds = bounds;
            return Dropped {
                entries: 0,
                senders: 0,
            };
        }
        let (entries, senders) = (self.entries.len(), self.entries.counts().senders);
        self.bounds = self.entries.drop_silent(silent, idle, gone);
        let removed = (entries - self.entries.len()) as u32;
        let ended = senders - self.entries.counts().senders;
        Dropped {
            entries: removed,
            senders: u32::from(ended),
        }
    }
}

impl<C: Blocks<Cell>, S: Blocks<Slot>> MemberTable for Sorted<C, S> {
    ghost content = { λ t. t };

    #[inline(always)]
    fn apply(&mut self, fact: Fact, t: u64) -> Applied {
        self.apply_fact(fact, t).applied
    }

    // Inlined, with what it does to an entry, so that where the kind of a fact is known nothing is asked of it.
    #[inline(always)]
    fn apply_fact(&mut self, fact: Fact, t: u64) -> Effect {
        self.bounds.lower(fact, t);
        let ssrc = fact.ssrc();
        match search_hinted(&mut self.entries, ssrc) {
            Ok(at) => self.entries.apply(at, fact, t),
            Err(gap) => {
                let capacity = u32::from(self.capacity);
                admit(&mut self.entries, capacity, gap, fact, t)
            }
        }
    }

    fn check(
        &mut self,
        _t: u64,
        silent_before: u64,
        data_before: u64,
        gone_before: u64,
    ) -> Dropped {
        if self.bounds.reach(silent_before, data_before, gone_before) {
            return Dropped {
                entries: 0,
                senders: 0,
            };
        }
        self.sweep(silent_before, data_before, gone_before)
    }

    #[inline(always)]
    fn lasts_through(&self, silent_before: u64, data_before: u64, gone_before: u64) -> bool {
        self.bounds.reach(silent_before, data_before, gone_before)
    }

    fn forget(&mut self, ssrc: u32) -> bool {
        match self.entries.find(ssrc) {
            Ok(at) => forget_at(&mut self.entries, at, ssrc),
            Err(_) => false,
        }
    }

    fn holds(&self, ssrc: u32) -> bool {
        self.entries.find(ssrc).is_ok()
    }

    fn entries(&self) -> u32 {
        self.entries.len() as u32
    }

    fn members(&self) -> u32 {
        u32::from(self.entries.counts().members)
    }

    fn senders(&self) -> u32 {
        u32::from(self.entries.counts().senders)
    }

    fn next_with_news(&self, after: Option<u32>) -> Option<u32> {
        match next_due(&self.entries, usize::from(self.last_rank), after) {
            Some(at) => Some(self.entries.ssrc_at(at)),
            None => None,
        }
    }

    // The blocks of a report go by rising SSRC, so the rank after the last one is looked at first.
    fn block_of(&mut self, ssrc: u32, t: u64) -> Block {
        let next = usize::from(self.last_rank) + 1;
        let at = search(&self.entries, next, ssrc).unwrap();
        self.last_rank = at as u16;
        self.entries.report(at, t)
    }

    // The source is not searched for again: its rank is known once it is found to be the next.
    fn next_block(&mut self, after: Option<u32>, t: u64) -> Option<Block> {
        match next_due(&self.entries, usize::from(self.last_rank), after) {
            Some(at) => {
                self.last_rank = at as u16;
                Some(self.entries.report(at, t))
            }
            None => None,
        }
    }

    // By the hint at the source of `after`, which most likely says where that stands.
    #[inline]
    fn source_above(&self, after: Option<u32>) -> Option<SourceState> {
        let entries = &self.entries;
        let rank = match after {
            Some(ssrc) => entries.hint(ssrc),
            None => 0,
        };
        state_at(entries, first_above(entries, rank, after))
    }

    // Inlined: where a walk goes on, neither a rank nor a state is passed by memory.
    #[inline(always)]
    fn source_from(&self, after: Option<u32>, rank: &mut usize) -> Option<SourceState> {
        let entries = &self.entries;
        *rank = first_above(entries, *rank, after);
        state_at(entries, *rank)
    }
}

/// The rank of the entry of a source, or else the gap where it would stand. The hint at the source is looked at first,
/// and made to say the rank where it did not.
// Inlined, with the rest apart: a source that was found before is not searched for.
#[inline(always)]
fn search_hinted<C: Blocks<Cell>, S: Blocks<Slot>>(
    entries: &mut Shelf<C, S>,
    ssrc: u32,
) -> Result<usize, usize>
    ensures located { Locates ssrc entries.new.items result }
    ensures kept { entries.new ≡ entries.old }
{
    if let Some(at) = entries.hinted(ssrc) {
        return Ok(at);
    }
    search_noting(entries, ssrc)
}

/// The same without a look at the hint.
#[inline(never)]
fn search_noting<C: Blocks<Cell>, S: Blocks<Slot>>(
    entries: &mut Shelf<C, S>,
    ssrc: u32,
) -> Result<usize, usize>
    ensures located { Locates ssrc entries.new.items result }
    ensures kept { entries.new ≡ entries.old }
{
    let found = entries.find(ssrc);
    if let Ok(at) = found {
        entries.note(ssrc, at);
    }
    found
}

/// The same without hints. This rank is looked at first.
#[inline(always)]
fn search<C: Blocks<Cell>, S: Blocks<Slot>>(
    entries: &Shelf<C, S>,
    rank: usize,
    ssrc: u32,
) -> Result<usize, usize>
    ensures { Locates ssrc entries.now.items result }
{
    if rank < entries.len() && entries.ssrc_at(rank) == ssrc {
        return Ok(rank);
    }
    entries.find(ssrc)
}

/// A fact comes whose source has no entry. Where it is added, its entry is put into the gap.
// Inlined, with what adds it apart: nothing is made ready for a fact that a full table turns away.
#[inline(always)]
fn admit<C: Blocks<Cell>, S: Blocks<Slot>>(
    entries: &mut Shelf<C, S>,
    capacity: u32,
    gap: usize,
    fact: Fact,
    t: u64,
) -> Effect
    requires sorted { IsSortedTable capacity entries.old.items }
    requires room { capacity ≤ entries.old.room }
    requires gap { IsGapFor (subject fact) entries.old.items gap }
    ensures sorted { IsSortedTable capacity entries.new.items }
    ensures in_place { LieAsBefore entries.old entries.new }
    ensures place { result.applied.place ≡ placed (table_of capacity entries.old.items) fact }
    ensures counted { result.applied.counted ≡ false }
    ensures moved { result.moved ≡ tallies_differ entries.old.items entries.new.items }
    ensures stand { (bounds : BoundsOf) → IsUpTo bounds fact t → AllStandBy bounds entries.old.items →
        AllStandBy bounds entries.new.items }
    ensures table { table_of capacity entries.new.items
        ≡ after_fact fact t (table_of capacity entries.old.items) }
{
    if fact.is_goodbye() {
        return without_an_entry(Place::Ignored);
    }
    if entries.len() >= capacity as usize {
        return without_an_entry(Place::NoRoom);
    }
    let moved = add(entries, gap, fact, t);
    Effect {
        applied: Applied {
            place: Place::Added,
            counted: false,
        },
        moved,
    }
}

/// What a fact did whose source got no entry.
#[inline(always)]
fn without_an_entry(place: Place) -> Effect
    ensures place { result.applied.place ≡ place }
    ensures counted { result.applied.counted ≡ false }
    ensures moved { result.moved ≡ false }
{
    let applied = Applied {
        place,
        counted: false,
    };
    Effect {
        applied,
        moved: false,
    }
}

/// Puts an entry for the source of a fact into the gap for it. Returns whether that changed who is a member or who
/// sends.
#[inline(always)]
fn add<C: Blocks<Cell>, S: Blocks<Slot>>(
    entries: &mut Shelf<C, S>,
    gap: usize,
    fact: Fact,
    t: u64,
) -> bool
    requires gap { IsGapFor (subject fact) entries.old.items gap }
    requires room { length entries.old.items < entries.old.room }
    ensures joined { Joins fact t entries.old.items entries.new.items gap }
    ensures in_place { LieAsBefore entries.old entries.new }
    ensures moved { result ≡ tallies_differ entries.old.items entries.new.items }
{
    let before = entries.counts();
    entries.join(gap, fact, t);
    entries.note(fact.ssrc(), gap);
    entries.counts().moved_from(before)
}

/// Drops the entry of a source, which stands at `at`, unless the source sent a BYE. Returns whether it dropped it.
fn forget_at<C: Blocks<Cell>, S: Blocks<Slot>>(
    entries: &mut Shelf<C, S>,
    at: usize,
    ssrc: u32,
) -> bool
    requires rank { IsRankOf ssrc entries.old.items at }
    requires rising { IsRising entries.old.items }
    ensures sorted { (capacity : ℕ) → IsSortedTable capacity entries.old.items →
        IsSortedTable capacity entries.new.items }
    ensures stand { (bounds : BoundsOf) → AllStandBy bounds entries.old.items →
        AllStandBy bounds entries.new.items }
    ensures in_place { LieAsBefore entries.old entries.new }
    ensures held { result ≡ is_such is_unmarked (finite.get (map_of entries.old.items) ssrc) }
    ensures table { (capacity : ℕ) →
        table_of capacity entries.new.items ≡ after_forgetting ssrc (table_of capacity entries.old.items) }
{
    if entries.is_marked_at(at) {
        return false;
    }
    entries.remove(at);
    true
}

/// How many entries have no SSRC above `above`: where the others begin. That is after the entry of `above`, if it is
/// there; in a report, and in a listing, it is, and most likely at the last rank.
#[inline(always)]
fn first_above<C: Blocks<Cell>, S: Blocks<Slot>>(
    entries: &Shelf<C, S>,
    last_rank: usize,
    above: Option<u32>,
) -> usize
    requires rising { IsRising entries.now.items }
    requires few { length entries.now.items ≤ 1024 }
    ensures { CutsAbove above entries.now.items result }
{
    let Some(above) = above else {
        return 0;
    };
    match search(entries, last_rank, above) {
        Ok(at) => at + 1,
        Err(gap) => gap,
    }
}

/// What is told of the source whose entry stands at `at`, if one does.
#[inline(always)]
fn state_at<C: Blocks<Cell>, S: Blocks<Slot>>(
    entries: &Shelf<C, S>,
    at: usize,
) -> Option<SourceState>
    ensures { option_map state_value result ≡ first_state (rows_of (drop at entries.now.items)) }
{
    if at >= entries.len() {
        return None;
    }
    Some(entries.state(at))
}

/// The rank of the first pending source after `after`. The last rank is looked at first.
#[inline(always)]
fn next_due<C: Blocks<Cell>, S: Blocks<Slot>>(
    entries: &Shelf<C, S>,
    last_rank: usize,
    after: Option<u32>,
) -> Option<usize>
    requires rising { IsRising entries.now.items }
    requires few { length entries.now.items ≤ 1024 }
    ensures { (capacity : ℕ) →
        RanksFirst (pending after (table_of capacity entries.now.items)) entries.now.items result }
{
    if entries.counts().due == 0 {
        return None;
    }
    let first = first_above(entries, last_rank, after);
    match first_due(entries, first, entries.len()) {
        Some(at) => Some(at),
        None => first_due(entries, 0, first),
    }
}

/// The rank of the first source of which a block is due, among those that stand from `from` on and before `until`.
fn first_due<C: Blocks<Cell>, S: Blocks<Slot>>(
    entries: &Shelf<C, S>,
    from: usize,
    until: usize,
) -> Option<usize>
    requires rising { IsRising entries.now.items }
    requires ordered { from ≤ until }
    requires bound { until ≤ length entries.now.items }
    ensures { RanksFirst (filter (λ row. is_due row.1) (rows_of (drop from (take until entries.now.items))))
        entries.now.items result }
{
    'entries: for at in from..until {
        if entries.is_due_at(at) {
            return Some(at);
        }
    }
    None
}
