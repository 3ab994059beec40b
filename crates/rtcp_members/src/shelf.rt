//! Entries by rising SSRC, that stay where they are put, with an index and running counts of them.

ghost use Rattle.std.specs.Prelude.{◌≡◌, ℕ, [], ◌<◌, ◌≤◌, ◌-◌, length, slice_index_or, IfSome, IsTrue, is_some, Result};
ghost use Rattle.std.specs.List.{remove};
ghost use Rattle.rtcp_wire.specs.Facts.{is_media, subject};
ghost use Rattle.rtcp_wire.specs.Views.{block_value};
ghost use Rattle.rtcp_members.specs.declared.entry.Entry.{Entry};
ghost use Rattle.rtcp_members.specs.storage.Heaps.{IsIndexed, IsHeap, IsMovedBehind, IsPut, in_order, entries_in};
ghost use Rattle.rtcp_members.specs.ListViews.{checked, entry_value, mark_in, row_of, state_value, IsRankOf};
ghost use Rattle.rtcp_members.specs.Pending.{is_due};
ghost use Rattle.rtcp_members.specs.storage.Index.{AreRising, Finds};
ghost use Rattle.rtcp_members.specs.storage.Shelves.{IsCounted, Joins, LieAsBefore, MakesBlock, TakesFact};
ghost use Rattle.rtcp_members.specs.storage.SortedViews.{IsGapFor, Locates};
ghost use Rattle.rtcp_members.specs.storage.Standing.{AllStandBy, AreCounts, IsMeasured, IsNoLater, RulesOut};
ghost use Rattle.rtcp_members.specs.Tables.{IsFew};
ghost use Rattle.rtcp_members.specs.Listings.{state_of};
ghost use Rattle.rtcp_members.specs.Traces.{horizons_at};

use crate::blocks::Blocks;
use crate::bounds::Bounds;
use crate::cells::{Cell, Slot, exchange, shift, slot_at};
use crate::counts::Counts;
use crate::entry::Entry;
use crate::hints::{hinted, note};
use crate::index::find;
use crate::state::SourceState;
use crate::table::Effect;
use rtcp_wire::{Block, Fact};
use std::marker::Model;

/// How many entries a walk over all covers before it looks whether there is something to do.
const STRIDE: usize = 32;

/// Entries by rising SSRC. Each lies in one cell from when it is put in until it is dropped, and slots say where, by
/// rank: those of the entries in use, and then those of cells that are free. A search reads slots alone, and an
/// insert moves slots, which lie side by side, and no entry. Whatever changes an entry counts it anew. No call takes
/// memory.
#[derive(Drop)]
pub struct Shelf<C: Blocks<Cell>, S: Blocks<Slot>> {
    cells: C,
    slots: S,
    used: usize,
    counts: Counts,
}

impl<C: Blocks<Cell>, S: Blocks<Slot>> Model for Shelf<C, S> {
    ghost use Rattle.rtcp_members.specs.storage.Heaps.{in_order};
    ghost use Rattle.rtcp_members.specs.storage.Shelves.{IsShelf, ShelfValue};

    ghost Value = { ShelfValue };

    ghost view = { λ s.
        record {
          items = in_order (C.items s.cells) (S.items s.slots) s.used;
          room = C.room s.cells;
          block = C.block s.cells;
          index_block = S.block s.slots;
        } };

    ghost invariant = { λ s.
        IsShelf (C.items s.cells) (S.items s.slots) s.used (C.room s.cells) (S.room s.slots) s.counts };
}

impl<C: Blocks<Cell>, S: Blocks<Slot>> Shelf<C, S> {
    /// A shelf without entries, over blocks without any.
    pub(crate) fn over(cells: C, slots: S) -> Shelf<C, S>
        requires vacant { C.items cells ≡ [] }
        requires vacant_index { S.items slots ≡ [] }
        requires few { C.room cells ≤ 1024 }
        requires as_many { C.room cells ≤ S.room slots }
        ensures vacant { result.items ≡ [] }
        ensures room { result.room ≡ C.room cells }
    {
        Shelf {
            cells,
            slots,
            used: 0,
            counts: Counts::none(),
        }
    }

    #[inline(always)]
    pub(crate) fn len(&self) -> usize
        ensures { result ≡ length self.now.items }
    {
        self.used
    }

    /// How many of its entries are members and senders, and of how many a block is due.
    #[inline(always)]
    pub(crate) fn counts(&self) -> Counts
        ensures { AreCounts result self.now.items }
    {
        self.counts
    }

    /// The SSRC of a rank.
    #[inline(always)]
    pub(crate) fn ssrc_at(&self, at: usize) -> u32
        requires { at < length self.now.items }
        ensures { IsRankOf result self.now.items at }
    {
        slot_at(self.in_use(), at).ssrc
    }

    /// The slots in use.
    #[inline(always)]
    fn in_use(&self) -> &[Slot]
        ensures as_many { length result.now ≡ length self.now.items }
        ensures few { length result.now ≤ 1024 }
        ensures rising { AreRising result.now }
        ensures found { (ssrc : ℕ) (found : Result ℕ ℕ) → Finds ssrc result.now found →
            Locates ssrc self.now.items found }
    {
        &self.slots.as_slice()[..self.used]
    }

    /// The entry of a rank.
    #[inline(always)]
    fn entry_at(&self, at: usize) -> &Entry
        requires { at < length self.now.items }
        ensures { (d : Entry) → result.now ≡ slice_index_or self.now.items at d }
    {
        let place = slot_at(self.slots.as_slice(), at).place;
        let cell = &self.cells.as_slice()[place as usize];
        &cell.entry
    }

    /// The rank of a source, if the hint at it says so.
    #[inline(always)]
    pub(crate) fn hinted(&self, ssrc: u32) -> Option<usize>
        ensures { IfSome result (IsRankOf ssrc self.now.items) }
    {
        let rank = self.hint(ssrc);
        if rank < self.used && self.ssrc_at(rank) == ssrc {
            return Some(rank);
        }
        None
    }

    /// The rank that the hint at a source says.
    #[inline(always)]
    pub(crate) fn hint(&self, ssrc: u32) -> usize {
        hinted(self.cells.as_slice(), ssrc)
    }

    /// Makes the hint at a source say this rank.
    #[inline(always)]
    pub(crate) fn note(&mut self, ssrc: u32, rank: usize)
        ensures { self.new ≡ self.old }
    {
        note(self.cells.as_mut_slice(), ssrc, rank);
    }

    /// The rank of a source, or else that which it would have.
    pub(crate) fn find(&self, ssrc: u32) -> Result<usize, usize>
        ensures { Locates ssrc self.now.items result }
    {
        find(self.in_use(), ssrc)
    }

    /// Whether a block is due of the source of a rank.
    #[inline(always)]
    pub(crate) fn is_due_at(&self, at: usize) -> bool
        requires { at < length self.now.items }
        ensures { (d : Entry) → result ≡ is_due (entry_value (slice_index_or self.now.items at d)) }
    {
        self.entry_at(at).is_due()
    }

    /// What is told of the source of a rank.
    #[inline(always)]
    pub(crate) fn state(&self, at: usize) -> SourceState
        requires { at < length self.now.items }
        ensures { (d : Entry) → state_value result ≡ state_of (row_of (slice_index_or self.now.items at d)) }
    {
        self.entry_at(at).state()
    }

    /// A fact comes to the source of a rank.
    #[inline(always)]
    pub(crate) fn apply(&mut self, at: usize, fact: Fact, t: u64) -> Effect
        requires stands { at < length self.old.items }
        requires few { (d : Entry) → IsTrue (is_media fact) →
            IsFew (entry_value (slice_index_or self.old.items at d)) }
        ensures taken { TakesFact fact t self.old.items self.new.items at result }
        ensures in_place { LieAsBefore self.old self.new }
    {
        let (slots, used, counts) = (self.slots.as_slice(), self.used, &mut self.counts);
        apply_at(self.cells.as_mut_slice(), slots, used, counts, at, fact, t)
    }

    /// The block of the source of a rank, where one is due.
    pub(crate) fn report(&mut self, at: usize, t: u64) -> Block
        requires stands { at < length self.old.items }
        requires due { (d : Entry) → IsTrue (is_due (entry_value (slice_index_or self.old.items at d))) }
        ensures made { MakesBlock t self.old.items self.new.items at (block_value result) }
        ensures in_place { LieAsBefore self.old self.new }
    {
        let (slots, used, counts) = (self.slots.as_slice(), self.used, &mut self.counts);
        report_at(self.cells.as_mut_slice(), slots, used, counts, at, t)
    }

    /// Puts an entry for the source of a fact into the gap for it.
    // The slots after those in use stay where they are, except the one that the new slot replaces.
    #[inline(never)]
    pub(crate) fn join(&mut self, gap: usize, fact: Fact, t: u64)
        requires gap { IsGapFor (subject fact) self.old.items gap }
        requires room { length self.old.items < self.old.room }
        ensures joined { Joins fact t self.old.items self.new.items gap }
        ensures in_place { LieAsBefore self.old self.new }
    {
        let mut entry = Entry::new(fact.ssrc());
        let _ = entry.take_fact(fact, t);
        self.counts.add(&entry);
        let ssrc = entry.ssrc;
        let place = lay(&mut self.cells, &mut self.slots, self.used, entry);
        shift(
            self.slots.as_mut_slice(),
            gap,
            self.used,
            Slot { ssrc, place },
        );
        self.used += 1;
    }

    /// Whether the source of a rank sent a BYE.
    #[inline(always)]
    pub(crate) fn is_marked_at(&self, at: usize) -> bool
        requires { at < length self.now.items }
        ensures { (d : Entry) → result ≡ is_some (mark_in (slice_index_or self.now.items at d)) }
    {
        self.entry_at(at).mark().is_some()
    }

    /// Drops the entry of a rank, and leaves its cell free.
    pub(crate) fn remove(&mut self, at: usize)
        requires { at < length self.old.items }
        ensures items { self.new.items ≡ remove self.old.items at }
        ensures in_place { LieAsBefore self.old self.new }
    {
        let (slots, used, counts) = (self.slots.as_mut_slice(), self.used, &mut self.counts);
        remove_at(self.cells.as_mut_slice(), slots, used, counts, at);
        self.used -= 1;
    }

    /// Bounds of the entries which these horizons do not pass, if it finds such: then the check leaves each entry as
    /// it is.
    // In order of memory, over free cells too: what is left in these keeps no check from being ruled out. Where a check
    // changes something, the walk ends soon: all horizons are looked at, but only after every 32 entries.
    pub(crate) fn bounds_if_left(&self, silent: u64, idle: u64, gone: u64) -> Option<Bounds>
        ensures { IfSome result (RulesOut (horizons_at silent idle gone) self.now.items) }
    {
        let mut bounds = Bounds::none();
        let mut rest = self.cells.as_slice();
        'strides: while !rest.is_empty() {
            let (stride, others) = rest.split_at(rest.len().min(STRIDE));
            cover_all(&mut bounds, stride);
            if !bounds.reach(silent, idle, gone) {
                return None;
            }
            rest = others;
        }
        Some(bounds)
    }

    /// Drops the entries that do not outlast a check, and ends the sending of the idle ones. Returns the bounds of
    /// those that stay.
    pub(crate) fn drop_silent(&mut self, silent: u64, idle: u64, gone: u64) -> Bounds
        ensures items { self.new.items ≡ checked (horizons_at silent idle gone) self.old.items }
        ensures in_place { LieAsBefore self.old self.new }
        ensures stand { AllStandBy result self.new.items }
    {
        let (used, counts) = (self.used, self.counts);
        let (cells, slots) = (self.cells.as_mut_slice(), self.slots.as_mut_slice());
        let (kept, counts, bounds) = drop_silent(cells, slots, used, counts, silent, idle, gone);
        self.used = kept;
        self.counts = counts;
        bounds
    }
}

/// Lowers bounds to the entries of cells.
#[inline(always)]
fn cover_all(bounds: &mut Bounds, cells: &[Cell])
    ensures no_later { IsNoLater bounds.new bounds.old }
    ensures stand { AllStandBy bounds.new (entries_in cells.now) }
{
    'cells: for cell in cells {
        bounds.cover(&cell.entry);
    }
}

/// Lays an entry in a free cell, or else in a new one. Returns its place, which no slot has but the first behind those
/// in use.
#[inline(always)]
fn lay<C: Blocks<Cell>, S: Blocks<Slot>>(
    cells: &mut C,
    slots: &mut S,
    used: usize,
    entry: Entry,
) -> u32
    requires sound { IsHeap (entries_in (C.items cells.old)) (S.items slots.old) used }
    requires room { used < C.room cells.old }
    requires index_room { C.room cells.old ≤ S.room slots.old }
    ensures put { IsPut (entries_in (C.items cells.old)) (entries_in (C.items cells.new))
        (S.items slots.old) (remove (S.items slots.new) used) used result entry }
    ensures end { used < length (S.items slots.new) }
    ensures fits { length (C.items cells.new) ≤ C.room cells.new }
    ensures room { C.room cells.new ≡ C.room cells.old }
    ensures index_room { S.room slots.new ≡ S.room slots.old }
    ensures in_place { C.block cells.new ≡ C.block cells.old }
    ensures index_in_place { S.block slots.new ≡ S.block slots.old }
{
    let count = cells.as_slice().len();
    if used == count {
        cells.push(Cell::of(entry));
        slots.push(Slot::none());
        return count as u32;
    }
    let place = slot_at(slots.as_slice(), used).place;
    let cell = &mut cells.as_mut_slice()[place as usize];
    cell.entry = entry;
    place
}

/// A fact comes to the entry of a rank, which is counted anew.
#[inline(always)]
fn apply_at(
    cells: &mut [Cell],
    slots: &[Slot],
    used: usize,
    counts: &mut Counts,
    at: usize,
    fact: Fact,
    t: u64,
) -> Effect
    requires kept { IsCounted cells.old slots.now used counts.old }
    requires stands { at < used }
    requires few { (d : Entry) → IsTrue (is_media fact) →
        IsFew (entry_value (slice_index_or (in_order cells.old slots.now used) at d)) }
    ensures kept { IsCounted cells.new slots.now used counts.new }
    ensures as_many { length cells.new ≡ length cells.old }
    ensures taken { TakesFact fact t (in_order cells.old slots.now used) (in_order cells.new slots.now used) at
        result }
{
    let place = slot_at(slots, at).place;
    let cell = &mut cells[place as usize];
    counts.apply(&mut cell.entry, fact, t)
}

/// The block of the source of a rank, where one is due: then it is counted anew.
fn report_at(
    cells: &mut [Cell],
    slots: &[Slot],
    used: usize,
    counts: &mut Counts,
    at: usize,
    t: u64,
) -> Block
    requires kept { IsCounted cells.old slots.now used counts.old }
    requires stands { at < used }
    requires due { (d : Entry) →
        IsTrue (is_due (entry_value (slice_index_or (in_order cells.old slots.now used) at d))) }
    ensures kept { IsCounted cells.new slots.now used counts.new }
    ensures as_many { length cells.new ≡ length cells.old }
    ensures made { MakesBlock t (in_order cells.old slots.now used) (in_order cells.new slots.now used) at
        (block_value result) }
{
    let place = slot_at(slots, at).place;
    let cell = &mut cells[place as usize];
    counts.report(&mut cell.entry, t)
}

/// Drops the entry of a rank, which is counted no more: one rank fewer is in use then.
fn remove_at(cells: &mut [Cell], slots: &mut [Slot], used: usize, counts: &mut Counts, at: usize)
    requires kept { IsCounted cells.old slots.old used counts.old }
    requires stands { at < used }
    ensures kept { IsCounted cells.new slots.new (used - 1) counts.new }
    ensures as_many { length cells.new ≡ length cells.old }
    ensures as_many_slots { length slots.new ≡ length slots.old }
    ensures items { in_order cells.new slots.new (used - 1) ≡ remove (in_order cells.old slots.old used) at }
{
    let place = slot_at(slots, at).place;
    let cell = &mut cells[place as usize];
    counts.remove(&cell.entry);
    cell.entry.retire();
    move_behind(slots, used, at);
}

/// Moves the slot of a rank behind the others in use: each from there on comes one rank down.
fn move_behind(slots: &mut [Slot], used: usize, at: usize)
    requires stands { at < used }
    requires in_use { used ≤ length slots.old }
    ensures { IsMovedBehind slots.old slots.new used at }
{
    slots[at..used].rotate_left(1);
}

/// Drops the entries that do not outlast a check. Returns how many stay, with their counts and bounds.
// One walk, in which only an entry that changes is counted anew; no slot is written before one is dropped.
fn drop_silent(
    cells: &mut [Cell],
    slots: &mut [Slot],
    used: usize,
    counts: Counts,
    silent: u64,
    idle: u64,
    gone: u64,
) -> (usize, Counts, Bounds)
    requires { IsCounted cells.old slots.old used counts }
    ensures indexed { IsIndexed cells.new slots.new result.0 }
    ensures as_many { length cells.new ≡ length cells.old }
    ensures as_many_slots { length slots.new ≡ length slots.old }
    ensures items { in_order cells.new slots.new result.0
        ≡ checked (horizons_at silent idle gone) (in_order cells.old slots.old used) }
    ensures measured { IsMeasured result.1 result.2 (in_order cells.new slots.new result.0) }
{
    let mut counts = counts;
    let mut bounds = Bounds::none();
    let mut kept = 0;
    'ranks: for at in 0..used {
        let place = slot_at(slots, at).place;
        let cell = &mut cells[place as usize];
        if !cell.entry.stays(silent, gone) {
            counts.remove(&cell.entry);
            cell.entry.retire();
            continue;
        }
        counts.lapse(&mut cell.entry, idle);
        bounds.cover(&cell.entry);
        exchange(slots, kept, at);
        kept += 1;
    }
    (kept, counts, bounds)
}
