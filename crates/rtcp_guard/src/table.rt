//! The table of claims.

ghost use Rattle.std.specs.Prelude.{◌≡◌, ◌≤◌, ◌<◌, ◌+◌, ◌^◌, [], length, IfOk, IfSome, Some, false, set, true};
ghost use Rattle.std.specs.List.{insert};
ghost use Rattle.rtcp_guard.specs.Claims.{after_lapse, goodbyes_of, held, owner_in, with_goodbye, with_name, with_names};
ghost use Rattle.rtcp_guard.specs.Tables.{AreFewGoodbyes, AreRising, AreRisingNames, AreUnclaimed, IsGap, IsRankOf, IsTally, Locates};

use crate::cells::{Cell, count, hinted, note, oldest, search, settle_last};
use crate::merging::{lengthen, merge, put_once};
use crate::naming::Names;
use crate::tallies::{Tallies, Tally};
use std::alloc::{AllocError, Global};
use std::marker::Model;

/// Claims by rising SSRC in one block of memory, which is taken when the table is made: 24 octets each. It finds a
/// source by a hint or binary search.
#[derive(Drop)]
pub(crate) struct ClaimTable {
    cells: Vec<Cell>,
    /// A moment since which all sources were named: a check that goes by no later one reads no cell.
    oldest: u64,
    tallies: Tallies,
}

impl Model for ClaimTable {
    ghost use Rattle.std.specs.Prelude.{vec_capacity};
    ghost use Rattle.rtcp_guard.specs.Tables.{IsTable, TableValue, claims_in};

    ghost Value = { TableValue };

    ghost view = { λ t. record { items = claims_in t.cells.items; room = vec_capacity t.cells } };

    ghost invariant = { λ t. IsTable (claims_in t.cells.items) (vec_capacity t.cells) t.oldest t.tallies.kept.items };
}

impl ClaimTable {
    /// A table without claims. It takes the memory for all of them here, and none later.
    ///
    /// # Errors
    ///
    /// There is no memory.
    pub(crate) fn with_room(alloc: Global, room: u32) -> Result<ClaimTable, AllocError>
        ensures { IfOk result (λ table. table ≡ record { items = []; room = room }) }
    {
        let cells = Vec::with_capacity(alloc, room as usize)?;
        Ok(ClaimTable {
            cells,
            oldest: u64::MAX,
            tallies: Tallies::none(),
        })
    }

    /// How many claims there are.
    #[inline(always)]
    pub(crate) fn len(&self) -> usize
        ensures { result ≡ length self.now.items }
    {
        self.cells.len()
    }

    /// Which origin a source belongs to.
    pub(crate) fn owner(&self, ssrc: u32) -> Option<u64>
        ensures { result ≡ owner_in ssrc self.now.items }
    {
        match search(&self.cells, ssrc) {
            Ok(at) => Some(self.cells[at].origin),
            Err(_) => None,
        }
    }

    /// The same, by the hint at the source first, which is made to say where it stands.
    #[inline(always)]
    pub(crate) fn owner_hinted(&mut self, ssrc: u32) -> Option<u64>
        ensures owner { result ≡ owner_in ssrc self.old.items }
        ensures kept { self.new ≡ self.old }
    {
        match self.find(ssrc) {
            Ok(at) => Some(self.cells[at].origin),
            Err(_) => None,
        }
    }

    /// How many sources belong to an origin.
    pub(crate) fn count(&mut self, origin: u64) -> usize
        ensures count { result ≡ held origin self.old.items }
        ensures kept { self.new ≡ self.old }
    {
        self.tally(origin).count as usize
    }

    /// How many goodbyes an origin has.
    pub(crate) fn goodbyes(&mut self, origin: u64) -> usize
        ensures goodbyes { result ≡ goodbyes_of origin self.old.items }
        ensures kept { self.new ≡ self.old }
    {
        usize::from(self.tally(origin).goodbyes)
    }

    /// A source is claimed at a moment, whether it was claimed before or not.
    #[inline(always)]
    pub(crate) fn put(&mut self, ssrc: u32, origin: u64, t: u64)
        requires { length (with_name origin t ssrc self.old.items) ≤ self.old.room }
        ensures items { self.new.items ≡ with_name origin t ssrc self.old.items }
        ensures room { self.new.room ≡ self.old.room }
    {
        match self.find(ssrc) {
            Ok(at) => self.write(at, ssrc, origin, t),
            Err(gap) => self.insert(gap, ssrc, origin, t),
        }
    }

    /// Claims a source at a moment if it is this origin's already, and returns whether it is.
    #[inline(always)]
    pub(crate) fn renew_own(&mut self, ssrc: u32, origin: u64, t: u64) -> bool
        ensures own { result ≡ true → owner_in ssrc self.old.items ≡ Some origin }
        ensures items { result ≡ true → self.new.items ≡ with_name origin t ssrc self.old.items }
        ensures kept { result ≡ false → self.new ≡ self.old }
        ensures room { self.new.room ≡ self.old.room }
    {
        let Ok(at) = self.find(ssrc) else {
            return false;
        };
        if self.cells[at].origin != origin {
            return false;
        }
        self.write(at, ssrc, origin, t);
        true
    }

    /// The same as [`ClaimTable::put`] of many sources: those that are new are gathered, and come into the table together.
    #[inline(never)]
    pub(crate) fn put_many(&mut self, names: &[u32], origin: u64, t: u64)
        requires short { length names.now ≤ 512 }
        requires rising { AreRising self.old.items }
        requires room { length (with_names origin t names.now self.old.items) ≤ self.old.room }
        ensures items { self.new.items ≡ with_names origin t names.now self.old.items }
        ensures room { self.new.room ≡ self.old.room }
    {
        let mut fresh = Names::new();
        self.renew_each(names, origin, t, &mut fresh);
        self.insert_all(fresh.as_slice(), origin, t);
    }

    /// A BYE that is passed on speaks of a source, which has one goodbye more if it is claimed.
    pub(crate) fn leave(&mut self, ssrc: u32)
        requires { AreFewGoodbyes (with_goodbye (Some ssrc) self.old.items) }
        ensures items { self.new.items ≡ with_goodbye (Some ssrc) self.old.items }
        ensures room { self.new.room ≡ self.old.room }
    {
        if let Ok(at) = search(&self.cells, ssrc) {
            self.cells[at].leave();
            self.tallies.forget();
        }
    }

    /// Lets the claims lapse whose sources were last named before a moment.
    pub(crate) fn lapse(&mut self, before: u64)
        ensures items { self.new.items ≡ after_lapse before self.old.items }
        ensures room { self.new.room ≡ self.old.room }
    {
        if before > self.oldest {
            self.cells.retain(|cell| cell.is_since(before));
            self.oldest = oldest(&self.cells);
            self.tallies.forget();
        }
    }

    /// How many sources and goodbyes an origin has. All claims are read where that is not known from the last time.
    fn tally(&mut self, origin: u64) -> Tally
        ensures origin { result.origin ≡ origin }
        ensures tally { IsTally self.old.items result }
        ensures kept { self.new ≡ self.old }
    {
        if let Some(tally) = self.tallies.of(origin) {
            return tally;
        }
        let tally = count(&self.cells, origin);
        self.tallies.keep(tally);
        tally
    }

    /// The rank of a source, or else the gap where its claim would stand.
    #[inline(always)]
    fn find(&mut self, ssrc: u32) -> Result<usize, usize>
        ensures located { Locates ssrc self.old.items result }
        ensures kept { self.new ≡ self.old }
    {
        if let Some(at) = self.hinted(ssrc) {
            return Ok(at);
        }
        self.find_noting(ssrc)
    }

    /// The rank of a source, if the hint at it says so.
    #[inline(always)]
    fn hinted(&self, ssrc: u32) -> Option<usize>
        ensures { IfSome result (IsRankOf ssrc self.now.items) }
    {
        let rank = hinted(&self.cells, ssrc);
        if rank < self.cells.len() && self.cells[rank].ssrc == ssrc {
            return Some(rank);
        }
        None
    }

    /// The same without a look at the hint.
    #[inline(never)]
    fn find_noting(&mut self, ssrc: u32) -> Result<usize, usize>
        ensures located { Locates ssrc self.old.items result }
        ensures kept { self.new ≡ self.old }
    {
        let found = search(&self.cells, ssrc);
        if let Ok(at) = found {
            note(&mut self.cells, ssrc, at);
        }
        found
    }

    /// Writes the claim of a rank.
    #[inline(always)]
    fn write(&mut self, at: usize, ssrc: u32, origin: u64, t: u64)
        requires { IsRankOf ssrc self.old.items at }
        ensures items { self.new.items ≡ with_name origin t ssrc self.old.items }
        ensures room { self.new.room ≡ self.old.room }
    {
        let is_moved = self.cells[at].renew(origin, t);
        self.oldest = self.oldest.min(t);
        self.tallies.forget_if(is_moved);
    }

    /// Puts a claim into the gap for it.
    #[inline(never)]
    fn insert(&mut self, gap: usize, ssrc: u32, origin: u64, t: u64)
        requires gap { IsGap ssrc self.old.items gap }
        requires room { length self.old.items < self.old.room }
        ensures items { self.new.items ≡ with_name origin t ssrc self.old.items }
        ensures room { self.new.room ≡ self.old.room }
    {
        let end = self.cells.len();
        let _inserted = self.cells.insert(end, Cell::of(ssrc, origin, t));
        settle_last(&mut self.cells, gap, ssrc);
        self.oldest = self.oldest.min(t);
        self.tallies.forget();
    }

    /// Claims these sources as far as they are claimed already, and gathers the others.
    fn renew_each(&mut self, names: &[u32], origin: u64, t: u64, fresh: &mut Names)
        requires short { length names.now ≤ 512 }
        requires rising { AreRising self.old.items }
        requires none { fresh.old.items ≡ [] }
        ensures rising { AreRising self.new.items }
        ensures names { AreRisingNames fresh.new.items }
        ensures new { AreUnclaimed fresh.new.items self.new.items }
        ensures all { with_names origin t fresh.new.items self.new.items
            ≡ with_names origin t names.now self.old.items }
        ensures room { self.new.room ≡ self.old.room }
    {
        'names: for name in names {
            self.renew_or_gather(*name, origin, t, fresh);
        }
    }

    /// Claims a source if it is claimed already, or else gathers it.
    #[inline(always)]
    fn renew_or_gather(&mut self, name: u32, origin: u64, t: u64, fresh: &mut Names)
        requires rising { AreRising self.old.items }
        requires names { AreRisingNames fresh.old.items }
        requires new { AreUnclaimed fresh.old.items self.old.items }
        requires few { length fresh.old.items < 512 }
        ensures rising { AreRising self.new.items }
        ensures names { AreRisingNames fresh.new.items }
        ensures new { AreUnclaimed fresh.new.items self.new.items }
        ensures few { length fresh.new.items ≤ length fresh.old.items + 1 }
        ensures all { with_names origin t fresh.new.items self.new.items
            ≡ with_name origin t name (with_names origin t fresh.old.items self.old.items) }
        ensures room { self.new.room ≡ self.old.room }
    {
        match self.find(name) {
            Ok(at) => self.write(at, name, origin, t),
            Err(_) => put_once(fresh, name),
        }
    }

    /// Claims new sources, whose names rise.
    fn insert_all(&mut self, fresh: &[u32], origin: u64, t: u64)
        requires names { AreRisingNames fresh.now }
        requires new { AreUnclaimed fresh.now self.old.items }
        requires room { length self.old.items + length fresh.now ≤ self.old.room }
        ensures items { self.new.items ≡ with_names origin t fresh.now self.old.items }
        ensures room { self.new.room ≡ self.old.room }
    {
        let count = self.cells.len();
        lengthen(&mut self.cells, fresh);
        merge(&mut self.cells, count, fresh, origin, t);
        self.oldest = self.oldest.min(t);
        self.tallies.forget();
    }
}
