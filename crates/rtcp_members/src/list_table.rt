//! A table that keeps its entries in a list, in order of arrival, and walks it.

ghost use Rattle.std.specs.Prelude.{◌≡◌, ℕ, ◌<◌, ◌^◌, true, List, length, filter, IfSome, MatchOption, IsTrue, Some, None, option_map};
ghost use Rattle.std.specs.FinMap as finite;
ghost use Rattle.rtcp_wire.specs.Facts.{subject, is_media};
ghost use Rattle.rtcp_members.specs.Traces.{horizons_at};
ghost use Rattle.rtcp_members.specs.ListViews.{entry_value, state_value, rows_of, map_of, table_of, tally_of, checked, IsListed, IsRankOf};
ghost use Rattle.rtcp_wire.specs.Views.{block_value};
ghost use Rattle.rtcp_wire.specs.Writing.{IsWritableBlock};
ghost use Rattle.rtcp_members.specs.Entries.{is_member, is_sender, is_such};
ghost use Rattle.rtcp_members.specs.Pending.{is_due, is_above, block_at, after_block};
ghost use Rattle.rtcp_members.specs.Least.{state_for, is_due_above, least, lesser_of};
ghost use Rattle.rtcp_members.specs.Tables.{TableValue, IsApart, IsFew, no_members, placed, counted, after_fact, after_check, after_forgetting, is_unmarked, dropped_entries, dropped_senders, members_in, senders_in, count_in};

use crate::counts::tally;
use crate::entry::Entry;
use crate::state::SourceState;
use crate::table::{Applied, Dropped, InlineTable, MAX_CAPACITY, MemberTable, Place};
use arrayvec::ArrayVec;
use rtcp_wire::{Block, Fact};
use std::marker::Model;

/// A table of members as a list, in order of arrival. Each call walks it, and none allocates.
#[derive(Drop)]
pub struct ListTable {
    capacity: u32,
    entries: ArrayVec<Entry, MAX_CAPACITY>,
}

impl Model for ListTable {
    ghost use Rattle.rtcp_members.specs.Tables.{TableValue};
    ghost use Rattle.rtcp_members.specs.Codes.{table_code};
    ghost use Rattle.rtcp_members.specs.ListViews.{table_of, IsListed};

    ghost Value = { TableValue };

    ghost coded = { table_code };

    ghost view = { λ t. table_of t.capacity t.entries.items };

    ghost invariant = { λ t. IsListed t.capacity t.entries.items };
}

impl InlineTable for ListTable {
    fn empty(capacity: u32) -> ListTable {
        ListTable {
            capacity,
            entries: ArrayVec::new(),
        }
    }
}

impl MemberTable for ListTable {
    ghost content = { λ t. t };

    fn apply(&mut self, fact: Fact, t: u64) -> Applied {
        if let Some(at) = rank_in(self.entries.as_slice(), fact.ssrc()) {
            return apply_at(self.entries.as_mut_slice(), at, fact, t);
        }
        let place = admit(&mut self.entries, self.capacity, fact, t);
        Applied {
            place,
            counted: false,
        }
    }

    fn check(
        &mut self,
        _t: u64,
        silent_before: u64,
        data_before: u64,
        gone_before: u64,
    ) -> Dropped {
        let (entries, senders) = (self.entries.len(), self.senders());
        drop_silent(&mut self.entries, silent_before, data_before, gone_before);
        let removed = (entries - self.entries.len()) as u32;
        let ended = senders - self.senders();
        Dropped {
            entries: removed,
            senders: ended,
        }
    }

    fn forget(&mut self, ssrc: u32) -> bool {
        match rank_in(self.entries.as_slice(), ssrc) {
            Some(at) => forget_at(&mut self.entries, at, ssrc),
            None => false,
        }
    }

    fn holds(&self, ssrc: u32) -> bool {
        rank_in(self.entries.as_slice(), ssrc).is_some()
    }

    fn entries(&self) -> u32 {
        self.entries.len() as u32
    }

    fn members(&self) -> u32 {
        u32::from(tally(self.entries.as_slice()).members)
    }

    fn senders(&self) -> u32 {
        u32::from(tally(self.entries.as_slice()).senders)
    }

    fn next_with_news(&self, after: Option<u32>) -> Option<u32> {
        let entries = self.entries.as_slice();
        match least_due(entries, after) {
            Some(ssrc) => Some(ssrc),
            None => least_due(entries, None),
        }
    }

    fn block_of(&mut self, ssrc: u32, t: u64) -> Block {
        let at = rank_in(self.entries.as_slice(), ssrc).unwrap();
        report_at(self.entries.as_mut_slice(), at, ssrc, t)
    }

    fn source_from(&self, after: Option<u32>, _rank: &mut usize) -> Option<SourceState> {
        let entries = self.entries.as_slice();
        match least_above(entries, after) {
            Some(ssrc) => state_in(entries, ssrc),
            None => None,
        }
    }
}

/// A fact comes to the entry of its source, which stands at `at`.
fn apply_at(entries: &mut [Entry], at: usize, fact: Fact, t: u64) -> Applied
    requires apart { IsApart (rows_of entries.old) }
    requires rank { IsRankOf (subject fact) entries.old at }
    requires few { IsTrue (is_media fact) → IfSome (finite.get (map_of entries.old) (subject fact)) IsFew }
    ensures apart { IsApart (rows_of entries.new) }
    ensures place { (capacity : ℕ) → result.place ≡ placed (table_of capacity entries.old) fact }
    ensures counted { (capacity : ℕ) → result.counted ≡ counted (table_of capacity entries.old) fact }
    ensures table { (capacity : ℕ) →
        table_of capacity entries.new ≡ after_fact fact t (table_of capacity entries.old) }
{
    entries[at].apply(fact, t)
}

/// A fact comes whose source has no entry.
fn admit(entries: &mut ArrayVec<Entry, MAX_CAPACITY>, capacity: u32, fact: Fact, t: u64) -> Place
    requires listed { IsListed capacity entries.old.items }
    requires absent { finite.get (map_of entries.old.items) (subject fact) ≡ None }
    ensures listed { IsListed capacity entries.new.items }
    ensures place { result ≡ placed (table_of capacity entries.old.items) fact }
    ensures table { table_of capacity entries.new.items
        ≡ after_fact fact t (table_of capacity entries.old.items) }
{
    if fact.is_goodbye() {
        return Place::Ignored;
    }
    if entries.len() >= capacity as usize {
        return Place::NoRoom;
    }
    let mut entry = Entry::new(fact.ssrc());
    let _ = entry.take_fact(fact, t);
    entries.push(entry);
    Place::Added
}

/// Drops the entries that do not outlast a check, and ends the sending of the idle ones.
fn drop_silent(entries: &mut ArrayVec<Entry, MAX_CAPACITY>, silent: u64, idle: u64, gone: u64)
    ensures { entries.new.items ≡ checked (horizons_at silent idle gone) entries.old.items }
{
    entries.retain(|entry| entry.check(silent, idle, gone));
}

/// Drops the entry of a source, which stands at `at`, unless the source sent a BYE. Returns whether it dropped it.
fn forget_at(entries: &mut ArrayVec<Entry, MAX_CAPACITY>, at: usize, ssrc: u32) -> bool
    requires apart { IsApart (rows_of entries.old.items) }
    requires rank { IsRankOf ssrc entries.old.items at }
    ensures listed { (capacity : ℕ) → IsListed capacity entries.old.items → IsListed capacity entries.new.items }
    ensures held { result ≡ is_such is_unmarked (finite.get (map_of entries.old.items) ssrc) }
    ensures table { (capacity : ℕ) →
        table_of capacity entries.new.items ≡ after_forgetting ssrc (table_of capacity entries.old.items) }
{
    if entries.as_slice()[at].mark().is_some() {
        return false;
    }
    entries.remove(at);
    true
}

/// The least SSRC above `above` of a source of which a block is due.
fn least_due(entries: &[Entry], above: Option<u32>) -> Option<u32>
    ensures { result ≡ least (is_due_above above) (rows_of entries.now) }
{
    let mut found = None;
    'entries: for entry in entries {
        if entry.is_due() && above.is_none_or(|above| above < entry.ssrc) {
            found = lesser(found, entry.ssrc);
        }
    }
    found
}

/// The least SSRC above `above`.
fn least_above(entries: &[Entry], above: Option<u32>) -> Option<u32>
    ensures { result ≡ least (is_above above) (rows_of entries.now) }
{
    let mut found = None;
    'entries: for entry in entries {
        if above.is_none_or(|above| above < entry.ssrc) {
            found = lesser(found, entry.ssrc);
        }
    }
    found
}

/// What is told of a source, if it has an entry.
fn state_in(entries: &[Entry], ssrc: u32) -> Option<SourceState>
    ensures { option_map state_value result ≡ state_for ssrc (finite.get (map_of entries.now) ssrc) }
{
    match rank_in(entries, ssrc) {
        Some(at) => Some(entries[at].state()),
        None => None,
    }
}

/// The lesser of what was found and of one more SSRC.
fn lesser(found: Option<u32>, ssrc: u32) -> Option<u32>
    ensures { result ≡ lesser_of found (Some ssrc) }
{
    match found {
        Some(least) => Some(least.min(ssrc)),
        None => Some(ssrc),
    }
}

/// The block of the source whose entry stands at `at`.
fn report_at(entries: &mut [Entry], at: usize, ssrc: u32, t: u64) -> Block
    requires apart { IsApart (rows_of entries.old) }
    requires rank { IsRankOf ssrc entries.old at }
    requires due { IsTrue (is_such is_due (finite.get (map_of entries.old) ssrc)) }
    ensures apart { IsApart (rows_of entries.new) }
    ensures block { (capacity : ℕ) →
        Some (block_value result) ≡ block_at ssrc t (table_of capacity entries.old) }
    ensures table { (capacity : ℕ) →
        table_of capacity entries.new ≡ after_block ssrc (table_of capacity entries.old) }
    ensures writable { IsWritableBlock (block_value result) }
{
    entries[at].report(t)
}

/// Where the entry of a source stands, if it has one.
fn rank_in(entries: &[Entry], ssrc: u32) -> Option<usize>
    ensures { MatchOption result (finite.get (map_of entries.now) ssrc
        ≡ None) (λ (at : ℕ). IsRankOf ssrc entries.now at) }
{
    'entries: for at in 0..entries.len() {
        if entries[at].ssrc == ssrc {
            return Some(at);
        }
    }
    None
}
