//! How many entries of a list are members and senders (RFC 3550, 6.2.1 and 6.3), and of how many a block is
//! due (6.4).

ghost use Rattle.std.specs.Prelude.{◌≡◌, ◌+◌, ◌≤◌, ◌<◌, ◌^◌, Bool, length, IsTrue, Some};
ghost use Rattle.rtcp_wire.specs.Facts.{is_media};
ghost use Rattle.rtcp_wire.specs.Views.{block_value};
ghost use Rattle.rtcp_wire.specs.Writing.{IsWritableBlock};
ghost use Rattle.rtcp_source.specs.Blocks.{block_for};
ghost use Rattle.rtcp_members.specs.Entries.{is_member, is_sender};
ghost use Rattle.rtcp_members.specs.Pending.{is_due, reported_entry};
ghost use Rattle.rtcp_members.specs.ListViews.{entry_value, lapsed, tally_of, weight_of};
ghost use Rattle.rtcp_members.specs.storage.Standing.{AreRecounted, IsAmong, IsOneMore, roles_differ};
ghost use Rattle.rtcp_members.specs.Tables.{IsFew, counted_of, entry_with_fact, place_of};

use crate::entry::Entry;
use crate::table::Effect;
use rtcp_wire::{Block, Fact};

/// How many members, senders and sources with news there are: of a table, 1,024 at most.
#[derive(Clone, Copy)]
pub struct Counts {
    pub(crate) members: u16,
    pub(crate) senders: u16,
    /// Those of which a block is due.
    pub(crate) due: u16,
}

impl Counts {
    /// Those of no entries.
    pub(crate) fn none() -> Counts
        ensures members { result.members ≡ 0 }
        ensures senders { result.senders ≡ 0 }
        ensures due { result.due ≡ 0 }
    {
        Counts {
            members: 0,
            senders: 0,
            due: 0,
        }
    }

    /// Counts one entry more.
    pub(crate) fn add(&mut self, entry: &Entry)
        requires members { self.old.members + 1 < 2 ^ 16 }
        requires senders { self.old.senders + 1 < 2 ^ 16 }
        requires due { self.old.due + 1 < 2 ^ 16 }
        ensures { IsOneMore entry.now self.old self.new }
    {
        self.add_roles(entry);
        self.due += u16::from(entry.is_due());
    }

    /// Counts one entry more as a member, and as a sender.
    fn add_roles(&mut self, entry: &Entry)
        requires members { self.old.members + 1 < 2 ^ 16 }
        requires senders { self.old.senders + 1 < 2 ^ 16 }
        ensures members { self.new.members ≡ weight_of is_member entry.now + self.old.members }
        ensures senders { self.new.senders ≡ weight_of is_sender entry.now + self.old.senders }
        ensures due { self.new.due ≡ self.old.due }
    {
        self.members += u16::from(entry.is_member());
        self.senders += u16::from(entry.is_sender());
    }

    /// Counts an entry no more.
    pub(crate) fn remove(&mut self, entry: &Entry)
        requires { IsAmong entry.now self.old }
        ensures { IsOneMore entry.now self.new self.old }
    {
        // one that left counts nowhere
        if entry.left {
            return;
        }
        self.members -= u16::from(entry.is_member());
        self.senders -= u16::from(entry.is_sender());
        self.due -= u16::from(entry.is_due());
    }

    /// A fact comes to an entry that is counted, which is counted anew unless it surely counts as it did.
    #[inline(always)]
    pub(crate) fn apply(&mut self, entry: &mut Entry, fact: Fact, t: u64) -> Effect
        requires few { IsTrue (is_media fact) → IsFew (entry_value entry.old) }
        requires among { IsAmong entry.old self.old }
        requires room { (self.old.members ≤ 1024) × (self.old.senders ≤ 1024) × (self.old.due ≤ 1024) }
        ensures place { (room : Bool) → result.applied.place ≡ place_of fact (Some (entry_value entry.old)) room }
        ensures counted { result.applied.counted ≡ counted_of fact (Some (entry_value entry.old)) }
        ensures moved { result.moved ≡ roles_differ self.old self.new }
        ensures ssrc { entry.new.ssrc ≡ entry.old.ssrc }
        ensures value { entry_value entry.new ≡ entry_with_fact fact t (entry_value entry.old) }
        ensures recounted { AreRecounted entry.old entry.new self.old self.new }
    {
        if entry.keeps_counts(fact) {
            let applied = entry.apply(fact, t);
            let moved = false;
            return Effect { applied, moved };
        }
        let before = *self;
        self.remove(entry);
        let applied = entry.apply(fact, t);
        self.add(entry);
        let moved = self.moved_from(before);
        Effect { applied, moved }
    }

    /// Whether the members or the senders are not as many as they were.
    pub(crate) fn moved_from(&self, before: Counts) -> bool
        ensures { result ≡ roles_differ before self.now }
    {
        self.members != before.members || self.senders != before.senders
    }

    /// The block of an entry that is counted, of which one is due, and after it none.
    #[inline(always)]
    pub(crate) fn report(&mut self, entry: &mut Entry, t: u64) -> Block
        requires due { IsTrue (is_due (entry_value entry.old)) }
        requires among { IsAmong entry.old self.old }
        ensures block { Some (block_value result) ≡ block_for entry.old.ssrc t entry.old.source }
        ensures ssrc { entry.new.ssrc ≡ entry.old.ssrc }
        ensures value { entry_value entry.new ≡ reported_entry (entry_value entry.old) }
        ensures writable { IsWritableBlock (block_value result) }
        ensures recounted { AreRecounted entry.old entry.new self.old self.new }
    {
        self.due -= 1;
        entry.report(t)
    }

    /// Ends the sending of an entry that is counted, if its last counted packet lies before `idle`.
    pub(crate) fn lapse(&mut self, entry: &mut Entry, idle: u64)
        requires { weight_of is_sender entry.old ≤ self.old.senders }
        ensures entry { entry.new ≡ lapsed idle entry.old }
        ensures recounted { AreRecounted entry.old entry.new self.old self.new }
    {
        if !entry.is_idle(idle) {
            return;
        }
        self.senders -= u16::from(entry.is_sender());
        entry.sends = false;
    }
}

/// How many members and senders a list has.
pub(crate) fn tally(entries: &[Entry]) -> Counts
    requires { length entries.now ≤ 1024 }
    ensures members { result.members ≡ tally_of is_member entries.now }
    ensures senders { result.senders ≡ tally_of is_sender entries.now }
{
    let mut counts = Counts::none();
    'entries: for entry in entries {
        counts.add_roles(entry);
    }
    counts
}
