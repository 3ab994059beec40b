//! What a table keeps of a source (RFC 3550, 6.2.1, 6.3.3 to 6.3.5 and 6.3.7).

ghost use Rattle.std.specs.Prelude.{◌≡◌, ◌+◌, nat_lt, ◌||◌, ◌<◌, ◌^◌, ℕ, None, Some, Bool, IsTrue, not};
ghost use Rattle.rtcp_wire.specs.declared.fact.Fact.TheVariants.{Media};
ghost use Rattle.rtcp_members.specs.Listings.{state_of};
ghost use Rattle.rtcp_members.specs.ListViews.{entry_value, mark_in, sending_in, row_of, state_value, lapses, lapsed, outlasts};
ghost use Rattle.rtcp_wire.specs.Facts.{is_media};
ghost use Rattle.rtcp_members.specs.Traces.{horizons_at};
ghost use Rattle.rtcp_members.specs.Stays.{is_before, is_removed};
ghost use Rattle.rtcp_members.specs.Entries.{is_member, is_sender, still_sending};
ghost use Rattle.rtcp_wire.specs.Views.{block_value};
ghost use Rattle.rtcp_wire.specs.Writing.{IsWritableBlock};
ghost use Rattle.rtcp_source.specs.Blocks.{block_for};
ghost use Rattle.rtcp_members.specs.Pending.{is_due, reported_entry};
ghost use Rattle.rtcp_members.specs.storage.Standing.{KeepsCounts};
ghost use Rattle.rtcp_members.specs.Tables.{new_entry, counts, counted_of, entry_after, entry_with_fact, place_of};

use crate::state::SourceState;
use crate::table::{Applied, Place};
use rtcp_clock::rtp_units;
use rtcp_source::Source;
use rtcp_wire::{Block, Fact};

/// A source that is present.
#[derive(Drop)]
pub struct Entry {
    pub(crate) ssrc: u32,
    /// Whether it gave its CNAME, or a packet of it was counted.
    pub(crate) valid: bool,
    /// Whether it sent a BYE. This flag and the next stand beside the others, and not in an `Option` of their
    /// moments, so that an entry is small.
    pub(crate) left: bool,
    /// Whether a packet of it was counted before the mark, and no check since had a later horizon for packets.
    pub(crate) sends: bool,
    /// Its last sighting, in microseconds.
    pub(crate) sighting: u64,
    /// The moment of its last counted packet before the mark, if it sends, in microseconds.
    pub(crate) sending: u64,
    pub(crate) source: Source,
    /// When it sent a BYE, if it did, in microseconds. It stands last, as no RTP packet reads it.
    pub(crate) mark: u64,
}

impl Default for Entry {
    fn default() -> Entry {
        Entry::new(0)
    }
}

impl Entry {
    /// A source of which nothing is known.
    pub(crate) fn new(ssrc: u32) -> Entry
        ensures ssrc { result.ssrc ≡ ssrc }
        ensures value { entry_value result ≡ new_entry }
    {
        Entry {
            ssrc,
            valid: false,
            left: false,
            sends: false,
            sighting: 0,
            sending: 0,
            source: Source::new(),
            mark: 0,
        }
    }

    /// When it sent a BYE, in microseconds.
    #[inline(always)]
    pub(crate) fn mark(&self) -> Option<u64>
        ensures { result ≡ mark_in self.now }
    {
        if self.left { Some(self.mark) } else { None }
    }

    /// The moment of its last counted packet before the mark, in microseconds, until a check with a later
    /// horizon for packets.
    #[inline(always)]
    pub(crate) fn sending(&self) -> Option<u64>
        ensures { result ≡ sending_in self.now }
    {
        if self.sends { Some(self.sending) } else { None }
    }

    pub(crate) fn is_member(&self) -> bool
        ensures { result ≡ is_member (entry_value self.now) }
    {
        self.valid && self.mark().is_none()
    }

    pub(crate) fn is_sender(&self) -> bool
        ensures { result ≡ is_sender (entry_value self.now) }
    {
        self.is_member() && self.sending().is_some()
    }

    /// Takes a fact of the source at the moment `t`, where the entry has no mark. Returns whether the fact
    /// was a packet that was counted.
    // Inlined, as the next two are, so that no test of the fact is made where its kind is known.
    #[inline(always)]
    pub(crate) fn take_fact(&mut self, fact: Fact, t: u64) -> bool
        requires { IsTrue (is_media fact) → self.old.source.packets < 2 ^ 40 }
        ensures counted { result ≡ counts fact self.old.source }
        ensures ssrc { self.new.ssrc ≡ self.old.ssrc }
        ensures value { entry_value self.new ≡ entry_after fact t (entry_value self.old) }
    {
        match fact {
            Fact::Gone(_) => {
                self.left = true;
                self.mark = t;
                return false;
            }
            Fact::Heard(_) => {}
            Fact::Named(_) => self.valid = true,
            Fact::Told(_, ntp, rtp) => self.source.saw_sr(ntp, rtp, t),
            Fact::Media(_, seq, timestamp, octets, rate) => {
                return self.take_packet(seq, timestamp, octets, rate, t);
            }
        }
        self.sighting = t;
        false
    }

    /// Takes an RTP packet of the source at the moment `t`, where the entry has no mark. Returns whether it was
    /// counted.
    #[inline(always)]
    fn take_packet(&mut self, seq: u16, timestamp: u32, octets: u64, rate: u32, t: u64) -> bool
        requires { self.old.source.packets < 2 ^ 40 }
        ensures counted { (ssrc : ℕ) → result ≡ counts (Media ssrc seq timestamp octets rate) self.old.source }
        ensures ssrc { self.new.ssrc ≡ self.old.ssrc }
        ensures value { (ssrc : ℕ) → entry_value self.new
            ≡ entry_after (Media ssrc seq timestamp octets rate) t (entry_value self.old) }
    {
        let taken = self
            .source
            .take(seq, timestamp, rtp_units(t, rate), octets, rate);
        let counted = taken.is_counted();
        if counted {
            self.valid = true;
            self.sends = true;
            self.sending = t;
        }
        self.sighting = t;
        counted
    }

    /// A fact of the entry's source comes at the moment `t`.
    #[inline(always)]
    pub(crate) fn apply(&mut self, fact: Fact, t: u64) -> Applied
        requires { IsTrue (is_media fact) → self.old.source.packets < 2 ^ 40 }
        ensures place { (room : Bool) → result.place ≡ place_of fact (Some (entry_value self.old)) room }
        ensures counted { result.counted ≡ counted_of fact (Some (entry_value self.old)) }
        ensures ssrc { self.new.ssrc ≡ self.old.ssrc }
        ensures value { entry_value self.new ≡ entry_with_fact fact t (entry_value self.old) }
    {
        if self.mark().is_some() {
            return Applied {
                place: Place::Ignored,
                counted: false,
            };
        }
        let place = match fact {
            Fact::Gone(_) => Place::Left,
            _ => Place::Kept,
        };
        let counted = self.take_fact(fact, t);
        Applied { place, counted }
    }

    /// Whether a fact of the source surely leaves it counted as it is.
    #[inline(always)]
    pub(crate) fn keeps_counts(&self, fact: Fact) -> bool
        ensures { IsTrue result → KeepsCounts fact (entry_value self.now) }
    {
        match fact {
            Fact::Heard(_) | Fact::Told(_, _, _) => true,
            Fact::Named(_) => self.valid,
            Fact::Media(_, _, _, _, _) => {
                if self.left || !self.valid || !self.sends {
                    return false;
                }
                self.source.has_news()
            }
            Fact::Gone(_) => false,
        }
    }

    /// Whether a block of the source is due.
    pub(crate) fn is_due(&self) -> bool
        ensures { result ≡ is_due (entry_value self.now) }
    {
        self.mark().is_none() && self.source.has_news()
    }

    /// The report block of the source at the moment `t`.
    pub(crate) fn report(&mut self, t: u64) -> Block
        requires { IsTrue (is_due (entry_value self.old)) }
        ensures block { Some (block_value result) ≡ block_for self.old.ssrc t self.old.source }
        ensures ssrc { self.new.ssrc ≡ self.old.ssrc }
        ensures value { entry_value self.new ≡ reported_entry (entry_value self.old) }
        ensures writable { IsWritableBlock (block_value result) }
    {
        self.source.block(self.ssrc, t)
    }

    /// What is told of the source.
    pub(crate) fn state(&self) -> SourceState
        ensures { state_value result ≡ state_of (row_of self.now) }
    {
        SourceState {
            ssrc: self.ssrc,
            is_member: self.is_member(),
            is_sender: self.is_sender(),
            left: self.mark(),
            heard: self.sighting,
            reception: self.source.reception(),
            told: self.source.last_report(),
            last_block: self.source.last_block(),
        }
    }

    /// Takes a check with these horizons: ends the sending of a source whose last counted packet lies before
    /// `idle`, and returns whether the entry stays.
    pub(crate) fn check(&mut self, silent: u64, idle: u64, gone: u64) -> bool
        ensures stays { result
            ≡ not (is_removed (horizons_at silent idle gone) self.old.sighting (mark_in self.old)) }
        ensures entry { self.new ≡ lapsed idle self.old }
    {
        if self.is_idle(idle) {
            self.sends = false;
        }
        self.stays(silent, gone)
    }

    /// Leaves it such that no check goes by it: its source is dropped, and its SSRC alone stays.
    pub(crate) fn retire(&mut self)
        ensures ssrc { self.new.ssrc ≡ self.old.ssrc }
        ensures mark { mark_in self.new ≡ None }
        ensures sending { sending_in self.new ≡ None }
        ensures sighting { self.new.sighting + 1 ≡ 2 ^ 64 }
    {
        self.left = false;
        self.sends = false;
        self.sighting = u64::MAX;
    }

    /// Whether the source's last counted packet lies before `idle`.
    #[inline(always)]
    pub(crate) fn is_idle(&self, idle: u64) -> bool
        ensures { result ≡ lapses idle self.now }
    {
        self.mark().is_none() && self.sending().is_some_and(|sent| sent < idle)
    }

    /// Whether the source was seen lately, and did not leave too long ago.
    #[inline(always)]
    pub(crate) fn stays(&self, silent: u64, gone: u64) -> bool
        ensures { result ≡ not (nat_lt self.now.sighting silent || is_before (mark_in self.now) gone) }
    {
        silent <= self.sighting && self.mark().is_none_or(|mark| gone <= mark)
    }
}
