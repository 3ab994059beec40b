//! Tables of members (RFC 3550, 6.2.1, 6.3.3 to 6.3.5 and 6.3.7).

ghost use Rattle.std.specs.Prelude.{◌≡◌, ◌≤◌, ◌^◌, IfSome, IsTrue, MatchOption, Some, is_some, option_map};
ghost use Rattle.std.specs.FinMap as map;
ghost use Rattle.rtcp_wire.specs.Facts.{subject, is_media};
ghost use Rattle.rtcp_members.specs.Traces.{horizons_at};
ghost use Rattle.rtcp_members.specs.Entries.{is_such};
ghost use Rattle.rtcp_members.specs.Tables.{TableValue, IsFew, LastsThrough, no_members, placed, counted, after_fact, after_check, after_forgetting, is_unmarked, dropped_entries, dropped_senders, members_in, senders_in};
ghost use Rattle.rtcp_wire.specs.Views.{block_value};
ghost use Rattle.rtcp_wire.specs.Writing.{IsWritableBlock};
ghost use Rattle.rtcp_members.specs.Pending.{pending, first_ssrc, is_due_at, block_at, after_block};
ghost use Rattle.rtcp_members.specs.Roles.{counts_differ};
ghost use Rattle.rtcp_members.specs.Listings.{state_above};
ghost use Rattle.rtcp_members.specs.ListViews.{state_value};

use crate::state::SourceState;
use rtcp_wire::{Block, Fact};

/// The greatest capacity of a table.
pub(crate) const MAX_CAPACITY: usize = 1024;

/// What became of a fact.
#[derive(Clone, Copy, Debug, PartialEq, Eq)]
pub enum Place {
    /// The source is present, and the fact is a sighting of it.
    Kept,
    /// The source was not present and has an entry now.
    Added,
    /// The source is not present and the table is full: nothing changed.
    NoRoom,
    /// The source sent a BYE before, or says so without being present: nothing changed.
    Ignored,
    /// The source sends a BYE. Its entry is held, so that late packets do not bring it back, until a check
    /// drops it.
    Left,
}

/// What `apply` returns.
#[derive(Clone, Copy, Debug, PartialEq, Eq)]
pub struct Applied {
    /// What became of the fact.
    pub place: Place,
    /// Whether the fact was an RTP packet that its source counted (RFC 3550, A.1).
    pub counted: bool,
}

/// What a fact did.
#[derive(Clone, Copy, Debug, PartialEq, Eq)]
pub struct Effect {
    /// What `apply` returns.
    pub applied: Applied,
    /// Whether it changed who is a member or who sends.
    pub moved: bool,
}

/// What `check` returns.
#[derive(Clone, Copy, Debug, PartialEq, Eq)]
pub struct Dropped {
    /// How many entries the check removed.
    pub entries: u32,
    /// How many fewer senders there are after the check.
    pub senders: u32,
}

/// A table of the other participants of a session, at most `capacity` of them.
///
/// A contract sees a table as a finite map from SSRC to entry, with its capacity. A table *stands at* the trace of a
/// session (`StandsAt`) where that map is the one computed from the whole trace; after each `apply`, `check`, `forget`
/// and `block_of` it stands at the trace with one step more (`laws`).
pub trait MemberTable {
    ghost content: { Self → TableValue };

    /// A fact came at the moment `t`, in microseconds (RFC 3550, 6.2.1, 6.3.3, 6.3.7). A source takes at most
    /// 2^40 packets, so where the fact is `Media` its source, if present, was given fewer before; any other
    /// fact may always come.
    fn apply(&mut self, fact: Fact, t: u64) -> Applied
        requires { IsTrue (is_media fact) → IfSome (map.get (content self.old).entries (subject fact)) IsFew }
        ensures place { result.place ≡ placed (content self.old) fact }
        ensures counted { result.counted ≡ counted (content self.old) fact }
        ensures content { content self.new ≡ after_fact fact t (content self.old) };

    /// `apply`, for who follows members and senders: it tells, too, whether the fact changed who they are. A fact is
    /// about one source, so it does where their numbers change.
    fn apply_fact(&mut self, fact: Fact, t: u64) -> Effect
        requires { IsTrue (is_media fact) → IfSome (map.get (content self.old).entries (subject fact)) IsFew }
        ensures place { result.applied.place ≡ placed (content self.old) fact }
        ensures counted { result.applied.counted ≡ counted (content self.old) fact }
        ensures moved { result.moved ≡ counts_differ (content self.old) (content self.new) }
        ensures content { content self.new ≡ after_fact fact t (content self.old) }
    {
        let (members, senders) = (self.members(), self.senders());
        let applied = self.apply(fact, t);
        let moved = self.members() != members || self.senders() != senders;
        Effect { applied, moved }
    }

    /// Drops those who are silent for too long (RFC 3550, 6.3.5): entries last seen before `silent_before`,
    /// and those that left before `gone_before`. A sender whose last counted packet lies before `data_before`
    /// is no sender from then on, until another packet of it is counted. All are moments in microseconds; `t`,
    /// when the check is made, changes nothing.
    fn check(&mut self, t: u64, silent_before: u64, data_before: u64, gone_before: u64) -> Dropped
        ensures entries { result.entries
            ≡ dropped_entries (horizons_at silent_before data_before gone_before) (content self.old) }
        ensures senders { result.senders
            ≡ dropped_senders (horizons_at silent_before data_before gone_before) (content self.old) }
        ensures content { content self.new
            ≡ after_check (horizons_at silent_before data_before gone_before) (content self.old) };

    /// Whether the table knows, without a look at its entries, that a check with these horizons changes nothing, nor
    /// any with earlier ones. `false` says nothing.
    fn lasts_through(&self, silent_before: u64, data_before: u64, gone_before: u64) -> bool
        ensures { IsTrue result →
            LastsThrough (horizons_at silent_before data_before gone_before) (content self.now) }
    {
        let _ = (silent_before, data_before, gone_before);
        false
    }

    /// Drops a source that the host knows to be gone, as a check drops one that is silent. One that sent a BYE is
    /// held as before, so that late packets do not bring it back. Returns whether the table had an entry of the source
    /// without a BYE; if not, nothing changed.
    fn forget(&mut self, ssrc: u32) -> bool
        ensures held { result ≡ is_such is_unmarked (map.get (content self.old).entries ssrc) }
        ensures content { content self.new ≡ after_forgetting ssrc (content self.old) };

    /// Whether the table has an entry of this source, marked or not.
    fn holds(&self, ssrc: u32) -> bool
        ensures { result ≡ is_some (map.get (content self.now).entries ssrc) };

    /// How many entries the table has, at most its capacity: of members, of sources that are not yet valid, and of
    /// those that left and are held for a while.
    fn entries(&self) -> u32
        ensures { result ≡ map.len (content self.now).entries };

    /// How many members are in the table: entries that are valid and did not leave. The participant itself is
    /// not counted.
    fn members(&self) -> u32
        ensures { result ≡ members_in (content self.now) };

    /// How many senders are in the table, the participant itself not counted.
    fn senders(&self) -> u32
        ensures { result ≡ senders_in (content self.now) };

    /// The source that the next report block is for, if any has news: the least SSRC above `after` of a
    /// source that did not leave and of which some packet was counted since its last block, or at all if none
    /// was made, else the least SSRC of all such sources (RFC 3550, 6.4).
    fn next_with_news(&self, after: Option<u32>) -> Option<u32>
        ensures { result ≡ first_ssrc (pending after (content self.now)) };

    /// The reception report block of the source `ssrc`, which has news and did not leave, as that of
    /// `next_with_news` does, at the moment `t`, in microseconds (RFC 3550, 6.4.1). With it the source's loss
    /// interval begins anew, and its news end.
    fn block_of(&mut self, ssrc: u32, t: u64) -> Block
        requires { IsTrue (is_due_at ssrc (content self.old)) }
        ensures block { Some (block_value result) ≡ block_at ssrc t (content self.old) }
        ensures content { content self.new ≡ after_block ssrc (content self.old) }
        ensures writable { IsWritableBlock (block_value result) };

    /// The reception report block of the source that `next_with_news` returns, made as `block_of` makes it, at the
    /// moment `t`, in microseconds (RFC 3550, 6.4). Where no source has news, it returns `None` and changes nothing.
    /// Begun with the SSRC of the last block, and gone on with that of each answer, it makes the blocks of a report.
    fn next_block(&mut self, after: Option<u32>, t: u64) -> Option<Block>
        ensures source { option_map (λ block. block.ssrc) result
            ≡ first_ssrc (pending after (content self.old)) }
        ensures block { IfSome result (λ block.
            Some (block_value block) ≡ block_at block.ssrc t (content self.old)) }
        ensures content { MatchOption result (content self.new ≡ content self.old) (λ block.
            content self.new ≡ after_block block.ssrc (content self.old)) }
        ensures writable { IfSome result (λ block. IsWritableBlock (block_value block)) }
    {
        let ssrc = self.next_with_news(after)?;
        Some(self.block_of(ssrc, t))
    }

    /// What is known of the source of least SSRC above `after`, or of all sources: of one that is not yet valid
    /// or that left, too. It changes nothing. Begun with `None` and gone on with the SSRC of each answer, it goes
    /// through all sources, by rising SSRC.
    fn source_above(&self, after: Option<u32>) -> Option<SourceState>
        ensures { option_map state_value result ≡ state_above after (content self.now) }
    {
        let mut rank = 0;
        self.source_from(after, &mut rank)
    }

    /// `source_above`, for a walk: `rank` hints at where the source of `after` stands. A table may use it to
    /// find the next one sooner, and leaves the hint for the next call. The answer is the same for any hint.
    fn source_from(&self, after: Option<u32>, rank: &mut usize) -> Option<SourceState>
        ensures { option_map state_value result ≡ state_above after (content self.now) };
}

/// A table that has the room for its entries in itself, so that its capacity is all it is made from.
pub trait InlineTable: MemberTable {
    /// A table without entries, for at most `capacity` of them, from 1 to 1,024.
    fn empty(capacity: u32) -> Self
        requires some { 1 ≤ capacity }
        requires few { capacity ≤ 1024 }
        ensures { Self.content result ≡ no_members capacity };
}
