//! A table under test, whichever it is.

ghost use Rattle.std.specs.Prelude.{◌≡◌, ◌+◌, ◌≤◌, ◌<◌};
ghost use Rattle.rtcp_members.specs.Tables.{HasFew, no_members};

use super::*;
use rtcp_source::LastBlock;
use std::process::Abort;

/// A session from its start.
pub(crate) struct Script {
    /// What it shows.
    pub(crate) name: &'static str,
    /// How many sources the table takes.
    pub(crate) capacity: u32,
    /// The calls, and what is seen of each.
    pub(crate) rows: &'static [(Call, Seen)],
}

/// A call.
#[derive(Clone, Copy)]
pub(crate) enum Call {
    /// None: how many members and senders there are.
    Ask,
    /// A fact, at a moment.
    Fact(Fact, u64),
    /// A check at a moment, with its horizons of silence, of data, and of those that left.
    Check(u64, u64, u64, u64),
    /// The block of the source that is next after one, at a moment.
    Block(Option<u32>, u64),
    /// The host says that a source is gone.
    Forget(u32),
    /// Whether the table has an entry of a source.
    Holds(u32),
    /// What is told of the source of least SSRC above one.
    Above(Option<u32>),
    /// What the last block said of the source that is told then.
    LastBlock(Option<u32>),
}

/// What is seen of a call.
#[derive(Clone, Copy, PartialEq, Eq)]
pub(crate) enum Seen {
    /// Anything.
    Any,
    /// Members and senders.
    Counts(u32, u32),
    /// Where a fact went that is no counted packet.
    At(Place),
    /// Where a counted packet went.
    Counted(Place),
    /// How many entries, and how many senders, were dropped.
    Dropped(u32, u32),
    /// The source of a block.
    Whose(Option<u32>),
    /// The fraction, the lost packets and the highest number that a block says.
    Says(u8, i32, u32),
    /// Whether a source was forgotten.
    Forgot(bool),
    Holds(bool),
    Told(Option<SourceState>),
    LastBlock(Option<LastBlock>),
}

/// Each session, over a table of this type.
pub(crate) fn play<T: InlineTable + Drop>(rt: &impl Abort, scripts: &[Script]) {
    for script in scripts {
        assert!(rt; 1 <= script.capacity && script.capacity <= 1_024);
        let mut session: Session<T> = Session::new(script.capacity);
        session.plays(rt, script.name, script.rows);
    }
}

/// A table, and how many facts came to it: few, so no source was given too many packets.
#[derive(Drop)]
pub(crate) struct Session<T: MemberTable> {
    table: T,
    facts: u32,
    ghost few: { HasFew facts (T.content table) },
}

impl<T: InlineTable> Session<T> {
    /// Before the first call.
    pub(crate) fn new(capacity: u32) -> Session<T>
        requires some { 1 ≤ capacity }
        requires few { capacity ≤ 1024 }
        ensures { result.facts ≡ 0 }
    {
        Session::with_table(T::empty(capacity), capacity)
    }
}

impl<T: MemberTable> Session<T> {
    /// The same with a table that was made for it, of which the contract alone names the capacity.
    pub(crate) fn with_table(table: T, capacity: u32) -> Session<T>
        requires { T.content table ≡ no_members capacity }
        ensures { result.facts ≡ 0 }
    {
        let _ = capacity;
        Session { table, facts: 0 }
    }

    /// The calls of these rows are seen to do what the rows say.
    pub(crate) fn plays(&mut self, rt: &impl Abort, name: &str, rows: &[(Call, Seen)]) {
        for (number, (call, wanted)) in rows.iter().enumerate() {
            let found = self.seen(rt, *call, wanted);
            assert!(rt; found == *wanted, "{name}: row {number}");
        }
    }

    /// What is seen of a call, said as the row says it.
    fn seen(&mut self, rt: &impl Abort, call: Call, row: &Seen) -> Seen {
        let found = match call {
            Call::Ask => Seen::Counts(self.members(), self.senders()),
            Call::Fact(fact, t) => {
                assert!(rt; self.facts < 100_000);
                placed(self.apply(fact, t))
            }
            Call::Check(t, silent, data, gone) => {
                let dropped = self.check(t, silent, data, gone);
                Seen::Dropped(dropped.entries, dropped.senders)
            }
            Call::Block(after, t) => said(self.block(after, t), row),
            Call::Forget(ssrc) => Seen::Forgot(self.forget(ssrc)),
            Call::Holds(ssrc) => Seen::Holds(self.holds(ssrc)),
            Call::Above(after) => Seen::Told(self.told(after)),
            Call::LastBlock(after) => {
                Seen::LastBlock(self.told(after).and_then(|source| source.last_block))
            }
        };
        if *row == Seen::Any { Seen::Any } else { found }
    }

    pub(crate) fn apply(&mut self, fact: Fact, t: u64) -> Applied
        requires { self.old.facts < 100000 }
        ensures { self.new.facts ≡ self.old.facts + 1 }
    {
        let applied = self.table.apply(fact, t);
        self.facts += 1;
        applied
    }

    /// Where a fact goes that is no counted packet.
    pub(crate) fn place(&mut self, fact: Fact, t: u64) -> Option<Place>
        requires { self.old.facts < 100000 }
        ensures { self.new.facts ≡ self.old.facts + 1 }
    {
        let applied = self.apply(fact, t);
        (!applied.counted).then_some(applied.place)
    }

    pub(crate) fn check(&mut self, t: u64, silent: u64, data: u64, gone: u64) -> Dropped
        ensures { self.new.facts ≡ self.old.facts }
    {
        self.table.check(t, silent, data, gone)
    }

    /// The host says that a source is gone. Returns whether it was there without a BYE.
    pub(crate) fn forget(&mut self, ssrc: u32) -> bool
        ensures { self.new.facts ≡ self.old.facts }
    {
        self.table.forget(ssrc)
    }

    /// The block of the source that is next after this one, at the moment `t`, if any is pending.
    pub(crate) fn block(&mut self, after: Option<u32>, t: u64) -> Option<Block>
        ensures { self.new.facts ≡ self.old.facts }
    {
        self.table.next_block(after, t)
    }

    /// The same by two calls: one says which source is next, the other makes its block.
    pub(crate) fn block_by_two(&mut self, after: Option<u32>, t: u64) -> Option<Block>
        ensures { self.new.facts ≡ self.old.facts }
    {
        let ssrc = self.table.next_with_news(after)?;
        Some(self.table.block_of(ssrc, t))
    }

    pub(crate) fn next(&self, after: Option<u32>) -> Option<u32> {
        self.table.next_with_news(after)
    }

    /// What is told of the source of least SSRC above this one.
    pub(crate) fn told(&self, after: Option<u32>) -> Option<SourceState> {
        self.table.source_above(after)
    }

    /// How many entries the table has.
    pub(crate) fn entries(&self) -> u32 {
        self.table.entries()
    }

    pub(crate) fn sources(&self) -> Sources<'_, T> {
        Sources::of(&self.table)
    }

    /// Whether the table has an entry of a source.
    pub(crate) fn holds(&self, ssrc: u32) -> bool {
        self.table.holds(ssrc)
    }

    pub(crate) fn members(&self) -> u32 {
        self.table.members()
    }

    pub(crate) fn senders(&self) -> u32 {
        self.table.senders()
    }
}

/// Where a fact went.
fn placed(applied: Applied) -> Seen {
    if applied.counted {
        Seen::Counted(applied.place)
    } else {
        Seen::At(applied.place)
    }
}

/// What a block says, or whose it is, as the row says it.
fn said(block: Option<Block>, row: &Seen) -> Seen {
    match (block, row) {
        (Some(block), Seen::Says(..)) => Seen::Says(block.fraction, block.lost, block.highest),
        (Some(block), _) => Seen::Whose(Some(block.ssrc)),
        (None, _) => Seen::Whose(None),
    }
}
