//! Who is there, once a second.

ghost use Rattle.std.specs.Prelude.{◌≡◌, ◌++◌, [], ℕ, List, Option, OnOk, true, unwrap_or};
ghost use Rattle.rtcp_members.specs.Listings.{StateValue};
ghost use Rattle.rtcp_engine.specs.answers.Histories.{History, life_at, setup_at};
ghost use Rattle.rtcp_engine.specs.answers.Lives.{WalksInLife, members_in_life, senders_in_life};
ghost use Rattle.rtcp_engine.specs.state.States.{StandsAt};
ghost use Rattle.rtcp_engine.specs.state.Views.{event_value};
ghost use Rattle.rtcp_guarded.specs.Views.{guarded_value};
ghost use Rattle.rtcp_show.specs.Flows.{IsMediaOf, flow_in, heard_after, no_flow, peer_of_event};
ghost use Rattle.rtcp_show.specs.Listings.{if_listed, lists};
ghost use Rattle.rtcp_show.specs.Notes.{noted_after, noted_in, nothing};
ghost use Rattle.rtcp_show.specs.ShortRows.{rows_text};
ghost use Rattle.rtcp_show.specs.Times.{told_by, when_text};
ghost use Rattle.rtcp_show.specs.Watchers.{news_text};

use crate::by_source::BySource;
use crate::flows::{Flow, looked_at};
use crate::notes::Note;
use crate::rows::{Rows, push_sources};
use crate::short_rows::push_short_sources;
use crate::terms::Terms;
use crate::times::{When, push_when};
use rtcp_engine::{Event, Participant};
use rtcp_guarded::GuardedAnswer;
use rtcp_members::MemberTable;
use rtcp_wire::Compound;
use std::alloc::{AllocError, Global};
use std::mem;

/// Microseconds in a second.
const SECOND: u64 = 1_000_000;

/// What is kept of the sources beside their table, and the rows that were written last.
#[derive(Drop)]
pub(crate) struct Board {
    alloc: Global,
    notes: BySource<Note>,
    flows: BySource<Flow>,
    /// The moment at which the sources were looked at last.
    looked: u64,
    /// The counts and the rows that were written last.
    rows: Vec<u8>,
    /// Room for the next ones.
    next_rows: Vec<u8>,
    /// The last second in which they were due.
    second: u64,
}

impl Board {
    ghost use Rattle.rtcp_show.specs.Watchers.{KeepsRows, LooksAt, LooksIf, is_due, second_after};

    /// Nothing is kept yet.
    pub(crate) fn new(alloc: Global) -> Board
        ensures rows { result.rows.items ≡ [] }
        ensures second { result.second ≡ 0 }
        ensures looked { result.looked ≡ 0 }
        ensures noted { (ssrc : ℕ) → noted_in result.notes ssrc ≡ nothing }
        ensures flowing { (ssrc : ℕ) → flow_in result.flows ssrc ≡ no_flow }
    {
        Board {
            alloc,
            notes: BySource::new(alloc),
            flows: BySource::new(alloc),
            looked: 0,
            rows: Vec::new(alloc),
            next_rows: Vec::new(alloc),
            second: 0,
        }
    }

    /// The counts and the rows that were written last.
    pub(crate) fn last_rows(&self) -> &[u8]
        ensures { result.now ≡ self.now.rows.items }
    {
        &self.rows
    }

    /// Keeps what an event tells of sources that the participant lists. It came at this moment, by the middle 32 bits
    /// of an NTP timestamp.
    pub(crate) fn note<T: MemberTable>(
        &mut self,
        arrived: u32,
        event: &Event<'_>,
        answer: &GuardedAnswer,
        compound: &Option<Compound<'_>>,
        participant: &Participant<T>,
    ) -> Result<(), AllocError>
        ensures noted { (history : History) → StandsAt participant.now history → OnOk result ((ssrc : ℕ) →
            noted_in self.new.notes ssrc ≡ if_listed (lists history ssrc)
            (noted_after arrived (setup_at history).ssrc (unwrap_or compound.now []) ssrc)
            (noted_in self.old.notes ssrc)) }
        ensures flowing { (history : History) (media : Option ℕ) → StandsAt participant.now history →
            IsMediaOf (event_value event.now) (guarded_value answer.now) media →
            OnOk result ((ssrc : ℕ) → flow_in self.new.flows ssrc ≡ if_listed (lists history ssrc)
            (heard_after (peer_of_event (event_value event.now)) (unwrap_or compound.now []) media ssrc)
            (flow_in self.old.flows ssrc)) }
        ensures looked { self.new.looked ≡ self.old.looked }
        ensures rows { self.new.rows ≡ self.old.rows }
        ensures second { self.new.second ≡ self.old.second }
    {
        let noted = self.notes.note_compound(arrived, compound, participant);
        let flowing = self.flows.note_peers(event, answer, compound, participant);
        noted.and(flowing)
    }

    /// Appends who is there, by these terms, where that is due and is not as it was written last. What is kept of
    /// sources that are not listed is then forgotten.
    pub(crate) fn compose<T: MemberTable>(
        &mut self,
        out: &mut Vec<u8>,
        terms: Terms,
        now: u64,
        participant: &Participant<T>,
    ) -> Result<(), AllocError>
        ensures written { OnOk result (out.new.items ≡ out.old.items
            ++ news_text (is_due self.old.second now) (told_by terms.clock now) self.old.rows.items
            self.new.rows.items) }
        ensures keeps { (history : History) → StandsAt participant.now history →
            OnOk result (KeepsRows terms (is_due self.old.second now) history self.new self.old.rows.items
            self.new.rows.items) }
        ensures looks { (history : History) → StandsAt participant.now history →
            OnOk result (LooksIf (is_due self.old.second now) now history self.old self.new) }
        ensures second { self.new.second ≡ second_after self.old.second now }
    {
        if now / SECOND <= self.second {
            return Ok(());
        }
        self.second = now / SECOND;
        self.look(now, participant)?;
        self.next_rows.clear();
        push_rows(
            self.alloc,
            &mut self.next_rows,
            terms,
            participant,
            &self.notes,
            &self.flows,
        )?;
        let when = When {
            clock: terms.clock,
            moment: now,
        };
        push_news(out, when, &self.rows, &self.next_rows)?;
        mem::swap(&mut self.rows, &mut self.next_rows);
        Ok(())
    }

    /// Looks at the sources, and forgets what is kept of others.
    fn look<T: MemberTable>(
        &mut self,
        now: u64,
        participant: &Participant<T>,
    ) -> Result<(), AllocError>
        ensures looks { (history : History) → StandsAt participant.now history →
            OnOk result (LooksAt now history self.old self.new) }
        ensures rows { self.new.rows ≡ self.old.rows }
        ensures second { self.new.second ≡ self.old.second }
    {
        let elapsed = now.saturating_sub(self.looked).max(1);
        self.looked = now;
        let mut notes = BySource::new(self.alloc);
        let mut flows = BySource::new(self.alloc);
        for state in participant.sources() {
            self.notes.hand_to(&mut notes, state.ssrc)?;
            let flow = looked_at(self.flows.flow(state.ssrc), &state, elapsed);
            flows.put(state.ssrc, flow)?;
        }
        self.notes = notes;
        self.flows = flows;
        Ok(())
    }
}

/// Appends the members, the senders and the rows of the sources, by these terms.
fn push_rows<T: MemberTable>(
    alloc: Global,
    out: &mut Vec<u8>,
    terms: Terms,
    participant: &Participant<T>,
    notes: &BySource<Note>,
    flows: &BySource<Flow>,
) -> Result<(), AllocError>
    ensures { (history : History) → StandsAt participant.now history →
        OnOk result ((states : List StateValue) × WalksInLife (setup_at history) (life_at history) states
        × (out.new.items ≡ out.old.items ++ rows_text terms.rows (told_by terms.clock)
        (members_in_life (setup_at history) (life_at history)) (senders_in_life (setup_at history) (life_at history))
        (noted_in notes.now) (flow_in flows.now) states)) }
{
    match terms.rows {
        Rows::Full => push_sources(out, terms.clock, participant, notes, flows),
        Rows::Short(most) => push_short_sources(alloc, out, most, participant, notes, flows),
    }
}

/// Appends the rows with their moment, where they are not those before.
fn push_news(
    out: &mut Vec<u8>,
    when: When,
    before: &Vec<u8>,
    after: &Vec<u8>,
) -> Result<(), AllocError>
    ensures { OnOk result (out.new.items ≡ out.old.items
        ++ news_text true (when_text when) before.now.items after.now.items) }
{
    if after == before {
        return Ok(());
    }
    push_when(out, when)?;
    out.push(b' ')?;
    out.extend_from_slice(after)
}
