//! Where a watcher writes its lines.

ghost use Rattle.std.specs.Prelude.{◌≡◌, List, [], ℕ, IfErr, IfSome, OnOk, if◌then◌else◌};
ghost use Rattle.std.specs.Io.KnownBytes.{Appends};
ghost use Rattle.rtcp_engine.specs.answers.Histories.{History};
ghost use Rattle.rtcp_engine.specs.state.States.{StandsAt};
ghost use Rattle.rtcp_engine.specs.state.Views.{event_value};
ghost use Rattle.rtcp_guarded.specs.Views.{guarded_value};
ghost use Rattle.rtcp_show.specs.Changes.{KeepsListing, ShowsChanges, lists_anew, shows_others};
ghost use Rattle.rtcp_show.specs.Lines.{ReadsAs, ShowsBothBy, moment_of_event, unsent_text};
ghost use Rattle.rtcp_show.specs.Silences.{silence_text};
ghost use Rattle.rtcp_show.specs.Times.{told_by, when_text};
ghost use Rattle.rtcp_show.specs.Wordings.{shown_in};

use crate::board::Board;
use crate::changes::{Roles, lists_anew, shows_others};
use crate::lines::{moment_of, push_read_lines, push_silence, push_unsent};
use crate::terms::Terms;
use crate::times::{Clock, When};
use crate::wording::Wording;
use rtcp_engine::{Event, Participant};
use rtcp_guarded::GuardedAnswer;
use rtcp_members::MemberTable;
use rtcp_text::TextFault;
use rtcp_wire::Compound;
use std::alloc::{AllocError, Global};
use std::io::Write;

/// A writer, and what is to be written to it next, in room that is kept from part to part.
#[derive(Drop)]
pub(crate) struct Page<W> {
    pub(crate) writer: W,
    text: Vec<u8>,
}

impl<W: Drop> Page<W> {
    /// Nothing is to be written yet.
    pub(crate) fn new(alloc: Global, writer: W) -> Page<W>
        ensures { result.writer ≡ writer }
    {
        Page {
            writer,
            text: Vec::new(alloc),
        }
    }
}

impl<W: Write> Page<W> {
    ghost use Rattle.rtcp_show.specs.Watchers.{IsOutFault, KeepsRows, LooksIf, held_on, is_due, listed_in, news_text, second_after};

    /// Writes the lines of an event and its answer.
    pub(crate) fn show_event(
        &mut self,
        clock: Clock,
        wording: Wording,
        to: u64,
        event: &Event<'_>,
        answer: &GuardedAnswer,
        compound: &Option<Compound<'_>>,
    ) -> Result<(), TextFault>
        requires { IfSome compound.now (ReadsAs (event_value event.now)) }
        ensures written { OnOk result ((lines : List ℕ)
            × ShowsBothBy (told_by clock) (shown_in wording) to (event_value event.now) (guarded_value answer.now) lines
            × Appends (held_on W.contents self.old) (held_on W.contents self.new) lines) }
        ensures fault { IfErr result IsOutFault }
    {
        self.text.clear();
        match push_read_lines(&mut self.text, clock, wording, to, event, answer, compound) {
            Ok(()) => self.write(),
            Err(AllocError) => Err(TextFault::Memory),
        }
    }

    /// Writes whose roles changed since the sources were listed last, where they are listed anew.
    pub(crate) fn show_changes<T: MemberTable>(
        &mut self,
        roles: &mut Roles,
        clock: Clock,
        event: &Event<'_>,
        answer: &GuardedAnswer,
        participant: &Participant<T>,
    ) -> Result<(), TextFault>
        ensures written { (history : History) → StandsAt participant.now history →
            OnOk result ((changes : List ℕ)
            × ShowsChanges (shows_others (event_value event.now) (guarded_value answer.now))
            (told_by clock (moment_of_event (event_value event.now))) history (listed_in roles.old) changes
            × Appends (held_on W.contents self.old) (held_on W.contents self.new) changes) }
        ensures keeps { (history : History) → StandsAt participant.now history →
            OnOk result (KeepsListing (lists_anew (event_value event.now) (guarded_value answer.now)) history
            (listed_in roles.old) (listed_in roles.new)) }
        ensures fault { IfErr result IsOutFault }
    {
        if !lists_anew(event, answer) {
            return Ok(());
        }
        self.text.clear();
        let told = shows_others(event, answer);
        let when = When {
            clock,
            moment: moment_of(event),
        };
        match roles.compose(&mut self.text, told, when, participant) {
            Ok(()) => self.write(),
            Err(AllocError) => Err(TextFault::Memory),
        }
    }

    /// Writes who is there, where that is due and is not as it was written last.
    pub(crate) fn show_sources<T: MemberTable>(
        &mut self,
        board: &mut Board,
        terms: Terms,
        now: u64,
        participant: &Participant<T>,
    ) -> Result<(), TextFault>
        ensures written { OnOk result (Appends (held_on W.contents self.old) (held_on W.contents self.new)
            (news_text (is_due board.old.second now) (told_by terms.clock now) board.old.rows.items
            board.new.rows.items)) }
        ensures keeps { (history : History) → StandsAt participant.now history →
            OnOk result (KeepsRows terms (is_due board.old.second now) history board.new board.old.rows.items
            board.new.rows.items) }
        ensures looks { (history : History) → StandsAt participant.now history →
            OnOk result (LooksIf (is_due board.old.second now) now history board.old board.new) }
        ensures second { board.new.second ≡ second_after board.old.second now }
        ensures fault { IfErr result IsOutFault }
    {
        self.text.clear();
        match board.compose(&mut self.text, terms, now, participant) {
            Ok(()) => self.write(),
            Err(AllocError) => Err(TextFault::Memory),
        }
    }

    /// Writes that a compound was not handed to the network.
    pub(crate) fn show_unsent(&mut self, when: When, to: u64) -> Result<(), TextFault>
        ensures written { OnOk result (Appends (held_on W.contents self.old) (held_on W.contents self.new)
            (unsent_text (when_text when) to)) }
        ensures fault { IfErr result IsOutFault }
    {
        self.text.clear();
        match push_unsent(&mut self.text, when, to) {
            Ok(()) => self.write(),
            Err(AllocError) => Err(TextFault::Memory),
        }
    }

    /// Writes that nothing was heard so far, if that is said.
    pub(crate) fn show_silence(&mut self, says: bool, when: When) -> Result<(), TextFault>
        ensures written { OnOk result (Appends (held_on W.contents self.old) (held_on W.contents self.new)
            (if says then silence_text (when_text when) else [])) }
        ensures fault { IfErr result IsOutFault }
    {
        self.text.clear();
        match push_silence(&mut self.text, says, when) {
            Ok(()) => self.write(),
            Err(AllocError) => Err(TextFault::Memory),
        }
    }

    /// Writes what was composed, if it is anything.
    fn write(&mut self) -> Result<(), TextFault>
        ensures written { OnOk result
            (Appends (held_on W.contents self.old) (held_on W.contents self.new) self.old.text.items) }
        ensures fault { IfErr result IsOutFault }
    {
        if self.text.is_empty() {
            return Ok(());
        }
        if self.writer.write_all(&self.text).is_err() {
            return Err(TextFault::Write);
        }
        match self.writer.flush() {
            Ok(()) => Ok(()),
            Err(_) => Err(TextFault::Write),
        }
    }
}
