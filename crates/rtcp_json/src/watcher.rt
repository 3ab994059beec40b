//! What watches a session on a link, and writes its lines.

ghost use Rattle.std.specs.Prelude.{◌≡◌, ◌++◌, [], ℕ, List, IfErr, IfSome, IsOk, None, OnOk};
ghost use Rattle.std.specs.Io.KnownBytes.{Appends};
ghost use Rattle.rtcp_engine.specs.state.Views.{event_value};
ghost use Rattle.rtcp_guarded.specs.Views.{guarded_value};
ghost use Rattle.rtcp_serve.specs.Observers.{event_told, send_tried, telling};
ghost use Rattle.rtcp_json.specs.ToldValues.{TellsInJson};

use crate::board::Board;
use crate::told::{moment_of, push_told_json, push_unsent_json};
use rtcp_engine::{Event, Participant};
use rtcp_guarded::GuardedAnswer;
use rtcp_members::MemberTable;
use rtcp_serve::Observer;
use rtcp_text::TextFault;
use std::alloc::{AllocError, Global};
use std::io::Write;

/// Watches a session, and writes a line for each event and its answer ([`push_told_json`]), and one for each compound
/// that the link did not send. With the first event of a second comes one of who is there, unless that is as in the
/// last such line. What was composed of an event is flushed. The session goes on where it cannot be written. Then its
/// fault is kept, and nothing more is written.
#[derive(Drop)]
pub struct JsonWatcher<W> {
    writer: W,
    /// Room for lines, which is kept from event to event.
    text: Vec<u8>,
    board: Board,
    /// The moment of the last event that it was told.
    moment: u64,
    /// The first fault.
    fault: Option<TextFault>,
}

impl<W: Drop> JsonWatcher<W> {
    ghost use Rattle.rtcp_json.specs.Watchers.{fault_of, moment_told, rows_of, second_of, writer_of};

    /// A watcher of a session that begins, which writes to this writer.
    pub fn new(alloc: Global, writer: W) -> JsonWatcher<W>
        ensures writer { writer_of result ≡ writer }
        ensures moment { moment_told result ≡ 0 }
        ensures fault { fault_of result ≡ None }
        ensures rows { rows_of result ≡ [] }
        ensures second { second_of result ≡ 0 }
    {
        JsonWatcher {
            writer,
            text: Vec::new(alloc),
            board: Board::new(alloc),
            moment: 0,
            fault: None,
        }
    }

    /// Why the lines end early: `None` where all were written. It is [`TextFault::Write`] where a call of the writer
    /// failed, and [`TextFault::Memory`] where memory was refused.
    pub fn fault(&self) -> Option<TextFault>
        ensures { result ≡ fault_of self.now }
    {
        self.fault
    }

    /// The writer.
    pub fn into_inner(self) -> W
        ensures { result ≡ writer_of self }
    {
        self.writer
    }
}

impl<W: Write> Observer for JsonWatcher<W> {
    ghost use Rattle.rtcp_json.specs.Watchers.{Tells, Watches, fault_of, rows_of, second_of};

    ghost takes = { λ notice before after. Watches W.contents notice before after };

    /// Writes the line of the event and its answer, and then that of who is there, where it is due and is news.
    fn told<T: MemberTable>(
        &mut self,
        event: &Event<'_>,
        answer: &GuardedAnswer,
        participant: &Participant<T>,
    )
        ensures watches { Watches W.contents
            (event_told (telling (event_value event.now) (guarded_value answer.now))) self.old self.new }
        ensures tells { fault_of self.new ≡ None → Tells W.contents (event_value event.now) (guarded_value answer.now)
            participant.now self.old self.new }
    {
        self.moment = moment_of(event);
        if self.fault.is_none() {
            self.text.clear();
            let composed = self.compose(event, answer, participant);
            self.finish(composed);
        }
    }

    /// Writes that a send failed, at the moment of the event before.
    fn sent(&mut self, failed: bool)
        ensures watches { Watches W.contents (send_tried failed) self.old self.new }
        ensures rows { rows_of self.new ≡ rows_of self.old }
        ensures second { second_of self.new ≡ second_of self.old }
    {
        if failed && self.fault.is_none() {
            self.text.clear();
            let composed = push_unsent_json(&mut self.text, self.moment);
            self.finish(composed);
        }
    }
}

impl<W: Write> JsonWatcher<W> {
    ghost use Rattle.rtcp_json.specs.Watchers.{IsOutFault, NewsIf, fault_of, held_by, is_due, moment_told, rows_of, second_after, second_of, writer_of};

    /// Composes the line of an event and its answer, and that of who is there at its moment.
    fn compose<T: MemberTable>(
        &mut self,
        event: &Event<'_>,
        answer: &GuardedAnswer,
        participant: &Participant<T>,
    ) -> Result<(), AllocError>
        ensures composed { OnOk result ((line : List ℕ) × (news : List ℕ)
            × TellsInJson (event_value event.now) (guarded_value answer.now) line
            × NewsIf (is_due (second_of self.old) (moment_told self.old)) participant.now (moment_told self.old)
            (rows_of self.old) (rows_of self.new) news
            × (self.new.text.items ≡ self.old.text.items ++ (line ++ news))) }
        ensures second { OnOk result (second_of self.new ≡ second_after (second_of self.old) (moment_told self.old)) }
        ensures moment { moment_told self.new ≡ moment_told self.old }
        ensures fault { fault_of self.new ≡ fault_of self.old }
        ensures writer { writer_of self.new ≡ writer_of self.old }
    {
        push_told_json(&mut self.text, event, answer)?;
        self.board.compose(&mut self.text, self.moment, participant)
    }

    /// Writes the text that was composed, and keeps the fault of that, if it has one.
    fn finish(&mut self, composed: Result<(), AllocError>)
        ensures composed { fault_of self.new ≡ None → IsOk composed }
        ensures written { fault_of self.new ≡ None →
            Appends (held_by W.contents self.old) (held_by W.contents self.new) self.old.text.items }
        ensures moment { moment_told self.new ≡ moment_told self.old }
        ensures rows { rows_of self.new ≡ rows_of self.old }
        ensures second { second_of self.new ≡ second_of self.old }
        ensures fault { IfSome (fault_of self.new) IsOutFault }
    {
        self.fault = match composed {
            Ok(()) => self.write().err(),
            Err(AllocError) => Some(TextFault::Memory),
        };
    }

    /// Writes and flushes the text, if it has any.
    fn write(&mut self) -> Result<(), TextFault>
        ensures written { OnOk result
            (Appends (held_by W.contents self.old) (held_by W.contents self.new) self.old.text.items) }
        ensures moment { moment_told self.new ≡ moment_told self.old }
        ensures rows { rows_of self.new ≡ rows_of self.old }
        ensures second { second_of self.new ≡ second_of self.old }
        ensures fault { IfErr result IsOutFault }
    {
        if self.text.is_empty() {
            return Ok(());
        }
        if self.writer.write_all(&self.text).is_err() {
            return Err(TextFault::Write);
        }
        match self.writer.flush() {
            Ok(()) => Ok(()),
            Err(_) => Err(TextFault::Write),
        }
    }
}
