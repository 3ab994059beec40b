//! A record of a session: a line for each event, which `replay` reads.

ghost use Rattle.std.specs.Prelude.{◌≡◌, ◌||◌, Bool, true, false, OnOk, Ok, is_err};
ghost use Rattle.std.specs.Io.KnownBytes.{Appends, Keeps};
ghost use Rattle.rtcp_engine.specs.state.Views.{event_value};

use crate::counted::Counted;
use crate::fault::TextFault;
use crate::text::push_event;
use crate::writing::{flush, write_whole};
use rtcp_engine::Event;
use std::alloc::{AllocError, Global};
use std::io::Write;

/// Writes the record of a session, a line for each event as it happens, until a write fails.
#[derive(Drop)]
pub struct Recorder<W> {
    writer: Counted<W>,
    /// The line that is written, kept from event to event.
    line: Vec<u8>,
    /// Whether memory for a line was refused.
    refused: bool,
}

impl<W: Write> Recorder<W> {
    ghost use Rattle.rtcp_text.specs.Records.{GrowsByPrefix, event_line, has_ended, held_by};

    /// A record that begins.
    pub fn new(alloc: Global, writer: W) -> Self
        ensures going { has_ended result ≡ false }
        ensures held { held_by W.contents result ≡ W.contents writer }
    {
        Recorder {
            writer: Counted::new(writer),
            line: Vec::new(alloc),
            refused: false,
        }
    }

    /// Whether the record has ended: a call of the writer failed, or memory was refused.
    pub fn has_ended(&self) -> bool
        ensures { result ≡ has_ended self.now }
    {
        self.refused || self.writer.failures() != 0
    }

    /// The writer of the record.
    pub fn into_inner(self) -> W
        ensures { W.contents result ≡ held_by W.contents self }
    {
        self.writer.into_inner()
    }

    /// Writes the line of an event, and hands it on. Once the record has ended it writes nothing.
    ///
    /// # Errors
    ///
    /// The record ends with this call:
    ///
    /// - [`TextFault::Write`] where a call of the writer fails or takes nothing, a flush included: a prefix of the line
    ///   is written.
    /// - [`TextFault::Memory`] where memory is refused: nothing is written.
    pub fn record(&mut self, event: &Event<'_>) -> Result<(), TextFault>
        ensures line { has_ended self.old ≡ false → OnOk result (Appends (held_by W.contents self.old)
            (held_by W.contents self.new) (event_line (event_value event.now))) }
        ensures prefix { GrowsByPrefix (held_by W.contents self.old) (held_by W.contents self.new)
            (event_line (event_value event.now)) }
        ensures over { has_ended self.old ≡ true → Keeps (held_by W.contents self.old) (held_by W.contents self.new) }
        ensures once { has_ended self.old ≡ true → result ≡ Ok tt }
        ensures ended { has_ended self.new ≡ (has_ended self.old || is_err result) }
    {
        if self.has_ended() {
            return Ok(());
        }
        self.line.clear();
        if let Err(AllocError) = push_event(&mut self.line, event) {
            self.refused = true;
            return Err(TextFault::Memory);
        }
        write_whole(&mut self.writer, &self.line)?;
        flush(&mut self.writer)
    }
}
