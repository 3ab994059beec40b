//! What observes a session and writes what it sees.

ghost use Rattle.std.specs.Prelude.{◌≡◌, IfErr, IfSome, IsOk, None, Some, false, true};
ghost use Rattle.std.specs.Io.KnownBytes.{Appends};
ghost use Rattle.rtcp_engine.specs.answers.Histories.{History};
ghost use Rattle.rtcp_engine.specs.state.States.{StandsAt};
ghost use Rattle.rtcp_engine.specs.state.Views.{event_value};
ghost use Rattle.rtcp_guarded.specs.Views.{guarded_value};
ghost use Rattle.rtcp_text.specs.declared.fault.TextFault.{TextFault as Fault};
ghost use Rattle.rtcp_show.specs.Lines.{moment_of_event as moment_in, unsent_text};
ghost use Rattle.rtcp_show.specs.Watchers.{IsOutFault};

use crate::lines::moment_of;
use crate::printer::Printer;
use rtcp_engine::{Event, Participant};
use rtcp_guarded::GuardedAnswer;
use rtcp_members::MemberTable;
use rtcp_serve::Observer;
use rtcp_text::TextFault;
use std::io::Write;

/// Observes a session, and has a [`Printer`] write its lines. What cannot be written is lost, and its fault is kept.
#[derive(Drop)]
pub struct Watcher<W> {
    printer: Printer<W>,
    /// The moment of the last event that it was told.
    moment: u64,
    /// The first fault of the printer.
    fault: Option<TextFault>,
}

impl<W: Drop> Watcher<W> {
    ghost use Rattle.rtcp_show.specs.Watchers.{fault_of, printer_of, rows_of};

    /// A watcher whose lines this printer writes.
    pub fn new(printer: Printer<W>) -> Watcher<W>
        ensures printer { printer_of result ≡ printer }
        ensures fault { fault_of result ≡ None }
    {
        Watcher {
            printer,
            moment: 0,
            fault: None,
        }
    }

    /// The first fault of what the watcher was told: `None` where all was written.
    pub fn fault(&self) -> Option<TextFault>
        ensures { result ≡ fault_of self.now }
    {
        self.fault
    }

    /// The counts and the rows that the printer wrote last: [`Printer::last_rows`].
    pub fn last_rows(&self) -> &[u8]
        ensures { result.now ≡ rows_of (printer_of self.now) }
    {
        self.printer.last_rows()
    }

    /// The printer.
    pub fn into_printer(self) -> Printer<W>
        ensures { result ≡ printer_of self }
    {
        self.printer
    }
}

impl<W: Write> Observer for Watcher<W> {
    ghost use Rattle.rtcp_show.specs.Watchers.{Watches, fault_of, held_by, moment_told, printer_of, terms_of, time_told};

    /// Writes what is to be shown, of refused events too.
    fn told<T: MemberTable>(
        &mut self,
        event: &Event<'_>,
        answer: &GuardedAnswer,
        participant: &Participant<T>,
    )
        ensures watches { (history : History) → StandsAt participant.now history → fault_of self.new ≡ None →
            Watches W.contents (event_value event.now) (guarded_value answer.now) history (printer_of self.old)
            (printer_of self.new) }
        ensures moment { moment_told self.new ≡ moment_in (event_value event.now) }
        ensures terms { terms_of (printer_of self.new) ≡ terms_of (printer_of self.old) }
        ensures lasting { (fault : Fault) → fault_of self.old ≡ Some fault → fault_of self.new ≡ Some fault }
        ensures fault { IfSome (fault_of self.old) IsOutFault → IfSome (fault_of self.new) IsOutFault }
    {
        let shown = self.printer.print(event, answer, participant);
        self.moment = moment_of(event);
        self.fault = first_fault(self.fault, shown);
    }

    /// Writes that a send failed, at the moment of the event before.
    fn sent(&mut self, failed: bool)
        ensures told { failed ≡ true → fault_of self.new ≡ None →
            Appends (held_by W.contents (printer_of self.old)) (held_by W.contents (printer_of self.new))
            (unsent_text (time_told (printer_of self.old) (moment_told self.old)) (terms_of (printer_of self.old)).to) }
        ensures untold { failed ≡ false → self.new ≡ self.old }
        ensures terms { terms_of (printer_of self.new) ≡ terms_of (printer_of self.old) }
        ensures lasting { (fault : Fault) → fault_of self.old ≡ Some fault → fault_of self.new ≡ Some fault }
        ensures fault { IfSome (fault_of self.old) IsOutFault → IfSome (fault_of self.new) IsOutFault }
    {
        if failed {
            let shown = self.printer.print_unsent(self.moment);
            self.fault = first_fault(self.fault, shown);
        }
    }
}

/// The first fault, after another result.
pub(crate) fn first_fault(
    fault: Option<TextFault>,
    shown: Result<(), TextFault>,
) -> Option<TextFault>
    ensures lasting { (found : Fault) → fault ≡ Some found → result ≡ Some found }
    ensures whole { result ≡ None → IsOk shown }
    ensures found { IfSome fault IsOutFault → IfErr shown IsOutFault → IfSome result IsOutFault }
{
    match (fault, shown) {
        (None, Err(found)) => Some(found),
        _ => fault,
    }
}
