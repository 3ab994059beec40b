//! What keeps the rows that came last.

ghost use Rattle.std.specs.Prelude.{◌≡◌, ◌||◌, None, Some, false, true};
ghost use Rattle.rtcp_engine.specs.answers.Histories.{History};
ghost use Rattle.rtcp_engine.specs.state.States.{StandsAt};
ghost use Rattle.rtcp_engine.specs.state.Views.{event_value};
ghost use Rattle.rtcp_guarded.specs.Views.{guarded_value};
ghost use Rattle.rtcp_text.specs.declared.fault.TextFault.{TextFault as Fault};
ghost use Rattle.rtcp_show.specs.Summaries.{is_leave};

use crate::printer::Printer;
use crate::watcher::Watcher;
use rtcp_engine::{Event, Participant};
use rtcp_guarded::GuardedAnswer;
use rtcp_members::MemberTable;
use rtcp_serve::Observer;
use std::io::Write;

/// Observes a session until its participant is asked to leave, and keeps the counts and the rows that came last. From
/// the leave on a participant lists nobody.
#[derive(Drop)]
pub struct SummaryWatcher<W> {
    watcher: Watcher<W>,
    /// Whether the participant was asked to leave.
    is_over: bool,
}

impl<W: Drop> SummaryWatcher<W> {
    ghost use Rattle.rtcp_show.specs.Summaries.{is_ended, watcher_in};
    ghost use Rattle.rtcp_show.specs.Watchers.{fault_of, printer_of, rows_of};

    /// A watcher of a session that begins, whose rows this printer composes. All that the printer writes goes to its
    /// writer: with [`Sink`](std::io::Sink) nothing is written.
    pub fn new(printer: Printer<W>) -> SummaryWatcher<W>
        ensures printer { printer_of (watcher_in result) ≡ printer }
        ensures fault { fault_of (watcher_in result) ≡ None }
        ensures over { is_ended result ≡ false }
    {
        SummaryWatcher {
            watcher: Watcher::new(printer),
            is_over: false,
        }
    }

    /// The counts and the rows that came last before the leave, with no moment before them.
    pub fn rows(&self) -> &[u8]
        ensures { result.now ≡ rows_of (printer_of (watcher_in self.now)) }
    {
        self.watcher.last_rows()
    }
}

impl<W: Write> Observer for SummaryWatcher<W> {
    ghost use Rattle.rtcp_show.specs.Summaries.{is_ended, watcher_in};
    ghost use Rattle.rtcp_show.specs.Watchers.{Watches, fault_of, printer_of, terms_of};

    /// Has the printer write what it does of an event, up to the leave.
    fn told<T: MemberTable>(
        &mut self,
        event: &Event<'_>,
        answer: &GuardedAnswer,
        participant: &Participant<T>,
    )
        ensures over { is_ended self.new ≡ (is_ended self.old || is_leave (event_value event.now)) }
        ensures kept { is_ended self.new ≡ true → watcher_in self.new ≡ watcher_in self.old }
        ensures watches { (history : History) → StandsAt participant.now history → is_ended self.new ≡ false →
            fault_of (watcher_in self.new) ≡ None →
            Watches W.contents (event_value event.now) (guarded_value answer.now) history
            (printer_of (watcher_in self.old)) (printer_of (watcher_in self.new)) }
        ensures terms { terms_of (printer_of (watcher_in self.new)) ≡ terms_of (printer_of (watcher_in self.old)) }
        ensures lasting { (fault : Fault) → fault_of (watcher_in self.old) ≡ Some fault →
            fault_of (watcher_in self.new) ≡ Some fault }
    {
        self.is_over = self.is_over || is_leave(event);
        if !self.is_over {
            self.watcher.told(event, answer, participant);
        }
    }

    /// A send changes nothing.
    fn sent(&mut self, _failed: bool)
        ensures { self.new ≡ self.old }
    {}
}

/// Whether an event asks the participant to leave.
fn is_leave(event: &Event<'_>) -> bool
    ensures { result ≡ is_leave (event_value event.now) }
{
    matches!(event, Event::Leave { .. })
}
