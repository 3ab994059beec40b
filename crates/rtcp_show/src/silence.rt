//! What says that nothing was heard.

ghost use Rattle.std.specs.Prelude.{◌≡◌, IfSome, None, Some, false};
ghost use Rattle.std.specs.Io.KnownBytes.{Appends};
ghost use Rattle.rtcp_engine.specs.state.Views.{event_value};
ghost use Rattle.rtcp_text.specs.declared.fault.TextFault.{TextFault as Fault};
ghost use Rattle.rtcp_show.specs.Silences.{is_arrival, is_late};
ghost use Rattle.rtcp_show.specs.Times.{clock_of, told_by};
ghost use Rattle.rtcp_show.specs.Watchers.{IsOutFault};
ghost use Rattle.rtcp_show.specs.declared.times.Clock.TheVariants.{Session};

use crate::lines::moment_of;
use crate::page::Page;
use crate::times::{Clock, Times, When, clock_of};
use crate::watcher::first_fault;
use rtcp_engine::{Event, Participant};
use rtcp_guarded::GuardedAnswer;
use rtcp_members::MemberTable;
use rtcp_serve::Observer;
use rtcp_text::TextFault;
use std::alloc::Global;
use std::io::Write;

/// For how long nothing has to come until that is said, in microseconds.
const PATIENCE: u64 = 5_000_000;

/// Observes a session, and writes one line where no datagram came in its first five seconds, with the first event after
/// them: `5.000411 nothing heard yet`. What cannot be written is lost, and its fault is kept.
#[derive(Drop)]
pub struct SilenceWatcher<W> {
    page: Page<W>,
    /// What the moment of the line is written by.
    clock: Clock,
    /// Whether a datagram came, or the line was written.
    is_over: bool,
    fault: Option<TextFault>,
}

impl<W: Drop> SilenceWatcher<W> {
    ghost use Rattle.rtcp_show.specs.Silences.{clock_in, fault_in, is_over};

    /// A watcher of a session that begins, which writes to this writer.
    pub fn new(alloc: Global, writer: W) -> SilenceWatcher<W>
        ensures clock { clock_in result ≡ Session }
        ensures over { is_over result ≡ false }
        ensures fault { fault_in result ≡ None }
    {
        SilenceWatcher {
            page: Page::new(alloc, writer),
            clock: Clock::Session,
            is_over: false,
            fault: None,
        }
    }

    /// The same watcher, which writes the moment so, of a session whose moment 0 has this NTP timestamp. The time of
    /// day is right as long as the NTP era of 1900 lasts, until February 2036.
    pub fn with_times(self, ntp_base: u64, times: Times) -> SilenceWatcher<W>
        ensures { result ≡ record self { clock = clock_of times ntp_base } }
    {
        let mut watcher = self;
        watcher.clock = clock_of(times, ntp_base);
        watcher
    }

    /// Why the line could not be written, if it could not.
    pub fn fault(&self) -> Option<TextFault>
        ensures { result ≡ fault_in self.now }
    {
        self.fault
    }
}

impl<W: Write> Observer for SilenceWatcher<W> {
    ghost use Rattle.rtcp_show.specs.Silences.{clock_in, fault_in, held_in, is_over, is_over_after, said_of_silence};

    fn told<T: MemberTable>(
        &mut self,
        event: &Event<'_>,
        _answer: &GuardedAnswer,
        _participant: &Participant<T>,
    )
        ensures clock { clock_in self.new ≡ clock_in self.old }
        ensures over { is_over self.new ≡ is_over_after (is_over self.old) (event_value event.now) }
        ensures written { fault_in self.new ≡ None →
            Appends (held_in W.contents self.old) (held_in W.contents self.new)
            (said_of_silence (told_by (clock_in self.old)) (is_over self.old) (event_value event.now)) }
        ensures lasting { (fault : Fault) → fault_in self.old ≡ Some fault → fault_in self.new ≡ Some fault }
        ensures fault { IfSome (fault_in self.old) IsOutFault → IfSome (fault_in self.new) IsOutFault }
    {
        let says = !self.is_over && !is_arrival(event) && is_late(event);
        let when = When {
            clock: self.clock,
            moment: moment_of(event),
        };
        let shown = self.page.show_silence(says, when);
        self.is_over = self.is_over || is_arrival(event) || is_late(event);
        self.fault = first_fault(self.fault, shown);
    }

    fn sent(&mut self, _failed: bool)
        ensures { self.new ≡ self.old }
    {}
}

/// Whether a datagram came with an event.
fn is_arrival(event: &Event<'_>) -> bool
    ensures { result ≡ is_arrival (event_value event.now) }
{
    matches!(event, Event::ArriveRtcp { .. } | Event::ArriveRtp { .. })
}

/// Whether an event comes once five seconds have passed.
fn is_late(event: &Event<'_>) -> bool
    ensures { result ≡ is_late (event_value event.now) }
{
    moment_of(event) >= PATIENCE
}
