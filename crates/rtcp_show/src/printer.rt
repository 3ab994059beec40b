//! What writes the lines of a session.

ghost use Rattle.std.specs.Prelude.{◌≡◌, [], IfErr, OnOk, is_ok};
ghost use Rattle.std.specs.Io.KnownBytes.{Appends};
ghost use Rattle.rtcp_engine.specs.answers.Histories.{History};
ghost use Rattle.rtcp_engine.specs.state.States.{StandsAt};
ghost use Rattle.rtcp_engine.specs.state.Views.{event_value};
ghost use Rattle.rtcp_guarded.specs.Views.{guarded_value};
ghost use Rattle.rtcp_serve.specs.Links.{endpoint_number};
ghost use Rattle.rtcp_show.specs.Watchers.{IsOutFault, arrival_at};
ghost use Rattle.rtcp_show.specs.Lines.{unsent_text};
ghost use Rattle.rtcp_show.specs.Times.{clock_of};
ghost use Rattle.rtcp_show.specs.declared.rows.Rows.TheVariants.{Full, Short};
ghost use Rattle.rtcp_show.specs.declared.times.Clock.TheVariants.{Session};
ghost use Rattle.rtcp_show.specs.declared.wording.Wording.TheVariants.{Brief};

use crate::board::Board;
use crate::changes::Roles;
use crate::lines::{compound_of, moment_of};
use crate::page::Page;
use crate::rows::Rows;
use crate::terms::Terms;
use crate::times::{Clock, Times, When, clock_of};
use crate::wording::Wording;
use rtcp_clock::ntp_of;
use rtcp_engine::{Event, Participant};
use rtcp_guarded::GuardedAnswer;
use rtcp_members::MemberTable;
use rtcp_serve::endpoint_number;
use rtcp_text::TextFault;
use std::alloc::{AllocError, Global};
use std::io::Write;
use std::net::SocketAddrV4;

/// Writes the lines of a session to a writer: those of each event and its answer ([`push_lines`](crate::push_lines)),
/// and once a second the members, the senders and a row for each source ([`push_row`](crate::push_row)), unless they
/// are the last ones again. Each part is flushed.
#[derive(Drop)]
pub struct Printer<W> {
    terms: Terms,
    page: Page<W>,
    roles: Roles,
    board: Board,
}

impl<W: Drop> Printer<W> {
    ghost use Rattle.rtcp_show.specs.Observations.{Knows};
    ghost use Rattle.rtcp_show.specs.Watchers.{listing_of, rows_of, terms_of, writer_of};

    /// A printer of a session that begins now, whose moment 0 has this NTP timestamp. Compounds go to `to`.
    pub fn new(alloc: Global, ntp_base: u64, to: SocketAddrV4, writer: W) -> Printer<W>
        ensures terms { terms_of result ≡ record {
          ntp_base = ntp_base;
          to = endpoint_number to;
          wording = Brief;
          rows = Full;
          clock = Session;
        } }
        ensures writer { writer_of result ≡ writer }
        ensures listing { listing_of result ≡ [] }
        ensures rows { rows_of result ≡ [] }
        ensures knows { Knows result [] }
    {
        Printer {
            terms: Terms {
                ntp_base,
                to: endpoint_number(to),
                wording: Wording::Brief,
                rows: Rows::Full,
                clock: Clock::Session,
            },
            page: Page::new(alloc, writer),
            roles: Roles::new(alloc),
            board: Board::new(alloc),
        }
    }

    /// The same printer, which shows the packets of datagrams in this wording.
    pub fn with_wording(self, wording: Wording) -> Printer<W>
        ensures { result ≡ record self { terms = record (terms_of self) { wording = wording } } }
    {
        let terms = Terms {
            wording,
            ..self.terms
        };
        Printer { terms, ..self }
    }

    /// The same printer, which writes short rows of so many sources at most in place of the full rows of all: one line
    /// each, of at most 100 octets. They are of the sources of which most was lost by their last report blocks, and of
    /// those of lower SSRCs where as much was lost. With 0 no rows are written.
    ///
    /// ```text
    /// 0.250000 members=41 senders=40 shown=1
    /// 00000007 sends loss=1.1% total-loss=0.4% jitter=0.413ms pace=50.0/s peer=10.0.0.1:5004 cname="a@b"
    /// ```
    pub fn with_rows(self, most: u32) -> Printer<W>
        ensures { result ≡ record self { terms = record (terms_of self) { rows = Short most } } }
    {
        let mut printer = self;
        printer.terms.rows = Rows::Short(most);
        printer
    }

    /// The same printer, which writes moments so. The time of day is right as long as the NTP era of 1900 lasts, until
    /// February 2036.
    pub fn with_times(self, times: Times) -> Printer<W>
        ensures { result ≡ record self {
          terms = record (terms_of self) { clock = clock_of times (terms_of self).ntp_base };
        } }
    {
        let mut printer = self;
        printer.terms.clock = clock_of(times, printer.terms.ntp_base);
        printer
    }

    /// The counts and the rows that were written last, with no moment before them: nothing where none were yet. With
    /// the writer [`Sink`](std::io::Sink) a printer keeps them and writes nothing.
    pub fn last_rows(&self) -> &[u8]
        ensures { result.now ≡ rows_of self.now }
    {
        self.board.last_rows()
    }
}

impl<W: Write> Printer<W> {
    ghost use Rattle.rtcp_show.specs.Watchers.{Watches, held_by, terms_of, time_told, writer_of};

    /// The writer.
    pub fn into_inner(self) -> W
        ensures { result ≡ writer_of self }
    {
        self.page.writer
    }

    /// Writes the lines of an event of the session and its answer, a line for each source whose role changed
    /// ([`push_change`](crate::push_change)), and who is there where another second has begun.
    /// `participant` is that of the session, after the event. It lists nobody from its leave on: then no role has
    /// changed, and of a source that the host forgot no line says so.
    ///
    /// # Errors
    ///
    /// The first of these. What comes after it is written all the same, if it can be.
    ///
    /// - [`TextFault::Write`] where a call of the writer fails.
    /// - [`TextFault::Memory`] where memory is refused.
    pub fn print<T: MemberTable>(
        &mut self,
        event: &Event<'_>,
        answer: &GuardedAnswer,
        participant: &Participant<T>,
    ) -> Result<(), TextFault>
        ensures watches { (history : History) → StandsAt participant.now history →
            OnOk result (Watches W.contents (event_value event.now) (guarded_value answer.now) history self.old
            self.new) }
        ensures fault { IfErr result IsOutFault }
        ensures terms { terms_of self.new ≡ terms_of self.old }
    {
        let now = moment_of(event);
        let compound = compound_of(event, answer);
        let terms = self.terms;
        let shown = self.page.show_event(
            terms.clock,
            terms.wording,
            terms.to,
            event,
            answer,
            &compound,
        );
        let arrived = arrival(terms.ntp_base, now);
        let noted = self
            .board
            .note(arrived, event, answer, &compound, participant);
        let changed = self
            .page
            .show_changes(&mut self.roles, terms.clock, event, answer, participant);
        let listed = self
            .page
            .show_sources(&mut self.board, terms, now, participant);
        shown.and(or_memory(noted)).and(changed).and(listed)
    }

    /// Writes that the compound of the event before was not handed to the network, at this moment.
    ///
    /// # Errors
    ///
    /// - [`TextFault::Write`] where a call of the writer fails.
    /// - [`TextFault::Memory`] where memory is refused.
    pub fn print_unsent(&mut self, moment: u64) -> Result<(), TextFault>
        ensures written { OnOk result (Appends (held_by W.contents self.old) (held_by W.contents self.new)
            (unsent_text (time_told self.old moment) (terms_of self.old).to)) }
        ensures fault { IfErr result IsOutFault }
        ensures terms { terms_of self.new ≡ terms_of self.old }
    {
        let when = When {
            clock: self.terms.clock,
            moment,
        };
        self.page.show_unsent(when, self.terms.to)
    }
}

/// When an event came, by the middle 32 bits of its NTP timestamp.
fn arrival(ntp_base: u64, now: u64) -> u32
    ensures { result ≡ arrival_at ntp_base now }
{
    (ntp_of(ntp_base, now) / 65_536 % (1 << 32)) as u32
}

/// The same, where memory may have been refused.
fn or_memory(noted: Result<(), AllocError>) -> Result<(), TextFault>
    ensures ok { is_ok result ≡ is_ok noted }
    ensures fault { IfErr result IsOutFault }
{
    match noted {
        Ok(()) => Ok(()),
        Err(AllocError) => Err(TextFault::Memory),
    }
}
