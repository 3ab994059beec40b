//! What watches a session of the program.

use crate::record_file::RecordFile;
use crate::recording::recorder_of;
use rtcp_alarm::{AlarmLimits, AlarmWatcher, Bell, Raised};
use rtcp_command::session_recorder::SessionRecorder;
use rtcp_command::{ListenOrder, RunFault, Watch};
use rtcp_engine::{Event, Participant};
use rtcp_guarded::GuardedAnswer;
use rtcp_json::JsonWatcher;
use rtcp_members::MemberTable;
use rtcp_serve::Observer;
use rtcp_show::{Printer, SilenceWatcher, SummaryWatcher, Times, Watcher, Wording, push_header};
use rtcp_text::TextFault;
use std::alloc::Global;
use std::io::{self, Sink, Stderr, Stdout, Write};
use std::net::SocketAddrV4;

/// What watches a session, each where that is asked for. They are told in this order.
#[derive(Drop)]
pub(crate) struct Observers<'b> {
    recorder: Option<SessionRecorder<RecordFile, Stderr>>,
    shown: Option<(Watcher<Stderr>, SilenceWatcher<Stderr>)>,
    json: Option<JsonWatcher<Stdout>>,
    alarms: Option<AlarmWatcher<'b>>,
    summary: Option<SummaryWatcher<Sink>>,
}

impl<'b> Observers<'b> {
    /// What watches the session of an order, between the endpoints that were bound. An alarm rings this bell. The file
    /// of a record is created, and the line before those of a session that is shown is written.
    ///
    /// # Errors
    ///
    /// Those of [`recorder_of`] and of [`write_header`].
    pub(crate) fn of(
        rt: &HostRuntime,
        order: &ListenOrder,
        word: u32,
        bound: (SocketAddrV4, SocketAddrV4),
        bell: &'b Bell,
    ) -> Result<Observers<'b>, RunFault> {
        let recorder = recorder_of(rt, order, word)?;
        let shown = shown_of(rt, order, bound)?;
        Ok(Observers {
            recorder,
            shown,
            json: json_of(rt, order.json),
            alarms: alarms_of(order.watch, bell),
            summary: summary_of(rt.alloc(), order),
        })
    }

    /// The alarm that was raised, if one was.
    pub(crate) fn raised(&self) -> Option<Raised> {
        match &self.alarms {
            Some(alarms) => alarms.raised(),
            None => None,
        }
    }

    /// The counts and the rows that came last, if they are to be written at the end.
    pub(crate) fn rows(&self) -> &[u8] {
        match &self.summary {
            Some(summary) => summary.rows(),
            None => &[],
        }
    }

    /// Whether the record has failed.
    pub(crate) fn has_failed(&self) -> bool {
        match &self.recorder {
            Some(recorder) => recorder.recorder.has_ended(),
            None => false,
        }
    }

    /// Why lines of JSON were lost, if some were.
    pub(crate) fn lost_lines(&self) -> Option<TextFault> {
        match &self.json {
            Some(watcher) => watcher.fault(),
            None => None,
        }
    }
}

impl<'b> Observer for Observers<'b> {
    fn told<T: MemberTable>(
        &mut self,
        event: &Event<'_>,
        answer: &GuardedAnswer,
        participant: &Participant<T>,
    ) {
        self.recorder.told(event, answer, participant);
        self.shown.told(event, answer, participant);
        self.json.told(event, answer, participant);
        self.alarms.told(event, answer, participant);
        self.summary.told(event, answer, participant);
    }

    fn sent(&mut self, failed: bool) {
        self.recorder.sent(failed);
        self.shown.sent(failed);
        self.json.sent(failed);
        self.alarms.sent(failed);
        self.summary.sent(failed);
    }
}

/// What shows the session of an order, if that is asked for, between the endpoints that were bound. The line before
/// those of the session is written.
///
/// # Errors
///
/// Those of [`write_header`].
fn shown_of(
    rt: &HostRuntime,
    order: &ListenOrder,
    bound: (SocketAddrV4, SocketAddrV4),
) -> Result<Option<(Watcher<Stderr>, SilenceWatcher<Stderr>)>, RunFault> {
    if !order.show {
        return Ok(None);
    }
    write_header(rt, order, bound)?;
    let (base, times) = (order.config.ntp_base, times(order));
    let watcher = Watcher::new(printer(rt.alloc(), order, rt.stderr()));
    let silence = SilenceWatcher::new(rt.alloc(), rt.stderr()).with_times(base, times);
    Ok(Some((watcher, silence)))
}

/// What writes a session as lines of JSON, if that is asked for.
fn json_of(rt: &HostRuntime, is_asked: bool) -> Option<JsonWatcher<Stdout>> {
    if is_asked {
        Some(JsonWatcher::new(rt.alloc(), rt.stdout()))
    } else {
        None
    }
}

/// What raises the alarms of a session, if some are asked for.
fn alarms_of(watch: Watch, bell: &Bell) -> Option<AlarmWatcher<'_>> {
    let (loss, silence) = (watch.loss, watch.silence);
    if loss.is_none() && silence.is_none() {
        return None;
    }
    Some(AlarmWatcher::new(AlarmLimits { loss, silence }, bell))
}

/// What keeps the rows of a session for its end, if that is asked for. Lines of JSON have no rows after them.
fn summary_of(alloc: Global, order: &ListenOrder) -> Option<SummaryWatcher<Sink>> {
    if order.watch.summary && !order.json {
        Some(SummaryWatcher::new(printer(alloc, order, io::sink())))
    } else {
        None
    }
}

/// A printer of the session of an order, with the rows that are asked for.
fn printer<W: Write + Drop>(alloc: Global, order: &ListenOrder, writer: W) -> Printer<W> {
    let printer = Printer::new(alloc, order.config.ntp_base, order.peer, writer);
    let printer = printer
        .with_wording(wording(order))
        .with_times(times(order));
    match order.watch.rows {
        Some(most) => printer.with_rows(most),
        None => printer,
    }
}

/// How moments are shown: in plain words those of a session that knows its time are of the day.
fn times(order: &ListenOrder) -> Times {
    if order.plain && order.config.ntp_base != 0 {
        Times::OfDay
    } else {
        Times::SinceStart
    }
}

/// Writes the line before those of a session that is shown to standard error, with the endpoints that were bound. A
/// failed write is ignored.
///
/// # Errors
///
/// [`RunFault::Memory`] where memory is refused.
fn write_header(
    rt: &HostRuntime,
    order: &ListenOrder,
    bound: (SocketAddrV4, SocketAddrV4),
) -> Result<(), RunFault> {
    let mut line = Vec::new(rt.alloc());
    let (ssrc, cname) = (order.config.ssrc, &order.config.cname);
    push_header(&mut line, ssrc, cname, bound.0, bound.1, order.peer).map_err(
        |_| RunFault::Memory,
    )?;
    let _ = rt.stderr().write_all(&line);
    Ok(())
}

/// How the datagrams of a session are shown. In plain words the jitter of report blocks has the rate of the one clock,
/// where there is no other.
fn wording(order: &ListenOrder) -> Wording {
    match (order.plain, order.config.clocks.is_empty()) {
        (false, _) => Wording::Brief,
        (true, true) => Wording::Plain(Some(order.config.rate)),
        (true, false) => Wording::Plain(None),
    }
}
