//! What a participant does as time passes (RFC 3550, 6.3.4 to 6.3.6).

ghost use Rattle.std.specs.Prelude.{◌≡◌, ◌≤◌, ◌<◌, ◌-◌, ◌^◌, ◌*◌, Option, Some, IsTrue, option_map, take, drop};
ghost use Rattle.rtcp_wire.specs.Writing.{written_all};
ghost use Rattle.rtcp_members.specs.Traces.{horizons_at};
ghost use Rattle.rtcp_members.specs.Pending.{after_blocks, last_reported as last_of};
ghost use Rattle.rtcp_report.specs.Sizes.{reported_rows, report_of};
ghost use Rattle.rtcp_engine.specs.answers.Setups.{IsUsable};
ghost use Rattle.rtcp_engine.specs.answers.Lives.{report_out};
ghost use Rattle.rtcp_engine.specs.state.Views.{LeavesRest, out_in, reporter_of, setup_of};
ghost use Rattle.rtcp_engine.specs.state.States.{Agrees, Checks, Does, IsQuiet, MovesOthers, KeepsCapacity};
ghost use Rattle.rtcp_engine.specs.answers.Outcomes.{Outcome, check_interval, check_load, receiver_load};
ghost use Rattle.rtcp_engine.specs.answers.Reporting.{report_octets};
ghost use Rattle.rtcp_engine.specs.answers.Ticks.{horizons_of, with_recount, without_silent, checked, is_report_due, report_due, with_report, drawn_anew, reported, tried_at, after_check, after_tick};

use super::Presence;
use crate::config::Config;
use crate::extra::extra_item;
use crate::own::OwnStream;
use crate::pace::slowed;
use crate::step::{Brought, OutKind, Written};
use crate::table::check;
use rtcp_members::MemberTable;
use rtcp_report::{Sender, write_report_into};
use rtcp_timer::{Load, Verdict, interval, minimum};
use rtcp_wire::MAX_COMPOUND;

/// How long a source that left is held, in microseconds (RFC 3550, 6.3.7 has no number).
const GOODBYE_TIME: u64 = 5_000_000;

/// The horizons of a check at the moment `now`, by this interval: for sources, for their packets, and for those that
/// left (RFC 3550, 6.3.5, 6.3.7).
#[inline(always)]
fn horizons(now: u64, interval: u64) -> (u64, u64, u64)
    requires moment { now ≤ 2 ^ 50 }
    requires interval { interval < 2 ^ 49 }
    ensures { horizons_at result.0 result.1 result.2 ≡ horizons_of now interval }
{
    (
        now.saturating_sub(5 * interval),
        now.saturating_sub(2 * interval),
        (now + 1).saturating_sub(GOODBYE_TIME),
    )
}

impl<T: MemberTable> Presence<T> {
    /// Drops those who are silent for too long at the moment of the latest call, and writes a report if one is due,
    /// with two random words: `w1` for the draw that decides it, and `w2` for that of the next interval.
    pub(crate) fn tick(&mut self, w1: u32, w2: u32, octets: &mut [u8; MAX_COMPOUND]) -> Brought
        requires reports { self.old.reports < self.old.calls }
        ensures report { (outcome : Outcome) → Agrees self.old outcome → out_in octets.new result.out
            ≡ option_map report_out (report_due self.old.setup self.old.latest w1
            (checked self.old.setup self.old.latest outcome)) }
        ensures new { Does self.old self.new (λ setup. after_tick setup self.old.latest w1 w2) }
        ensures moved { MovesOthers self.old result.others_changed (λ setup. after_tick setup self.old.latest w1 w2) }
        ensures leaves { LeavesRest octets.old octets.new result.out }
    {
        let others_changed = self.check_members();
        Brought {
            out: self.report_if_due(w1, w2, octets),
            others_changed,
        }
    }

    /// Drops those who are silent for too long, and counts the members again. Returns whether that changed who of the
    /// others is a member or who sends.
    fn check_members(&mut self) -> bool
        ensures { Checks self.old self.new result (λ setup. checked setup self.old.latest) }
    {
        let moved = self.drop_silent();
        self.recount();
        moved
    }

    /// Drops those who are silent for too long, the participant among the senders too.
    fn drop_silent(&mut self) -> bool
        ensures { Checks self.old self.new result (λ setup. without_silent setup self.old.latest) }
    {
        if self.is_quiet() {
            return false;
        }
        self.drop_by_interval()
    }

    /// Whether no check at the moment of the latest call changes anything, by whichever interval it goes.
    // The interval is at least the minimum, so that it need not be computed where the horizons by that reach nobody.
    #[inline(always)]
    fn is_quiet(&self) -> bool
        ensures quiet { IsTrue result → IsQuiet self.now }
        ensures within { KeepsCapacity self.now }
    {
        let least = minimum(self.reports == 0);
        let (silent, idle, gone) = horizons(self.latest, least);
        self.own.lasts_through(idle) && self.table.lasts_through(silent, idle, gone)
    }

    /// Drops them by the interval that checks go by.
    fn drop_by_interval(&mut self) -> bool
        ensures { Checks self.old self.new result (λ setup. without_silent setup self.old.latest) }
    {
        let now = self.latest;
        let (silent, idle, gone) = horizons(now, self.check_interval());
        let moved = check(&mut self.table, now, silent, idle, gone);
        self.own.check(idle);
        moved
    }

    /// Counts the members again, as some may have departed.
    pub(super) fn recount(&mut self)
        ensures new { Does self.old self.new (λ setup. with_recount setup self.old.latest) }
        ensures reports { self.new.reports ≡ self.old.reports }
    {
        let members = self.member_count();
        self.schedule.departed(self.latest, members);
    }

    /// The moment before which a source was silent for too long for a check at the moment `now`.
    pub(crate) fn silent_before(&self, now: u64) -> u64
        ensures { (outcome : Outcome) → Agrees self.now outcome →
            result ≡ (horizons_of now (check_interval self.now.setup now outcome)).silent }
    {
        let load = slowed(self.pace, now, self.receiver_load());
        now.saturating_sub(5 * interval(&load))
    }

    /// The interval that the horizons of a check go by.
    fn check_interval(&self) -> u64
        ensures exact { (outcome : Outcome) → Agrees self.now outcome →
            result ≡ check_interval self.now.setup self.now.latest outcome }
        ensures bounded { result < 2 ^ 49 }
    {
        interval(&self.check_load())
    }

    /// What that interval depends on: it is one of a participant that is no sender.
    fn check_load(&self) -> Load
        ensures exact { (outcome : Outcome) → Agrees self.now outcome →
            result ≡ check_load self.now.setup self.now.latest outcome }
        ensures members { result.members ≤ 65535 }
        ensures average { result.avg ≤ 256 * 65563 }
        ensures some_for_senders { 16 ≤ result.sender_bw }
        ensures some_for_others { 16 ≤ result.receiver_bw }
    {
        slowed(self.pace, self.latest, self.receiver_load())
    }

    /// What the interval of a participant depends on that is no sender.
    pub(super) fn receiver_load(&self) -> Load
        ensures exact { (outcome : Outcome) → Agrees self.now outcome →
            result ≡ receiver_load self.now.setup outcome }
        ensures members { result.members ≤ 65535 }
        ensures average { result.avg ≤ 256 * 65563 }
        ensures some_for_senders { 16 ≤ result.sender_bw }
        ensures some_for_others { 16 ≤ result.receiver_bw }
    {
        Load {
            we_sent: false,
            ..self.load()
        }
    }

    /// Writes a report if one is due, and draws the next interval; else puts it off, if its moment has come.
    fn report_if_due(
        &mut self,
        w1: u32,
        w2: u32,
        octets: &mut [u8; MAX_COMPOUND],
    ) -> Option<Written>
        requires reports { self.old.reports < self.old.calls }
        ensures report { (outcome : Outcome) → Agrees self.old outcome → out_in octets.new result
            ≡ option_map report_out (report_due self.old.setup self.old.latest w1 outcome) }
        ensures new { Does self.old self.new (λ setup. after_check setup self.old.latest w1 w2) }
        ensures leaves { LeavesRest octets.old octets.new result }
    {
        if !self.try_report(w1) {
            return None;
        }
        Some(self.send_report(w2, octets))
    }

    /// Whether a report is due. If its moment has come, it is put off until it is sent.
    fn try_report(&mut self, w1: u32) -> bool
        ensures due { (outcome : Outcome) → Agrees self.old outcome →
            result ≡ is_report_due self.old.setup self.old.latest w1 outcome }
        ensures new { Does self.old self.new (λ setup. tried_at setup self.old.latest w1) }
        ensures reports { self.new.reports ≡ self.old.reports }
    {
        let now = self.latest;
        // Before the next moment the interval decides nothing.
        if now < self.schedule.next() {
            return false;
        }
        let td = self.interval();
        let members = self.member_count();
        self.schedule.expire(now, td, w1, members) == Verdict::Due
    }

    /// Writes the report, and draws the interval after it.
    // Kept out of line, as a tick without a report needs no room for one.
    #[inline(never)]
    fn send_report(&mut self, w2: u32, octets: &mut [u8; MAX_COMPOUND]) -> Written
        requires reports { self.old.reports < self.old.calls }
        ensures report { (outcome : Outcome) → Agrees self.old outcome → out_in octets.new (Some result)
            ≡ Some (report_out (report_octets self.old.setup self.old.latest outcome)) }
        ensures new { Does self.old self.new (λ setup. reported setup self.old.latest w2) }
        ensures leaves { LeavesRest octets.old octets.new (Some result) }
    {
        let size = self.make_report(octets);
        self.draw_next(w2);
        Written {
            kind: OutKind::Report,
            size,
        }
    }

    /// Draws the next interval.
    fn draw_next(&mut self, w2: u32)
        ensures { Does self.old self.new (λ setup. drawn_anew setup self.old.latest w2) }
    {
        let td = self.interval();
        let members = self.member_count();
        self.schedule.sent(self.latest, td, w2, members);
    }

    /// Writes the report, and returns how many octets it has: the next one goes on after its last source.
    fn make_report(&mut self, octets: &mut [u8; MAX_COMPOUND]) -> usize
        requires reports { self.old.reports < self.old.calls }
        ensures report { (outcome : Outcome) → Agrees self.old outcome →
            take result octets.new ≡ report_octets self.old.setup self.old.latest outcome }
        ensures new { Does self.old self.new (λ setup. with_report setup self.old.latest) }
        ensures small { result ≤ 1472 }
        ensures rest { drop result octets.new ≡ drop result octets.old }
    {
        let number = self.reports + 1;
        let report = NumberedReport {
            config: &self.config,
            own: &self.own,
            number,
            moment: self.latest,
        };
        let size = write_numbered(&report, &mut self.table, &mut self.cursor, octets);
        self.reports = number;
        self.average.add(size as u32);
        self.own.reported();
        size
    }
}

/// What a report is made from, beside the table and the cursor.
#[derive(Clone, Copy)]
struct NumberedReport<'a> {
    config: &'a Config,
    own: &'a OwnStream,
    /// How many reports there are with this one.
    number: u64,
    moment: u64,
}

/// Writes a report, and returns how many octets it has. The cursor is left at its last source.
fn write_numbered<T: MemberTable>(
    report: &NumberedReport<'_>,
    table: &mut T,
    cursor: &mut Option<u32>,
    octets: &mut [u8; MAX_COMPOUND],
) -> usize
    requires usable { IsUsable (setup_of report.now.config.now) }
    requires some { 0 < report.now.number }
    ensures octets { take result octets.new ≡ written_all (report_of (reporter_of report.now)
        report.now.config.now.limit report.now.moment cursor.old (T.content table.old)) }
    ensures small { result ≤ 1472 }
    ensures rest { drop result octets.new ≡ drop result octets.old }
    ensures content { T.content table.new ≡ after_blocks (reported_rows (reporter_of report.now)
        report.now.config.now.limit cursor.old (T.content table.old)) (T.content table.old) }
    ensures cursor { cursor.new ≡ last_of cursor.old (reported_rows (reporter_of report.now)
        report.now.config.now.limit cursor.old (T.content table.old)) }
{
    let config = report.config;
    let sender = Sender {
        ssrc: config.ssrc,
        cname: &config.cname,
        sr: report
            .own
            .report(config.ntp_base, config.rate, report.moment),
    };
    let extra = extra_item(&config.extras, report.number);
    let (now, limit) = (report.moment, config.limit);
    write_report_into(&sender, table, now, limit, cursor, extra, octets)
}
