//! A participant as long as it takes part in its session (RFC 3550, 6.2, 6.3).

ghost use Rattle.std.specs.Prelude.{◌≡◌, ◌≢◌, ◌↔◌, ◌≤◌, ◌<◌, ◌*◌, ◌^◌, Option, Some, None, is_some, option_map};
ghost use Rattle.std.specs.FinMap as map;
ghost use Rattle.rtcp_members.specs.Listings.{state_above, states_above};
ghost use Rattle.rtcp_members.specs.ListViews.{state_value};
ghost use Rattle.rtcp_members.specs.Tables.{no_members};
ghost use Rattle.rtcp_engine.specs.answers.OwnCounts.{counts_of};
ghost use Rattle.rtcp_engine.specs.answers.Refused.{error_in};
ghost use Rattle.rtcp_engine.specs.state.Views.{setup_of};
ghost use Rattle.rtcp_engine.specs.answers.Outcomes.{Outcome, one_if, member_count as member_count_of, sender_count as sender_count_of, load_of, interval_at};
ghost use Rattle.rtcp_engine.specs.state.Taken.{begun};
ghost use Rattle.rtcp_engine.specs.state.States.{Agrees, HasOthers, StandsAt, newcomer, KeepsCapacity};
ghost use Rattle.rtcp_engine.specs.answers.Answers.{call_refusal};
ghost use Rattle.rtcp_engine.specs.answers.Untimely.{refusal_of_moment};

use crate::config::Config;
use crate::own::{OwnCounts, OwnStream};
use crate::pace::Pace;
use crate::refusal::Refusal;
use crate::table::member_count;
use rtcp_members::{MemberTable, SourceState, Sources};
use rtcp_report::first_size;
use rtcp_timer::{Average, Load, Schedule, interval};
use std::marker::Model;

mod arrivals;
mod configuring;
mod forgetting;
mod identifier;
mod leaving;
mod ticks;

/// The greatest moment, in microseconds since the session began: some 35 years.
const MAX_MOMENT: u64 = 1 << 50;

/// The most calls that a session takes.
const MAX_CALLS: u64 = (1 << 40) - 1;

/// What a participant knows of its session, up to its leave. From then on the members and the own stream stand
/// still, and average and schedule are those of the backoff. The SSRC of `config` is the present one.
// Fields lie in memory in this order: what each RTP packet reads comes first, up to the SSRC and the rate near the
// start of the configuration, which has 2 KB, so that it takes few cache lines.
#[derive(Drop)]
pub(crate) struct Presence<T: MemberTable> {
    /// the moment of the latest call that was taken
    latest: u64,
    /// how many calls were taken
    calls: u64,
    schedule: Schedule,
    table: T,
    own: OwnStream,
    config: Config,
    average: Average,
    /// the source of the last block that was sent
    cursor: Option<u32>,
    /// the bandwidths before the newest change of settings, and until when checks go by them too
    pace: Option<Pace>,
    /// how many reports were sent
    reports: u64,
    /// where the source told last stands, as far as the table said so
    listed: usize,
}

impl<T: MemberTable> Model for Presence<T> {
    ghost use Rattle.rtcp_engine.specs.state.Views.{setup_of};
    ghost use Rattle.rtcp_engine.specs.state.States.{State, IsSound, state_with};
    ghost use Rattle.rtcp_engine.specs.state.Codes.{state_code};

    ghost Value = { State };

    ghost coded = { state_code };

    ghost view = { λ p.
        state_with (setup_of p.config) (T.content p.table) p.schedule p.average p.own p.cursor p.pace p.reports
        p.latest p.calls };

    ghost invariant = { λ p. IsSound (
        state_with (setup_of p.config) (T.content p.table) p.schedule p.average p.own p.cursor p.pace p.reports
        p.latest p.calls) };
}

/// Why a call is refused, whatever it tells: a refusal that needs no room beside a register.
enum Untimely {
    Backwards,
    TooFar,
    TooMany,
}

impl<T: MemberTable> Presence<T> {
    /// A participant of a session that begins now, at moment 0, with an empty table and a configuration that is
    /// not refused. `word` is a random word, for the draw of the first interval. Call `tick` at `next`.
    pub(crate) fn with_table(config: Config, table: T, word: u32) -> Presence<T>
        requires usable { error_in (setup_of config) ≡ None }
        requires vacant { T.content table ≡ no_members config.capacity }
        ensures begins { StandsAt (newcomer result) (begun (setup_of config) word) }
        ensures within { KeepsCapacity result }
    {
        let average = Average::start(first_size(&config.cname));
        let load = Load {
            members: 1,
            senders: 0,
            we_sent: false,
            initial: true,
            avg: average.value(),
            sender_bw: config.sender_bw,
            receiver_bw: config.receiver_bw,
        };
        Presence {
            table,
            schedule: Schedule::begin(interval(&load), word),
            average,
            own: OwnStream::new(),
            cursor: None,
            pace: None,
            reports: 0,
            latest: 0,
            calls: 0,
            listed: 0,
            config,
        }
    }

    /// The members of the session, this participant included (RFC 3550, 6.2.1).
    pub(crate) fn member_count(&self) -> u32
        ensures exact { (outcome : Outcome) → Agrees self.now outcome →
            result ≡ member_count_of self.now.setup outcome }
        ensures few { result ≤ 1025 }
        ensures within { KeepsCapacity self.now }
    {
        member_count(&self.table)
    }

    /// Whether some other source is a member.
    pub(crate) fn has_others(&self) -> bool
        ensures { HasOthers self.now result }
    {
        self.table.members() != 0
    }

    /// The members that send RTP packets, this participant included where it does.
    pub(crate) fn sender_count(&self) -> u32
        ensures { (outcome : Outcome) → Agrees self.now outcome →
            result ≡ sender_count_of self.now.setup outcome }
    {
        self.table.senders() + one_if_sending(&self.own)
    }

    /// How many sources the table has.
    pub(crate) fn entries(&self) -> u32
        ensures { result ≡ map.len self.now.table.entries }
    {
        self.table.entries()
    }

    /// What is known of the source of least SSRC above `after`, or of all sources.
    pub(crate) fn source_above(&self, after: Option<u32>) -> Option<SourceState>
        ensures { option_map state_value result ≡ state_above after self.now.table }
    {
        self.table.source_above(after)
    }

    /// The same. It notes where that source stands, to find the next one sooner.
    pub(crate) fn next_source(&mut self, after: Option<u32>) -> Option<SourceState>
        ensures listed { option_map state_value result ≡ state_above after self.old.table }
        ensures kept { self.new ≡ self.old }
    {
        self.table.source_from(after, &mut self.listed)
    }

    /// What is known of each source, by rising SSRC.
    pub(crate) fn sources(&self) -> Sources<'_, T>
        ensures { result ≡ states_above None self.now.table }
    {
        Sources::of(&self.table)
    }

    /// What the participant sent so far.
    pub(crate) fn own_counts(&self) -> OwnCounts
        ensures { result ≡ counts_of self.now.own }
    {
        self.own.counts()
    }

    pub(crate) fn next_moment(&self) -> u64
        ensures exact { result ≡ self.now.timing.next }
        ensures bounded { result < 2 ^ 51 }
    {
        self.schedule.next()
    }

    /// Why a call at the moment `now` is refused, whatever it tells.
    // Why it is, is asked apart, so that a call that is taken goes straight on, with no room made for a reason.
    #[inline(always)]
    pub(crate) fn refusal(&self, now: u64) -> Option<Refusal>
        ensures { result ≡ call_refusal now self.now.latest self.now.calls }
    {
        if self.latest <= now && now <= MAX_MOMENT && self.calls < MAX_CALLS {
            return None;
        }
        match self.untimely(now) {
            Untimely::Backwards => Some(Refusal::Backwards),
            Untimely::TooFar => Some(Refusal::TooFar),
            Untimely::TooMany => Some(Refusal::TooMany),
        }
    }

    /// Which of the reasons holds for a call at the moment `now`, of which one does.
    #[cold]
    #[inline(never)]
    fn untimely(&self, now: u64) -> Untimely
        requires { call_refusal now self.now.latest self.now.calls ≢ None }
        ensures { Some (refusal_of_moment result) ≡ call_refusal now self.now.latest self.now.calls }
    {
        if now < self.latest {
            return Untimely::Backwards;
        }
        if now > MAX_MOMENT {
            return Untimely::TooFar;
        }
        Untimely::TooMany
    }

    /// What the interval depends on.
    fn load(&self) -> Load
        ensures exact { (outcome : Outcome) → Agrees self.now outcome →
            result ≡ load_of self.now.setup outcome }
        ensures members { result.members ≤ 65535 }
        ensures average { result.avg ≤ 256 * 65563 }
        ensures some_for_senders { 16 ≤ result.sender_bw }
        ensures some_for_others { 16 ≤ result.receiver_bw }
    {
        Load {
            members: self.member_count(),
            senders: self.sender_count(),
            we_sent: self.own.is_sending(),
            initial: self.reports == 0,
            avg: self.average.value(),
            sender_bw: self.config.sender_bw,
            receiver_bw: self.config.receiver_bw,
        }
    }

    /// The deterministic interval.
    fn interval(&self) -> u64
        ensures exact { (outcome : Outcome) → Agrees self.now outcome →
            result ≡ interval_at self.now.setup outcome }
        ensures bounded { result < 2 ^ 49 }
    {
        interval(&self.load())
    }
}

/// 1 where the participant is a sender, else 0.
fn one_if_sending(own: &OwnStream) -> u32
    ensures exact { result ≡ one_if (is_some own.now.sending) }
    ensures few { result ≤ 1 }
{
    u32::from(own.is_sending())
}
