//! Laws of the definitions of a participant's answers. Each is an empty function whose postcondition is the
//! law; `proofs/LawLemmas` has a lemma of its name, or one for each clause.

ghost use Rattle.std.specs.Prelude.{◌≡◌, ◌↔◌, ◌≤◌, ◌^◌, ◌<◌, ℕ, ◌+◌, ◌*◌, ◌%◌, map, List, [], ◌++◌, length, slice_get, All, IfSome, Option, Some, None, true, false};
ghost use Rattle.rtcp_wire.specs.Values.{ItemValue};
ghost use Rattle.rtcp_wire.specs.Readings.{rtcp_in};
ghost use Rattle.rtcp_wire.specs.RtpReadings.{rtp_in};
ghost use Rattle.rtcp_members.specs.Clocks.{HasOneClock};
ghost use Rattle.rtcp_members.specs.Traces.{TraceStep, with_blocks};
ghost use Rattle.rtcp_members.specs.Past.{IsKnownBy};
ghost use Rattle.rtcp_members.specs.Pending.{EntryRow, last_reported};
ghost use Rattle.rtcp_members.specs.Listings.{StateValue};
ghost use Rattle.rtcp_engine.specs.answers.Setups.{Setup, SettingsValue, IsUsable, keeps_bandwidths, settings_of, with_settings, settings_error};
ghost use Rattle.rtcp_engine.specs.answers.Refused.{error_in};
ghost use Rattle.rtcp_engine.specs.answers.Acts.{Datagram, Act, configured, IsReading, IsRtpReading, IsTotal, IsUnique, moment_of};
ghost use Rattle.rtcp_engine.specs.answers.OwnStreams.{OwnStep, sending_since};
ghost use Rattle.rtcp_engine.specs.bounds.OwnSending.{IsSendingSince};
ghost use Rattle.rtcp_engine.specs.answers.Reporting.{extra_item, last_reported_in, reporter_at};
ghost use Rattle.rtcp_engine.specs.bounds.OwnClock.{latest_settings, told_by};
ghost use Rattle.rtcp_engine.specs.answers.Outcomes.{Outcome, check_interval, end_of, newest_pace, receiver_interval_at, timing_of, with_pace, IsPace};
ghost use Rattle.rtcp_engine.specs.bounds.Pacing.{IsPaced, end_by, last_end, unpaced};
ghost use Rattle.rtcp_engine.specs.answers.Ticks.{horizons_of};
ghost use Rattle.rtcp_engine.specs.declared.pace.Pace.{Pace};
ghost use Rattle.rtcp_members.specs.Stays.{is_removed};
ghost use Rattle.rtcp_engine.specs.answers.Histories.{History, brought_by, last_moment, life_at, session_at, session_of, setup_at, with_act};
ghost use Rattle.rtcp_engine.specs.answers.Leaving.{Backoff, Life, present, backing_off, leaving_timing};
ghost use Rattle.rtcp_engine.specs.answers.Answers.{answer_of, followed_by, refusal_after};
ghost use Rattle.rtcp_engine.specs.answers.Lives.{ListsInLife, WalksInLife, next_in_life, own_bye, with_pace_in};
ghost use Rattle.rtcp_engine.specs.answers.Changes.{NewIdentifier, Session, change_by, changed_by, changing_peers, is_taken, new_identifier, with_ssrc};
ghost use Rattle.rtcp_engine.specs.bounds.Changed.{KeepsRest};
ghost use Rattle.rtcp_engine.specs.answers.Identities.{AreApart, IsFirstFree};
ghost use Rattle.std.specs.List.{AllByRecursion};
ghost use Rattle.rtcp_engine.specs.state.Taken.{AllTaken, GivesNoClocks, IsHistory, NamesFew};
ghost use Rattle.rtcp_engine.specs.bounds.Sent.{reports_in, deciding_interval, sent_at, handed_out, reports_of};
ghost use Rattle.rtcp_engine.specs.bounds.Spacing.{newest_moment, LiesAfter, KeepsBounds};
ghost use Rattle.rtcp_engine.specs.bounds.InTime.{AllInTime};
ghost use Rattle.rtcp_engine.specs.declared.refusal.Refusal.{Refusal as Reason};

/// The octets of a datagram have exactly one reading by the grammar, packets or a first fault. It is the one that is
/// computed.
pub fn one_reading()
    ensures always { IsTotal IsReading }
    ensures once { IsUnique IsReading }
    ensures computed { (octets : List ℕ) → IsReading octets (rtcp_in octets) }
    ensures rtp_always { IsTotal IsRtpReading }
    ensures rtp_once { IsUnique IsRtpReading }
    ensures rtp_computed { (octets : List ℕ) → IsRtpReading octets (rtp_in octets) }
{}

/// A setup is usable exactly where no reason to refuse it applies.
#[tactic(auto, using(crate::proofs::LawLemmas::usable_is_unrefused))]
pub fn usable_is_unrefused()
    ensures { (setup : Setup) → IsUsable setup ↔ (error_in setup ≡ None) }
{}

/// An act that is refused changes nothing of a history, and one that is taken becomes its newest.
pub fn refused_acts_are_forgotten()
    ensures refused { (history : History) (act : Act) (reason : Reason) →
        refusal_after history act ≡ Some reason → followed_by history act ≡ history }
    ensures taken { (history : History) (act : Act) →
        refusal_after history act ≡ None →
        followed_by history act ≡ with_act history act }
{}

/// The identifier that a change takes is free, as far as the participant can tell: it is none of its own so
/// far, no source of its table has it, and the datagram that brings the change does not name it (RFC 3550,
/// 8.2). It is the first such one from the random word on.
pub fn new_identifiers_are_free()
    ensures free { (history : History) (datagram : Datagram) (word : ℕ) → IsHistory history → word < 2 ^ 32 →
        NamesFew datagram → let session = session_at history in
        is_taken session datagram (new_identifier word session datagram) ≡ false }
    ensures first { (history : History) (datagram : Datagram) (word : ℕ) → IsHistory history → word < 2 ^ 32 →
        NamesFew datagram → let session = session_at history in
        IsFirstFree (is_taken session datagram) word (new_identifier word session datagram) }
{}

/// Settings are refused exactly where a setup with them is, and for the same reason.
#[tactic(auto, using(crate::proofs::LawLemmas::settings_are_refused_as_setups))]
pub fn settings_are_refused_as_setups()
    ensures { (settings : SettingsValue) (setup : Setup) → IsUsable setup →
        settings_error settings ≡ error_in (with_settings settings setup) }
{}

/// Acts change nothing of a setup but the identifier and the settings, and acts that are taken leave it usable
/// (RFC 3550, 8.2; RFC 3556).
pub fn setups_keep_the_rest()
    ensures setup { (setup : Setup) (word : ℕ) (acts : List Act) → let now = (session_of setup word acts).setup in
        now ≡ with_ssrc now.ssrc (with_settings (settings_of now) setup) }
    ensures usable { (setup : Setup) (word : ℕ) (acts : List Act) → IsUsable setup → AllTaken setup word acts →
        IsUsable (session_of setup word acts).setup }
{}

/// Other settings change the setup, and note the pace of checks where bandwidths change: members, average and schedule
/// stay, nothing is sent, and the next moment to ask is the same (RFC 3550, 6.3).
pub fn settings_touch_the_setup_alone()
    ensures life { (history : History) (moment : ℕ) (settings : SettingsValue) →
        life_at (with_act history (configured moment settings))
        ≡ with_pace_in (setup_at history) settings moment (life_at history) }
    ensures next { (history : History) (moment : ℕ) (settings : SettingsValue) →
        next_in_life (life_at (with_act history (configured moment settings))) ≡ next_in_life (life_at history) }
    ensures sent { (history : History) (moment : ℕ) (settings : SettingsValue) →
        sent_at (with_act history (configured moment settings)) ≡ sent_at history }
    ensures setup { (history : History) (moment : ℕ) (settings : SettingsValue) →
        setup_at (with_act history (configured moment settings)) ≡ with_settings settings (setup_at history) }
{}

/// The settings of a session are those that were given last. So each report of a participant that sends tells its
/// moment by these alone: in NTP time by their time of day, and in RTP time at their rate, from the newest packet on
/// (RFC 3550, 6.4.1). No report lies between the former line and the new one.
pub fn reports_go_by_the_latest_settings()
    ensures latest { (history : History) → settings_of (setup_at history)
        ≡ latest_settings (settings_of history.setup) history.acts }
    ensures told { (history : History) (outcome : Outcome) (t : ℕ) → life_at history ≡ present outcome →
        (reporter_at (setup_at history) t outcome).sent
        ≡ told_by (latest_settings (settings_of history.setup) history.acts) t outcome.own }
{}

/// Other settings drop nobody sooner, however much more bandwidth they bring (RFC 3550, 6.3.5). For five intervals a
/// check goes by an interval that is no shorter than the one by the former settings: so it drops no source that the
/// same check by the former settings would keep, and a source that reports once in each interval before and after the
/// change stays. From then on checks go by the present settings alone.
pub fn settings_drop_nobody_sooner()
    ensures no_sooner { (history : History) (moment t : ℕ) (settings : SettingsValue) (before later : Outcome) →
        IsPaced history moment t settings before later →
        check_interval (setup_at history) t (unpaced before later)
        ≤ check_interval (with_settings settings (setup_at history)) t later }
    ensures kept { (history : History) (moment t : ℕ) (settings : SettingsValue) (before later : Outcome) →
        IsPaced history moment t settings before later → (sighting : ℕ) (mark : Option ℕ) →
        is_removed (horizons_of t (check_interval (setup_at history) t (unpaced before later))) sighting mark ≡ false →
        is_removed (horizons_of t (check_interval (with_settings settings (setup_at history)) t later)) sighting mark
        ≡ false }
    ensures heard { (history : History) (moment t : ℕ) (settings : SettingsValue) (before later : Outcome) →
        IsPaced history moment t settings before later → (sighting : ℕ) →
        t ≤ sighting + 5 * check_interval (setup_at history) t (unpaced before later) →
        is_removed (horizons_of t (check_interval (with_settings settings (setup_at history)) t later)) sighting None
        ≡ false }
    ensures afterwards { (setup : Setup) (t : ℕ) (outcome : Outcome) (pace : Pace) →
        newest_pace outcome.paces ≡ Some pace → pace.until ≤ t →
        check_interval setup t outcome ≡ receiver_interval_at setup outcome }
    ensures usable { (history : History) (outcome : Outcome) → IsHistory history →
        life_at history ≡ present outcome → IfSome (newest_pace outcome.paces) IsPace }
{}

/// Former paces end (RFC 3550, 6.3.5). Settings with the bandwidths of the setup leave the pace of checks as it was. A
/// former pace counts until the latest end of all changes of bandwidths, which is five intervals after a change, by the
/// bandwidths that it gave up. From then on a check goes by the present settings alone, and drops each source that was
/// silent for more than five intervals by these. So it does however often settings come that change no bandwidth.
pub fn former_paces_end()
    ensures same { (setup : Setup) (settings : SettingsValue) (t : ℕ) (outcome : Outcome) →
        keeps_bandwidths settings setup ≡ true → with_pace setup settings t outcome ≡ outcome }
    ensures stays { (setup : Setup) (settings : SettingsValue) (t before : ℕ) (life : Life) →
        keeps_bandwidths settings setup ≡ true → end_by setup (configured t settings) life before ≡ before }
    ensures end { (history : History) (outcome : Outcome) → life_at history ≡ present outcome →
        end_of (newest_pace outcome.paces) ≡ last_end history.setup history.word history.acts }
    ensures alone { (history : History) (outcome : Outcome) (t : ℕ) → life_at history ≡ present outcome →
        last_end history.setup history.word history.acts ≤ t →
        check_interval (setup_at history) t outcome ≡ receiver_interval_at (setup_at history) outcome }
    ensures dropped { (history : History) (outcome : Outcome) (t sighting : ℕ) (mark : Option ℕ) →
        life_at history ≡ present outcome → last_end history.setup history.word history.acts ≤ t →
        sighting + 5 * receiver_interval_at (setup_at history) outcome < t →
        is_removed (horizons_of t (check_interval (setup_at history) t outcome)) sighting mark ≡ true }
{}

/// A change of identifier leaves the rest of the setup, the settings among it, the table, the counts and the schedule
/// as they were (RFC 3550, 8.2). Without one, a session stays as it was.
pub fn changes_touch_the_identifier_alone()
    ensures setup { (session : Session) (act : Act) (new : NewIdentifier) → change_by session act ≡ Some new →
        (changed_by (change_by session act) session).setup ≡ with_ssrc new.ssrc session.setup }
    ensures rest { (session : Session) (act : Act) →
        KeepsRest session (changed_by (change_by session act) session) }
{}

/// A change of identifier hands out nothing but the BYE of the old one (RFC 3550, 8.2).
#[tactic(auto, using(crate::proofs::LawLemmas::changes_bring_one_bye))]
pub fn changes_bring_one_bye()
    ensures { (session : Session) (act : Act) (new : NewIdentifier) → change_by session act ≡ Some new →
        brought_by session act ≡ own_bye session.setup session.life }
{}

/// At most eight identifiers are given up, whatever was handed out for them, and each by a datagram of another peer
/// (RFC 3550, 8.2).
pub fn changes_are_few()
    ensures few { (history : History) → IsHistory history → length (session_at history).changes ≤ 8 }
    ensures apart { (history : History) → IsHistory history → AreApart (changing_peers (session_at history)) }
{}

/// The participant sends since a moment exactly where its newest packet was sent then, and no check since has
/// a later horizon (RFC 3550, 6.3.8).
pub fn own_sending_lasts()
    ensures { (own : List OwnStep) (moment : ℕ) →
        (sending_since own ≡ Some moment) ↔ IsSendingSince own moment }
{}

/// What was sent over a session is what its answers handed out, each compound at the moment of its act.
#[tactic(auto, using(crate::proofs::LawLemmas::answers_hand_out_compounds))]
pub fn answers_hand_out_compounds()
    ensures { (history : History) (act : Act) → sent_at (followed_by history act)
        ≡ handed_out (moment_of act) (deciding_interval (session_at history) act) (answer_of history act)
        ++ sent_at history }
{}

/// The reports that a session counts, for its minimum interval and for the turns of its extra items, are as many as
/// it sent.
#[tactic(auto, using(crate::proofs::LawLemmas::sent_reports_are_counted))]
pub fn sent_reports_are_counted()
    ensures { (history : History) →
        reports_of (life_at history) ≡ length (reports_in (sent_at history)) }
{}

/// The last transmission as the schedule knows it (tp) never lies before the last report, or before the leave
/// into a backoff, and never after the later of that and the last departure (RFC 3550, 6.3.4, 6.3.7).
pub fn last_lies_after_what_was_sent()
    ensures present { (history : History) (outcome : Outcome) → IsHistory history →
        life_at history ≡ present outcome →
        LiesAfter (newest_moment (reports_in (sent_at history))) outcome.happenings (timing_of outcome) }
    ensures backing_off { (history : History) (outcome : Outcome) (backoff : Backoff) → IsHistory history →
        life_at history ≡ backing_off outcome backoff →
        LiesAfter backoff.since backoff.happenings (leaving_timing backoff) }
{}

/// Whatever a participant is told, and whenever, what it sends keeps these bounds: two successive reports lie
/// at least half the interval then computed for the later one apart, over 1.21828, and none comes before
/// 1,026,037 microseconds; so in a window of some width at most one report more lies than 2,052,074
/// microseconds fit into it (RFC 3550, 6.3.1, 6.3.6). The BYE of leaving is the last compound. It comes at the
/// moment of the leave, or after a backoff: no sooner than half its interval after the leave, over 1.21828, and
/// than 1,026,037 microseconds (6.3.7). At most eight identifiers are given up with a BYE (8.2). No compound
/// passes the limit.
pub fn sent_compounds_keep_apart()
    ensures { (history : History) → IsHistory history → KeepsBounds history }
{}

/// Whatever a participant is told, a tick sends a report where it comes as long after the last report, or the
/// start, and as long after the last fall of the members, as the longest draw from the greatest interval that
/// was computed since that report. In a backoff it sends the BYE that long after the leave (RFC 3550, 6.3.4,
/// 6.3.6, 6.3.7). So nothing puts a report off for longer but members that go on falling, and a host that does
/// not tick.
#[tactic(auto, using(crate::proofs::LawLemmas::sends_in_time))]
pub fn sends_in_time()
    ensures { (history : History) → IsHistory history →
        AllInTime history.setup history.word history.acts }
{}

/// Whatever is told of a source lies at or before the latest call that was taken, and so at or before 2^50: when it
/// was last heard, when it sent a BYE and when its last sender report came, of one source and of all.
pub fn listed_moments_have_passed()
    ensures heard { (history : History) → IsHistory history → (after : Option ℕ) (state : StateValue) →
        ListsInLife (setup_at history) after (life_at history) (Some state) →
        state.heard ≤ last_moment history.acts }
    ensures left { (history : History) → IsHistory history → (after : Option ℕ) (state : StateValue) →
        ListsInLife (setup_at history) after (life_at history) (Some state) →
        IfSome state.left (λ left. left ≤ last_moment history.acts) }
    ensures last_report { (history : History) → IsHistory history → (after : Option ℕ) (state : StateValue) →
        ListsInLife (setup_at history) after (life_at history) (Some state) →
        IfSome state.last_report (λ last_report. last_report.moment ≤ last_moment history.acts) }
    ensures all { (history : History) → IsHistory history → (states : List StateValue) →
        WalksInLife (setup_at history) (life_at history) states →
        All (IsKnownBy (last_moment history.acts)) states }
    ensures range { (history : History) → IsHistory history → last_moment history.acts ≤ 2 ^ 50 }
{}

/// Where nothing is said of the clocks of payload types, and no settings change the rate, all RTP packets that came
/// count in units of clocks of one rate, the usual one. So each source has the jitter of its whole run, in units of
/// that clock (rtcp_members's law `one_clock_is_one_rate`): it is as if there were no payload types.
pub fn one_clock_without_others()
    ensures { (setup : Setup) (word : ℕ) (acts : List Act) (outcome : Outcome) → setup.settings.clocks ≡ [] →
        AllByRecursion (GivesNoClocks setup.settings.rate) acts → (session_of setup word acts).life ≡ present outcome →
        HasOneClock setup.settings.rate outcome.trace }
{}

/// The source that was reported last is that of the newest block, over any number of blocks.
#[tactic(auto, using(crate::proofs::LawLemmas::last_block_is_newest))]
pub fn last_block_is_newest()
    ensures { (rows : List EntryRow) (trace : List TraceStep) →
        last_reported_in (with_blocks (map (λ (row : EntryRow). row.0) rows) trace)
        ≡ last_reported (last_reported_in trace) rows }
{}

/// Reports 3, 6, 9 and so on carry the extra items in turn, and no others carry one.
pub fn extra_items_take_turns()
    ensures third { (items : List ItemValue) (turn : ℕ) → (items ≡ [] → ⊥) →
        extra_item items (3 * (turn + 1)) ≡ slice_get items (turn % length items) }
    ensures others { (items : List ItemValue) (number : ℕ) → (number % 3 ≡ 0 → ⊥) →
        extra_item items number ≡ None }
{}
