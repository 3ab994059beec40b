//! Laws of whole sessions: what the participants of a session send together keeps to its RTCP bandwidth, whoever waits,
//! joins and leaves. Each is an empty function whose postcondition is the law.

ghost use Rattle.std.specs.Prelude.{◌≡◌, ◌≤◌, ℕ, ◌+◌, ◌*◌, true, false, List, All, length};
ghost use Rattle.rtcp_timer.specs.Loads.{interval_of, with_headers};
ghost use Rattle.rtcp_engine.specs.answers.Histories.{History};
ghost use Rattle.rtcp_engine.specs.state.Taken.{IsHistory};
ghost use Rattle.rtcp_engine.specs.bounds.Spacing.{HalfPasses};
ghost use Rattle.rtcp_session.specs.Windows.{Joined, reports_within};
ghost use Rattle.rtcp_session.specs.Crowds.{total_reports, total_octets, total_compounds, Terms, IsCrowd, carried_in};
ghost use Rattle.rtcp_session.specs.Waits.{
  Wait,
  all_waits,
  averages_of,
  rtcp_bw,
  waits_as,
  AreCounted,
  IsCounted,
  HasAverage,
  HasSizes,
  KeepsToAverage,
  octets_in,
  AreHeardWaiting,
};
ghost use Rattle.rtcp_session.specs.Joins.{
  joins_within,
  CountsJoining,
  HearsJoining,
  JoinsAreCounted,
  began_before,
};
ghost use Rattle.rtcp_session.specs.BackoffByes.{backoff_bye_load, backoff_byes_at, bye_waits_within, ByesAreCounted};

/// The later reports of a session keep to its RTCP bandwidth, however many participants it has. (The later reports of a
/// participant in a window are all that it sends there but the oldest.) The average compound sizes from which their
/// intervals were computed add up to at most 2.43656 times what the bandwidth carries in the window. Those of reports
/// that were sent as a receiver keep so to the receivers' part (RFC 3550, 6.2, 6.3.1).
///
/// The premise (`IsCounted`): each has at most these two bandwidths at each of its reports. Whenever a participant
/// sends a report, those that then wait, between two of their reports in the window, are at most `percent` per cent of
/// the members that each of them counts when it sends its next report. The same is asked of those that report next in
/// its role.
///
/// Nothing is assumed of draws. 2.43656 is 1.21828 over one half: the shortest draw is half the interval, where the
/// mean draw is all of it, and both are divided by 1.21828. All moments are those of one clock. Averages are in 1/256
/// octet, headers included, and widths in microseconds.
///
/// Octets follow, if no later report is larger than `of_average` per cent of the average from which its interval was
/// computed; and so do reports and compounds, if no such average is below a size. There one report of each participant
/// comes on top, or ten compounds.
pub fn sessions_keep_to_their_bandwidth()
    ensures averages { (terms : Terms) (from width : ℕ) (all : List Joined) → IsCounted terms from width all →
        100 * 100000 * 1000000 * averages_of (all_waits from width all)
        ≤ terms.percent * (2 * 121828 * width * (256 * rtcp_bw terms)) }
    ensures others { (terms : Terms) (from width : ℕ) (all : List Joined) → IsCounted terms from width all →
        100 * 100000 * 1000000 * averages_of (waits_as false (all_waits from width all))
        ≤ terms.percent * (2 * 121828 * width * (256 * terms.receiver_bw)) }
    ensures octets { (terms : Terms) (from width most of_average : ℕ) (all : List Joined) →
        IsCounted terms from width all → All (KeepsToAverage of_average) (all_waits from width all) →
        All (λ joined. All (λ report. with_headers (length report.out.octets) ≤ most)
        (reports_within from width joined)) all →
        total_octets from width all
        ≤ most * length all + octets_in width (rtcp_bw terms) of_average terms }
    ensures reports { (terms : Terms) (from width : ℕ) (all : List Joined) → 1 ≤ terms.size →
        IsCounted terms from width all → All (HasAverage terms.size) (all_waits from width all) →
        total_reports from width all
        ≤ length all + carried_in width (rtcp_bw terms) terms }
    ensures compounds { (terms : Terms) (from width : ℕ) (all : List Joined) → 1 ≤ terms.size →
        IsCounted terms from width all → All (HasAverage terms.size) (all_waits from width all) →
        total_compounds from width all
        ≤ 10 * length all + carried_in width (rtcp_bw terms) terms }
{}

/// Who the waiting participants are, and who counts them. A participant waits at most once at a moment: so one that
/// counts all that report in a window (`IsCrowd`) counts the waiting ones. A participant to which the waiting ones are
/// members, in the roles in which they report next, counts them. No average is below a size that no compound is below.
pub fn those_who_wait_are_counted()
    ensures crowd { (terms : Terms) (from width : ℕ) (all : List Joined) → IsCrowd terms from width all →
        IsCounted terms from width all }
    ensures heard { (percent : ℕ) (waits : List Wait) → AreHeardWaiting percent waits → AreCounted percent waits }
    ensures sizes { (size from width : ℕ) (all : List Joined) → All (HasSizes size) all →
        All (HasAverage size) (all_waits from width all) }
{}

/// Those who join a session together do not flood it. Take the participants whose start and first report lie in a
/// window. The receivers among them are at most 2.43656 times as many as the receivers' part of the bandwidth carries
/// compounds in that time, and the senders as many as all of it carries (RFC 3550, 6.2, 6.3.1). So all reports in the
/// window are at most these, the later ones, and one of each participant that began before it: three terms, together
/// `2S + 3R` in place of `S + R`, if S and R are the parts of the bandwidth.
///
/// The premise (`JoinsAreCounted`): each has at most these two bandwidths at each of its reports, and no average at a
/// first report is below a size.
/// The first reports sent in a participant's role, after its start and up to its own, are at most `percent` per cent of
/// those whom it counts in that role. They are, if those who sent them are members to it in that role.
pub fn joining_together_does_not_flood()
    ensures others { (terms : Terms) (from width : ℕ) (all : List Joined) → 1 ≤ terms.size →
        JoinsAreCounted terms from width all →
        length (waits_as false (joins_within from width all)) ≤ carried_in width terms.receiver_bw terms }
    ensures senders { (terms : Terms) (from width : ℕ) (all : List Joined) → 1 ≤ terms.size →
        JoinsAreCounted terms from width all →
        length (waits_as true (joins_within from width all)) ≤ carried_in width (rtcp_bw terms) terms }
    ensures reports { (terms : Terms) (from width : ℕ) (all : List Joined) → 1 ≤ terms.size →
        IsCounted terms from width all → All (HasAverage terms.size) (all_waits from width all) →
        JoinsAreCounted terms from width all →
        total_reports from width all
        ≤ length (began_before from all) + (carried_in width (rtcp_bw terms) terms
        + (carried_in width (rtcp_bw terms) terms + carried_in width terms.receiver_bw terms)) }
    ensures heard { (percent : ℕ) (joins : List Wait) → All (HearsJoining percent joins) joins →
        All (CountsJoining percent joins) joins }
    ensures sizes { (size from width : ℕ) (all : List Joined) → All (HasSizes size) all →
        All (HasAverage size) (joins_within from width all) }
{}

/// Those who leave a session together do not flood it either. A participant sends at most one BYE after a backoff, once
/// half the interval then computed, over 1.21828, has passed since its leave. Of those whose leave and BYE lie in a
/// window, the BYEs are at most 2.43656 times as many as the receivers' part of the bandwidth carries in that time (RFC
/// 3550, 6.3.7).
///
/// The premise (`ByesAreCounted`): each has at most these two bandwidths at its BYE, and no compound with a BYE is
/// below a size. The BYEs that go out after a participant's leave and up to its own are at most `percent` per cent of
/// those it counts.
pub fn leaving_together_does_not_flood()
    ensures one { (history : History) → IsHistory history → length (backoff_byes_at history) ≤ 1 }
    ensures intervals { (history : History) → IsHistory history →
        All (λ backoff_bye. (backoff_bye.bye.interval ≡ interval_of (backoff_bye_load backoff_bye))
        × HalfPasses backoff_bye.backoff.since backoff_bye.bye.moment backoff_bye.bye.interval) (backoff_byes_at history) }
    ensures byes { (terms : Terms) (from width : ℕ) (all : List Joined) → 1 ≤ terms.size →
        ByesAreCounted terms from width all →
        length (bye_waits_within from width all) ≤ carried_in width terms.receiver_bw terms }
{}
