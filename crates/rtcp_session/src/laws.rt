//! Laws of what several participants of a session send together. Each is an empty function whose postcondition is
//! the law.

ghost use Rattle.std.specs.Prelude.{◌≡◌, ◌≤◌, ℕ, ◌+◌, ◌-◌, ◌*◌, ◌/◌, false, nat_le, not, List, map, filter, All, length, Result};
ghost use Rattle.std.specs.List.{sum_by};
ghost use Rattle.rtcp_wire.specs.declared.fault.WireFault.{WireFault};
ghost use Rattle.rtcp_wire.specs.Values.{RtcpPacket};
ghost use Rattle.rtcp_members.specs.Entries.{is_member, is_sender};
ghost use Rattle.rtcp_timer.specs.Loads.{interval_of, with_headers};
ghost use Rattle.rtcp_engine.specs.answers.Setups.{Setup};
ghost use Rattle.rtcp_engine.specs.answers.Acts.{IsReading, rtcp_came};
ghost use Rattle.rtcp_engine.specs.answers.OwnStreams.{we_sent};
ghost use Rattle.rtcp_engine.specs.answers.Outcomes.{Outcome, first_size_of, load_of, one_if};
ghost use Rattle.rtcp_engine.specs.answers.Histories.{History};
ghost use Rattle.rtcp_engine.specs.state.Taken.{IsHistory};
ghost use Rattle.rtcp_engine.specs.bounds.Sent.{reports_in, sent_at};
ghost use Rattle.rtcp_engine.specs.bounds.Spacing.{count_within};
ghost use Rattle.rtcp_session.specs.Windows.{
  in_window,
  later_ones,
  intervals_of,
  Decided,
  load_at,
  decided_at,
  HasSize,
  Joined,
  reports_within,
  later_within,
};
ghost use Rattle.rtcp_session.specs.Crowds.{
  total_reports,
  total_octets,
  total_compounds,
  Paced,
  IsPaced,
  total_as,
  shares_within,
  total_shares,
  SharesBandwidth,
  LeavesOthers,
  AreHeard,
  is_listener,
  HearsMost,
  Terms,
  CountsMost,
  IsCrowd,
  carried_in,
};

/// Each report that a participant sends has a load, from which the interval then computed follows (RFC 3550, 6.3.1).
pub fn reports_have_loads()
    ensures all { (history : History) →
        map (λ decided. decided.report) (decided_at history) ≡ reports_in (sent_at history) }
    ensures intervals { (history : History) →
        All (λ decided. decided.report.interval ≡ interval_of (load_at decided)) (decided_at history) }
{}

/// The intervals then computed for the reports in a window, but for the oldest of these, are together at most 2.43656
/// times as long as the window (RFC 3550, 6.3.1).
pub fn windows_hold_their_intervals()
    ensures { (history : History) (from width : ℕ) → IsHistory history →
        100000 * intervals_of (later_ones (in_window from width (reports_in (sent_at history)))) ≤ 2 * 121828 * width }
{}

/// Of the reports in a window for which the interval then computed was at least so long, there is at most one more
/// than half that interval, over 1.21828, fits into it. So it is of all of them, where each but the oldest had such
/// an interval.
pub fn reports_keep_to_their_intervals()
    ensures long { (history : History) (from width least : ℕ) → IsHistory history → 1 ≤ least →
        length (filter (λ report. nat_le least report.interval) (in_window from width (reports_in (sent_at history))))
        ≤ 1 + 2 * 121828 * width / (100000 * least) }
    ensures all { (history : History) (from width least : ℕ) → IsHistory history → 1 ≤ least →
        All (λ report. least ≤ report.interval) (later_ones (in_window from width (reports_in (sent_at history)))) →
        count_within from width (reports_in (sent_at history)) ≤ 1 + 2 * 121828 * width / (100000 * least) }
{}

/// The same of several participants, which may have begun at different moments: together they send at most one
/// report each, and as many as half of each one's interval, over 1.21828, fits into the window.
pub fn totals_keep_to_the_intervals()
    ensures { (all : List Paced) (from width : ℕ) → All (IsPaced from width) all →
        total_reports from width (map (λ paced. paced.joined) all)
        ≤ length all + sum_by (λ paced. 2 * 121828 * width / (100000 * paced.least)) all }
{}

/// A participant leaves the others that it counts their part of the bandwidth in each window: if each of those that it
/// counts as such as do not send had sent a compound of average size for each report there that it sends as one of
/// them, its oldest there left out, they would have used at most 2.43656 times the bandwidth that they share (RFC 3550,
/// 6.3.1). Of several participants it is so in sum, whatever each of them counts. Where the bandwidth changes, it is
/// the greatest at these reports.
pub fn windows_keep_to_the_share()
    ensures one { (joined : Joined) (from width receiver_bw : ℕ) → IsHistory joined.history →
        All (LeavesOthers receiver_bw) (later_within from width joined) →
        100000 * 1000000 * shares_within from width joined ≤ 2 * 121828 * width * (256 * receiver_bw) }
    ensures all { (all : List Joined) (from width receiver_bw : ℕ) →
        All (SharesBandwidth from width receiver_bw) all →
        100000 * 1000000 * total_shares from width all
        ≤ length all * (2 * 121828 * width * (256 * receiver_bw)) }
{}

/// The average size of compounds is never below a size that none of them is below: none that came, nor an empty report
/// of the participant (RFC 3550, 6.3.3). With UDP and IPv4 headers each datagram that is read as a compound has at
/// least 36 octets, and such a report at least 48.
pub fn averages_keep_to_the_sizes()
    ensures averages { (history : History) (least : ℕ) →
        least ≤ with_headers (first_size_of history.setup) → All (HasSize least) history.acts →
        All (λ decided. 256 * least ≤ (load_at decided).avg) (decided_at history) }
    ensures came { (moment peer word : ℕ) (octets : List ℕ) (reading : Result (List RtcpPacket) WireFault) →
        IsReading octets reading → HasSize 36 (rtcp_came moment peer word octets reading) }
    ensures own { (setup : Setup) → 48 ≤ with_headers (first_size_of setup) }
{}

/// A participant counts all whom it hears: sources that are members by its trace, no two of them the same, and itself;
/// so of those that send, and of those that do not (RFC 3550, 6.2.1, 6.3.3). One to which each of the others is a
/// member, in the role in which that reports, counts all, as a crowd has to.
pub fn those_heard_are_counted()
    ensures members { (setup : Setup) (outcome : Outcome) (ssrcs : List ℕ) → AreHeard is_member setup outcome ssrcs →
        1 + length ssrcs ≤ (load_of setup outcome).members }
    ensures senders { (setup : Setup) (outcome : Outcome) (ssrcs : List ℕ) → AreHeard is_sender setup outcome ssrcs →
        one_if (we_sent outcome.own) + length ssrcs ≤ (load_of setup outcome).senders }
    ensures others { (setup : Setup) (outcome : Outcome) (ssrcs : List ℕ) → AreHeard is_listener setup outcome ssrcs →
        one_if (not (we_sent outcome.own)) + length ssrcs
        ≤ (load_of setup outcome).members - (load_of setup outcome).senders }
    ensures crowd { (percent from width : ℕ) (all : List Joined) (decided : Decided) →
        HearsMost percent from width all decided → CountsMost percent from width all (load_at decided) }
{}

/// However many take part in a session, together they do not flood it: in a window of any width they send at most one
/// report each, and beyond these no more than 2.43656 times as many as the session's RTCP bandwidth carries in that
/// time, if each counts all of them whenever it reports again (RFC 3550, 6.2, 6.3.1). Where they are so many percent of
/// those whom each counts, as where its table is full, it is so many percent of that. Of the later reports, those that
/// are sent by such as do not send RTP keep so to their part of the bandwidth. With their BYEs they send at most nine
/// compounds more each. It holds of octets too, if no report has more than so many.
pub fn crowds_do_not_flood()
    ensures reports { (terms : Terms) (from width : ℕ) (all : List Joined) → 1 ≤ terms.size →
        IsCrowd terms from width all →
        total_reports from width all
        ≤ length all + carried_in width (terms.sender_bw + terms.receiver_bw) terms }
    ensures others { (terms : Terms) (from width : ℕ) (all : List Joined) → 1 ≤ terms.size →
        IsCrowd terms from width all →
        total_as false from width all ≤ carried_in width terms.receiver_bw terms }
    ensures compounds { (terms : Terms) (from width : ℕ) (all : List Joined) → 1 ≤ terms.size →
        IsCrowd terms from width all →
        total_compounds from width all
        ≤ 10 * length all + carried_in width (terms.sender_bw + terms.receiver_bw) terms }
    ensures octets { (terms : Terms) (from width most : ℕ) (all : List Joined) → 1 ≤ terms.size →
        IsCrowd terms from width all →
        All (λ joined. All (λ report. with_headers (length report.out.octets) ≤ most)
        (reports_within from width joined)) all →
        total_octets from width all
        ≤ most * (length all + carried_in width (terms.sender_bw + terms.receiver_bw) terms) }
{}
