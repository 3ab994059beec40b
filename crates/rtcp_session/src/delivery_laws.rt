//! Laws of sessions by what the network does: if the compounds of each participant come to the others within some
//! delay, the session keeps to its bandwidth. Each is an empty function whose postcondition is the law.

ghost use Rattle.std.specs.Prelude.{◌≡◌, ◌≤◌, ◌<◌, ℕ, ◌+◌, ◌-◌, ◌*◌, true, false, List, ◌∷◌, All, Contains, length, Ok};
ghost use Rattle.rtcp_wire.specs.declared.fact.Fact.TheVariants.{Named};
ghost use Rattle.rtcp_wire.specs.Values.{RtcpPacket};
ghost use Rattle.rtcp_wire.specs.Facts.{facts_of};
ghost use Rattle.rtcp_members.specs.Traces.{TraceStep};
ghost use Rattle.rtcp_members.specs.Lasting.{MayBring};
ghost use Rattle.rtcp_members.specs.Entries.{entry_at, is_member, is_sender, is_such};
ghost use Rattle.rtcp_timer.specs.Loads.{with_headers};
ghost use Rattle.rtcp_engine.specs.answers.Acts.{Act, arrived, rtcp, ticked};
ghost use Rattle.rtcp_engine.specs.answers.Outcomes.{Outcome};
ghost use Rattle.rtcp_engine.specs.answers.Leaving.{present};
ghost use Rattle.rtcp_engine.specs.answers.Histories.{History, life_at, session_at, setup_at, with_act};
ghost use Rattle.rtcp_engine.specs.bounds.Hearing.{IsHeardAtTicks, LeavesAlone, with_acts};
ghost use Rattle.rtcp_engine.specs.state.Taken.{IsHistory};
ghost use Rattle.rtcp_session.specs.Windows.{Joined, decided_at, decided_by, reports_within};
ghost use Rattle.rtcp_session.specs.Crowds.{total_reports, total_octets, total_compounds, Terms};
ghost use Rattle.rtcp_session.specs.Waits.{
  waits_within,
  all_waits,
  averages_of,
  rtcp_bw,
  waits_as,
  HasAverage,
  KeepsToAverage,
};
ghost use Rattle.rtcp_session.specs.Deliveries.{
  IsCountedAfter,
  least_wait,
  carried_after,
  octets_after,
  is_named_in,
  IsKept,
  HasHeard,
  brings_rtp,
  NamesItsSource,
  ComeWithin,
  IsDelivered,
};

/// A source whose compound was taken is a member until it leaves or is silent for too long, if there is room for it
/// (RFC 3550, 6.2.1, 6.3.3 to 6.3.5). Each report gives its source's CNAME. A compound with a CNAME that was taken
/// before a report stands in the trace that decides on that report. A source that gave its CNAME in a trace, and that
/// the trace keeps (`IsKept`), is a member by it: so it is a member at each report after the moment when its compound
/// was taken. A source of which no RTP packet came is no sender.
pub fn those_who_report_become_members()
    ensures named { (history : History) → All NamesItsSource (decided_at history) }
    ensures taken { (history : History) (ssrc at peer word size : ℕ) (packets : List RtcpPacket) →
        IsHistory history → Contains history.acts (arrived at peer word (rtcp size (Ok packets))) →
        Contains (facts_of packets) (Named ssrc) →
        All (λ decided. at < decided.report.moment → is_named_in ssrc decided.outcome.trace ≡ true)
        (decided_at history) }
    ensures members { (capacity ssrc : ℕ) (trace : List TraceStep) → is_named_in ssrc trace ≡ true →
        IsKept capacity ssrc trace → is_such is_member (entry_at capacity trace ssrc) ≡ true }
    ensures heard { (joined : Joined) (moment ssrc : ℕ) → IsHistory joined.history → HasHeard moment ssrc joined →
        All (λ decided. moment < joined.start + decided.report.moment →
        IsKept decided.setup.capacity ssrc decided.outcome.trace →
        is_such is_member (entry_at decided.setup.capacity decided.outcome.trace ssrc) ≡ true)
        (decided_at joined.history) }
    ensures listeners { (capacity ssrc : ℕ) (trace : List TraceStep) →
        All (λ step. brings_rtp ssrc step ≡ false) trace →
        is_such is_sender (entry_at capacity trace ssrc) ≡ false }
{}

/// A source whose compound was taken is heard at a report, in the sense of `AreHeard`: it is a member by what decides
/// on that report (RFC 3550, 6.2.1, 6.3.3 to 6.3.5). The compound gives its CNAME and may bring it in: there is room
/// for it, and no BYE of it. In the acts since, no datagram brings its BYE, and the host does not say that it
/// is gone. At each tick, that of the report among them, its newest fact is no older than five of the intervals that
/// the tick's check goes by. (`those_named_become_members` of rtcp_engine says the same of any moment.)
pub fn those_named_are_heard()
    ensures { (before : History) (moment peer word size ssrc t first_word second_word : ℕ)
        (packets : List RtcpPacket) (outcome : Outcome) (since : List Act) → life_at before ≡ present outcome →
        Contains (facts_of packets) (Named ssrc) →
        MayBring (setup_at before).capacity ssrc (facts_of packets) outcome.trace →
        let named = with_act before (arrived moment peer word (rtcp size (Ok packets))) in
        All (LeavesAlone ssrc) since → IsHeardAtTicks ssrc (ticked t first_word second_word ∷ since) named →
        All (λ decided. is_such is_member (entry_at decided.setup.capacity decided.outcome.trace ssrc) ≡ true)
        (decided_by (session_at (with_acts since named)) (ticked t first_word second_word)) }
{}

/// A delay stretches the window. If those who wait for their next reports count each other once a delay has passed
/// since their reports before (`IsCountedAfter`), the bounds of `sessions_keep_to_their_bandwidth` on later reports
/// hold, multiplied by 2,052,074 over 2,052,074 less the delay: successive reports lie at least so many microseconds
/// apart.
pub fn delays_stretch_the_window()
    ensures averages { (delay : ℕ) (terms : Terms) (from width : ℕ) (all : List Joined) → delay < least_wait →
        IsCountedAfter delay terms from width all →
        (least_wait - delay) * (100 * 100000 * 1000000 * averages_of (all_waits from width all))
        ≤ least_wait * (terms.percent * (2 * 121828 * width * (256 * rtcp_bw terms))) }
    ensures others { (delay : ℕ) (terms : Terms) (from width : ℕ) (all : List Joined) → delay < least_wait →
        IsCountedAfter delay terms from width all →
        (least_wait - delay) * (100 * 100000 * 1000000 * averages_of (waits_as false (all_waits from width all)))
        ≤ least_wait * (terms.percent * (2 * 121828 * width * (256 * terms.receiver_bw))) }
    ensures octets { (delay : ℕ) (terms : Terms) (from width most of_average : ℕ) (all : List Joined) →
        delay < least_wait → IsCountedAfter delay terms from width all →
        All (KeepsToAverage of_average) (all_waits from width all) →
        All (λ joined. All (λ report. with_headers (length report.out.octets) ≤ most)
        (reports_within from width joined)) all →
        total_octets from width all ≤ most * length all + octets_after delay width (rtcp_bw terms) of_average terms }
    ensures reports { (delay : ℕ) (terms : Terms) (from width : ℕ) (all : List Joined) → delay < least_wait →
        1 ≤ terms.size → IsCountedAfter delay terms from width all →
        All (HasAverage terms.size) (all_waits from width all) →
        total_reports from width all ≤ length all + carried_after delay width (rtcp_bw terms) terms }
    ensures compounds { (delay : ℕ) (terms : Terms) (from width : ℕ) (all : List Joined) → delay < least_wait →
        1 ≤ terms.size → IsCountedAfter delay terms from width all →
        All (HasAverage terms.size) (all_waits from width all) →
        total_compounds from width all ≤ 10 * length all + carried_after delay width (rtcp_bw terms) terms }
{}

/// If the reports of each participant come to the others within a delay, the session keeps to its RTCP bandwidth, with
/// the window stretched by that delay (RFC 3550, 6.2, 6.3.1). No number of members is assumed, and no draw.
///
/// The premise (`IsDelivered`): each has at most these two bandwidths at each of its reports. Take any two participants
/// whose waits for a next report overlap for longer than the delay, which is below 2,052,074 microseconds. Before its
/// own next report, each has taken a compound of the other, under the SSRC of the other's next report. (It has, where
/// each report comes within the delay and nobody changes its SSRC in between: the clause `within`.) Each always had
/// room for the other, never dropped it, and took no BYE of it; their SSRCs differ. Where both next report as senders,
/// each takes the other for a sender; where neither does, for none.
///
/// The law is about any list of participants of a session. So it may be told of those that neither join nor leave in a
/// window, nor begin or cease to send there, whoever else does. What the others cost,
/// `sessions_keep_to_their_bandwidth` says by its `percent`.
pub fn delivered_sessions_keep_to_their_bandwidth()
    ensures within { (delay from width : ℕ) (one joined : Joined) → ComeWithin delay from width one joined →
        All (λ its. HasHeard (its.since + delay) its.next.setup.ssrc joined) (waits_within from width one) }
    ensures counted { (delay : ℕ) (terms : Terms) (from width : ℕ) (all : List Joined) →
        IsDelivered delay terms from width all → IsCountedAfter delay (record terms { percent = 100 }) from width all }
    ensures averages { (delay : ℕ) (terms : Terms) (from width : ℕ) (all : List Joined) →
        IsDelivered delay terms from width all →
        (least_wait - delay) * (100000 * 1000000 * averages_of (all_waits from width all))
        ≤ least_wait * (2 * 121828 * width * (256 * rtcp_bw terms)) }
    ensures others { (delay : ℕ) (terms : Terms) (from width : ℕ) (all : List Joined) →
        IsDelivered delay terms from width all →
        (least_wait - delay) * (100000 * 1000000 * averages_of (waits_as false (all_waits from width all)))
        ≤ least_wait * (2 * 121828 * width * (256 * terms.receiver_bw)) }
    ensures octets { (delay : ℕ) (terms : Terms) (from width most of_average : ℕ) (all : List Joined) →
        IsDelivered delay terms from width all → All (KeepsToAverage of_average) (all_waits from width all) →
        All (λ joined. All (λ report. with_headers (length report.out.octets) ≤ most)
        (reports_within from width joined)) all →
        total_octets from width all
        ≤ most * length all + octets_after delay width (rtcp_bw terms) of_average (record terms { percent = 100 }) }
    ensures reports { (delay : ℕ) (terms : Terms) (from width : ℕ) (all : List Joined) → 1 ≤ terms.size →
        IsDelivered delay terms from width all → All (HasAverage terms.size) (all_waits from width all) →
        total_reports from width all
        ≤ length all + carried_after delay width (rtcp_bw terms) (record terms { percent = 100 }) }
    ensures compounds { (delay : ℕ) (terms : Terms) (from width : ℕ) (all : List Joined) → 1 ≤ terms.size →
        IsDelivered delay terms from width all → All (HasAverage terms.size) (all_waits from width all) →
        total_compounds from width all
        ≤ 10 * length all + carried_after delay width (rtcp_bw terms) (record terms { percent = 100 }) }
{}
