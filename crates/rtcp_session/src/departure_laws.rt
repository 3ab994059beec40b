//! Laws of who departs: where falls in the number of members come from, how long a member was silent that is timed out,
//! and how far departures put reports off. Each is a function that does nothing, whose postcondition is the law.

ghost use Rattle.std.specs.Prelude.{◌≡◌, ◌<◌, ◌≤◌, ◌+◌, ◌*◌, ◌++◌, ◌↔◌, ℕ, not, true, false, List, Contains};
ghost use Rattle.rtcp_members.specs.Stays.{last_naming};
ghost use Rattle.rtcp_engine.specs.answers.Setups.{Setup};
ghost use Rattle.rtcp_engine.specs.answers.Acts.{Act, Datagram, arrived, ticked};
ghost use Rattle.rtcp_engine.specs.answers.Arrivals.{after};
ghost use Rattle.rtcp_engine.specs.answers.Outcomes.{Outcome, check_interval, member_count};
ghost use Rattle.rtcp_engine.specs.answers.Ticks.{checked};
ghost use Rattle.rtcp_engine.specs.answers.Leaving.{Life, present};
ghost use Rattle.rtcp_engine.specs.answers.Lives.{members_in_life};
ghost use Rattle.rtcp_engine.specs.answers.Histories.{History, last_moment, life_at, setup_at, with_act};
ghost use Rattle.rtcp_engine.specs.bounds.Hearing.{names_source, with_acts};
ghost use Rattle.rtcp_engine.specs.bounds.InTime.{is_fall};
ghost use Rattle.rtcp_engine.specs.bounds.Sent.{reports_in, sent_at};
ghost use Rattle.rtcp_engine.specs.state.Taken.{IsHistory};
ghost use Rattle.rtcp_session.specs.Falls.{AllWaitAtMost, HasReport, TicksWithin};
ghost use Rattle.rtcp_session.specs.Departures.{
  Departs,
  IsTimedOut,
  departs_by,
  departures_within,
  is_departure,
  is_departure_after,
  is_member_of,
  least_silence,
  may_be_departure,
  new_members_since,
  other_members,
};

use rtcp_engine::heard_laws::those_heard_stay_members;

/// A member stays one through an act, unless it departs by the act, and then it is none any more (RFC 3550, 6.3.4,
/// 6.3.5, 6.6). Only a BYE packet that names it, a tick and the host's word end a membership. RTP packets, compounds
/// without its BYE, packets that the host sent and other settings end none.
pub fn members_stay_unless_they_depart()
    ensures { (setup : Setup) (act : Act) (outcome : Outcome) (ssrc : ℕ) →
        is_member_of setup outcome ssrc ≡ true →
        is_member_of setup (after setup act outcome) ssrc ≡ not (departs_by setup act outcome ssrc) }
{}

/// Members fall in number only by a departure (RFC 3550, 6.3.4): a BYE packet names a member, a tick finds a member
/// that was silent for too long, or the host says that a member is gone. A BYE packet that names nobody who is a member
/// is no departure. So a participant that takes part tells its host of fewer members only after a departure.
pub fn falls_are_departures()
    ensures falls { (setup : Setup) (act : Act) (life : Life) → is_fall setup act life ≡ true →
        is_departure setup act life ≡ true }
    ensures counts { (setup : Setup) (act : Act) (outcome : Outcome) →
        member_count setup (after setup act outcome) < member_count setup outcome →
        is_departure setup act (present outcome) ≡ true }
    ensures somebody { (setup : Setup) (act : Act) (outcome : Outcome) →
        (is_departure setup act (present outcome) ≡ true) ↔ Departs setup act outcome }
    ensures kinds { (setup : Setup) (act : Act) (life : Life) → is_departure setup act life ≡ true →
        may_be_departure act ≡ true }
    ensures told { (history : History) (act : Act) (later : Outcome) →
        life_at (with_act history act) ≡ present later →
        members_in_life (setup_at (with_act history act)) (present later)
        < members_in_life (setup_at history) (life_at history) →
        is_departure_after history act ≡ true }
{}

/// A participant reports between two moments that lie as far apart as one more longest wait, with the lag of its ticks,
/// than there are departures between them (RFC 3550, 6.3.4 and 6.3.6). So whoever would put its reports off has to
/// make a member depart in each longest wait.
#[tactic(auto, using(crate::proofs::Departed::reports_between_departures))]
pub fn few_departures_put_off_few_reports()
    ensures { (history : History) (wait lag from until departures : ℕ) → IsHistory history →
        AllWaitAtMost wait from history.setup history.word history.acts →
        TicksWithin lag from until history.acts →
        departures_within history.setup history.word from until history.acts ≤ departures →
        from + (departures + 1) * (wait + lag) ≤ until →
        HasReport from until (reports_in (sent_at history)) }
{}

/// Each departure takes a member away. Among the acts that follow on a history there are no more departures than the
/// other members that there were, and those that became members since, each as often as it did. So a participant
/// reports within as many longest waits, with the lag of its ticks, and one more.
pub fn departures_take_members_away()
    ensures few { (history : History) (since : List Act) (from until : ℕ) →
        IsHistory (with_acts since history) → last_moment history.acts ≤ from →
        departures_within history.setup history.word from until (since ++ history.acts)
        ≤ other_members (setup_at history) (life_at history) + new_members_since history since }
    ensures reports { (history : History) (since : List Act) (wait lag from until : ℕ) →
        IsHistory (with_acts since history) → last_moment history.acts ≤ from →
        AllWaitAtMost wait from history.setup history.word (since ++ history.acts) →
        TicksWithin lag from until (since ++ history.acts) →
        let most = other_members (setup_at history) (life_at history) + new_members_since history since in
        from + (most + 1) * (wait + lag) ≤ until →
        HasReport from until (reports_in (sent_at (with_acts since history))) }
{}

/// Who is timed out was silent for more than five intervals (RFC 3550, 6.3.5): 25 seconds at least, and 12.5 until the
/// participant has sent a report. A fall at a tick is such a time-out. A member stays one at a tick if a datagram that
/// names it was taken that lately.
pub fn time_outs_take_five_intervals()
    ensures falls { (setup : Setup) (t first_word second_word : ℕ) (outcome : Outcome) →
        is_fall setup (ticked t first_word second_word) (present outcome) ≡ true →
        (ssrc : ℕ) × IsTimedOut setup t outcome ssrc }
    ensures silent { (setup : Setup) (t : ℕ) (outcome : Outcome) (ssrc : ℕ) →
        is_member_of setup outcome ssrc ≡ true → is_member_of setup (checked setup t outcome) ssrc ≡ false →
        last_naming ssrc outcome.trace + 5 * check_interval setup t outcome < t }
    ensures least { (setup : Setup) (t : ℕ) (outcome : Outcome) →
        least_silence outcome ≤ 5 * check_interval setup t outcome }
    ensures heard { (history : History) (outcome : Outcome) (t ssrc at peer word : ℕ) (datagram : Datagram) →
        IsHistory history → life_at history ≡ present outcome →
        Contains history.acts (arrived at peer word datagram) → names_source ssrc datagram ≡ true →
        is_member_of (setup_at history) outcome ssrc ≡ true → t ≤ at + least_silence outcome →
        is_member_of (setup_at history) (checked (setup_at history) t outcome) ssrc ≡ true }
{
    those_heard_stay_members();
}
