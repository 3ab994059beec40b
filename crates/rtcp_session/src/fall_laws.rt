//! The law of how far falls in the number of members put reports off.

ghost use Rattle.std.specs.Prelude.{◌≡◌, ◌≤◌, ◌+◌, ◌*◌, ℕ};
ghost use Rattle.rtcp_engine.specs.answers.Histories.{History};
ghost use Rattle.rtcp_engine.specs.bounds.Sent.{reports_in, sent_at};
ghost use Rattle.rtcp_engine.specs.state.Taken.{IsHistory};
ghost use Rattle.rtcp_session.specs.Falls.{AllWaitAtMost, HasReport, TicksWithin, falls_within};

/// A participant reports between two moments that lie as far apart as one more longest wait, with the lag of its ticks,
/// than the members fall in number between them (RFC 3550, 6.3.4 and 6.3.6). For each fall moves its last transmission
/// towards the present, and so puts the next report off by no more than the longest wait: in a window in which so few
/// falls come, whoever causes them, it is not silenced.
#[tactic(auto, using(crate::proofs::Falling::reports_between))]
pub fn few_falls_put_off_few_reports()
    ensures { (history : History) (wait lag from until falls : ℕ) → IsHistory history →
        AllWaitAtMost wait from history.setup history.word history.acts →
        TicksWithin lag from until history.acts →
        falls_within history.setup history.word from until history.acts ≤ falls →
        from + (falls + 1) * (wait + lag) ≤ until →
        HasReport from until (reports_in (sent_at history)) }
{}
