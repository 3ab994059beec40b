//! Laws of goodbyes: how many members an origin can make depart, and how far that puts reports off. Each is a function
//! that does nothing, whose postcondition is the law.

ghost use Rattle.std.specs.Prelude.{◌≡◌, ◌≤◌, ◌+◌, ◌*◌, ◌==◌, ℕ, List, [], ◌∷◌, Contains};
ghost use Rattle.std.specs.List.{IsDistinct, sum_by};
ghost use Rattle.rtcp_engine.specs.answers.Histories.{History};
ghost use Rattle.rtcp_engine.specs.bounds.Sent.{reports_in, sent_at};
ghost use Rattle.rtcp_guard.specs.Guarding.{limit_of};
ghost use Rattle.rtcp_guarded.specs.Claimed.{followed};
ghost use Rattle.rtcp_guarded.specs.Guarded.{GuardedAct, GuardedHistory, guard_at, passed_at};
ghost use Rattle.rtcp_session.specs.Departures.{departures_within};
ghost use Rattle.rtcp_session.specs.Falls.{AllWaitAtMost, HasReport, TicksWithin};
ghost use Rattle.rtcp_guarded_session.specs.Goodbyes.{
  IsStretch,
  LosesNone,
  departures_from,
  other_departures,
  sources_allowed,
};

use rtcp_engine::laws::new_identifiers_are_free;
use rtcp_guard::laws::{compounds_name_their_sources, few_goodbyes_pass};
use rtcp_session::departure_laws::{falls_are_departures, few_departures_put_off_few_reports};

/// By saying BYE an address cannot keep a guarded participant from reporting, nor can a few (RFC 3550, 6.3.4, 6.3.6,
/// 8.2). Within a hold, the participant reports between two moments that lie far enough apart. Far enough is one longest
/// wait, with the lag of the ticks, for each source that these origins may have, one for each other departure, and one
/// more. Time-outs of the sources of these origins are among the others. The host says meanwhile of none of these
/// sources that it expects it elsewhere.
pub fn few_origins_put_off_few_reports()
    ensures one { (older : GuardedHistory) (newer : List GuardedAct) (origin wait lag from until others : ℕ) →
        IsStretch from newer older → LosesNone origin newer older →
        let history = followed older newer in let passed = passed_at history in
        AllWaitAtMost wait from passed.setup passed.word passed.acts → TicksWithin lag from until passed.acts →
        other_departures (origin ∷ []) from until passed ≤ others →
        from + (limit_of origin history.settings (guard_at history).trusted + others + 1) * (wait + lag) ≤ until →
        HasReport from until (reports_in (sent_at passed)) }
    ensures few { (older : GuardedHistory) (newer : List GuardedAct) (origins : List ℕ)
        (wait lag from until others : ℕ) → IsStretch from newer older →
        ((origin : ℕ) → Contains origins origin → LosesNone origin newer older) →
        let history = followed older newer in let passed = passed_at history in
        AllWaitAtMost wait from passed.setup passed.word passed.acts → TicksWithin lag from until passed.acts →
        other_departures origins from until passed ≤ others →
        from + (sources_allowed origins history + others + 1) * (wait + lag) ≤ until →
        HasReport from until (reports_in (sent_at passed)) }
{
    few_departures_put_off_few_reports();
    origins_make_few_depart();
}

/// Within a hold, no more often does a member depart by a datagram of an origin than that may have sources (RFC 3550,
/// 6.3.4, 8.2): of however many sources it says BYE, and however often they come back. The host says meanwhile of none
/// of its sources that it expects it elsewhere.
pub fn origins_make_few_depart()
    ensures { (older : GuardedHistory) (newer : List GuardedAct) (origin from until : ℕ) →
        IsStretch from newer older → LosesNone origin newer older → let history = followed older newer in
        departures_from origin from until (passed_at history)
        ≤ limit_of origin history.settings (guard_at history).trusted }
{
    compounds_name_their_sources();
    few_goodbyes_pass();
    new_identifiers_are_free();
    falls_are_departures();
}

/// Each departure is by a datagram of one of these origins, or by none of theirs. Where no origin stands twice among
/// them, it is counted once.
#[tactic(auto, using(crate::proofs::Origins::departures_are_among, crate::proofs::Origins::departures_are_once))]
pub fn departures_split_by_origin()
    ensures each { (history : History) (origins : List ℕ) (from until : ℕ) →
        departures_within history.setup history.word from until history.acts
        ≤ sum_by (λ origin. departures_from origin from until history) origins + other_departures origins from until history }
    ensures once { (history : History) (origins : List ℕ) (from until : ℕ) →
        IsDistinct (λ one other. one == other) origins →
        departures_within history.setup history.word from until history.acts
        ≡ sum_by (λ origin. departures_from origin from until history) origins + other_departures origins from until history }
{}
