//! What a session over a link comes to, which is one of so many turns before its leave and of so many further at most
//! after it. Nothing calls these.

ghost use Rattle.std.specs.Prelude.{◌≡◌, ◌<◌, ◌≤◌, ◌/◌, ◌++◌, ◌∷◌, ℕ, List, All, Some, true, false};
ghost use Rattle.rand_core.specs.Stream.{Stream};
ghost use Rattle.rtcp_serve.specs.declared.serving.Cause.{Cause};
ghost use Rattle.rtcp_serve.specs.declared.serving.End.{End};
ghost use Rattle.rtcp_serve.specs.Endings.{known_until};
ghost use Rattle.rtcp_serve.specs.Handing.{acts_in, answers_given, answers_in, given_in, handed_out, history_after, sends_in, sends_of};
ghost use Rattle.rtcp_serve.specs.Links.{Call, LinkValue, how_many, is_datagram, is_failed_receive, is_failed_send, is_sent};
ghost use Rattle.rtcp_serve.specs.Observers.{Notice, TakesAll};
ghost use Rattle.rtcp_serve.specs.Served.{Served};
ghost use Rattle.rtcp_serve.specs.Serving.{IsReader, Reader, SessionState, at_the_start_of, ended};
ghost use Rattle.rtcp_serve.specs.Sessions.{Comes, Kept, RunsCutOf};

use crate::observer::Observer;

/// There is a reader as the grammars of RTCP and RTP have it, and any two read alike: so what is said of a session
/// with each such reader is said of one.
pub fn there_is_one_reader()
    ensures there { (reader : Reader) × IsReader reader }
    ensures alike { (one other : Reader) → IsReader one → IsReader other → (octets : List ℕ) →
        (one.rtcp octets ≡ other.rtcp octets) × (one.rtp octets ≡ other.rtp octets) }
{}

/// The compounds that went to the link are those that the participant handed out, in their order, each once,
/// whether or not sending them failed. The participant stands where what the observer was told leaves it.
pub fn compounds_go_out_once()
    ensures handed { (reader : Reader) (history : Served) (words : Stream) (turns further : ℕ) (calls : List Call)
        (t : SessionState) (before after : LinkValue) (cause : Cause) →
        Comes reader further calls (at_the_start_of history words turns) t before after → t.stage ≡ ended cause →
        given_in calls ≡ handed_out history (acts_in reader t.notices) }
    ensures history { (reader : Reader) (history : Served) (words : Stream) (turns further : ℕ) (calls : List Call)
        (t : SessionState) (before after : LinkValue) →
        Comes reader further calls (at_the_start_of history words turns) t before after →
        t.history ≡ history_after history (acts_in reader t.notices) }
{}

/// An observer is told each event with the answer of the history before it, and of each send of the link whether it
/// failed, in their order.
pub fn observers_are_told_all()
    ensures answers { (reader : Reader) (history : Served) (words : Stream) (turns further : ℕ) (calls : List Call)
        (t : SessionState) (before after : LinkValue) →
        Comes reader further calls (at_the_start_of history words turns) t before after →
        answers_in t.notices ≡ answers_given history (acts_in reader t.notices) }
    ensures sends { (reader : Reader) (history : Served) (words : Stream) (turns further : ℕ) (calls : List Call)
        (t : SessionState) (before after : LinkValue) →
        Comes reader further calls (at_the_start_of history words turns) t before after →
        sends_in t.notices ≡ sends_of calls }
{}

/// An observer that keeps a log of what it takes holds in it all that it was told, after what it held before.
pub fn logs_hold_all<O: Observer>()
    ensures { (log : O → List Notice) →
        ((notice : Notice) (old new : O) → O.takes notice old new → log new ≡ notice ∷ log old) →
        (notices : List Notice) (before after : O) → TakesAll O.takes notices before after →
        log after ≡ notices ++ log before }
{}

/// The totals of a session are counts of its calls.
pub fn totals_count_calls()
    ensures { (reader : Reader) (history : Served) (words : Stream) (turns further : ℕ) (calls : List Call)
        (t : SessionState) (before after : LinkValue) →
        Comes reader further calls (at_the_start_of history words turns) t before after →
        (t.tally.received ≡ how_many is_datagram calls) × (t.tally.recv_failures ≡ how_many is_failed_receive calls)
        × (t.tally.sent ≡ how_many is_sent calls) × (t.tally.send_failures ≡ how_many is_failed_send calls) }
{}

/// A link that tells its log tells the calls of a session, and with the words these determine all that the
/// participant was told, and the end.
pub fn a_log_determines_the_session()
    ensures calls { (reader : Reader) (history : Served) (words : Stream) (turns further : ℕ)
        (calls others : List Call) (s t : SessionState) (before after : LinkValue) (log : List Call) →
        after.log ≡ Some log → Comes reader further calls (at_the_start_of history words turns) s before after →
        Comes reader further others (at_the_start_of history words turns) t before after → (calls ≡ others) × (s ≡ t) }
{}

/// In a session until a moment, a turn before the leave begins before that moment, and one after the leave before twice
/// that. Fewer turns are made before the leave than may be only if the moment had come, and after it only if twice that
/// had.
pub fn moments_end_turns<O: Observer>()
    ensures before { (reader : Reader) (moment most : ℕ) (history : Served) (before after : Kept O) (result : End)
        (cut : RunsCutOf O.takes reader (known_until moment) most history before after result) →
        All (λ one. one.is_over ≡ false → one.has_left ≡ false → one.moment < moment) cut.runs.reached.pauses }
    ensures after { (reader : Reader) (moment most : ℕ) (history : Served) (before after : Kept O) (result : End)
        (cut : RunsCutOf O.takes reader (known_until moment) most history before after result) →
        All (λ one. one.is_over ≡ false → one.has_left ≡ true → one.moment / 2 < moment) cut.runs.reached.pauses }
    ensures whole { (reader : Reader) (moment most : ℕ) (history : Served) (before after : Kept O) (result : End)
        (cut : RunsCutOf O.takes reader (known_until moment) most history before after result) →
        (cut.made < most → moment ≤ cut.left_at)
        × (cut.further < most → moment ≤ cut.runs.reached.tally.moment / 2) }
{}
