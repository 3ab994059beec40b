//! Laws of lines of JSON. Each function is empty, and its postcondition is the law.

ghost use Rattle.std.specs.Prelude.{◌≡◌, ◌^◌, ◌<◌, ℕ, List, None, Option};
ghost use Rattle.std.specs.Io.KnownBytes.{Appends};
ghost use Rattle.json.specs.Json.{Json};
ghost use Rattle.rtcp_wire.specs.Grammar.{AreOctets, IsAccepted};
ghost use Rattle.rtcp_wire.specs.Faults.{IsFirstFault};
ghost use Rattle.rtcp_wire.specs.Values.{RtcpPacket};
ghost use Rattle.rtcp_wire.specs.declared.fault.WireFault.{WireFault};
ghost use Rattle.rtcp_engine.specs.answers.Acts.{EventValue, StepValue};
ghost use Rattle.rtcp_engine.specs.answers.Histories.{History};
ghost use Rattle.rtcp_engine.specs.declared.refusal.Refusal.{Refusal};
ghost use Rattle.rtcp_guarded.specs.Guarded.{GuardedAnswer, GuardedHistory};
ghost use Rattle.rtcp_guarded.specs.declared.untaken.Reason.{Reason};
ghost use Rattle.rtcp_serve.specs.Observers.{Notice, TakesAll};
ghost use Rattle.rtcp_serve.specs.declared.serving.End.{End};
ghost use Rattle.rtcp_text.specs.declared.fault.LineFault.{LineFault as Fault};
ghost use Rattle.rtcp_json.specs.AnswerValues.{held_back_json, refusal_json, start_json, step_json};
ghost use Rattle.rtcp_json.specs.CheckJson.{IsJsonOf};
ghost use Rattle.rtcp_json.specs.GuardedReplayJson.{IsGuardedJsonOf};
ghost use Rattle.rtcp_json.specs.PacketValues.{datagram_json, fault_json};
ghost use Rattle.rtcp_json.specs.ReplayJson.{IsSessionJsonOf};
ghost use Rattle.rtcp_json.specs.SourceValues.{Listing, dated_json};
ghost use Rattle.rtcp_json.specs.ToldValues.{IsShownIfSome, TellsInJson, datagram_of_event, end_json, told_json, unsent_json};
ghost use Rattle.rtcp_json.specs.Validity.{IsAnswerInRange, IsEndInRange, IsEventInRange, IsListingInRange, IsMomentInRange, IsRefusalInRange, IsStepInRange, IsValidLine};
ghost use Rattle.rtcp_json.specs.Watchers.{ShowsNotices, Watches, fault_of, held_by, moment_told};
ghost use Rattle.rtcp_json.specs.declared.watcher.JsonWatcher.{JsonWatcher};

use std::io::Write;

/// Whatever octets a peer sends, the line that shows them is one line, in UTF-8, and a document of JSON (RFC 8259) that
/// is read as just the value that is shown.
pub fn lines_are_json()
    ensures accepted { (octets : List ℕ) (packets : List RtcpPacket) → AreOctets octets → IsAccepted octets packets →
        IsValidLine (datagram_json packets) }
    ensures refused { (octets : List ℕ) (fault : WireFault) → IsFirstFault octets fault →
        IsValidLine (fault_json fault) }
{}

/// The same of the lines that a replay shows, whose numbers are in the ranges of Rust's types.
pub fn answers_are_json()
    ensures started { (next : Option ℕ) → IsMomentInRange next → IsValidLine (start_json next) }
    ensures taken { (step : StepValue) → IsStepInRange step → IsValidLine (step_json step) }
    ensures refused { (refusal : Refusal) → IsRefusalInRange refusal → IsValidLine (refusal_json refusal) }
    ensures held_back { (reason : Reason) → IsValidLine (held_back_json reason) }
{}

/// The same of the lines of a session on a link, whatever came and from wherever, where the other numbers are in the
/// ranges of Rust's types.
pub fn told_lines_are_json()
    ensures told { (event : EventValue) (datagram : Json) (answer : GuardedAnswer) → IsEventInRange event →
        IsShownIfSome (datagram_of_event event) datagram → IsAnswerInRange answer →
        IsValidLine (told_json event datagram answer) }
    ensures listed { (moment : ℕ) (listing : Listing) → moment < 2 ^ 64 → IsListingInRange listing →
        IsValidLine (dated_json moment listing) }
    ensures unsent { (moment : ℕ) → moment < 2 ^ 64 → IsValidLine (unsent_json moment) }
    ensures ended { (ended : End) → IsEndInRange ended → IsValidLine (end_json ended) }
{}

/// Each event with its answer has a text in JSON, a line or nothing, and only one.
pub fn one_told_text()
    ensures always { (event : EventValue) (answer : GuardedAnswer)
        → (text : List ℕ) × TellsInJson event answer text }
    ensures only { (event : EventValue) (answer : GuardedAnswer) (text1 text2 : List ℕ) →
        TellsInJson event answer text1 → TellsInJson event answer text2 → text1 ≡ text2 }
{}

/// A watcher that took all that happened in a session, and has no fault, has written just the lines of that.
pub fn watchers_write_all<W: Write>()
    ensures { (notices : List Notice) (before after : JsonWatcher W) →
        TakesAll (Watches W.contents) notices before after → fault_of after ≡ None →
        (text : List ℕ) × ShowsNotices (moment_told before) notices text
        × Appends (held_by W.contents before) (held_by W.contents after) text }
{}

/// Each input of a check has a text in JSON, with an end, and only one, however many lines are answered at most.
pub fn one_json_text()
    ensures always { (lines : ℕ) (input : List ℕ)
        → (text : List ℕ) × (end : Option (ℕ × Fault)) × IsJsonOf lines end input text }
    ensures only { (lines : ℕ) (input text1 text2 : List ℕ) (end1 end2 : Option (ℕ × Fault))
        → IsJsonOf lines end1 input text1 → IsJsonOf lines end2 input text2 → (text1 ≡ text2) × (end1 ≡ end2) }
{}

/// After each history, each input of a replay has a text in JSON, with an end, and only one, however many lines are
/// answered at most. So has each of a guarded replay.
pub fn one_json_session()
    ensures always { (lines : ℕ) (history : History) (input : List ℕ)
        → (text : List ℕ) × (end : Option (ℕ × Fault)) × IsSessionJsonOf lines history end input text }
    ensures only { (lines : ℕ) (history : History) (input text1 text2 : List ℕ) (end1 end2 : Option (ℕ × Fault))
        → IsSessionJsonOf lines history end1 input text1 → IsSessionJsonOf lines history end2 input text2
        → (text1 ≡ text2) × (end1 ≡ end2) }
    ensures guarded_always { (lines : ℕ) (history : GuardedHistory) (input : List ℕ)
        → (text : List ℕ) × (end : Option (ℕ × Fault)) × IsGuardedJsonOf lines history end input text }
    ensures guarded_only { (lines : ℕ) (history : GuardedHistory) (input text1 text2 : List ℕ)
        (end1 end2 : Option (ℕ × Fault)) → IsGuardedJsonOf lines history end1 input text1 →
        IsGuardedJsonOf lines history end2 input text2 → (text1 ≡ text2) × (end1 ≡ end2) }
{}
