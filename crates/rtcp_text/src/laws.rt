//! Laws of the texts of a check and of a replay, and of the lines of events. Each function is empty, and its
//! postcondition is the law.

ghost use Rattle.std.specs.Prelude.{◌≡◌, ◌≤◌, ◌∷◌, ◌++◌, [], ℕ, All, List, Ok, Option, length, map};
ghost use Rattle.std.specs.List.{flat_map};
ghost use Rattle.rtcp_engine.specs.answers.Acts.{EventValue};
ghost use Rattle.rtcp_engine.specs.answers.Histories.{History};
ghost use Rattle.rtcp_wire.specs.Values.{RtcpPacket};
ghost use Rattle.rtcp_text.specs.Check.{IsTextOfBy};
ghost use Rattle.rtcp_text.specs.EventLines.{IsCallable, datagram_in_event, event_in, event_text};
ghost use Rattle.rtcp_text.specs.Lines.{HasNoLineFeed, lines_of};
ghost use Rattle.rtcp_text.specs.Replay.{IsSessionOf};
ghost use Rattle.rtcp_text.specs.declared.fault.LineFault.{LineFault as Fault};

/// Each input of a check has a text, with an end, and only one, however packets are shown and many lines are answered
/// at most.
pub fn one_text()
    ensures always { (shows : List RtcpPacket → List ℕ) (lines : ℕ) (input : List ℕ)
        → (text : List ℕ) × (end : Option (ℕ × Fault)) × IsTextOfBy shows lines end input text }
    ensures only { (shows : List RtcpPacket → List ℕ) (lines : ℕ) (input text1 text2 : List ℕ)
        (end1 end2 : Option (ℕ × Fault)) → IsTextOfBy shows lines end1 input text1 →
        IsTextOfBy shows lines end2 input text2 → (text1 ≡ text2) × (end1 ≡ end2) }
{}

/// After each history, each input of a replay has a text, with an end, and only one, however many lines are answered at
/// most.
pub fn one_session_text()
    ensures always { (lines : ℕ) (history : History) (input : List ℕ)
        → (text : List ℕ) × (end : Option (ℕ × Fault)) × IsSessionOf lines history end input text }
    ensures only { (lines : ℕ) (history : History) (input text1 text2 : List ℕ) (end1 end2 : Option (ℕ × Fault))
        → IsSessionOf lines history end1 input text1 → IsSessionOf lines history end2 input text2
        → (text1 ≡ text2) × (end1 ≡ end2) }
{}

/// The line of an event is one line, which is read as that event, and `replay` takes it: a datagram of UDP has at most
/// 65,535 octets. Whatever a line is read as can be written so. So a record, a line for each event, is read as just
/// these events.
pub fn events_are_read_back()
    ensures read { (event : EventValue) → IsCallable event → event_in (event_text event) ≡ Ok event }
    ensures line { (event : EventValue) → IsCallable event → HasNoLineFeed (event_text event) }
    ensures short { (event : EventValue) → IsCallable event → length (datagram_in_event event) ≤ 65535 →
        length (event_text event) ≤ 131200 }
    ensures callable { (line : List ℕ) (event : EventValue) → event_in line ≡ Ok event → IsCallable event }
    ensures record { (events : List EventValue) → All IsCallable events →
        map event_in (lines_of (flat_map (λ event. event_text event ++ 10 ∷ []) events)) ≡ map Ok events }
{}
