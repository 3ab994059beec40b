//! A law of the texts of a guarded replay. The function is empty, and its postcondition is the law.

ghost use Rattle.std.specs.Prelude.{◌≡◌, ℕ, List, Option};
ghost use Rattle.rtcp_guarded.specs.Guarded.{GuardedHistory};
ghost use Rattle.rtcp_guarded_text.specs.GuardedReplay.{IsGuardedSessionOf};
ghost use Rattle.rtcp_text.specs.declared.fault.LineFault.{LineFault as Fault};

/// After each history, each input of a guarded replay has a text, with an end, and only one, however many lines are
/// answered at most.
pub fn one_guarded_text()
    ensures always { (lines : ℕ) (history : GuardedHistory) (input : List ℕ)
        → (text : List ℕ) × (end : Option (ℕ × Fault)) × IsGuardedSessionOf lines history end input text }
    ensures only { (lines : ℕ) (history : GuardedHistory) (input text1 text2 : List ℕ) (end1 end2 : Option (ℕ × Fault))
        → IsGuardedSessionOf lines history end1 input text1 → IsGuardedSessionOf lines history end2 input text2
        → (text1 ≡ text2) × (end1 ≡ end2) }
{}
