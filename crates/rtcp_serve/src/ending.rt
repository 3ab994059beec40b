//! When a session leaves before its last turn.

ghost use Rattle.std.specs.Prelude.{◌≡◌, ℕ, Bool, Option, Some, option_map, unwrap_or, false};
ghost use Rattle.rtcp_serve.specs.Endings.{MayAnswer, is_past, known_of_either, known_until};

/// When a session leaves before its last turn, and when it waits no longer for its BYE. `None` never ends one, and a
/// pair ends it where either does.
pub trait Ending {
    /// What is known of its answer at a moment, before the leave or after it. `None` where nothing is, as of a file
    /// that may be there: then a call may answer either.
    ghost known: { Self → (has_left : Bool) → (moment : ℕ) → Option Bool };

    /// Whether no turn more is made, at the greatest moment so far: before the leave the participant is then asked to
    /// leave, and after it its BYE is no longer waited for. It is asked before each turn.
    fn is_over(&mut self, moment: u64, has_left: bool) -> bool
        ensures answer { MayAnswer (known self.old has_left moment) result }
        ensures stays { (left : Bool) (at : ℕ) → known self.new left at ≡ known self.old left at };
}

/// A session leaves at this moment, in microseconds since it began, and then waits for its BYE as long again at most.
#[derive(Clone, Copy, Debug, PartialEq, Eq)]
pub struct Until {
    /// The moment.
    pub moment: u64,
}

impl Ending for Until {
    ghost known = { λ until. known_until until.moment };

    fn is_over(&mut self, moment: u64, has_left: bool) -> bool
        ensures answer { result ≡ is_past self.old.moment has_left moment }
        ensures stays { self.new ≡ self.old }
    {
        let waited = if has_left { moment / 2 } else { moment };
        self.moment <= waited
    }
}

impl<E: Ending> Ending for Option<E> {
    ghost known = { λ ending has_left at.
        unwrap_or (option_map (λ one. E.known one has_left at) ending) (Some false) };

    fn is_over(&mut self, moment: u64, has_left: bool) -> bool {
        match self {
            Some(ending) => ending.is_over(moment, has_left),
            None => false,
        }
    }
}

impl<A: Ending, B: Ending> Ending for (A, B) {
    ghost known = { λ endings has_left at.
        known_of_either (A.known endings.0 has_left at) (B.known endings.1 has_left at) };

    fn is_over(&mut self, moment: u64, has_left: bool) -> bool {
        let first = self.0.is_over(moment, has_left);
        let second = self.1.is_over(moment, has_left);
        first || second
    }
}
