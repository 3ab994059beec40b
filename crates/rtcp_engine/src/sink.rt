//! Where the answers of a run go.

ghost use Rattle.std.specs.Prelude.{◌≡◌, ◌<◌, ◌+◌, ◌-◌, ◌^◌, ◌++◌, ℕ, List, [], ◌∷◌, OnOk, OnErr};
ghost use Rattle.rtcp_engine.specs.answers.Acts.{AnswerValue};
ghost use Rattle.rtcp_engine.specs.state.Views.{answer_value};

use crate::step::Answer;
use thiserror::Error;

/// A sink takes no more answers.
#[derive(Clone, Copy, Debug, PartialEq, Eq, Error)]
#[error("the sink takes no more answers")]
pub struct SinkStop;

/// Something that takes the answers of a run.
pub trait Sink {
    /// The answers that it took, the first one first.
    ghost content: { Self → List AnswerValue };

    /// How often it refused one.
    ghost refusals: { Self → ℕ };

    /// Takes an answer.
    ///
    /// # Errors
    ///
    /// [`SinkStop`] where it takes no more: the answer is lost.
    fn put(&mut self, answer: Answer) -> Result<(), SinkStop>
        requires { refusals self.old < 2 ^ 64 - 1 }
        ensures taken { OnOk result (content self.new ≡ content self.old ++ answer_value answer ∷ []) }
        ensures lost { OnErr result (content self.new ≡ content self.old) }
        ensures once { OnErr result (refusals self.new ≡ refusals self.old + 1) }
        ensures none { OnOk result (refusals self.new ≡ refusals self.old) };
}
