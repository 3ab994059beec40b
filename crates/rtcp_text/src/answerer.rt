//! What the lines of a text are answered by.

ghost use Rattle.std.specs.Prelude.{◌≡◌, ◌<◌, ◌≤◌, ◌^◌, [], length};
ghost use Rattle.rtcp_text.specs.Lines.{Answering, Refusing};
ghost use Rattle.rtcp_text.specs.Progress.{AnswersLine};

use crate::fault::TextFault;

/// Answers the lines of a text, one after the other. An answer may depend on the lines before.
pub trait Answerer: Drop {
    /// What answers a line: the answerer before, the line, the text, and the answerer after it.
    ghost answers: { Answering Self };

    /// What is wrong with a line that has no answer, whatever came before it.
    ghost refuses: { Refusing };

    /// Puts the answer to a line into `text`, which is empty. The line has at most 131,200 octets; `number` is its
    /// number, below 2^32.
    ///
    /// # Errors
    ///
    /// - [`TextFault::Text`], with that number, where the line itself is faulty.
    /// - [`TextFault::Memory`] where memory is refused.
    ///
    /// After an error it is left open what `text` holds, and the answerer is not to be used.
    fn compose(&mut self, number: u64, line: &[u8], text: &mut Vec<u8>) -> Result<(), TextFault>
        requires few { number < 2 ^ 32 }
        requires short { length line.now ≤ 131200 }
        requires empty { text.old.items ≡ [] }
        ensures { AnswersLine answers refuses result number self.old line.now text.new.items self.new };
}
