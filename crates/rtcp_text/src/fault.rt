//! How a run over text ends where it does not end well.

ghost use Rattle.std.specs.Prelude.{◌≡◌};
ghost use Rattle.rtcp_text.specs.AnswerText.{config_text};

use rtcp_engine::ConfigError;
use std::fmt;
use thiserror::Error;

/// What is wrong with a line of the input. `TooManyLines` is tested first, then `LineTooLong`, then `Words`.
/// Of `Hex` and `Number`, a line has that of its first faulty field.
#[derive(Clone, Copy, Debug, PartialEq, Eq, Error)]
pub enum LineFault {
    /// It has more than 131,200 octets before its line feed or the end.
    #[error("X1 LineTooLong")]
    LineTooLong,
    /// It is line 65,537, which is not looked at.
    #[error("X2 TooManyLines")]
    TooManyLines,
    /// Its first word is not known, or it has too few fields or too many.
    #[error("X3 Words")]
    Words,
    /// What should be hex digits is not, or there are too few of them or too many.
    #[error("X4 Hex")]
    Hex,
    /// What should be a decimal number is not, or the number is too great.
    #[error("X5 Number")]
    Number,
}

/// Why a run over text ended early.
#[derive(Clone, Copy, Debug, PartialEq, Eq, Error)]
pub enum TextFault {
    /// The text was refused at this line, counted from 1.
    #[error("line {line}: {fault}")]
    Text {
        /// The line's number.
        line: u64,
        /// What is wrong with it.
        fault: LineFault,
    },
    /// A call of the reader failed.
    #[error("read")]
    Read,
    /// A call of the writer failed, or took nothing.
    #[error("write")]
    Write,
    /// Memory was asked for and refused.
    #[error("memory")]
    Memory,
}

/// Why a replay ended early.
#[derive(Clone, Copy, Debug, PartialEq, Eq)]
pub enum ReplayFault {
    /// The configuration of the participant was refused.
    Config(ConfigError),
    /// The run over the text ended early.
    Run(TextFault),
}

impl fmt::Display for ReplayFault {
    fn fmt<W: fmt::Write>(&self, f: &mut fmt::Formatter<W>) -> fmt::Result {
        match self {
            ReplayFault::Config(error) => write!(f, "config {}", config_name(*error)),
            ReplayFault::Run(fault) => write!(f, "{fault}"),
        }
    }
}

/// The number of a rule of configurations and its name.
pub fn config_name(error: ConfigError) -> &'static str
    ensures { result.now ≡ config_text error }
{
    match error {
        ConfigError::Cname => "C1 Cname",
        ConfigError::Capacity => "C2 Capacity",
        ConfigError::Limit => "C3 Limit",
        ConfigError::Bandwidth => "C4 Bandwidth",
        ConfigError::Rate => "C5 Rate",
        ConfigError::Item => "C6 Item",
    }
}
