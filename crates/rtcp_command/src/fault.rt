//! How a run ends, over text or on a link, where it does not end well.

ghost use Rattle.std.specs.Prelude.{◌≡◌};
ghost use Rattle.rtcp_command.specs.Status.{fault_status, replay_fault, text_fault};

use rtcp_engine::ConfigError;
use rtcp_text::{LineFault, ReplayFault, TextFault, config_name};
use std::fmt;
use std::io::Write;

/// Why a check, a replay or a session on a link did not end well.
#[derive(Clone, Copy, Debug, PartialEq, Eq)]
pub enum RunFault {
    /// The configuration of the participant was refused.
    Config(ConfigError),
    /// The text was refused at this line, counted from 1.
    Text {
        /// The line's number.
        line: u64,
        /// What is wrong with it.
        fault: LineFault,
    },
    /// A port could not be bound or waited for, or the clock not be read.
    Link,
    /// The file of a record could not be created.
    Record,
    /// What is to be overwritten by a record is no regular file.
    NoRegularFile,
    /// The system's generator could not be read.
    Random,
    /// A call of the reader failed.
    Read,
    /// A call of the writer failed, or took nothing.
    Write,
    /// Memory was asked for and refused.
    Memory,
}

/// Writes the line of a fault to `faults`, and returns the status to end with: 2 where the text or the configuration
/// is refused, and 1 where something failed. A failed write is ignored.
pub(crate) fn fail<F: Write>(fault: RunFault, faults: &mut F) -> u8
    ensures { result ≡ fault_status fault }
{
    let _ = writeln!(faults, "{fault}");
    match fault {
        RunFault::Config(_) | RunFault::Text { .. } => 2,
        RunFault::Link
        | RunFault::Record
        | RunFault::NoRegularFile
        | RunFault::Random
        | RunFault::Read
        | RunFault::Write
        | RunFault::Memory => 1,
    }
}

impl fmt::Display for RunFault {
    fn fmt<W: fmt::Write>(&self, f: &mut fmt::Formatter<W>) -> fmt::Result {
        match self {
            RunFault::Config(error) => write!(f, "config {}", config_name(*error)),
            RunFault::Text { line, fault } => write!(f, "line {line}: {fault}"),
            RunFault::Link => f.write_str("link"),
            RunFault::Record => f.write_str("record"),
            RunFault::NoRegularFile => f.write_str("record no regular file"),
            RunFault::Random => f.write_str("random"),
            RunFault::Read => f.write_str("read"),
            RunFault::Write => f.write_str("write"),
            RunFault::Memory => f.write_str("memory"),
        }
    }
}

impl From<TextFault> for RunFault {
    ghost from_gives = { λ fault gives. gives ≡ text_fault fault };

    fn from(fault: TextFault) -> RunFault {
        match fault {
            TextFault::Text { line, fault } => RunFault::Text { line, fault },
            TextFault::Read => RunFault::Read,
            TextFault::Write => RunFault::Write,
            TextFault::Memory => RunFault::Memory,
        }
    }
}

impl From<ReplayFault> for RunFault {
    ghost from_gives = { λ fault gives. gives ≡ replay_fault fault };

    fn from(fault: ReplayFault) -> RunFault {
        match fault {
            ReplayFault::Config(error) => RunFault::Config(error),
            ReplayFault::Run(fault) => RunFault::from(fault),
        }
    }
}
