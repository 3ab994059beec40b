//! Why a call was not taken.

use rtcp_engine::{Refusal, Step, WrittenStep};
use thiserror::Error;

/// Why the guard holds a datagram back.
#[derive(Clone, Copy, Debug, PartialEq, Eq, Error)]
pub enum Reason {
    /// It names a source that belongs to another origin (RFC 3550, 8.2).
    #[error("names a source of another origin (RFC 3550, 8.2)")]
    Stranger,
    /// By it its origin would have more sources than it may, or all origins together would; or it says BYE, and its
    /// origin has as many goodbyes as it may have sources.
    #[error("names more sources, or says BYE more often, than its origin, or all origins, may")]
    Crowd,
}

/// Why a guarded participant did not take a datagram. Its participant is unchanged then.
#[derive(Clone, Copy, Debug, PartialEq, Eq, Error)]
pub enum Untaken {
    /// The participant refuses it. The guard does not see it.
    #[error("{0}")]
    Refused(Refusal),
    /// The guard holds it back, and counts it.
    #[error("{0}")]
    HeldBack(Reason),
}

/// What was told, or why the datagram was not taken.
pub type GuardedReply = Result<WrittenStep, Untaken>;

/// The same with the compound in the step.
pub type GuardedAnswer = Result<Step, Untaken>;
