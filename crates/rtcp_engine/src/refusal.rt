//! Why a call was refused.

use crate::config::ConfigError;
use rtcp_wire::{RtpFault, WireFault};
use thiserror::Error;

/// Why a participant did not take a call. The reasons are tested in this order, and a call that was refused
/// changes nothing.
#[derive(Clone, Copy, Debug, PartialEq, Eq, Error)]
pub enum Refusal {
    /// E1. The participant has left the session (RFC 3550, 6.3.7).
    #[error("participant has left")]
    Left,
    /// E2. Moments do not go back, and this one lies before that of the last call taken.
    #[error("moment lies before that of the last call")]
    Backwards,
    /// E3. A moment is at most 2^50 microseconds, and this one lies beyond.
    #[error("moment lies beyond 2^50 microseconds")]
    TooFar,
    /// E4. A session has fewer than 2^40 calls, and so many were taken.
    #[error("too many calls")]
    TooMany,
    /// E5. The RTCP datagram is not a compound (RFC 3550, 6.1): this is its first fault.
    #[error("{0}")]
    Wire(WireFault),
    /// E6. The RTP datagram has no head that is read (RFC 3550, 5.1): this is its first fault.
    #[error("{0}")]
    Rtp(RtpFault),
    /// E7. The datagram names the participant's own SSRC (RFC 3550, 8.2), and changes it no more: its peer did
    /// so before, or eight did.
    #[error("datagram names the participant's own SSRC (RFC 3550, 8.2)")]
    OwnSsrc,
    /// E8. The settings are none that a configuration may have: this is the reason.
    #[error("{0}")]
    Settings(ConfigError),
}
