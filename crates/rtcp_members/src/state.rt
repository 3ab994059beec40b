//! What is told of a source on request.

use rtcp_source::{LastBlock, LastReport, Reception};

/// What is known of a source that is present: a member, one that is not yet valid, or one that left and is
/// held for a while.
#[derive(Clone, Copy, Debug, PartialEq, Eq)]
pub struct SourceState {
    /// Its SSRC.
    pub ssrc: u32,
    /// Whether it is a member: it is valid, and did not leave.
    pub is_member: bool,
    /// Whether it is a sender: a member of which a packet was counted lately.
    pub is_sender: bool,
    /// When it sent a BYE, in microseconds.
    pub left: Option<u64>,
    /// When it was last heard before it left, in microseconds.
    pub heard: u64,
    /// How its packets are received, if one was counted.
    pub reception: Option<Reception>,
    /// Its last sender report.
    pub told: Option<LastReport>,
    /// What the last report block said that was made of it.
    pub last_block: Option<LastBlock>,
}
