//! What a printer knows of a session from its start.

use crate::rows::Rows;
use crate::times::Clock;
use crate::wording::Wording;

/// What a printer knows of a session from its start.
#[derive(Clone, Copy, Debug)]
pub(crate) struct Terms {
    /// The NTP timestamp of moment 0.
    pub(crate) ntp_base: u64,
    /// The number of the peer to which compounds go.
    pub(crate) to: u64,
    /// How the packets of datagrams are shown.
    pub(crate) wording: Wording,
    /// Which rows are written of the sources.
    pub(crate) rows: Rows,
    /// What moments are written by.
    pub(crate) clock: Clock,
}
