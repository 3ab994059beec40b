//! The one source that a compound is about.

/// The source that a compound is about, where it is about one: the first report is of this source, and so is each other
/// receiver report, chunk and packet of an application (RFC 3550, 6.4.1, 6.4.2, 6.5, 6.7). No later packet is a sender
/// report, and no BYE says that a source left.
#[derive(Clone, Copy, Debug, PartialEq, Eq)]
pub struct SoleSource {
    /// Its SSRC.
    pub ssrc: u32,
    /// The NTP timestamp and the RTP timestamp of its sender report, if the compound begins with one (RFC 3550, 6.4.1).
    pub timestamps: Option<(u64, u32)>,
    /// Whether it gave its CNAME (RFC 3550, 6.5.1).
    pub is_named: bool,
}
