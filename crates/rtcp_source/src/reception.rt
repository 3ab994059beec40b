//! What is told of a source on request, and never sent (RFC 3550, 6.4.1).

/// How the packets of a source are received. All but `received`, `octets` and `rate` are as in a report block (RFC
/// 3550, 6.4.1, A.3, A.8).
#[derive(Clone, Copy, Debug, PartialEq, Eq)]
pub struct Reception {
    /// How many packets were counted since the first one, or since the last restart, late and repeated ones
    /// included.
    pub received: u64,
    /// The octets of their payload, without headers and padding, modulo 2^64 (RFC 3550, 5.1): counted as a sender
    /// report counts those that were sent, but from the first packet on, or from the last restart.
    pub octets: u64,
    /// The packets lost, as a signed number of 24 bits.
    pub lost: i32,
    /// The extended highest sequence number.
    pub highest: u32,
    /// The jitter, in units of the clock of the newest packet's payload type.
    pub jitter: u32,
    /// The units a second of that clock.
    pub rate: u32,
}

/// The last sender report of a source.
#[derive(Clone, Copy, Debug, PartialEq, Eq)]
pub struct LastReport {
    /// Its NTP timestamp.
    pub ntp: u64,
    /// Its RTP timestamp: the same moment, in units of the source's RTP timestamps.
    pub rtp: u32,
    /// The moment at which it came, in microseconds.
    pub moment: u64,
}

/// What the last report block of a source said (RFC 3550, 6.4.1, A.3), over restarts too.
#[derive(Clone, Copy, Debug, PartialEq, Eq)]
pub struct LastBlock {
    /// The fraction of its packets that were lost since the block before, in 1/256.
    pub fraction: u8,
    /// The extended highest sequence number.
    pub highest: u32,
}
