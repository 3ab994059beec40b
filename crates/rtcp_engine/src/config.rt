//! How a participant is configured.

ghost use Rattle.std.specs.Prelude.{◌≡◌, ◌≤◌, ◌-◌, ◌/◌, ◌^◌, ℕ, List, map, Option, Some, None};
ghost use Rattle.rtcp_report.specs.Reports.{item_value};
ghost use Rattle.rtcp_engine.specs.answers.Setups.{is_within as within, is_extra_item, is_bandwidth as is_bandwidth_for, are_extras as extras_are};
ghost use Rattle.rtcp_engine.specs.answers.Refused.{error_in, is_limit as is_limit_for};
ghost use Rattle.rtcp_engine.specs.answers.Arrivals.{rate_of};
ghost use Rattle.rtcp_engine.specs.state.Views.{setup_of};

use crate::clock::{Clock, are_clocks, rate_among};
use arrayvec::ArrayVec;
use rtcp_report::Item;
use rtcp_wire::RtpHead;
use thiserror::Error;

/// How a participant is configured: the session as its host knows it.
// Fields lie in memory in this order: what each RTP packet reads lies side by side, the clocks' number before the SSRC.
#[derive(Debug, Drop)]
pub struct Config {
    /// The clocks of other payload types (RFC 3551), of which the first counts where there are several. The jitter of a
    /// source is in units of the clock of its newest packet (RFC 7160, 4.3).
    pub clocks: ArrayVec<Clock, 16>,
    /// Its SSRC, which is to be chosen at random (RFC 3550, 8.1).
    pub ssrc: u32,
    /// The units a second of the clock in which the RTP timestamps of its own media count, and those of payload types
    /// that are none of `clocks`, from 1 to 2^20.
    pub rate: u32,
    /// Its CNAME, from 1 to 255 octets (RFC 3550, 6.5.1). Nothing checks that it is UTF-8.
    pub cname: ArrayVec<u8, 255>,
    /// What else it says of itself, in turn, in every third report: items of types 2 to 8 (RFC 3550, 6.5.2 to
    /// 6.5.8).
    pub extras: ArrayVec<Item, 7>,
    /// How many other sources it can keep track of, from 1 to 1,024.
    pub capacity: u32,
    /// The most octets of a compound that it sends, from 576 to 1,472 and a multiple of 4. The headers of UDP
    /// and IP are not counted.
    pub limit: u32,
    /// The session's bandwidth for the RTCP of senders, in octets a second, from 16 to 2^30 (RFC 3556). The usual
    /// shares are those that [`shares_of`] makes of the part that [`rtcp_bw_of`] has.
    pub sender_bw: u32,
    /// That for the RTCP of the others.
    pub receiver_bw: u32,
    /// The NTP timestamp of moment 0: seconds since 1900 in the upper 32 bits, their fraction in the lower.
    pub ntp_base: u64,
}

/// Why a configuration is refused. The reasons are tested in this order.
#[derive(Clone, Copy, Debug, PartialEq, Eq, Error)]
pub enum ConfigError {
    /// C1. The CNAME is empty.
    #[error("CNAME is empty")]
    Cname,
    /// C2. The capacity is none of 1 to 1,024.
    #[error("capacity is none of 1 to 1024")]
    Capacity,
    /// C3. The limit is none of 576 to 1,472, or no multiple of 4.
    #[error("limit is no multiple of 4 from 576 to 1472")]
    Limit,
    /// C4. One of the bandwidths is none of 16 to 2^30.
    #[error("RTCP bandwidth of senders or of receivers is none of 16 to 2^30 octets a second")]
    Bandwidth,
    /// C5. A clock's rate is none of 1 to 2^20.
    #[error("clock rate is none of 1 to 2^20")]
    Rate,
    /// C6. The type of an extra item is none of 2 to 8.
    #[error("type of an extra item is none of 2 to 8")]
    Item,
}

/// The usual bandwidth for RTCP, in octets a second, of a session of `session_bps` bits a second: 5 per cent
/// of it, rounded down (RFC 3550, 6.2).
pub fn rtcp_bw_of(session_bps: u64) -> u64
    ensures { result ≡ session_bps / 160 }
{
    session_bps / 160
}

/// The usual shares of a bandwidth for RTCP: a quarter of it for senders, rounded down, and the rest for the others
/// (RFC 3550, 6.2).
pub fn shares_of(rtcp_bw: u64) -> (u64, u64)
    ensures senders { result.0 ≡ rtcp_bw / 4 }
    ensures others { result.1 ≡ rtcp_bw - rtcp_bw / 4 }
{
    let senders = rtcp_bw / 4;
    (senders, rtcp_bw - senders)
}

impl Config {
    /// Why this configuration is refused, if it is: the first of C1 to C6 that applies. One that is not has a capacity
    /// from 1 to 1,024.
    pub fn error(&self) -> Option<ConfigError>
        ensures exact { result ≡ error_in (setup_of self.now) }
        ensures some { result ≡ None → 1 ≤ self.now.capacity }
        ensures few { result ≡ None → self.now.capacity ≤ 1024 }
    {
        if !is_within(1, 255, self.cname.len() as u32) {
            return Some(ConfigError::Cname);
        }
        if !is_within(1, 1_024, self.capacity) {
            return Some(ConfigError::Capacity);
        }
        if !is_limit(self.limit) {
            return Some(ConfigError::Limit);
        }
        if !is_bandwidth(self.sender_bw) || !is_bandwidth(self.receiver_bw) {
            return Some(ConfigError::Bandwidth);
        }
        if !is_rate(self.rate) || !are_clocks(&self.clocks) {
            return Some(ConfigError::Rate);
        }
        if !are_extras(&self.extras) {
            return Some(ConfigError::Item);
        }
        None
    }

    /// The rate of the clock in which the timestamp of an RTP packet counts.
    #[inline(always)]
    pub(crate) fn rate_of(&self, head: &RtpHead<'_>) -> u32
        ensures { result ≡ rate_of (setup_of self.now) head.now }
    {
        if self.clocks.is_empty() {
            return self.rate;
        }
        rate_among(&self.clocks, self.rate, head.payload_type())
    }
}

/// Whether a number lies between two others, both included.
pub(crate) fn is_within(least: u32, most: u32, number: u32) -> bool
    ensures { result ≡ within least most number }
{
    least <= number && number <= most
}

/// Whether a bandwidth may be given.
pub(crate) fn is_bandwidth(bandwidth: u32) -> bool
    ensures { result ≡ is_bandwidth_for bandwidth }
{
    is_within(16, 1 << 30, bandwidth)
}

/// Whether a clock may have this rate.
pub(crate) fn is_rate(rate: u32) -> bool
    ensures { result ≡ within 1 (2 ^ 20) rate }
{
    is_within(1, 1 << 20, rate)
}

/// Whether a limit is one for compounds.
fn is_limit(limit: u32) -> bool
    ensures { result ≡ is_limit_for limit }
{
    is_within(576, 1_472, limit) && limit % 4 == 0
}

/// Whether these may be given beside the CNAME.
pub(crate) fn are_extras(items: &[Item]) -> bool
    ensures { result ≡ extras_are (map item_value items.now) }
{
    if items.len() > 7 {
        return false;
    }
    'items: for item in items {
        if !is_extra(item) {
            return false;
        }
    }
    true
}

/// Whether this may be given beside the CNAME.
fn is_extra(item: &Item) -> bool
    ensures { result ≡ is_extra_item (item_value item.now) }
{
    is_within(2, 8, item.kind as u32) && item.text.len() <= 255
}
