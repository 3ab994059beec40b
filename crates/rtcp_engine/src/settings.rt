//! What a host may change of a configuration in a running session.

ghost use Rattle.std.specs.Prelude.{◌≡◌, map, take};
ghost use Rattle.rtcp_report.specs.Reports.{item_value};
ghost use Rattle.rtcp_engine.specs.answers.Setups.{settings_error};
ghost use Rattle.rtcp_engine.specs.answers.Acts.{settings_value};

use crate::clock::{Clock, are_clocks};
use crate::config::{ConfigError, are_extras, is_bandwidth, is_rate};
use arrayvec::ArrayVec;
use rtcp_report::Item;

/// What a host may change of its [`Config`](crate::Config) in a running session.
#[derive(Debug, Drop)]
pub struct Settings {
    /// The session's bandwidth for the RTCP of senders, in octets a second, from 16 to 2^30 (RFC 3556).
    pub sender_bw: u32,
    /// That for the RTCP of the others.
    pub receiver_bw: u32,
    /// The units a second of the clock of its own media, and of payload types that are none of `clocks`, from 1 to
    /// 2^20. Sender reports tell RTP timestamps by it from then on (RFC 3550, 6.4.1).
    pub rate: u32,
    /// The clocks of payload types, as in [`Config`](crate::Config): packets that come from then on count in their
    /// units.
    pub clocks: ArrayVec<Clock, 16>,
    /// The NTP timestamp of moment 0, as in [`Config`](crate::Config): another one where the time of day was set.
    pub ntp_base: u64,
    /// What the participant says of itself beside its CNAME: items of types 2 to 8 (RFC 3550, 6.5.2 to 6.5.8).
    pub extras: ArrayVec<Item, 7>,
}

impl Settings {
    /// Why these settings are refused, if they are: the first of C4 to C6 that applies.
    pub fn error(&self) -> Option<ConfigError>
        ensures { result ≡ settings_error (settings_value self.now) }
    {
        if !is_bandwidth(self.sender_bw) || !is_bandwidth(self.receiver_bw) {
            return Some(ConfigError::Bandwidth);
        }
        if !is_rate(self.rate) || !are_clocks(&self.clocks) {
            return Some(ConfigError::Rate);
        }
        if !are_extras(&self.extras) {
            return Some(ConfigError::Item);
        }
        None
    }
}

/// The same items again.
pub(crate) fn copied(items: &ArrayVec<Item, 7>) -> ArrayVec<Item, 7>
    ensures { map item_value result.items ≡ map item_value items.now.items }
{
    let mut copies = ArrayVec::new();
    for item in items.as_slice() {
        let mut text = ArrayVec::new();
        let _ = text.try_extend_from_slice(&item.text);
        copies.push(Item {
            kind: item.kind,
            text,
        });
    }
    copies
}

/// The same clocks again.
pub(crate) fn copied_clocks(clocks: &ArrayVec<Clock, 16>) -> ArrayVec<Clock, 16>
    ensures { result.items ≡ clocks.now.items }
{
    let mut copies = ArrayVec::new();
    let _ = copies.try_extend_from_slice(clocks);
    copies
}
