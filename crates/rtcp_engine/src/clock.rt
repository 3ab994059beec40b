//! The clocks of payload types (RFC 3550, 5.1; RFC 3551).

ghost use Rattle.std.specs.Prelude.{◌≡◌, map};
ghost use Rattle.std.specs.List.{list_all};
ghost use Rattle.rtcp_engine.specs.answers.Setups.{is_clock, rate_among as rate_among_clocks};
ghost use Rattle.rtcp_engine.specs.answers.Acts.{clock_value};

use crate::config::is_within;

/// The clock in which the RTP timestamps of a payload type count.
#[derive(Clone, Copy, Debug, Default, PartialEq, Eq)]
pub struct Clock {
    /// The payload type.
    pub payload_type: u8,
    /// The units a second, from 1 to 2^20.
    pub rate: u32,
}

/// The rate of the clock of a payload type: that of the first of these that is its own, or else the usual one.
pub(crate) fn rate_among(clocks: &[Clock], usual: u32, payload_type: u8) -> u32
    ensures { result ≡ rate_among_clocks (map clock_value clocks.now) usual payload_type }
{
    'clocks: for clock in clocks {
        if clock.payload_type == payload_type {
            return clock.rate;
        }
    }
    usual
}

/// Whether each of these has a rate that may be given.
pub(crate) fn are_clocks(clocks: &[Clock]) -> bool
    ensures { result ≡ list_all is_clock (map clock_value clocks.now) }
{
    'clocks: for clock in clocks {
        if !is_within(1, 1 << 20, clock.rate) {
            return false;
        }
    }
    true
}
