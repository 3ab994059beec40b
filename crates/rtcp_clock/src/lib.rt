//! Moments and the fixed-point formulas of RTCP (RFC 3550). The crate is deterministic: it reads no clock,
//! opens no socket, draws no random number and does not allocate. No call fails, and a result wraps around
//! only where its formula says so.
//!
//! Moments are in microseconds since the session began. The calls accept any moment; an interval to draw from
//! is below 2^49. Division rounds down except where a formula says that it rounds up.
//!
//! ```
//! assert_eq!(rt; ntp_of(0, 1_500_000), 0x0000_0001_8000_0000);
//! assert_eq!(rt; draw(5_000_000, 0), 2_052_074);
//! ```
//!
//! `specs/` defines the formula of each call (`Moments`, `Intervals`); `laws` states properties of the formulas.
#![tactic(auto)]

mod intervals;
pub mod laws;
mod moments;

pub use intervals::{draw, longest, scale_down};
pub use moments::{ntp_of, round_trip, rtp_units, short_delay};
