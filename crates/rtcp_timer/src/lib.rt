//! When the next RTCP report is due (RFC 3550, 6.2 and 6.3.1 to 6.3.6; appendix A.7). The crate is
//! deterministic: it reads no clock, opens no socket, draws no random number and does not allocate. Moments
//! and random words are passed in.
//!
//! ```
//! let mut schedule = Schedule::begin(2_500_000, 0);
//! assert_eq!(rt; schedule.next(), 1_026_037);
//! assert_eq!(rt; schedule.expire(1_026_037, 2_500_000, 0, 4), Verdict::Due);
//! schedule.sent(1_026_037, 5_000_000, 0, 4);
//! assert_eq!(rt; schedule.next(), 3_078_111);
//! ```
//!
//! Moments and intervals are in microseconds; moments count from the start of the session. `specs/` defines
//! what each call returns and changes (`Loads`, `Averages`, `Schedules`), and describes a schedule's numbers a
//! second way (`Departures`); `laws` states properties of these definitions.
#![tactic(auto)]

mod average;
pub mod laws;
mod load;
mod schedule;

pub use average::Average;
pub use load::{Load, interval, minimum};
pub use schedule::{Schedule, Verdict};
