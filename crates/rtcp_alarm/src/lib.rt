//! Alarms that end a session: a source of which too much is lost, or RTP packets that no longer come. An
//! [`AlarmWatcher`] observes the session and raises one alarm at most. It then rings a [`Bell`], which ends the
//! session. The watcher goes by what the participant was told and answered, and by the sources that the participant
//! tells of. It reads no clock, sends nothing and never changes the participant. Only [`push_alarm`] allocates, for its
//! text.
//!
//! ```
//! let bell = Bell::new();
//! let mut watcher = AlarmWatcher::new(limits, &bell);
//! let end = serve_until(link, participant, rng, &mut &bell, MOST_TURNS, &mut watcher, buf);
//! if let Some(raised) = watcher.raised() {
//!     push_alarm(&mut text, &raised)?;
//! }
//! ```
//!
//! `specs/` defines when an alarm is raised (`Alarms`), and its line (`AlarmTexts`).
#![tactic(auto)]

mod alarms;
mod bell;
mod watcher;

pub use alarms::{Alarm, AlarmLimits, Raised, push_alarm};
pub use bell::Bell;
pub use watcher::AlarmWatcher;
