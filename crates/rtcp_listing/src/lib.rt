//! What changed between two listings of the sources of a session: who joined, who left and how, who began to send
//! and who stopped. A listing is what a host keeps of a session, by rising SSRC: the crate knows no session and no
//! table, and no history of either. It reads no clock, opens no socket, draws no random number and does not allocate.
//!
//! ```
//! let member = SourceState {
//!     ssrc: 7, is_member: true, is_sender: false, left: None, heard: 0, reception: None, told: None, last_block: None,
//! };
//! let sender = SourceState { is_sender: true, ..member };
//! let (before, after) = ([member], [sender]);
//! let mut changes = Changes::of(&before, &after);
//! assert!(rt; changes.next().is_some_and(|change| change.ssrc == 7 && change.began_to_send()));
//! assert!(rt; changes.next().is_none());
//! ```
//!
//! `specs/Differences` defines a listing and the changes between two; `laws` states properties of these definitions.
#![tactic(auto)]

mod change;
mod changes;
pub mod laws;
mod listed;

pub use change::{Change, Role};
pub use changes::{Changes, is_rising};
pub use listed::Listed;
