//! RTCP as JSON (RFC 8259) for scripts: [`push_json`] writes the packets of a datagram as a line that holds one
//! object, and [`check_json`] does so for datagrams, one line of hex each. [`replay_json`] runs a participant over the
//! events of a session, one a line, and [`replay_guarded_json`] one with a guard before it. A [`JsonWatcher`] observes
//! a session on a link, and writes a line for each RTCP datagram and for each other event whose answer says something
//! ([`push_told_json`]), and once a second who is there. One more line says how the session ended ([`push_end_json`]).
//!
//! Octets and SSRCs are strings of hex digits, other numbers are exact, and texts of a peer are strings in which U+FFFD
//! stands for what is no UTF-8. So each line is JSON whatever a peer sends ([`laws::lines_are_json`],
//! [`laws::told_lines_are_json`]). The crate opens no socket, reads no clock, and writes nothing but these lines.
//!
//! ```
//! let datagram = [0x80, 0xc9, 0, 1, 0, 0, 0, 7];
//! let mut text = Vec::new(rt.alloc());
//! assert!(rt; push_json(&mut text, &Compound::read(&datagram)?).is_ok());
//! let line = b"{\"packets\":[{\"type\":\"RR\",\"ssrc\":\"00000007\",\"blocks\":[],\"extension\":\"\"}]}\n";
//! assert_eq!(rt; text.as_slice(), line.as_slice());
//! ```
//!
//! `specs/` defines the values of datagrams (`PacketValues`), of answers (`AnswerValues`), of a session on a link
//! (`ToldValues`) and of its sources (`SourceValues`), the lines of values (`JsonValues`) and what they promise
//! (`Validity`), the texts of whole inputs (`CheckJson`, `ReplayJson`, `GuardedReplayJson`), and what a watcher writes
//! (`Watchers`).
#![tactic(auto)]

mod answers;
mod board;
mod check;
mod descriptions;
mod ends;
mod fields;
pub mod laws;
mod lines;
mod packets;
mod player;
mod refusals;
mod replay;
mod reports;
mod sources;
mod told;
mod watcher;

pub use answers::{push_answer_json, push_guarded_json, push_start_json};
pub use check::check_json;
pub use ends::push_end_json;
pub use packets::{push_fault_json, push_json};
pub use replay::{replay_guarded_json, replay_json};
pub use told::push_told_json;
pub use watcher::JsonWatcher;
