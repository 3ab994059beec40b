//! A session, shown while it runs: a [`Watcher`] observes one, and its [`Printer`] writes a line for each RTCP datagram
//! that comes in and each compound that goes out. Once a second it writes who is there and how their packets come, as
//! `rtcp listen --show` does. A [`SilenceWatcher`] says once that nothing was heard.
//!
//! ```
//! let mut text = Vec::new(alloc);
//! assert!(rt; push_lines(&mut text, 0, &event, &answer).is_ok());
//! assert_eq!(rt; text.as_slice(), b"0.250000 in 127.0.0.1:5007 ok RR(00000007,[],0)\n".as_slice());
//! ```
//!
//! `specs/` defines the texts: those of an event and its answer (`Lines`), and the row of a source (`Rows`).
#![tactic(auto)]

mod board;
mod by_source;
mod changes;
mod flows;
mod header;
pub mod laws;
mod lines;
mod notes;
mod numbers;
mod page;
mod printer;
mod rows;
mod short_rows;
mod silence;
mod summary;
mod terms;
mod times;
mod watcher;
mod wording;

pub use changes::push_change;
pub use flows::Flow;
pub use header::push_header;
pub use lines::push_lines;
pub use notes::Note;
pub use printer::Printer;
pub use rows::{push_flow, push_row};
pub use silence::SilenceWatcher;
pub use summary::SummaryWatcher;
pub use times::Times;
pub use watcher::Watcher;
pub use wording::Wording;
