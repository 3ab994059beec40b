//! RTCP as text: [`check::check`] decodes datagrams, one line of hex each, and [`replay::replay`] runs a participant
//! over the events of a session, one a line. Both work line by line over any reader and any writer, and their contracts
//! say what has been written, however the call ends. The crate opens no file and no socket, reads no clock, draws no
//! random number, and writes nothing but the answers.
//!
//! ```
//! let mut reader = Counted::new(b"80c9000100000007\n\n".as_slice());
//! let mut writer = Counted::new(Vec::new(rt.alloc()));
//! assert!(rt; check::check(rt.alloc(), &mut reader, &mut writer).is_ok());
//! let text = writer.into_inner();
//! assert_eq!(rt; text.as_slice(), b"ok RR(00000007,[],0)\nF1 Short at 0\n".as_slice());
//! ```
//!
//! `specs/` defines the texts of packets and faults (`Text`), of answers (`AnswerText`), of event lines (`EventLines`,
//! `SettingsFields`) and of whole inputs (`Lines`, `Check`, `Replay`). `laws` states that each input has one text.
//!
//! The modules `answerer`, `blocks`, `event_line`, `numerals`, `settings_fields` and `text` are parts for programs with
//! texts of their own, and for the tests.
#![tactic(auto)]

mod answer;
pub mod answerer;
pub mod blocks;
pub mod check;
mod counted;
mod digit_pairs;
pub mod event_line;
mod fault;
pub mod laws;
mod lines;
pub mod numerals;
mod parts;
mod player;
pub mod record;
pub mod replay;
pub mod settings_fields;
mod showing;
pub mod text;
mod writing;

pub use counted::Counted;
pub use fault::{LineFault, ReplayFault, TextFault, config_name};
pub use showing::Showing;
