//! The replay of a guarded participant as text: [`replay::replay_guarded`] runs a participant and the guard before it
//! over the events of a session, one a line, as [`rtcp_text::replay`] runs a participant alone. The crate opens no file
//! and no socket, reads no clock, draws no random number, and writes nothing but the answers.
//!
//! ```
//! let mut reader = Counted::new(b"rtp 0 65536 00000000 8000000000000000000000bb\n".as_slice());
//! let mut writer = Counted::new(Vec::new(rt.alloc()));
//! let limits = GuardLimits { names: 8, hold: 60_000_000 };
//! assert!(rt; replay_guarded(rt.alloc(), &mut reader, &mut writer, config, 0, limits).is_ok());
//! ```
//!
//! `specs/` defines the texts of answers (`GuardedText`) and of whole inputs (`GuardedReplay`). `laws` states that each
//! input has one text.
#![tactic(auto)]

pub mod laws;
mod limits;
mod player;
pub mod replay;
pub mod text;

pub use limits::GuardLimits;
