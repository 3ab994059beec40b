//! A participant with a guard before it: what arrives is judged by where it comes from, and only what the guard passes
//! on is told the participant (RFC 3550, 8.2). Like both it reads no clock and no address, opens no socket, and draws
//! no random number. It allocates nothing.
//!
//! `specs/Guarded` defines what is answered over everything that was told, and what of that was passed on: the
//! participant's history is just that, so each theorem about a participant holds of it.
#![tactic(auto)]

mod answered;
pub mod apart;
mod calls;
mod guarded;
pub mod laws;
mod untaken;

pub use guarded::GuardedParticipant;
pub use untaken::{GuardedAnswer, GuardedReply, Reason, Untaken};
