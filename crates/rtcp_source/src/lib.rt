//! One source of an RTP session as its receiver sees it (RFC 3550, 6.4.1, appendices A.1, A.3 and A.8):
//! which of its packets are counted, how many were lost, the interarrival jitter, and the report block with
//! these numbers. The crate is deterministic: it reads no clock, opens no socket, draws no random number and does
//! not allocate.
//!
//! ```
//! let mut source = Source::new();
//! assert_eq!(rt; source.take(10, 0, 0, 160), Taken::Probation);
//! assert_eq!(rt; source.take(11, 160, 160, 160), Taken::Became);
//! assert_eq!(rt; source.block(9, 0).highest, 11);
//! ```
//!
//! `specs/` defines a source over the list of everything that it was given (`Packets`, `Summary`, `Blocks`);
//! `laws` states properties of these definitions.
#![tactic(auto)]

pub mod laws;
mod reception;
mod run;
mod sequence;
mod source;
mod taken;

pub use reception::{LastBlock, LastReport, Reception};
pub use source::Source;
pub use taken::Taken;
