//! Who speaks for a source, by where its datagrams come from (RFC 3550, 8.2): a guard that stands before a
//! participant, and says of each arriving datagram whether it is passed on or held back. A source belongs to the
//! origin that named it first, until it was silent for long; an origin has few sources, and few of its goodbyes pass.
//! The guard reads no clock, and no address: an origin is a number that the caller makes of one. It allocates when it
//! is made, and never later.
//!
//! ```
//! let settings = Settings { sources: 4, names: 2, trusted_names: 3, hold: 10 };
//! let mut guard = Guard::new(rt.alloc(), settings).expect(&rt, "memory for a guard");
//! assert!(rt; guard.arrive(&[7], 1, 0) == Verdict::Pass);
//! assert!(rt; guard.arrive(&[7], 2, 5) == Verdict::Stranger);
//! assert!(rt; guard.arrive(&[8, 9, 8], 2, 6) == Verdict::Pass);
//! assert!(rt; guard.arrive(&[8, 10], 2, 7) == Verdict::Crowd);
//! guard.check(16, 20);
//! assert!(rt; guard.arrive(&[7], 3, 16) == Verdict::Pass);
//! ```
//!
//! `specs/Guarding` defines what is held back and what a guard keeps, and `specs/Histories` a guard over its history.
#![tactic(auto)]

mod cells;
mod guard;
mod judging;
pub mod laws;
mod merging;
mod naming;
mod settings;
mod table;
mod tallies;
mod verdict;

pub use guard::{Guard, MAX_TRUSTED};
pub use naming::MAX_NAMES;
pub use settings::Settings;
pub use verdict::{HeldBack, Verdict};
