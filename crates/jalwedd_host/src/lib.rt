//! What stands behind the exported functions of `jalwedd_c`: what a host in C holds, a [`handle::Handle`] with its
//! session, what it gives, a [`config::Config`], and what it is told, as a [`step::HostStep`] or a
//! [`source::HostSource`]. The structures are those of include/jalwedd.h, field by field; the conversions say what
//! each field means.
//!
//! A function that a host calls has to stand in the static library itself. So `jalwedd_c` has these, with their
//! contracts, and whatever they share is here. Only `jalwedd_new` of `jalwedd_c` allocates; nothing here does.
//!
//! `specs/` defines what the exports promise: the session that a handle leads to (`Handles`, `Owned`), what each call
//! promises (`Promises`, `Answers`), and what each structure shows. `laws` states what follows.
#![tactic(auto)]

pub mod app;
pub mod change;
pub mod config;
pub mod guarded;
pub mod handle;
pub mod head;
pub mod laws;
pub mod own;
pub mod owned;
pub mod parts;
pub mod reading;
pub mod session;
pub mod source;
pub mod status;
pub mod step;
pub mod text;
pub mod walks;
