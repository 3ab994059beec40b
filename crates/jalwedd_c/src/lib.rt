//! The participant of `rtcp_engine` for hosts in C, C++ and Rust: a static library, whose header is
//! include/jalwedd.h. A host has a [`Handle`], zeros at first, and passes it to each call; a call returns a status,
//! and writes a [`HostStep`] whatever that is. docs/EMBEDDING.md shows a host.
//!
//! Only the exported functions are here, with their contracts, since what is exported has to stand in the static
//! library itself. `jalwedd_host` has all that they share: the structures, the session behind a handle, and the
//! definitions.
//!
//! Statuses: 0 taken; 1 to 7 a call that the participant refused, by E1 to E7, of which 5 is also a datagram
//! that is not a compound, and 6 one without a valid RTP head; 8 no such block, or no such other part of a
//! datagram; 9 no such source, or no other one that changed; 10 a listing whose SSRCs do not rise; 11 to 17 a
//! configuration that is refused, by C1 to C8, of which 14 to 16 are also settings that are refused, by E8; 19 a
//! session without a guard; 20 a handle that holds no participant; 21 one that already holds one; 22 no memory; 23 an
//! RTP datagram of more octets than UDP carries; 24 a datagram that the guard holds back, as it names a source of
//! another origin; 25 one by which its origin would have too many sources or goodbyes.
//!
//! Time is what a clock of the host's shows, in microseconds. It may count from anywhere, and must not go back. A
//! session begins at the `start` of its [`Config`], and a call before that is refused as one that comes too early.
//!
//! C callers are not proved, so no call has preconditions on values: moments out of order, too many calls and bad
//! configurations are statuses. What a caller must ensure, and nothing tests: pointers are valid for the sizes given;
//! what is written overlaps nothing else that the call is given; one call at a time uses a handle; and a handle is not
//! changed, nor used at its old address once it is moved.
//!
//! Memory comes from three functions that the host may replace (package/memory.c). Only `jalwedd_new` allocates.
#![tactic(auto)]

mod begin;
mod calls;
mod change;
mod guard;
mod head;
mod parts;
mod print;
mod reading;
#[cfg(test)]
mod tests;
mod views;
mod walks;

pub use jalwedd_host::app::AppPlace;
pub use jalwedd_host::change::RoleChange;
pub use jalwedd_host::config::{Clock, Config, GuardConfig, Item, Settings};
pub use jalwedd_host::guarded::{HostCounts, HostHeldBack};
pub use jalwedd_host::handle::Handle;
pub use jalwedd_host::head::HeadPlace;
pub use jalwedd_host::laws;
pub use jalwedd_host::own::HostOwn;
pub use jalwedd_host::owned::Owned;
pub use jalwedd_host::parts::{GoodbyePlace, ItemPlace, SenderInfo};
pub use jalwedd_host::reading::{Fault, Report};
pub use jalwedd_host::source::HostSource;
pub use jalwedd_host::step::HostStep;
pub use rtcp_parts::Cursor;
