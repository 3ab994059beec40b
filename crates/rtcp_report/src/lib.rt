//! The compounds that an RTP participant sends (RFC 3550, 6.1, 6.4, 6.5): its reports, over any table of members,
//! and the BYE with which it leaves. The crate is deterministic: it reads no clock, opens no socket, draws no
//! random number and does not allocate.
//!
//! ```
//! let mut table = ListTable::empty(1_024, 8_000);
//! let mut cursor = None;
//! let sender = Sender { ssrc: 7, cname: b"a", sr: None };
//! let octets = report(&sender, &mut table, 0, 1_472, &mut cursor, None);
//! assert_eq!(rt; octets.len(), 20);
//! ```
//!
//! `specs/` defines what a report holds (`Reports`, `Sizes`); `laws` states properties of these definitions.
#![tactic(auto)]

mod byes;
mod compound;
mod description;
pub mod laws;
mod reports;
mod sender;

pub use byes::{bye, bye_size, write_bye, write_bye_into};
pub use compound::{first_size, report, write_report, write_report_into};
pub use sender::{Item, Sender, SrPart};
