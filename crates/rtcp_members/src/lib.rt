//! The members of an RTP session: who is present, who sends, and who has left (RFC 3550, 6.2.1, 6.3.3 to 6.3.5,
//! 6.3.7). The crate has the trait `MemberTable` and tables of up to 1,024 entries. They are deterministic: they
//! read no clock, open no socket and draw no random number, and only making a `HeapTable` allocates.
//!
//! Use a sorted table for a session. It keeps its entries by rising SSRC with running counts, so that a fact costs
//! one search, and with bounds on their moments, so that most checks read no entry. An index has their order, so that
//! a join moves no entry. `HeapTable` takes two blocks of memory by its capacity; `SortedTable` has room for 1,024 in
//! itself. `ListTable` keeps entries in order of arrival and walks them in each call: it is the simplest one, to read
//! first. All meet the contract of `MemberTable`, so they return the same in each call.
//!
//! ```
//! let mut table = SortedTable::empty(1_024);
//! assert_eq!(rt; table.apply(Fact::Heard(7), 0).place, Place::Added);
//! assert_eq!(rt; table.members(), 0);
//! assert_eq!(rt; table.apply(Fact::Named(7), 0).place, Place::Kept);
//! assert_eq!(rt; table.members(), 1);
//! let dropped = table.check(25_000_001, 1, 0, 0);
//! assert_eq!(rt; (dropped.entries, table.members()), (1, 0));
//! ```
//!
//! `specs/` defines over the whole trace of a session who is present, a member or a sender (`Traces`, `Stays`,
//! `Entries`); `trace_laws` describes the same a second way, and `heard_laws` says who becomes a member and stays one.
//! Contracts see a table as a finite map (`Tables`), and `laws` ties the two. Which source is reported next is defined
//! over that map (`Pending`) and over the trace (`News`); `turn_laws` states properties of these.
#![tactic(auto)]

mod blocks;
mod bounds;
mod cells;
mod counts;
mod entry;
pub mod heard_laws;
mod hints;
mod index;
pub mod laws;
mod list_table;
pub mod listing_laws;
pub mod role_laws;
mod shelf;
mod sorted_table;
mod sources;
mod state;
mod table;
pub mod trace_laws;
pub mod turn_laws;

pub use list_table::ListTable;
pub use sorted_table::{HeapTable, SortedTable};
pub use sources::Sources;
pub use state::SourceState;
pub use table::{Applied, Dropped, Effect, InlineTable, MemberTable, Place};
