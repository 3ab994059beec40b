//! The parts of an RTCP datagram (RFC 3550, 6.4 to 6.7), one after the other, by a [`Cursor`] that its caller keeps: a
//! value of plain numbers, for callers that cannot keep an iterator, such as hosts in C. It opens no socket, reads no
//! clock, draws no random number and does not allocate.
//!
//! ```
//! let datagram = [
//!     0x80, 0xc9, 0, 1, 0, 0, 0, 7, // a receiver report of source 7, without blocks
//!     0x81, 0xca, 0, 3, 0, 0, 0, 7, 1, 2, b'a', b'b', 0, 0, 0, 0, // its CNAME, "ab"
//! ];
//! let mut cursor = Cursor::default();
//! while let Ok(Some(item)) = PlacedItem::next(&datagram, &mut cursor) {
//!     assert_eq!(rt; (item.ssrc, item.kind, item.text.place, item.text.size), (7, 1, 18, 2));
//! }
//! ```
//!
//! The first call of a walk tests the whole datagram, and the others trust it: so a walk takes a time that grows with
//! the octets of the datagram alone. Nothing else rests on that test. Whatever the cursor holds and whatever the octets
//! are, each call returns, and what it gives lies in the datagram.
#![tactic(auto)]

mod apps;
mod blocks;
mod cursor;
mod goodbyes;
mod items;
mod octets;
mod packet;
mod placed;
mod senders;
mod walk;

pub use blocks::Reported;
pub use cursor::Cursor;
pub use placed::{PlacedApp, PlacedGoodbye, PlacedItem, Span};
pub use senders::Sender;
pub use walk::Walk;
