//! RTCP in plain words: [`push_plain`] writes the packets of a datagram with the names of their parts, times in seconds
//! or milliseconds, losses in per cent, and texts as text; [`check_plain`] does so for datagrams, one line of hex each,
//! as `rtcp check --plain`. [`check_blocks`] shows the report blocks alone, a row each. The crate opens no socket, reads no clock, and writes nothing but these texts.
//!
//! ```
//! let datagram = [0x80, 0xc9, 0, 1, 0, 0, 0, 7, 0x81, 0xca, 0, 3, 0, 0, 0, 7, 1, 3, b'a', b'@', b'b', 0, 0, 0];
//! let mut text = Vec::new(rt.alloc());
//! assert!(rt; push_plain(&mut text, &Compound::read(&datagram)?, None).is_ok());
//! assert_eq!(rt; text.as_slice(), b"ok RR ssrc=00000007 SDES ssrc=00000007 cname=\"a@b\"\n".as_slice());
//! ```
//!
//! `specs/` defines the texts: those of packets (`Plain`), of rows of report blocks (`Blocks`), and of numbers and quoted
//! texts (`Numbers`).
#![tactic(auto)]

mod blocks;
mod check;
mod descriptions;
pub mod numbers;
mod packets;
mod reports;

pub use blocks::push_blocks;
pub use check::{check_blocks, check_plain};
pub use packets::push_plain;
