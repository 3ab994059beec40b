//! Reads and writes RTCP packets (RFC 3550, 6.1 to 6.7), and reads the headers of RTP packets (5.1). The crate is
//! deterministic: it reads no clock, opens no socket, draws no random number and does not allocate. Packets that
//! are read borrow from the datagram.
//!
//! ```
//! let datagram = [
//!     0x81, 0xc9, 0, 7, 0, 0, 0, 7, // a receiver report of source 7, with one block
//!     0, 0, 0, 0xaa, 25, 0, 0, 3, 0, 0, 0, 11, // of source 0xaa: 3 packets lost
//!     0, 0, 0, 0, 0xb7, 5, 0x20, 0, 0, 5, 0x40, 0, // jitter, LSR, DLSR
//! ];
//! match Compound::read(&datagram) {
//!     Ok(compound) => {
//!         for (reporter, block) in compound.about(0xaa) {
//!             assert_eq!(rt; (reporter, block.lost), (7, 3));
//!         }
//!     }
//!     Err(fault) => panic!(rt; "{fault}"),
//! }
//! ```
//!
//! Here source 7 reports how it receives the packets of source 0xaa. From the block's LSR and DLSR,
//! `round_trip` of rtcp_clock computes the time to source 7 and back. [`Compound::packets`] iterates over all
//! packets of a compound, [`facts`] over what they say about the members of the session.
//!
//! `specs/` defines the meaning of octets (`Grammar`, `RtpHeads`), their first fault (`Faults`), what packets
//! say about sources (`Facts`, `About`) and what is written (`Writing`). The modules `laws`, `rtp_laws` and
//! `write_laws` state properties of these definitions.
#![tactic(auto)]

mod app;
mod block;
mod bye;
mod compound;
mod fact;
mod fault;
mod header;
mod ids;
pub mod laws;
pub mod layout;
mod other;
mod packet;
mod reader;
mod rr;
mod rtp;
pub mod rtp_laws;
mod sdes;
mod sole;
mod sr;
mod validity;
pub mod write_laws;
mod writer;

pub use app::Application;
pub use block::{Block, Blocks};
pub use bye::Goodbye;
pub use compound::{About, Compound, MAX_DATAGRAM, Packets};
pub use fact::{Fact, Facts, facts};
pub use fault::{FaultReason, WireFault};
pub use ids::Ids;
pub use other::OtherPacket;
pub use packet::PacketView;
pub use rr::ReceiverReport;
pub use rtp::{RtpFault, RtpHead};
pub use sdes::{CNAME, Chunk, Chunks, Items, SourceDescription};
pub use sole::SoleSource;
pub use sr::SenderReport;
pub use writer::{
    ChunkRef, Full, ItemRef, MAX_COMPOUND, PacketRef, put_block, put_header, put_item, put_long,
    put_word, write_compound,
};
