//! Source descriptions (RFC 3550, 6.5).

mod chunks;
mod items;

pub use chunks::{Chunk, Chunks, SourceDescription};
pub use items::Items;

/// The type of an item that is a CNAME (RFC 3550, 6.5.1).
pub const CNAME: u8 = 1;
