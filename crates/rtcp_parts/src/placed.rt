//! Where parts of a compound stand in its datagram: the texts of SDES items (RFC 3550, 6.5), the reasons of BYEs
//! (6.6) and the data of applications' packets (6.7), so that a caller in another language finds them by offset and
//! size.

/// Where a text or other octets stand.
#[derive(Clone, Copy, Debug, PartialEq, Eq)]
pub struct Span {
    /// The octets before it.
    pub place: usize,
    /// Its own octets.
    pub size: usize,
}

/// An SDES item (RFC 3550, 6.5), and where its text stands.
#[derive(Clone, Copy, Debug, PartialEq, Eq)]
pub struct PlacedItem {
    /// The SSRC or CSRC that the item's chunk describes.
    pub ssrc: u32,
    /// The item's type.
    pub kind: u8,
    /// Where its text stands.
    pub text: Span,
}

/// A source that leaves (RFC 3550, 6.6), and where the reason stands.
#[derive(Clone, Copy, Debug, PartialEq, Eq)]
pub struct PlacedGoodbye {
    /// The SSRC or CSRC of the source.
    pub ssrc: u32,
    /// Where the reason stands, where the packet gives one.
    pub reason: Option<Span>,
}

/// A packet that an application defines (RFC 3550, 6.7), and where its data stand.
#[derive(Clone, Copy, Debug, PartialEq, Eq)]
pub struct PlacedApp {
    /// The SSRC of the source that sent it.
    pub ssrc: u32,
    /// Its subtype: below 32.
    pub subtype: u8,
    /// Its name, which need not be ASCII.
    pub name: [u8; 4],
    /// Where its data stand: whole words.
    pub content: Span,
}
