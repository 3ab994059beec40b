//! Packets of types other than 200 to 204, whose bodies are kept as they are.

/// A packet of another type, whose body is kept as it is.
#[derive(Clone, Copy, Debug)]
pub struct OtherPacket<'a> {
    /// The packet's type: below 200 or above 204.
    pub kind: u8,
    /// The header's five bits, which count something in the known types: at most 31.
    pub count: u8,
    /// The octets between the header and the padding: whole words.
    pub body: &'a [u8],
}
