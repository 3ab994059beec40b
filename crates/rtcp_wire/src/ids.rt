//! Lists of identifiers: the sources that leave (RFC 3550, 6.6), and those that contribute (5.1).

ghost use Rattle.std.specs.Prelude.{◌≡◌};
ghost use Rattle.std.specs.Iterator.{YieldsFirst, item_count};
ghost use Rattle.rtcp_wire.specs.Views.{id_values};

use crate::layout::ID_SIZE;
use byteorder::{BigEndian, ByteOrder};
use std::marker::Model;

/// Identifiers of sources, in their order: an iterator that reads them from the datagram. `Goodbye::ids` and
/// `RtpHead::csrcs` make it.
#[derive(Debug, Drop)]
pub struct Ids<'a> {
    octets: &'a [u8],
}

impl<'a> Model for Ids<'a> {
    ghost use Rattle.std.specs.Prelude.{List, ℕ};
    ghost use Rattle.rtcp_wire.specs.Views.{id_values};

    ghost Value = { List ℕ };

    ghost view = { λ ids. id_values ids.octets.now };
}

impl<'a> Ids<'a> {
    /// The identifiers that these octets are, four octets each.
    pub(crate) fn new(octets: &'a [u8]) -> Ids<'a>
        ensures { result ≡ id_values octets.now }
    {
        Ids { octets }
    }
}

impl<'a> Iterator for Ids<'a> {
    type Item = u32;

    ghost next_gives = { YieldsFirst (λ ids. ids) };

    ghost remaining = { item_count (λ ids. ids) };

    fn next(&mut self) -> Option<u32> {
        let (id, others) = self.octets.split_at_checked(ID_SIZE)?;
        self.octets = others;
        Some(BigEndian::read_u32(id))
    }
}
