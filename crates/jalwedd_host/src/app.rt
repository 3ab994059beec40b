//! How a host is told of the packets of a datagram that applications define.

ghost use Rattle.std.specs.Prelude.{◌≤◌, ◌+◌, length};
ghost use Rattle.rtcp_parts.specs.Placed.{PlacesApp};
ghost use Rattle.jalwedd_host.specs.Apps.{IsOwnPlace, ShowsApp};
ghost use Rattle.jalwedd_host.specs.Walks.{Carries};

use crate::walks::Shown;
use rtcp_parts::PlacedApp;

/// A packet that an application defines (RFC 3550, 6.7), and where its data stand.
#[repr(C)]
#[derive(Clone, Copy, Debug, PartialEq, Eq)]
pub struct AppPlace {
    /// The octets of the datagram before its data.
    pub offset: u64,
    /// The octets of its data: whole words.
    pub size: u64,
    /// The SSRC of the source that sent it.
    pub ssrc: u32,
    /// Its subtype: below 32.
    pub subtype: u32,
    /// Its name, which need not be ASCII.
    pub name: [u8; 4],
}

impl Shown for PlacedApp {
    type Place = AppPlace;

    ghost shows_given = { Carries PlacesApp ShowsApp };

    ghost shows_within = { λ datagram place. place.offset + place.size ≤ length datagram };

    ghost shows_own = { IsOwnPlace };

    fn shown(&self) -> AppPlace {
        AppPlace {
            offset: self.content.place as u64,
            size: self.content.size as u64,
            ssrc: self.ssrc,
            subtype: u32::from(self.subtype),
            name: self.name,
        }
    }
}
