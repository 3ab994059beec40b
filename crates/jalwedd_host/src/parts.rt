//! How a host is told of the parts of a datagram: senders, SDES items and BYEs.

ghost use Rattle.std.specs.Prelude.{◌≤◌, ◌+◌, length};
ghost use Rattle.rtcp_parts.specs.Placed.{PlacesGoodbye, PlacesItem};
ghost use Rattle.rtcp_parts.specs.Senders.{ShowsSender as SaysSender};
ghost use Rattle.jalwedd_host.specs.Parts.{ShowsGoodbye, ShowsItem, ShowsSender};
ghost use Rattle.jalwedd_host.specs.Walks.{Carries};

use crate::walks::Shown;
pub use rtcp_parts::Sender as SenderInfo;
use rtcp_parts::{PlacedGoodbye, PlacedItem, Sender};

/// An SDES item (RFC 3550, 6.5), and where its text stands.
#[repr(C)]
#[derive(Clone, Copy, Debug, PartialEq, Eq)]
pub struct ItemPlace {
    /// The octets of the datagram before its text.
    pub offset: u64,
    /// The octets of its text: 0 to 255.
    pub size: u64,
    /// The SSRC of the source that its chunk describes.
    pub ssrc: u32,
    /// Its type.
    pub kind: u32,
}

/// A source that leaves (RFC 3550, 6.6), and where the reason stands.
#[repr(C)]
#[derive(Clone, Copy, Debug, PartialEq, Eq)]
pub struct GoodbyePlace {
    /// The octets of the datagram before the reason's text, or 0 where the BYE gives none.
    pub offset: u64,
    /// The octets of its text: 0 to 255.
    pub size: u64,
    /// The SSRC of the source.
    pub ssrc: u32,
    /// 1 where the BYE gives a reason, and be it one of 0 octets; else 0.
    pub has_reason: u32,
}

impl Shown for Sender {
    type Place = Sender;

    ghost shows_given = { Carries (λ datagram. SaysSender) (λ datagram. ShowsSender) };

    fn shown(&self) -> Sender {
        *self
    }
}

impl Shown for PlacedItem {
    type Place = ItemPlace;

    ghost shows_given = { Carries PlacesItem ShowsItem };

    ghost shows_within = { λ datagram place. place.offset + place.size ≤ length datagram };

    fn shown(&self) -> ItemPlace {
        ItemPlace {
            offset: self.text.place as u64,
            size: self.text.size as u64,
            ssrc: self.ssrc,
            kind: u32::from(self.kind),
        }
    }
}

impl Shown for PlacedGoodbye {
    type Place = GoodbyePlace;

    ghost shows_given = { Carries PlacesGoodbye ShowsGoodbye };

    ghost shows_within = { λ datagram place. place.offset + place.size ≤ length datagram };

    fn shown(&self) -> GoodbyePlace {
        match self.reason {
            Some(text) => GoodbyePlace {
                offset: text.place as u64,
                size: text.size as u64,
                ssrc: self.ssrc,
                has_reason: 1,
            },
            None => GoodbyePlace {
                offset: 0,
                size: 0,
                ssrc: self.ssrc,
                has_reason: 0,
            },
        }
    }
}
