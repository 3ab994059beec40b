//! What the packets of a compound say of sources.

ghost use Rattle.std.specs.Prelude.{◌≡◌};
ghost use Rattle.rtcp_wire.specs.Facts.{facts_of};

mod remaining;

use crate::compound::Compound;
pub use remaining::Facts;

/// What the packets of a compound say of sources, packet by packet.
///
/// - A sender report: its sender was heard, and sent these NTP and RTP timestamps.
/// - A receiver report, and a packet that an application defines: their source was heard.
/// - A source description, for each chunk: its source was heard, and gave its CNAME if the chunk has one or
///   more.
/// - A BYE, for each identifier: the source left.
///
/// Report blocks and packets of other types give no facts.
pub fn facts<'a>(compound: &Compound<'a>) -> Facts<'a>
    ensures { result ≡ facts_of compound.now }
{
    Facts::new(compound.packets())
}

/// What a packet says of a source.
#[derive(Clone, Copy, Debug, PartialEq, Eq)]
pub enum Fact {
    /// The source was heard.
    Heard(u32),
    /// The source sent a sender report with this NTP timestamp and this RTP timestamp (RFC 3550, 6.4.1).
    Told(u32, u64, u32),
    /// The source gave its CNAME (RFC 3550, 6.5.1).
    Named(u32),
    /// The source left (RFC 3550, 6.6).
    Gone(u32),
    /// An RTP packet of the source came, with this sequence number, this timestamp, and so many octets of payload
    /// (RFC 3550, 5.1). The clock in which its timestamp counts has so many units a second: the session knows that by
    /// its payload type. No RTCP packet says so: the law `compounds_give_no_media`.
    Media(u32, u16, u32, u64, u32),
}

impl Fact {
    ghost use Rattle.rtcp_wire.specs.Facts.{subject, is_gone};

    /// The SSRC of the source that the fact speaks of.
    pub fn ssrc(self) -> u32
        ensures { result ≡ subject self }
    {
        match self {
            Fact::Heard(ssrc)
            | Fact::Told(ssrc, _, _)
            | Fact::Named(ssrc)
            | Fact::Gone(ssrc)
            | Fact::Media(ssrc, _, _, _, _) => ssrc,
        }
    }

    /// Whether the fact says that its source left.
    pub fn is_goodbye(self) -> bool
        ensures { result ≡ is_gone self }
    {
        matches!(self, Fact::Gone(_))
    }
}
