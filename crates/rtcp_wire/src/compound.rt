//! Compounds: the packets of a datagram (RFC 3550, 6.1 and appendix A.2).

ghost use Rattle.std.specs.Prelude.{◌≡◌, List, IfNone, IfOk, IfSome, IsOkAnd, Err};
ghost use Rattle.std.specs.List.{list_any};
ghost use Rattle.rtcp_wire.specs.Values.{RtcpPacket};
ghost use Rattle.rtcp_wire.specs.Grammar.{IsAccepted};
ghost use Rattle.rtcp_wire.specs.Faults.{IsFirstFault};
ghost use Rattle.rtcp_wire.specs.Facts.{facts_of};
ghost use Rattle.rtcp_wire.specs.Sole.{is_name, IsSole};
ghost use Rattle.rtcp_wire.specs.Summaries.{clock_of};
ghost use Rattle.rtcp_wire.specs.Walks.{packets_in};
ghost use Rattle.rtcp_wire.specs.About.{blocks_about};
ghost use Rattle.rtcp_wire.specs.declared.fault.WireFault.{WireFault as Fault};
ghost use Rattle.rtcp_wire.specs.declared.sole.SoleSource.{SoleSource as Source};

mod about;
mod packets;

use crate::fact::{Fact, Facts, facts};
use crate::fault::WireFault;
use crate::packet::PacketView;
use crate::sole::SoleSource;
use crate::validity::{Summary, check_datagram, first_id};
pub use about::About;
pub use packets::Packets;
use std::marker::Model;

/// The most octets of a datagram: UDP's own limit.
pub const MAX_DATAGRAM: usize = 65_535;

/// The packets of a datagram (RFC 3550, 6.1): one or more, the first a report without padding, up to its last
/// octet. It borrows the datagram, and keeps that its octets are such packets: what reads them later finds no
/// fault.
#[derive(Debug, Drop)]
pub struct Compound<'a> {
    octets: &'a [u8],
    /// What the tests saw of its sources, against the one of its first report.
    summary: Summary,
}

impl<'a> Model for Compound<'a> {
    ghost use Rattle.std.specs.Prelude.{List, true};
    ghost use Rattle.rtcp_wire.specs.Values.{RtcpPacket};
    ghost use Rattle.rtcp_wire.specs.Grammar.{IsAccepted};
    ghost use Rattle.rtcp_wire.specs.Summaries.{SumsUp, sender_of};
    ghost use Rattle.rtcp_wire.specs.Walks.{packets_in};

    ghost Value = { List RtcpPacket };

    ghost view = { λ compound. packets_in compound.octets.now };

    ghost invariant = { λ compound. IsAccepted compound.octets.now (packets_in compound.octets.now)
        × SumsUp (sender_of compound.octets.now) true compound.summary (packets_in compound.octets.now) };
}

impl<'a> Compound<'a> {
    /// Reads a datagram. Nothing is copied or allocated.
    ///
    /// # Errors
    ///
    /// Where the datagram is not a compound, or has more than [`MAX_DATAGRAM`] octets: its first fault, and
    /// the offset of the packet that has it, 0 where the datagram is too long.
    // Inlined, so that the compound is made where it is used, of what the tests return.
    #[inline(always)]
    pub fn read(datagram: &'a [u8]) -> Result<Compound<'a>, WireFault>
        // What is read is what the octets encode, and an error is their first fault.
        ensures accepted { IfOk result (λ compound. IsAccepted datagram.now compound) }
        ensures refused { (fault : Fault) → result ≡ Err fault → IsFirstFault datagram.now fault }

        // What is so encoded is read, and a first fault is found.
        ensures reads { (packets : List RtcpPacket) → IsAccepted datagram.now packets →
            IsOkAnd result (λ compound. compound ≡ packets) }
        ensures finds { (fault : Fault) → IsFirstFault datagram.now fault → result ≡ Err fault }
    {
        let mut summary = Summary::of_none();
        match check_datagram(datagram, &mut summary) {
            Ok(()) => Ok(Compound {
                octets: datagram,
                summary,
            }),
            Err(fault) => Err(fault),
        }
    }

    /// The packets, in their order.
    pub fn packets(&self) -> Packets<'a>
        ensures { result ≡ self.now }
    {
        Packets::new(self.octets)
    }

    /// The source that the compound is about, if it is about one (RFC 3550, 6.4 to 6.7). Then all that it says of
    /// sources is what [`SoleSource`] holds: the law `sole_sources_say_it_all` of rtcp_members.
    // Inlined, so that what is not used of it is not read.
    #[inline(always)]
    pub fn sole(&self) -> Option<SoleSource>
        ensures sole { IfSome result (λ source. IsSole source (facts_of self.now)) }
        ensures several { IfNone result ((source : Source) → IsSole source (facts_of self.now) → ⊥) }
    {
        if !self.summary.is_sole {
            return None;
        }
        Some(SoleSource {
            ssrc: first_id(self.octets),
            timestamps: self.first_timestamps(),
            is_named: self.is_named(),
        })
    }

    /// The NTP and the RTP timestamp of the first report, if it is one of a sender.
    #[inline(always)]
    fn first_timestamps(&self) -> Option<(u64, u32)>
        ensures { result ≡ clock_of self.now }
    {
        match self.packets().next()? {
            PacketView::Sr(report) => Some((report.ntp, report.rtp)),
            _ => None,
        }
    }

    /// Whether a packet gives a CNAME.
    #[inline(always)]
    fn is_named(&self) -> bool
        ensures { result ≡ list_any is_name (facts_of self.now) }
    {
        self.summary.is_named || is_name_among(facts(self))
    }

    /// What the reports say of the source `ssrc`: each block that names it, with the SSRC of its packet's
    /// source, in their order (RFC 3550, 6.4). A source reads so how its own packets are received.
    pub fn about(&self, ssrc: u32) -> About<'a>
        ensures { result ≡ blocks_about ssrc self.now }
    {
        About::new(ssrc, self.packets())
    }
}

/// Whether one of the facts is that a source gave its CNAME.
fn is_name_among(facts: Facts<'_>) -> bool
    ensures { result ≡ list_any is_name facts.entry }
{
    'facts: for fact in facts {
        if let Fact::Named(_) = fact {
            return true;
        }
    }
    false
}
