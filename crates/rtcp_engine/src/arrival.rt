//! A datagram that came, once it is read.

ghost use Rattle.std.specs.Prelude.{◌≡◌, ◌<◌, ℕ, Ok, false, map};
ghost use Rattle.rtcp_wire.specs.Facts.{facts_of, subject};
ghost use Rattle.rtcp_engine.specs.answers.Acts.{rtp};
ghost use Rattle.rtcp_engine.specs.answers.Changes.{is_about, named_by};
ghost use Rattle.rtcp_engine.specs.state.Named.{IsMarked, Marks, is_marked};
ghost use Rattle.rtcp_engine.specs.state.Views.{datagram_of};

use crate::sayings::tells_of;
use rtcp_wire::{Compound, RtpHead, facts};

/// How many identifiers are looked for in a datagram at once.
pub(crate) const BLOCK: usize = 32;

/// What a datagram says that came.
#[derive(Drop)]
pub(crate) enum Arrival<'a> {
    /// An RTCP compound, of so many octets.
    Rtcp(Compound<'a>, usize),
    /// The head of an RTP packet.
    Rtp(RtpHead<'a>),
}

impl Arrival<'_> {
    /// Whether it is of this source: a fact of its compound is about it, or its RTP packet comes from it.
    // Inlined, so that what calls it goes on with the datagram at hand.
    #[inline(always)]
    pub(crate) fn is_of(&self, ssrc: u32) -> bool
        ensures { result ≡ is_about ssrc (datagram_of self.now) }
    {
        match self {
            Arrival::Rtcp(compound, _) => tells_of(compound, ssrc),
            Arrival::Rtp(head) => head.ssrc() == ssrc,
        }
    }

    /// Which of the identifiers of a block, from `first` on, it names: those of contributing sources of a packet
    /// included. The identifier after 2^32 - 1 is 0.
    pub(crate) fn names_from(&self, first: u32) -> [bool; BLOCK]
        ensures { Marks (named_by (datagram_of self.now)) first result }
    {
        match self {
            Arrival::Rtcp(compound, _) => names_of_compound(compound, first),
            Arrival::Rtp(head) => names_of_packet(head, first),
        }
    }
}

fn names_of_compound(compound: &Compound<'_>, first: u32) -> [bool; BLOCK]
    ensures { Marks (map subject (facts_of compound.now)) first result }
{
    let mut named = none();
    'facts: for fact in facts(compound) {
        mark(&mut named, first, fact.ssrc());
    }
    named
}

fn names_of_packet(head: &RtpHead<'_>, first: u32) -> [bool; BLOCK]
    ensures { Marks (named_by (rtp (Ok head.now))) first result }
{
    let mut named = none();
    mark(&mut named, first, head.ssrc());
    'csrcs: for csrc in head.csrcs() {
        mark(&mut named, first, csrc);
    }
    named
}

/// No identifier of a block.
fn none() -> [bool; BLOCK]
    ensures { (place : ℕ) → place < 32 → is_marked result place ≡ false }
{
    [false; BLOCK]
}

/// Marks an identifier, if it is one of the block.
#[inline(always)]
fn mark(named: &mut [bool; BLOCK], first: u32, ssrc: u32)
    ensures { IsMarked ssrc first named.old named.new }
{
    let place = ssrc.wrapping_sub(first) as usize;
    if place < BLOCK {
        named[place] = true;
    }
}
