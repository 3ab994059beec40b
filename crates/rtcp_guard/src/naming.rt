//! The sources that a datagram names, and the one of which it says BYE first.

ghost use Rattle.std.specs.Prelude.{◌≡◌, ◌≤◌, [], None, Some, if◌then◌else◌, length};
ghost use Rattle.std.specs.Option.{option_or};
ghost use Rattle.rtcp_guard.specs.Naming.{IsGathered, goodbye_of_compound, names_of_compound, names_of_packet};
ghost use Rattle.rtcp_wire.specs.Facts.{is_gone, subject};

use arrayvec::ArrayVec;
use rtcp_wire::{Compound, Fact, RtpHead, facts};

/// The most names of a datagram that a guard looks at. A datagram of 1,472 octets has fewer.
pub const MAX_NAMES: usize = 512;

/// An RTP packet has no more names, its SSRC and up to 15 CSRCs, and most compounds have not either.
pub(crate) const FEW: usize = 16;

/// Room for few names.
pub(crate) type FewNames = ArrayVec<u32, FEW>;

/// Room for all names that a guard looks at.
pub(crate) type Names = ArrayVec<u32, MAX_NAMES>;

/// What was gathered of the sources that a compound speaks of.
#[derive(Clone, Copy)]
pub(crate) enum Gathered {
    /// All of them, and that of which a BYE speaks first, if one does.
    Whole(Option<u32>),
    /// The first ones, as there is no room for more.
    Part,
}

/// Gathers the sources that a compound speaks of, each once in a row, but `own`, as far as there is room.
pub(crate) fn of_compound<const N: usize>(
    compound: &Compound<'_>,
    own: u32,
    names: &mut ArrayVec<u32, N>,
) -> Gathered
    requires { names.old.items ≡ [] }
    ensures gathered { IsGathered N (names_of_compound own compound.now) (goodbye_of_compound own compound.now)
        names.new.items result }
    ensures fits { length names.new.items ≤ N }
{
    let mut last = None;
    let mut goodbye = None;
    'facts: for fact in facts(compound) {
        let name = fact.ssrc();
        if name == own {
            continue;
        }
        goodbye = goodbye_with(goodbye, fact);
        if last != Some(name) {
            if names.is_full() {
                return Gathered::Part;
            }
            names.push(name);
            last = Some(name);
        }
    }
    Gathered::Whole(goodbye)
}

/// The first goodbye, after a fact more.
#[inline(always)]
fn goodbye_with(goodbye: Option<u32>, fact: Fact) -> Option<u32>
    ensures { result ≡ option_or goodbye (if is_gone fact then Some (subject fact) else None) }
{
    match goodbye {
        None if fact.is_goodbye() => Some(fact.ssrc()),
        goodbye => goodbye,
    }
}

/// Gathers the SSRC and the CSRCs of an RTP packet, but `own`.
pub(crate) fn of_packet(head: &RtpHead<'_>, own: u32, names: &mut FewNames)
    requires { names.old.items ≡ [] }
    ensures { names.new.items ≡ names_of_packet own head.now }
{
    if head.ssrc() != own {
        names.push(head.ssrc());
    }
    'csrcs: for csrc in head.csrcs() {
        if csrc != own {
            names.push(csrc);
        }
    }
}
