//! How the packets of a datagram are shown.

ghost use Rattle.std.specs.Prelude.{◌≡◌, ◌++◌, ℕ, List, OnOk};
ghost use Rattle.rtcp_text.specs.Check.{IsAnswerBy};
ghost use Rattle.rtcp_show.specs.Wordings.{shown_in};

use rtcp_plain::push_plain;
use rtcp_text::text::{push_accepted, push_fault};
use rtcp_wire::Compound;
use std::alloc::AllocError;

/// How the packets of a datagram are shown.
#[derive(Clone, Copy, Debug, PartialEq, Eq)]
pub enum Wording {
    /// As `rtcp check` does it.
    Brief,
    /// In plain words, as `rtcp check --plain` does it. The jitter of report blocks has so many units a second, where
    /// that is known.
    Plain(Option<u32>),
}

/// Appends the line of an accepted datagram.
pub(crate) fn push_compound(
    out: &mut Vec<u8>,
    compound: &Compound<'_>,
    wording: Wording,
) -> Result<(), AllocError>
    ensures { OnOk result (out.new.items ≡ out.old.items ++ shown_in wording compound.now) }
{
    match wording {
        Wording::Brief => push_accepted(out, compound),
        Wording::Plain(rate) => push_plain(out, compound, rate),
    }
}

/// Appends the line of a datagram: its packets, or its first fault.
pub(crate) fn push_octets(
    out: &mut Vec<u8>,
    datagram: &[u8],
    wording: Wording,
) -> Result<(), AllocError>
    ensures { OnOk result ((text : List ℕ) × IsAnswerBy (shown_in wording) datagram.now text
        × (out.new.items ≡ out.old.items ++ text)) }
{
    match Compound::read(datagram) {
        Ok(compound) => push_compound(out, &compound, wording),
        Err(fault) => push_fault(out, &fault),
    }
}
