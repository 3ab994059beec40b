//! How accepted datagrams are shown.

ghost use Rattle.std.specs.Prelude.{◌≡◌, ◌++◌, ℕ, List, OnOk};
ghost use Rattle.rtcp_wire.specs.Values.{RtcpPacket};

use crate::text::push_accepted;
use rtcp_wire::Compound;
use std::alloc::AllocError;

/// A way to show the packets of an accepted datagram, in a line of text.
pub trait Showing: Drop {
    /// The line of packets, with its line feed.
    ghost line: { List RtcpPacket → List ℕ };

    /// Appends the line of an accepted datagram.
    ///
    /// # Errors
    ///
    /// `AllocError` where memory is refused. It is then left open how much of the text was appended.
    fn push_line(&self, out: &mut Vec<u8>, compound: &Compound<'_>) -> Result<(), AllocError>
        ensures { OnOk result (out.new.items ≡ out.old.items ++ line compound.now) };
}

/// The text of `rtcp check`.
#[derive(Drop)]
pub(crate) struct Brief;

impl Showing for Brief {
    ghost use Rattle.rtcp_text.specs.Text.{accepted_text};

    ghost line = { accepted_text };

    fn push_line(&self, out: &mut Vec<u8>, compound: &Compound<'_>) -> Result<(), AllocError> {
        push_accepted(out, compound)
    }
}
