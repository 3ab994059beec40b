//! What a listing says of a source.

ghost use Rattle.std.specs.Prelude.{◌≡◌};
ghost use Rattle.rtcp_listing.specs.Differences.{ListedValue, listed_of};
ghost use Rattle.rtcp_members.specs.ListViews.{state_value};

use crate::change::Role;
use rtcp_members::SourceState;

/// Something that says who a source is, and which part it takes in a session.
pub trait Listed {
    /// What it says.
    ghost listed: { Self → ListedValue };

    /// The SSRC of the source.
    fn ssrc(&self) -> u32
        ensures { result ≡ (listed self.now).ssrc };

    /// Its role.
    fn role(&self) -> Role
        ensures { result ≡ (listed self.now).role };

    /// Whether it sent a BYE.
    fn has_left(&self) -> bool
        ensures { result ≡ (listed self.now).left };
}

impl Listed for SourceState {
    ghost listed = { λ state. listed_of (state_value state) };

    fn ssrc(&self) -> u32 {
        self.ssrc
    }

    fn role(&self) -> Role {
        match (self.is_member, self.is_sender) {
            (false, _) => Role::Away,
            (true, false) => Role::Member,
            (true, true) => Role::Sender,
        }
    }

    fn has_left(&self) -> bool {
        self.left.is_some()
    }
}
