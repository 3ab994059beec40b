//! How a host is told what changed between two of its listings, and which change comes next.

ghost use Rattle.std.specs.Prelude.{◌≡◌, true};
ghost use Rattle.jalwedd_host.specs.Changes.{ShowsChange, both_rise, change_from, listed_by, number_of_role};

use crate::source::HostSource;
use crate::step::NEVER;
use rtcp_engine::{Change, Changes, Listed, Role};

/// A source whose role is another one than before.
#[repr(C)]
#[derive(Clone, Copy, Debug, PartialEq, Eq)]
pub struct RoleChange {
    /// Its SSRC.
    pub ssrc: u32,
    /// Its role before: 0 for none, 1 for a member that does not send RTP packets, 2 for one that does.
    pub was: u32,
    /// Its role now.
    pub is: u32,
    /// 1 if it sent a BYE, as far as is known of it now, else 0.
    pub left: u32,
}

/// The change of least SSRC from a number on.
pub fn first_from(before: &[HostSource], after: &[HostSource], from: u64) -> Option<Change>
    requires { both_rise before.now after.now ≡ true }
    ensures { result ≡ change_from from before.now after.now }
{
    Changes::of(before, after).find(|change| u64::from(change.ssrc) >= from)
}

impl RoleChange {
    /// How a change is told.
    pub fn of(change: &Change) -> RoleChange
        ensures { ShowsChange result change.now }
    {
        RoleChange {
            ssrc: change.ssrc,
            was: role_number(change.was),
            is: role_number(change.is),
            left: u32::from(change.has_left),
        }
    }
}

fn role_number(role: Role) -> u32
    ensures { result ≡ number_of_role role }
{
    match role {
        Role::Away => 0,
        Role::Member => 1,
        Role::Sender => 2,
    }
}

// a host may have written any numbers into its listings
impl Listed for HostSource {
    ghost listed = { listed_by };

    fn ssrc(&self) -> u32 {
        self.ssrc
    }

    fn role(&self) -> Role {
        match (self.member != 0, self.sender != 0) {
            (false, _) => Role::Away,
            (true, false) => Role::Member,
            (true, true) => Role::Sender,
        }
    }

    fn has_left(&self) -> bool {
        self.left != NEVER
    }
}
