//! What is told of the participant's own stream.

ghost use Rattle.std.specs.Prelude.{◌≡◌, ℕ, None};
ghost use Rattle.rtcp_engine.specs.answers.Histories.{History, life_at};
ghost use Rattle.rtcp_engine.specs.answers.OwnCounts.{own_counts_in_life};
ghost use Rattle.jalwedd_host.specs.Handles.{LeadsTo};
ghost use Rattle.jalwedd_host.specs.Owns.{IsOwnShown, ShowsOwn};

use crate::handle::Handle;
use crate::status::{EMPTY, LEFT, TAKEN};
use rtcp_engine::OwnCounts;
use std::alloc::Global;

/// What the participant has sent under its present SSRC, as a sender report of now would tell it (RFC 3550, 6.4.1).
#[repr(C)]
#[derive(Clone, Copy, Debug, PartialEq, Eq)]
pub struct HostOwn {
    /// How many RTP packets it sent, modulo 2^32.
    pub packets: u32,
    /// The octets of payload in those packets, without headers and padding, modulo 2^32.
    pub octets: u32,
    /// 1 if it counts as a sender (6.3.8), else 0.
    pub sends: u32,
}

impl HostOwn {
    /// How what was sent is told.
    fn of(counts: &OwnCounts) -> HostOwn
        ensures { IsOwnShown result counts.now }
    {
        HostOwn {
            packets: counts.packets,
            octets: counts.octets,
            sends: u32::from(counts.sends),
        }
    }
}

impl Handle {
    /// Writes what the participant has sent where the host says. Returns the status.
    pub fn own(&mut self, alloc: Global, shown: &mut HostOwn) -> u32
        ensures told { (start : ℕ) (history : History) → LeadsTo self.old.owned.held start history →
            ShowsOwn result shown.old shown.new (own_counts_in_life (life_at history)) }
        ensures empty { self.old.owned.held ≡ None → (result ≡ 20) × (shown.new ≡ shown.old) }
        ensures kept { self.new.owned.held ≡ self.old.owned.held }
    {
        let Some(session) = self.take(alloc) else {
            return EMPTY;
        };
        let counts = session.participant.own_counts();
        self.put(session);
        match counts {
            Some(counts) => {
                *shown = HostOwn::of(&counts);
                TAKEN
            }
            None => LEFT,
        }
    }
}
