//! Up to which moments a check has nothing to do.

ghost use Rattle.std.specs.Prelude.{◌≡◌, ◌+◌, ◌^◌, ◌≤◌, IsTrue};
ghost use Rattle.rtcp_members.specs.ListViews.{entry_value};
ghost use Rattle.rtcp_members.specs.storage.Standing.{IsNoLater, IsUpTo, StandsBy};

use crate::entry::Entry;
use rtcp_wire::Fact;

/// Bounds from below of the moments of a list of entries: a check whose horizons do not pass them changes
/// nothing.
#[derive(Clone, Copy)]
pub struct Bounds {
    /// Of the last sightings.
    silent: u64,
    /// Of the last counted packets of those that did not leave.
    idle: u64,
    /// Of the BYEs.
    gone: u64,
}

impl Bounds {
    /// Those of no entries.
    pub(crate) fn none() -> Bounds
        ensures silent { result.silent + 1 ≡ 2 ^ 64 }
        ensures idle { result.idle + 1 ≡ 2 ^ 64 }
        ensures gone { result.gone + 1 ≡ 2 ^ 64 }
    {
        Bounds {
            silent: u64::MAX,
            idle: u64::MAX,
            gone: u64::MAX,
        }
    }

    /// Lowers them to what a fact at the moment `t` can make of an entry.
    // By a branch, and no minimum that is written back: moments rise, so this almost never lowers anything.
    #[inline(always)]
    pub(crate) fn lower(&mut self, fact: Fact, t: u64)
        ensures no_later { IsNoLater self.new self.old }
        ensures up_to { IsUpTo self.new fact t }
    {
        match fact {
            Fact::Gone(_) => lower_to(&mut self.gone, t),
            Fact::Media(_, _, _, _, _) => {
                lower_to(&mut self.silent, t);
                lower_to(&mut self.idle, t);
            }
            Fact::Heard(_) | Fact::Named(_) | Fact::Told(_, _, _) => {
                lower_to(&mut self.silent, t);
            }
        }
    }

    /// Whether none of these horizons passes them.
    pub(crate) fn reach(&self, silent: u64, idle: u64, gone: u64) -> bool
        ensures { IsTrue result →
            (silent ≤ self.now.silent) × (idle ≤ self.now.idle) × (gone ≤ self.now.gone) }
    {
        silent <= self.silent && idle <= self.idle && gone <= self.gone
    }

    /// Lowers them to an entry.
    pub(crate) fn cover(&mut self, entry: &Entry)
        ensures no_later { IsNoLater self.new self.old }
        ensures stands { StandsBy self.new (entry_value entry.now) }
    {
        self.silent = self.silent.min(entry.sighting);
        match entry.mark() {
            Some(mark) => self.gone = self.gone.min(mark),
            None => {
                if let Some(sent) = entry.sending() {
                    self.idle = self.idle.min(sent);
                }
            }
        }
    }
}

/// Lowers a bound to a moment.
#[inline(always)]
fn lower_to(bound: &mut u64, t: u64)
    ensures no_later { bound.new ≤ bound.old }
    ensures up_to { bound.new ≤ t }
{
    if t < *bound {
        *bound = t;
    }
}
