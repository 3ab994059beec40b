//! How many sources and goodbyes the origins have that were asked for last.

ghost use Rattle.std.specs.Prelude.{◌≡◌, List, [], IfSome, false};
ghost use Rattle.rtcp_guard.specs.Claims.{Claim};
ghost use Rattle.rtcp_guard.specs.Tables.{AreTallies, IsTally};

use arrayvec::ArrayVec;

/// How many tallies are kept.
const TALLIES: usize = 16;

/// How many sources and goodbyes an origin has.
#[derive(Clone, Copy, Default)]
pub(crate) struct Tally {
    pub(crate) origin: u64,
    pub(crate) count: u32,
    pub(crate) goodbyes: u16,
}

/// Tallies of the claims as they are. An origin that has as many sources as it may is so not counted anew at each of
/// its datagrams.
#[derive(Drop)]
pub(crate) struct Tallies {
    pub(crate) kept: ArrayVec<Tally, TALLIES>,
}

impl Tallies {
    /// No tallies.
    pub(crate) fn none() -> Tallies
        ensures { (claims : List Claim) → AreTallies claims result.kept.items }
    {
        Tallies {
            kept: ArrayVec::new(),
        }
    }

    /// The tally of an origin, if that is kept.
    pub(crate) fn of(&self, origin: u64) -> Option<Tally>
        ensures origin { IfSome result (λ tally. tally.origin ≡ origin) }
        ensures tally { (claims : List Claim) → AreTallies claims self.now.kept.items →
            IfSome result (λ tally. IsTally claims tally) }
    {
        'tallies: for tally in self.kept.as_slice() {
            if tally.origin == origin {
                return Some(*tally);
            }
        }
        None
    }

    /// Keeps a tally, in the place of what is kept where there is no room.
    pub(crate) fn keep(&mut self, tally: Tally)
        ensures { (claims : List Claim) → AreTallies claims self.old.kept.items → IsTally claims tally →
            AreTallies claims self.new.kept.items }
    {
        if self.kept.is_full() {
            self.forget();
        }
        self.kept.push(tally);
    }

    /// Keeps none any more, as the claims are others.
    pub(crate) fn forget(&mut self)
        ensures { self.new.kept.items ≡ [] }
    {
        self.kept.clear();
    }

    /// Keeps none any more, if a source went from one origin to another.
    #[inline(always)]
    pub(crate) fn forget_if(&mut self, is_moved: bool)
        ensures { (claims : List Claim) → (is_moved ≡ false → AreTallies claims self.old.kept.items) →
            AreTallies claims self.new.kept.items }
    {
        if is_moved {
            self.forget();
        }
    }
}
