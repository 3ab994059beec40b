//! The changes between two listings.

ghost use Rattle.std.specs.Prelude.{◌≡◌, [], map, true, MatchOption};
ghost use Rattle.std.specs.Iterator.{YieldsFirst, item_count};
ghost use Rattle.rtcp_listing.specs.Differences.{
  rises_from,
  least_first,
  first_role,
  first_left,
  without_first,
  changes,
  IsFirst,
};

use crate::change::{Change, Role};
use crate::listed::Listed;
use std::marker::Model;

/// The sources whose roles differ in two listings of a session, by rising SSRC, each once.
#[derive(Drop)]
pub struct Changes<'a, S: Listed> {
    before: &'a [S],
    after: &'a [S],
}

impl<'a, S: Listed> Model for Changes<'a, S> {
    ghost use Rattle.std.specs.Prelude.{◌≡◌, List, map, true};
    ghost use Rattle.rtcp_listing.specs.Differences.{rises_from, changes};
    ghost use Rattle.rtcp_listing.specs.declared.change.Change.{Change};

    ghost Value = { List Change };

    ghost view = { λ left. changes (map S.listed left.before.now) (map S.listed left.after.now) };

    ghost invariant = { λ left.
        (rises_from 0 (map S.listed left.before.now) ≡ true)
        × (rises_from 0 (map S.listed left.after.now) ≡ true) };
}

impl<'a, S: Listed> Changes<'a, S> {
    /// The changes from an earlier listing to a later one, each of which has its sources by rising SSRC, as the
    /// calls that tell of a session's sources give them ([`is_rising`] tests it).
    pub fn of(before: &'a [S], after: &'a [S]) -> Changes<'a, S>
        requires before_rises { rises_from 0 (map S.listed before.now) ≡ true }
        requires after_rises { rises_from 0 (map S.listed after.now) ≡ true }
        ensures { result ≡ changes (map S.listed before.now) (map S.listed after.now) }
    {
        Changes { before, after }
    }
}

impl<'a, S: Listed> Iterator for Changes<'a, S> {
    type Item = Change;

    ghost next_gives = { YieldsFirst (λ changes. changes) };

    ghost remaining = { item_count (λ changes. changes) };

    fn next(&mut self) -> Option<Change> {
        let mut before = self.before;
        let mut after = self.after;
        while let Some(first) = compare_first(before, after) {
            before = first.before;
            after = first.after;
            if first.change.is_change() {
                *self = Changes { before, after };
                return Some(first.change);
            }
        }
        *self = Changes { before, after };
        None
    }
}

/// Whether the sources of a listing stand by rising SSRC, each once.
pub fn is_rising<S: Listed>(listing: &[S]) -> bool
    ensures { result ≡ rises_from 0 (map S.listed listing.now) }
{
    let mut left = listing;
    let mut low = 0u64;
    while let [first, rest @ ..] = left {
        let ssrc = first.ssrc() as u64;
        if ssrc < low {
            return false;
        }
        low = ssrc + 1;
        left = rest;
    }
    true
}

/// What two listings say of one source, and the others of both.
#[derive(Drop)]
struct Compared<'a, S> {
    change: Change,
    before: &'a [S],
    after: &'a [S],
}

/// Compares what two listings say of the source of least SSRC in either.
fn compare_first<'a, S: Listed>(before: &'a [S], after: &'a [S]) -> Option<Compared<'a, S>>
    requires before_rises { rises_from 0 (map S.listed before.now) ≡ true }
    requires after_rises { rises_from 0 (map S.listed after.now) ≡ true }
    ensures { MatchOption result (changes (map S.listed before.now) (map S.listed after.now) ≡ [])
        (λ first. IsFirst (map S.listed before.now) (map S.listed after.now) first.change
        (map S.listed first.before.now) (map S.listed first.after.now)) }
{
    let ssrc = least_ssrc(before, after)?;
    let old = take_first(before, ssrc);
    let new = take_first(after, ssrc);
    Some(Compared {
        change: Change {
            ssrc,
            was: old.role,
            is: new.role,
            has_left: new.has_left,
        },
        before: old.rest,
        after: new.rest,
    })
}

/// The least SSRC of two listings: it is the first of one or of both.
fn least_ssrc<S: Listed>(before: &[S], after: &[S]) -> Option<u32>
    ensures { result ≡ least_first (map S.listed before.now) (map S.listed after.now) }
{
    match (before, after) {
        ([], []) => None,
        ([], [new, ..]) => Some(new.ssrc()),
        ([old, ..], []) => Some(old.ssrc()),
        ([old, ..], [new, ..]) => {
            let (old, new) = (old.ssrc(), new.ssrc());
            Some(if new < old { new } else { old })
        }
    }
}

/// What a listing says of one source, and the others of it.
#[derive(Drop)]
struct Taken<'a, S> {
    role: Role,
    has_left: bool,
    rest: &'a [S],
}

/// What a listing says of a source that stands first in it, or not in it.
fn take_first<'a, S: Listed>(listing: &'a [S], ssrc: u32) -> Taken<'a, S>
    ensures role { result.role ≡ first_role (map S.listed listing.now) ssrc }
    ensures left { result.has_left ≡ first_left (map S.listed listing.now) ssrc }
    ensures rest { map S.listed result.rest.now ≡ without_first (map S.listed listing.now) ssrc }
{
    match listing {
        [first, rest @ ..] if first.ssrc() == ssrc => Taken {
            role: first.role(),
            has_left: first.has_left(),
            rest,
        },
        _ => Taken {
            role: Role::Away,
            has_left: false,
            rest: listing,
        },
    }
}
