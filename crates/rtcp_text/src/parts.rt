//! The parts of a text, as they stand between its separators.

ghost use Rattle.std.specs.Prelude.{◌≡◌, ◌==◌, ◌<◌, ◌∷◌, [], ℕ, true, false, length, slice_index, IfSome, IfNone};
ghost use Rattle.rtcp_text.specs.SettingsFields.{parts_at, parts_left};

use memchr::memchr;
use std::simd::prelude::*;

/// How many octets are looked through at once for the separator after a part.
const NEAR: usize = 16;

/// The parts that are left of a text, with this octet between each two.
#[derive(Clone, Copy, Debug)]
pub(crate) struct Parts<'a, const SEPARATOR: u8> {
    /// What comes after the separator of the last part, if it has one.
    pub(crate) rest: Option<&'a [u8]>,
}

impl<'a, const SEPARATOR: u8> Parts<'a, SEPARATOR> {
    /// All parts of a text.
    pub(crate) fn of(text: &'a [u8]) -> Self
        ensures { parts_left SEPARATOR result.rest ≡ parts_at SEPARATOR text.now }
    {
        Parts { rest: Some(text) }
    }

    /// The next part, if there is one.
    pub(crate) fn next(&mut self) -> Option<&'a [u8]>
        ensures some { IfSome result (λ part.
            parts_left SEPARATOR self.old.rest ≡ part.now ∷ parts_left SEPARATOR self.new.rest) }
        ensures none { IfNone result (parts_left SEPARATOR self.old.rest ≡ []) }
    {
        let (part, rest) = split_part::<SEPARATOR>(self.rest?);
        self.rest = rest;
        Some(part)
    }
}

/// The first part, and what comes after its separator, if it has one.
pub(crate) fn split_part<const SEPARATOR: u8>(octets: &[u8]) -> (&[u8], Option<&[u8]>)
    ensures { parts_at SEPARATOR octets.now ≡ result.0.now ∷ parts_left SEPARATOR result.1 }
{
    match find::<SEPARATOR>(octets) {
        Some(end) => (octets.split_at(end).0, Some(octets.split_at(end + 1).1)),
        None => (octets, None),
    }
}

/// Where the first separator is. It is looked for among the first octets at once, since most parts are short.
#[inline]
fn find<const SEPARATOR: u8>(octets: &[u8]) -> Option<usize>
    ensures within { IfSome result (λ end. end < length octets.now) }
    ensures found { IfSome result (λ end. (slice_index octets.now end == SEPARATOR) ≡ true) }
    ensures before { IfSome result (λ end. (k : ℕ) → k < end → (slice_index octets.now k == SEPARATOR) ≡ false) }
    ensures none { IfNone result ((k : ℕ) → k < length octets.now → (slice_index octets.now k == SEPARATOR) ≡ false) }
{
    if octets.len() >= NEAR {
        let separators = u8x16::from_slice(octets)
            .simd_eq(u8x16::splat(SEPARATOR))
            .to_bitmask();
        if separators != 0 {
            return Some(separators.trailing_zeros() as usize);
        }
    }
    memchr(SEPARATOR, octets)
}
