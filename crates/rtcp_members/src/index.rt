//! An index of entries: slots by rising SSRC, and the search in it.

ghost use Rattle.std.specs.Prelude.{◌≡◌, ◌≤◌, ◌<◌, ◌+◌, ◌-◌, ◌*◌, ◌^◌, ℕ, length};
ghost use Rattle.rtcp_members.specs.storage.Index.{AreRising, Finds, IsHalved};

use crate::cells::{Slot, slot_at};

/// How many slots are searched by halves alone.
const FEW: usize = 15;

/// The rank of a source, or else that which it would have.
pub(crate) fn find(slots: &[Slot], ssrc: u32) -> Result<usize, usize>
    requires rising { AreRising slots.now }
    requires few { length slots.now < 2 ^ 32 }
    ensures { Finds ssrc slots.now result }
{
    let rank = first_from(slots, ssrc);
    if rank < slots.len() && slot_at(slots, rank).ssrc == ssrc {
        return Ok(rank);
    }
    Err(rank)
}

/// The first rank whose SSRC is not lesser than this one.
// What is seen makes a number and no branch: half of the branches would be predicted wrongly.
fn first_from(slots: &[Slot], ssrc: u32) -> usize
    requires rising { AreRising slots.now }
    requires few { length slots.now < 2 ^ 32 }
    ensures { IsHalved ssrc slots.now result result }
{
    if slots.is_empty() {
        return 0;
    }
    let (mut at, mut count) = few_from(slots, ssrc);
    'halves: while count > 1 {
        let half = count / 2;
        at += if_before(slot_at(slots, at + half).ssrc, ssrc, half);
        count -= half;
    }
    at + if_before(slot_at(slots, at).ssrc, ssrc, 1)
}

/// A rank, and how many from there on, at most 15: the first rank whose SSRC is not lesser than this one is among them,
/// or follows them.
// By quarters: three slots are read at once, and half as many readings wait for the one before them. Among few slots
// that saves nothing.
#[inline(always)]
fn few_from(slots: &[Slot], ssrc: u32) -> (usize, usize)
    requires rising { AreRising slots.now }
    requires few { length slots.now < 2 ^ 32 }
    requires some { 0 < length slots.now }
    ensures halved { IsHalved ssrc slots.now result.0 (result.0 + result.1) }
    ensures some { 0 < result.1 }
{
    let mut at = 0;
    let mut count = slots.len();
    'quarters: while count > FEW {
        let quarter = count / 4;
        at += quarters_before(slots, at, quarter, ssrc);
        count -= 3 * quarter;
    }
    (at, count)
}

/// As many of three quarters as lie before a source, of slots from `at` on.
#[inline(always)]
fn quarters_before(slots: &[Slot], at: usize, quarter: usize, ssrc: u32) -> usize
    requires rising { AreRising slots.now }
    requires few { length slots.now < 2 ^ 32 }
    requires some { 0 < quarter }
    requires within { at + 3 * quarter < length slots.now }
    ensures halved { (count : ℕ) → IsHalved ssrc slots.now at (at + count) → 4 * quarter ≤ count →
        IsHalved ssrc slots.now (at + result) (at + result + (count - 3 * quarter)) }
    ensures most { result ≤ 3 * quarter }
{
    let first = if_before(slot_at(slots, at + quarter).ssrc, ssrc, quarter);
    let second = if_before(slot_at(slots, at + 2 * quarter).ssrc, ssrc, quarter);
    let third = if_before(slot_at(slots, at + 3 * quarter).ssrc, ssrc, quarter);
    first + second + third
}

/// This many if an SSRC that is seen is lesser than this one, else 0.
// The upper half of the difference is all ones where it borrows, else 0: of a comparison, or of the last bit, the
// compiler makes a branch.
#[inline(always)]
fn if_before(seen: u32, ssrc: u32, many: usize) -> usize
    requires { many < 2 ^ 32 }
    ensures before { seen < ssrc → result ≡ many }
    ensures after { ssrc ≤ seen → result ≡ 0 }
{
    many & (u64::from(seen).wrapping_sub(u64::from(ssrc)) >> 32) as usize
}
