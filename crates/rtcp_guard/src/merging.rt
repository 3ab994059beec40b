//! New sources of an origin, many at once: gathered each once, and merged into the cells, so that no cell moves twice.

ghost use Rattle.std.specs.Prelude.{◌≡◌, ◌≤◌, ◌<◌, ◌+◌, ◌-◌, ◌++◌, ℕ, [], ◌∷◌, false, IsTrue, if◌then◌else◌, length, slice_index, slice_index_or, take, vec_capacity, vec_len};
ghost use Rattle.rtcp_guard.specs.Claims.{is_named, with_names};
ghost use Rattle.rtcp_guard.specs.Tables.{AreRising, AreRisingNames, AreUnclaimed, claims_in, no_cell};

use crate::cells::Cell;
use arrayvec::ArrayVec;

/// Puts a name among rising ones, unless it is there.
pub(crate) fn put_once<const N: usize>(names: &mut ArrayVec<u32, N>, name: u32)
    requires rising { AreRisingNames names.old.items }
    requires room { length names.old.items < N }
    ensures rising { AreRisingNames names.new.items }
    ensures named { (ssrc : ℕ) → is_named ssrc names.new.items ≡ is_named ssrc (names.old.items ++ name ∷ []) }
    ensures once { length names.new.items
        ≡ length names.old.items + (if is_named name names.old.items then 0 else 1) }
    ensures few { length names.new.items ≤ length names.old.items + 1 }
{
    let rank = rank_of(names.as_slice(), name);
    if rank < names.len() && names[rank] == name {
        return;
    }
    names.insert(rank, name);
}

/// How many of rising names are lesser than one.
fn rank_of(names: &[u32], name: u32) -> usize
    requires { AreRisingNames names.now }
    ensures within { result ≤ length names.now }
    ensures lesser { (k : ℕ) → k < result → slice_index names.now k < name }
    ensures rest { (k : ℕ) → result ≤ k → k < length names.now → name ≤ slice_index names.now k }
{
    names.partition_point(|other| *other < name)
}

/// Adds as many cells as there are names, whatever stands in these cells.
pub(crate) fn lengthen(cells: &mut Vec<Cell>, names: &[u32])
    requires { vec_len cells.old + length names.now ≤ vec_capacity cells.old }
    ensures first { take (vec_len cells.old) cells.new.items ≡ cells.old.items }
    ensures len { vec_len cells.new ≡ vec_len cells.old + length names.now }
    ensures capacity { vec_capacity cells.new ≡ vec_capacity cells.old }
{
    'names: for name in names {
        let end = cells.len();
        let _added = cells.insert(end, Cell::of(*name, 0, 0));
    }
}

/// Merges claims of an origin, one to each of these names, into the first `count` cells. As many cells follow those as
/// there are names; what stands in them goes.
// From the last on, so that each cell is moved once.
pub(crate) fn merge(cells: &mut [Cell], count: usize, names: &[u32], origin: u64, t: u64)
    requires room { length cells.old ≡ count + length names.now }
    requires rising { AreRising (claims_in (take count cells.old)) }
    requires names { AreRisingNames names.now }
    requires new { AreUnclaimed names.now (claims_in (take count cells.old)) }
    ensures { claims_in cells.new ≡ with_names origin t names.now (claims_in (take count cells.old)) }
{
    let mut from = count;
    let mut left = names.len();
    'cells: while left > 0 {
        if is_after(cells, from, names[left - 1]) {
            from -= 1;
            cells[from + left] = cells[from];
        } else {
            left -= 1;
            cells[from + left] = Cell::of(names[left], origin, t);
        }
    }
}

/// Whether the last of the first cells has a greater SSRC.
#[inline(always)]
fn is_after(cells: &[Cell], count: usize, ssrc: u32) -> bool
    requires { count ≤ length cells.now }
    ensures after { IsTrue result → (0 < count) × (ssrc < (slice_index_or cells.now (count - 1) no_cell).ssrc) }
    ensures until { result ≡ false → 0 < count → (slice_index_or cells.now (count - 1) no_cell).ssrc ≤ ssrc }
{
    count > 0 && cells[count - 1].ssrc > ssrc
}
