//! Hints at where the sources of a list stand, four in each cell. No answer depends on them, only how soon a source is
//! found: who reads a hint looks at that rank, and finds the source there or searches it.

ghost use Rattle.std.specs.Prelude.{◌≡◌, length};
ghost use Rattle.rtcp_members.specs.storage.Heaps.{entries_in};

use crate::cells::Cell;

/// How many hints a cell has.
pub(crate) const HINTS: usize = 4;

/// An odd number, by which SSRCs spread over the cells, those that lie close together too.
const SPREAD: u32 = 0x85eb_ca6b;

/// The rank at which a source, or another one with the same hint, was found last.
#[inline(always)]
pub(crate) fn hinted(cells: &[Cell], ssrc: u32) -> usize {
    let place = place_of(cells.len(), ssrc);
    let at = place / HINTS;
    if at < cells.len() {
        return usize::from(cells[at].hints[place % HINTS]);
    }
    usize::MAX
}

/// Notes the rank of a source.
#[inline(always)]
pub(crate) fn note(cells: &mut [Cell], ssrc: u32, rank: usize)
    ensures entries { entries_in cells.new ≡ entries_in cells.old }
    ensures as_many { length cells.new ≡ length cells.old }
{
    let place = place_of(cells.len(), ssrc);
    let at = place / HINTS;
    if at < cells.len() {
        let cell = &mut cells[at];
        cell.hints[place % HINTS] = (rank & 0xffff) as u16;
    }
}

/// Where the hint at a source lies, by the product of its spread SSRC and the number of hints: that is below the
/// number.
#[inline(always)]
fn place_of(count: usize, ssrc: u32) -> usize {
    let spread = u64::from(ssrc.wrapping_mul(SPREAD));
    (spread.wrapping_mul(count as u64) >> 30) as usize
}
