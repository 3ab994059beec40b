//! Cells with a claim and a hint each, the hints, and the search.

ghost use Rattle.std.specs.Prelude.{◌≡◌, ◌==◌, ◌<◌, ◌≤◌, ◌-◌, ◌^◌, ◌++◌, ◌∷◌, [], List, Some, if◌then◌else◌, length, nat_le, not};
ghost use Rattle.std.specs.List.{insert};
ghost use Rattle.rtcp_guard.specs.Claims.{claim_after, claim_by, claim_leaving, goodbyes_of, held};
ghost use Rattle.rtcp_guard.specs.Tables.{AreFewGoodbyes, AreRising, AreSince, IsTally, Locates, claim_in, claims_in};
ghost use Rattle.rtcp_guard.specs.declared.cells.Cell.{Cell as CellValue};

use crate::tallies::Tally;

/// An odd number, by which SSRCs spread over the cells, those that lie close together too.
const SPREAD: u32 = 0x85eb_ca6b;

/// The claim of an origin to a source. The hint takes what would be left free between the fields. The hints of all
/// cells are one table, which says where sources were found last. No answer depends on it, only how soon a source is
/// found.
#[derive(Clone, Copy)]
pub(crate) struct Cell {
    pub(crate) ssrc: u32,
    pub(crate) hint: u16,
    pub(crate) goodbyes: u16,
    pub(crate) origin: u64,
    pub(crate) last: u64,
}

impl Cell {
    /// A cell with a claim.
    pub(crate) fn of(ssrc: u32, origin: u64, last: u64) -> Cell
        ensures { claim_in result ≡ claim_by origin last ssrc }
    {
        Cell {
            ssrc,
            hint: 0,
            goodbyes: 0,
            origin,
            last,
        }
    }

    /// An origin names the source at a moment. Returns whether it is another than before, which has no goodbyes yet.
    #[inline(always)]
    pub(crate) fn renew(&mut self, origin: u64, t: u64) -> bool
        ensures claim { claim_in self.new ≡ claim_after origin t self.old.ssrc (Some (claim_in self.old)) }
        ensures moved { result ≡ not (self.old.origin == origin) }
    {
        self.last = t;
        if self.origin == origin {
            return false;
        }
        self.origin = origin;
        self.goodbyes = 0;
        true
    }

    /// A BYE speaks of the source.
    pub(crate) fn leave(&mut self)
        requires { self.old.goodbyes < 2 ^ 16 - 1 }
        ensures { claim_in self.new ≡ claim_leaving (Some self.old.ssrc) (claim_in self.old) }
    {
        self.goodbyes += 1;
    }

    /// Whether the source was last named at a moment or later.
    #[inline(always)]
    pub(crate) fn is_since(&self, moment: u64) -> bool
        ensures { result ≡ nat_le moment self.now.last }
    {
        moment <= self.last
    }
}

/// The rank at which a source, or another one with the same hint, was found last.
#[inline(always)]
pub(crate) fn hinted(cells: &[Cell], ssrc: u32) -> usize {
    let at = place_of(cells.len(), ssrc);
    if at < cells.len() {
        return usize::from(cells[at].hint);
    }
    usize::MAX
}

/// Notes the rank of a source.
#[inline(always)]
pub(crate) fn note(cells: &mut [Cell], ssrc: u32, rank: usize)
    ensures { claims_in cells.new ≡ claims_in cells.old }
{
    let at = place_of(cells.len(), ssrc);
    if at < cells.len() {
        let cell = &mut cells[at];
        cell.hint = (rank & 0xffff) as u16;
    }
}

/// Where the hint at a source lies, by the product of its spread SSRC and the number of cells: that is below the
/// number.
#[inline(always)]
fn place_of(count: usize, ssrc: u32) -> usize {
    let spread = u64::from(ssrc.wrapping_mul(SPREAD));
    (spread.wrapping_mul(count as u64) >> 32) as usize
}

/// Moves the last cell, that of a source, to a rank, and those from that rank on by one. The rank is noted.
// As one block of memory: `Vec::insert` moves one cell after the other.
pub(crate) fn settle_last(cells: &mut [Cell], rank: usize, ssrc: u32)
    requires { rank < length cells.old }
    ensures { (others : List CellValue) (last : CellValue) → rank ≤ length others →
        cells.old ≡ others ++ last ∷ [] → claims_in cells.new ≡ claims_in (insert others rank last) }
{
    cells[rank..].rotate_right(1);
    note(cells, ssrc, rank);
}

/// The rank of a source, or else that which it would have.
pub(crate) fn search(cells: &[Cell], ssrc: u32) -> Result<usize, usize>
    requires { AreRising (claims_in cells.now) }
    ensures { Locates ssrc (claims_in cells.now) result }
{
    let rank = cells.partition_point(|cell| cell.ssrc < ssrc);
    if rank < cells.len() && cells[rank].ssrc == ssrc {
        return Ok(rank);
    }
    Err(rank)
}

/// How many sources and goodbyes an origin has.
// Sums without a branch: which cells are the origin's cannot be foretold.
pub(crate) fn count(cells: &[Cell], origin: u64) -> Tally
    requires small { length cells.now < 2 ^ 32 }
    requires leaving { AreFewGoodbyes (claims_in cells.now) }
    ensures origin { result.origin ≡ origin }
    ensures tally { IsTally (claims_in cells.now) result }
{
    let mut count = 0;
    let mut goodbyes = 0;
    'cells: for cell in cells {
        let is_own = cell.origin == origin;
        count += one_if(is_own);
        goodbyes += if_own(is_own, cell.goodbyes);
    }
    Tally {
        origin,
        count,
        goodbyes,
    }
}

#[inline(always)]
fn one_if(is: bool) -> u32
    ensures { result ≡ (if is then 1 else 0) }
{
    if is { 1 } else { 0 }
}

#[inline(always)]
fn if_own(is_own: bool, goodbyes: u16) -> u16
    ensures { result ≡ (if is_own then goodbyes else 0) }
{
    if is_own { goodbyes } else { 0 }
}

/// The earliest moment at which one of the sources was last named, or the latest moment of all where there is none.
pub(crate) fn oldest(cells: &[Cell]) -> u64
    ensures { AreSince result (claims_in cells.now) }
{
    let mut oldest = u64::MAX;
    'cells: for cell in cells {
        oldest = oldest.min(cell.last);
    }
    oldest
}
