//! Which datagrams are held back.

ghost use Rattle.std.specs.Prelude.{◌≡◌, ◌<◌, ◌≤◌, ◌++◌, ℕ, [], List, length, take};
ghost use Rattle.rtcp_guard.specs.Claims.{AreOwn, held, is_of_another, owner_in};
ghost use Rattle.rtcp_guard.specs.Guarding.{judged};
ghost use Rattle.rtcp_guard.specs.Tables.{AreRising, IsSpare};

use crate::merging::put_once;
use crate::naming::{FEW, FewNames, Names};
use crate::table::ClaimTable;
use crate::verdict::Verdict;
use arrayvec::ArrayVec;

/// How many of the first names are sources of an origin.
#[inline(always)]
pub(crate) fn own_first(claims: &mut ClaimTable, origin: u64, names: &[u32]) -> usize
    ensures within { result ≤ length names.now }
    ensures own { AreOwn origin (take result names.now) claims.old.items }
    ensures kept { claims.new ≡ claims.old }
{
    'names: for (at, name) in names.iter().enumerate() {
        if claims.owner_hinted(*name) != Some(origin) {
            return at;
        }
    }
    names.len()
}

/// What becomes of a datagram of an origin that may have `limit` sources, of `room` for all origins together, by its
/// names after the first ones that are the origin's own. Where the first of these belongs to another origin, the
/// sources of the origin are not counted.
#[inline(never)]
pub(crate) fn judge_rest(
    claims: &mut ClaimTable,
    limit: usize,
    room: usize,
    origin: u64,
    names: &[u32],
) -> Verdict
    requires rising { AreRising claims.old.items }
    requires few { held origin claims.old.items ≤ limit }
    requires within { length claims.old.items ≤ room }
    requires some { 0 < length names.now }
    requires short { length names.now ≤ 512 }
    ensures verdict { (moment : ℕ) (own : List ℕ) → AreOwn origin own claims.old.items →
        result ≡ judged limit room origin moment (own ++ names.now) claims.old.items }
    ensures kept { claims.new ≡ claims.old }
{
    if belongs_elsewhere(claims, origin, names[0]) {
        return Verdict::Stranger;
    }
    let spare = spare_of(claims, limit, room, origin);
    if names.len() <= FEW {
        return judge_each(claims, spare, origin, names, &mut FewNames::new());
    }
    judge_each(claims, spare, origin, names, &mut Names::new())
}

/// Whether a source belongs to another origin.
#[inline(always)]
fn belongs_elsewhere(claims: &ClaimTable, origin: u64, ssrc: u32) -> bool
    ensures { result ≡ is_of_another origin (owner_in ssrc claims.now.items) }
{
    match claims.owner(ssrc) {
        Some(owner) => owner != origin,
        None => false,
    }
}

/// How many sources an origin may have more.
#[inline(always)]
fn spare_of(claims: &mut ClaimTable, limit: usize, room: usize, origin: u64) -> usize
    requires few { held origin claims.old.items ≤ limit }
    requires within { length claims.old.items ≤ room }
    ensures spare { IsSpare limit room origin claims.old.items result }
    ensures kept { claims.new ≡ claims.old }
{
    let left = room - claims.len();
    if left == 0 {
        return 0;
    }
    (limit - claims.count(origin)).min(left)
}

/// What becomes of a datagram of an origin that may have `spare` sources more, by each of these names in turn. A name
/// that is given again is not a source more: `fresh` takes each new one once.
// The list is the caller's, since a list pays for all its room when it is made.
fn judge_each<const N: usize>(
    claims: &ClaimTable,
    spare: usize,
    origin: u64,
    names: &[u32],
    fresh: &mut ArrayVec<u32, N>,
) -> Verdict
    requires rising { AreRising claims.now.items }
    requires short { length names.now ≤ N }
    requires none { fresh.old.items ≡ [] }
    ensures { (moment limit room : ℕ) (own : List ℕ) → IsSpare limit room origin claims.now.items spare →
        AreOwn origin own claims.now.items →
        result ≡ judged limit room origin moment (own ++ names.now) claims.now.items }
{
    'names: for name in names {
        match claims.owner(*name) {
            Some(owner) if owner != origin => return Verdict::Stranger,
            Some(_) => (),
            None => {
                put_once(fresh, *name);
                if fresh.len() > spare {
                    return Verdict::Crowd;
                }
            }
        }
    }
    Verdict::Pass
}
