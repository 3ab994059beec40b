//! Where a shelf keeps its cells and the slots of its index.

ghost use Rattle.std.specs.Prelude.{◌≡◌, ℕ, List, ◌∷◌, ◌++◌, [], length, ◌<◌, ◌≤◌, Option, Some, None, refl};
ghost use Rattle.std.specs.Borrow.{sem};
ghost use Rattle.std.specs.Vec as vectors;
ghost use denote.RawPtr.{Ptr};
ghost use Rattle.arrayvec.specs.ArrayVec as arrays;
ghost use Rattle.rtcp_members.specs.BlockLaws.{over_whole};
ghost use Rattle.rtcp_members.specs.storage.Shelves.{LendsRow};

use arrayvec::ArrayVec;

/// Values in a row, with room for a number of them. No call takes memory: the room stays, and the values lie where
/// they were put.
pub trait Blocks<T> {
    /// The values.
    ghost items: { Self → List T };

    /// How many it has room for.
    ghost room: { Self → ℕ };

    /// The block of memory that they lie in, where they do not lie in the row itself.
    ghost block: { Self → Option Ptr };

    /// The same with as many other values.
    ghost with_items: { Self → List T → Self };

    fn as_slice(&self) -> &[T]
        ensures items { result.now ≡ items self.now }
        ensures fits { length result.now ≤ room self.now };

    fn as_mut_slice(&mut self) -> &mut [T]
        ensures* writes_back { sem 𝓛 (LendsRow Self.row T.row self.entry result with_items) }
        ensures items { result.now ≡ items self.old }
        ensures fits { length result.now ≤ room self.old };

    fn push(&mut self, value: T)
        requires { length (items self.old) < room self.old }
        ensures items { items self.new ≡ items self.old ++ value ∷ [] }
        ensures room { room self.new ≡ room self.old }
        ensures in_place { block self.new ≡ block self.old };

    /// What is written as a slice is what there is.
    ghost written: { (s : Self) (xs : List T) → length xs ≡ length (items s) → items (with_items s xs) ≡ xs };

    /// Writing leaves the room.
    ghost kept: { (s : Self) (xs : List T) → room (with_items s xs) ≡ room s };

    /// Writing leaves the values where they lie.
    ghost kept_in_place: { (s : Self) (xs : List T) → block (with_items s xs) ≡ block s };
}

impl<T: Drop> Blocks<T> for Vec<T> {
    ghost items = { λ v. v.items };

    ghost room = { λ v. vectors.vec_capacity v };

    ghost block = { λ v. Some (vectors.vec_ptr v) };

    ghost with_items = { λ v xs. vectors.with_items v xs };

    ghost written = { λ v xs same. over_whole v.len v.items xs v.ok.0 same };

    ghost kept = { λ _ _. refl };

    ghost kept_in_place = { λ _ _. refl };

    #[inline(always)]
    fn as_slice(&self) -> &[T] {
        self
    }

    #[inline(always)]
    fn as_mut_slice(&mut self) -> &mut [T] {
        self
    }

    #[inline(always)]
    fn push(&mut self, value: T) {
        self.push_reserved(value);
    }
}

impl<T: Drop + Default, const N: usize> Blocks<T> for ArrayVec<T, N> {
    ghost items = { λ v. v.items };

    ghost room = { λ _. N };

    ghost block = { λ _. None };

    ghost with_items = { λ v xs. arrays.with_items v xs };

    ghost written = { λ v xs same. over_whole (length v.items) v.items xs refl same };

    ghost kept = { λ _ _. refl };

    ghost kept_in_place = { λ _ _. refl };

    #[inline(always)]
    fn as_slice(&self) -> &[T] {
        ArrayVec::as_slice(self)
    }

    #[inline(always)]
    fn as_mut_slice(&mut self) -> &mut [T] {
        ArrayVec::as_mut_slice(self)
    }

    #[inline(always)]
    fn push(&mut self, value: T) {
        ArrayVec::push(self, value);
    }
}
