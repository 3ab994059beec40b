//! Cells that have an entry each, with four hints, and the slots of an index of them.

ghost use Rattle.std.specs.Prelude.{◌≡◌, ◌≤◌, ◌<◌, length, slice_index_or};
ghost use Rattle.std.specs.List.{insert, remove};
ghost use Rattle.rtcp_members.specs.storage.Heaps.{exchanged, no_slot};

use crate::entry::Entry;
use crate::hints::HINTS;

/// Where the entry of a source lies.
#[derive(Clone, Copy)]
pub struct Slot {
    pub(crate) ssrc: u32,
    pub(crate) place: u32,
}

impl Slot {
    /// That of no entry.
    pub(crate) fn none() -> Slot
        ensures { result ≡ no_slot }
    {
        Slot { ssrc: 0, place: 0 }
    }
}

impl Default for Slot {
    fn default() -> Slot {
        Slot::none()
    }
}

/// Room for an entry, and for four hints. The hints of all cells are one table.
#[derive(Drop)]
pub struct Cell {
    pub(crate) entry: Entry,
    pub(crate) hints: [u16; HINTS],
}

impl Cell {
    /// A cell with an entry.
    pub(crate) fn of(entry: Entry) -> Cell
        ensures { result.entry ≡ entry }
    {
        Cell {
            entry,
            hints: [0; HINTS],
        }
    }
}

impl Default for Cell {
    fn default() -> Cell {
        Cell::of(Entry::new(0))
    }
}

/// The slot of a rank.
#[inline(always)]
pub(crate) fn slot_at(slots: &[Slot], rank: usize) -> Slot
    requires { rank < length slots.now }
    ensures { result ≡ slice_index_or slots.now rank no_slot }
{
    slots[rank]
}

/// Exchanges the slots of two ranks.
// The part that writes is apart: a walk in which all stay where they are has its registers to itself.
#[inline(always)]
pub(crate) fn exchange(slots: &mut [Slot], one: usize, other: usize)
    requires one { one < length slots.old }
    requires other { other < length slots.old }
    ensures { slots.new ≡ exchanged slots.old one other }
{
    if one != other {
        write_exchanged(slots, one, other);
    }
}

/// Writes the slot of each of two ranks at the other.
#[inline(never)]
fn write_exchanged(slots: &mut [Slot], one: usize, other: usize)
    requires one { one < length slots.old }
    requires other { other < length slots.old }
    ensures { slots.new ≡ exchanged slots.old one other }
{
    let (first, second) = (slot_at(slots, one), slot_at(slots, other));
    slots[one] = second;
    slots[other] = first;
}

/// Puts a slot at a rank, and moves those from there on by one rank, up to the slot of the rank `end`, which is lost.
pub(crate) fn shift(slots: &mut [Slot], rank: usize, end: usize, slot: Slot)
    requires rank { rank ≤ end }
    requires end { end < length slots.old }
    ensures { slots.new ≡ insert (remove slots.old end) rank slot }
{
    slots[end] = slot;
    slots[rank..end + 1].rotate_right(1);
}
