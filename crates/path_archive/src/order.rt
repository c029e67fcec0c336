//! The order in which clashing uses lie together: by path, then by rank.
ghost use Rattle.std.specs.Prelude.{◌≡◌, length};
ghost use Rattle.std.specs.List.Sorted.{IsPermutation, IsSortedBy};
ghost use Rattle.path_archive.specs.Slots.{slot_cmp, slot_lt};

use crate::slot::Slot;
use std::cmp::Ordering;

// Compares two slots by path, then by rank, then by entry.
fn slot_order(records: &[u8], a: &Slot, b: &Slot) -> Ordering
    ensures { result ≡ slot_cmp records.now a.now b.now }
{
    let paths = a.names(records).cmp(&b.names(records));
    paths.then(a.rank.cmp(&b.rank)).then(a.entry.cmp(&b.entry))
}

// Sorts slots by path, then by rank, then by entry, in place.
pub(crate) fn sort_slots(records: &[u8], slots: &mut [Slot])
    ensures permutation { IsPermutation slots.old slots.new }
    ensures sorted { IsSortedBy (slot_lt records.now) slots.new }
{
    slots.sort_unstable_by(|a, b| slot_order(records, a, b));
}
