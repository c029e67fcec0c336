//! One pass over sorted slots, which marks each one that clashes with an earlier one.
ghost use Rattle.std.specs.Prelude.{Some, ◌≡◌, ◌≢◌, ◌↔◌, ◌<◌, true, false, MatchOption};
ghost use Rattle.std.specs.Prelude.{length, map};
ghost use Rattle.std.specs.List.Sorted.{IsSortedBy};
ghost use Rattle.path_archive.specs.Entries.{components};
ghost use Rattle.path_archive.specs.Marks.{Marked, Step, unmarked};
ghost use Rattle.path_archive.specs.Rule.{Clash, is_directory, kinds_clash};
ghost use Rattle.path_archive.specs.Slots.{path_at, slot_lt, use_at, used_as_of};
ghost use Rattle.path_archive.specs.declared.pass.Meeting.TheVariants.{Clashing, OnePath, Apart};

use crate::outlined::starts_with;
use crate::slot::{HARD_LINK, SYMLINK, Slot, TARGET, is_directory};

// How a use relates to an earlier one.
#[derive(Clone, Copy)]
enum Meeting {
    // It clashes with the earlier one.
    Clashing,
    // It is of the same path, and doesn't clash.
    OnePath,
    // It is of another path, and doesn't clash.
    Apart,
}

// Returns true if two ways to use one path clash.
#[inline]
fn ranks_clash(first: usize, second: usize) -> bool
    ensures { result ≡ kinds_clash (used_as_of first) (used_as_of second) }
{
    first == SYMLINK || first == HARD_LINK && second == TARGET
}

// Returns how two uses of one path relate.
#[inline]
fn relate_ranks(first: usize, second: usize) -> Meeting
    ensures clashing { (result ≡ Clashing)
        ↔ (kinds_clash (used_as_of first) (used_as_of second) ≡ true) }
    ensures apart { result ≢ Apart }
{
    if ranks_clash(first, second) {
        Meeting::Clashing
    } else {
        Meeting::OnePath
    }
}

// Returns how a use relates to an earlier one in the order of slots.
fn relate(records: &[u8], first: &Slot, second: &Slot) -> Meeting
    ensures clashing { (result ≡ Clashing)
        ↔ Clash (use_at records.now first.now) (use_at records.now second.now) }
    ensures one_path { result ≡ OnePath
        → components (path_at records.now first.now) ≡ components (path_at records.now second.now) }
    ensures apart { result ≡ Apart → components (path_at records.now first.now)
        ≡ components (path_at records.now second.now) → ⊥ }
{
    let (upper, lower) = (first.names(records), second.names(records));
    if !starts_with(lower, upper) {
        return Meeting::Apart;
    }
    if starts_with(upper, lower) {
        return relate_ranks(first.rank, second.rank);
    }
    if is_directory(first.rank) {
        Meeting::Apart
    } else {
        Meeting::Clashing
    }
}

// Returns the leaf after a use that stays and is of another path than the leaf.
#[inline]
fn next_leaf(slot: &Slot, leaf: Option<usize>, i: usize) -> Option<usize>
    ensures directory { is_directory (used_as_of slot.now.rank) ≡ true → result ≡ leaf }
    ensures leaf { is_directory (used_as_of slot.now.rank) ≡ false → result ≡ Some i }
{
    if is_directory(slot.rank) {
        leaf
    } else {
        Some(i)
    }
}

// Returns the cause of the use at index `i`, and the leaf for the next use.
fn step(records: &[u8], slots: &[Slot], leaf: Option<usize>, i: usize) -> (usize, Option<usize>)
    requires i_in { i < length slots.now }
    requires leaf_in { MatchOption leaf (Unit {0}) (λ v. v < length slots.now) }
    ensures { Step (map (use_at records.now) slots.now) leaf i result.0 result.1 }
{
    let slot = &slots[i];
    let Some(v) = leaf else {
        return (i, next_leaf(slot, leaf, i));
    };
    match relate(records, &slots[v], slot) {
        Meeting::Clashing => (v, leaf),
        Meeting::OnePath => (i, leaf),
        Meeting::Apart => (i, next_leaf(slot, leaf, i)),
    }
}

// Marks each of these sorted slots with its cause: the index of an earlier slot whose use clashes
// with this one's, or its own index. The uses that keep their own index do not clash.
pub(crate) fn mark_clashes(records: &[u8], slots: &mut [Slot])
    requires { IsSortedBy (slot_lt records.now) slots.old }
    ensures same { map unmarked slots.new ≡ map unmarked slots.old }
    ensures marked { Marked (map (use_at records.now) slots.new) (map (λ s. s.cause) slots.new) }
{
    let mut leaf = None;
    for i in 0..slots.len() {
        let (cause, next) = step(records, slots, leaf, i);
        slots[i].cause = cause;
        leaf = next;
    }
}
