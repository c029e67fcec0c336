//! Decides which entries are refused.
ghost use Rattle.std.specs.Prelude.{◌≡◌, ◌<◌, ◌≤◌, ◌↔◌, ◌⊎◌, [], ◌++◌, AllPairs, IfOk, IfSome};
ghost use Rattle.std.specs.Prelude.{None, IsSomeAnd, OnOk, ℕ, false, length, map, option_to_list};
ghost use Rattle.std.specs.Prelude.{slice_index_or, take};
ghost use Rattle.path_archive.specs.Entries.{all_uses};
ghost use Rattle.path_archive.specs.Marks.{Marked};
ghost use Rattle.path_archive.specs.Records.{IsSplit, OnEntries, entries_in};
ghost use Rattle.path_archive.specs.Refusals.{AreTwo, ClashesFor, Decides, ForbiddenFor, IsFirst};
ghost use Rattle.path_archive.specs.Refusals.{IsFrom, IsTrueOf, Settles, Stays, numbered_at};
ghost use Rattle.path_archive.specs.Refusals.{numbered_from};
ghost use Rattle.path_archive.specs.Rule.{AcceptedAt, Clash, IsAllowedAt, IsClosedAt};
ghost use Rattle.path_archive.specs.Slots.{use_at};

use crate::level::Level;
use crate::links::leads_out;
use crate::names::is_named;
use crate::order::sort_slots;
use crate::outlined::starts_with;
use crate::pass::mark_clashes;
use crate::records::{slots_needed, split};
use crate::refusal::{Reason, Refusal};
use crate::slot::{OTHER, SYMLINK, Slot, TARGET};
use std::alloc::{AllocError, Global};

// Returns true if the level forbids the use at a slot, as that of a symbolic link that leads out.
fn is_link_out(records: &[u8], slot: &Slot, level: Level) -> bool
    ensures { (result ≡ false) ↔ IsClosedAt level (use_at records.now slot.now) }
{
    if !level.asks_closed() {
        return false;
    }
    if slot.rank != SYMLINK {
        return false;
    }
    leads_out(slot.path(records), slot.target(records))
}

// Returns why the use at a slot isn't allowed, or `None` if it is.
fn forbidden(records: &[u8], slot: &Slot, level: Level) -> Option<Reason>
    ensures none { result ≡ None → IsAllowedAt level (use_at records.now slot.now) }
    ensures some { IfSome result (λ r. ForbiddenFor level (use_at records.now slot.now) r) }
{
    if slot.rank == OTHER {
        return Some(Reason::Kind);
    }
    if !is_named(slot.path(records), slot.rank) {
        return Some(Reason::Name);
    }
    if is_link_out(records, slot, level) {
        return Some(Reason::LeadsOut);
    }
    None
}

// Returns why the second use clashes with the first.
fn clash_reason(records: &[u8], first: &Slot, second: &Slot) -> Reason
    requires { Clash (use_at records.now first.now) (use_at records.now second.now) }
    ensures { ClashesFor (use_at records.now first.now) (use_at records.now second.now) result }
{
    if !starts_with(first.names(records), second.names(records)) {
        return Reason::BelowLeaf;
    }
    if second.rank == TARGET {
        Reason::TargetIsLink
    } else {
        Reason::LinkUsedTwice
    }
}

// Returns the refusal of the use at index `k` of these marked slots, or `None` if it is allowed and
// stays.
fn refusal_at(records: &[u8], slots: &[Slot], k: usize, level: Level) -> Option<Refusal>
    requires k_in { k < length slots.now }
    requires marked { Marked (map (use_at records.now) slots.now) (map (λ s. s.cause) slots.now) }
    requires two { AllPairs AreTwo (map (numbered_at records.now) slots.now) }
    ensures some { IfSome result (IsTrueOf level (map (numbered_at records.now) slots.now)) }
    ensures entry { IfSome result (λ r. (d : Slot) →
        r.entry ≡ (slice_index_or slots.now k d).entry) }
    ensures none { result ≡ None → (d : Slot)
        → Stays level records.now k (slice_index_or slots.now k d) }
{
    let slot = &slots[k];
    if let Some(reason) = forbidden(records, slot, level) {
        return Some(Refusal {
            entry: slot.entry,
            cause: slot.entry,
            reason,
        });
    }
    if slot.cause == k {
        return None;
    }
    let first = &slots[slot.cause];
    let reason = clash_reason(records, first, slot);
    Some(Refusal {
        entry: slot.entry,
        cause: first.entry,
        reason,
    })
}

// Appends a refusal, if there is one.
fn put(list: &mut Vec<Refusal>, refusal: Option<Refusal>) -> Result<(), AllocError>
    ensures { OnOk result (list.new.items ≡ list.old.items ++ option_to_list refusal) }
{
    if let Some(refusal) = refusal {
        list.push(refusal)?;
    }
    Ok(())
}

// Returns the refusals of the uses at marked slots.
fn collect(
    alloc: Global,
    records: &[u8],
    slots: &[Slot],
    level: Level,
) -> Result<Vec<Refusal>, AllocError>
    requires marked { Marked (map (use_at records.now) slots.now) (map (λ s. s.cause) slots.now) }
    requires two { AllPairs AreTwo (map (numbered_at records.now) slots.now) }
    ensures { IfOk result (λ list.
        Decides level (map (numbered_at records.now) slots.now) list.items) }
{
    let mut list = Vec::new(alloc);
    for k in 0..slots.len() {
        put(&mut list, refusal_at(records, slots, k, level))?;
    }
    Ok(list)
}

// Returns the refusal of the entry with the lower number.
#[inline]
fn earlier(first: Option<Refusal>, next: Option<Refusal>) -> Option<Refusal>
    ensures one { (result ≡ first) ⊎ (result ≡ next) }
    ensures first { (n : ℕ) → IsFrom first n → IsFrom result n }
    ensures next { (n : ℕ) → IsFrom next n → IsFrom result n }
{
    match (first, next) {
        (Some(old), Some(new)) if old.entry > new.entry => next,
        (None, _) => next,
        _ => first,
    }
}

// Returns the refusal of the first entry that is refused among the uses at marked slots.
fn first_refusal(records: &[u8], slots: &[Slot], level: Level) -> Option<Refusal>
    requires marked { Marked (map (use_at records.now) slots.now) (map (λ s. s.cause) slots.now) }
    requires two { AllPairs AreTwo (map (numbered_at records.now) slots.now) }
    ensures some { IfSome result (IsTrueOf level (map (numbered_at records.now) slots.now)) }
    ensures others { Settles level (IsFrom result) (map (numbered_at records.now) slots.now) }
{
    let mut first = None;
    for k in 0..slots.len() {
        first = earlier(first, refusal_at(records, slots, k, level));
    }
    first
}

// Returns the refusals of the entries whose uses are at these slots, which it sorts and marks.
fn refusals_of(
    alloc: Global,
    records: &[u8],
    slots: &mut [Slot],
    level: Level,
) -> Result<Vec<Refusal>, AllocError>
    requires { IsSplit records.now (length slots.old) slots.old }
    ensures refusals { IfOk result (λ list. OnEntries records.now (λ entries.
        Decides level (numbered_from 0 entries) list.items)) }
    ensures accepted { IfOk result (λ list. OnEntries records.now (λ entries.
        (list.items ≡ []) ↔ AcceptedAt level entries)) }
{
    sort_slots(records, slots);
    mark_clashes(records, slots);
    collect(alloc, records, slots, level)
}

// Returns the refusal of the first entry that is refused of those whose uses are at these slots,
// which it sorts and marks.
fn first_refusal_of(records: &[u8], slots: &mut [Slot], level: Level) -> Option<Refusal>
    requires { IsSplit records.now (length slots.old) slots.old }
    ensures some { IfSome result (λ r. OnEntries records.now (λ entries. IsFirst level entries r)) }
    ensures none { result ≡ None → OnEntries records.now (AcceptedAt level) }
{
    sort_slots(records, slots);
    mark_clashes(records, slots);
    first_refusal(records, slots, level)
}

/// Returns the refusals of the entries of an archive, in the order of their paths.
///
/// Each entry is a record: its kind, its path and a link's target, with a NUL after each of the
/// three. The kind is `d` for a directory, `f` for a file, `l` for a symbolic link and `h` for a
/// hard link; any other is refused. Returns `None` if the last record is cut off.
///
/// Without refusals, nothing that an extractor does for these entries, in any order, changes
/// anything outside of a new, empty directory. At the level `Inside` this is so unless the
/// extractor follows the last component of a symbolic link's own path. With refusals, the entries
/// that none of them names are accepted. An entry with two paths may be refused twice.
///
/// Allocates memory for each use of a path and for the refusals, and fails if an allocation fails.
///
/// For a symbolic link `x` to `/etc` and a file `x/passwd`, `b"l\0x\0/etc\0f\0x/passwd\0\0"`, it
/// is one refusal: entry 1 is below entry 0. At the level `Closed` entry 0 is refused, too.
pub fn refusals(
    alloc: Global,
    records: &[u8],
    level: Level,
) -> Result<Option<Vec<Refusal>>, AllocError>
    ensures cut_off { IfOk result (λ r. (r ≡ None) ↔ (entries_in records.now ≡ None)) }
    ensures refusals { IfOk result (λ r. IfSome r (λ list. OnEntries records.now (λ entries.
        Decides level (numbered_from 0 entries) list.items))) }
    ensures accepted { IfOk result (λ r. IfSome r (λ list. OnEntries records.now (λ entries.
        (list.items ≡ []) ↔ AcceptedAt level entries))) }
{
    let Some(count) = slots_needed(records) else {
        return Ok(None);
    };
    let mut slots = vec![in alloc; Slot::EMPTY; count]?;
    let Some(_) = split(records, &mut slots) else {
        return Ok(None);
    };
    Ok(Some(refusals_of(alloc, records, &mut slots, level)?))
}

/// What `check` finds of the entries of an archive.
///
/// For a file `/a` it is `Refused`, with the reason `Name`.
#[derive(Clone, Copy, Debug, PartialEq, Eq)]
pub enum Verdict {
    /// The entries are accepted.
    Accepted,
    /// The entry with the lowest number among those that `refusals` names. The entries before it
    /// are accepted.
    Refused(Refusal),
    /// The last record is cut off.
    CutOff,
    /// There are fewer slots than `slots_needed` returns.
    NoRoom,
}

/// Decides whether the entries of an archive are accepted, without an allocation.
///
/// It is `refusals` for callers that have memory of their own: it writes to the slots, of which
/// `slots_needed` says how many it needs. What is in them before does not matter, and they hold
/// nothing of use afterwards.
///
/// For a symbolic link `x` to `/etc` and a file `x/passwd`, `b"l\0x\0/etc\0f\0x/passwd\0\0"`, entry
/// 1 is refused: it is below entry 0. At the level `Closed` entry 0 is refused.
pub fn check(records: &[u8], slots: &mut [Slot], level: Level) -> Verdict
    ensures cut_off { (result ≡ Verdict.CutOff) ↔ (entries_in records.now ≡ None) }
    ensures no_room { (result ≡ Verdict.NoRoom) ↔ IsSomeAnd (entries_in records.now) (λ entries.
        length slots.old < length (all_uses entries)) }
    ensures accepted { (result ≡ Verdict.Accepted) ↔ IsSomeAnd (entries_in records.now)
        (λ entries. (length (all_uses entries) ≤ length slots.old) × AcceptedAt level entries) }
    ensures refused { (r : Refusal) → result ≡ Verdict.Refused r
        → IsSomeAnd (entries_in records.now) (λ entries. IsFirst level entries r) }
{
    let Some(count) = split(records, slots) else {
        return Verdict::CutOff;
    };
    if count > slots.len() {
        return Verdict::NoRoom;
    }
    match first_refusal_of(records, &mut slots[..count], level) {
        Some(refusal) => Verdict::Refused(refusal),
        None => Verdict::Accepted,
    }
}
