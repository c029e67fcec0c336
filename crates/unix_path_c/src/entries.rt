//! The decision whether the entries of an archive can be extracted without writing outside.
ghost use Rattle.std.specs.Prelude.{◌≡◌, ◌≢◌, ◌↔◌, ◌≤◌, ◌<◌, IsSomeAnd, None, length};
ghost use Rattle.path_archive.specs.Entries.{all_uses};
ghost use Rattle.path_archive.specs.Records.{OnEntries, entries_in};
ghost use Rattle.path_archive.specs.Refusals.{IsFirst};
ghost use Rattle.path_archive.specs.Rule.{AcceptedAt};
ghost use Rattle.path_archive.specs.declared.refusal.Refusal.{Refusal as Found};
ghost use Rattle.unix_path_c.specs.Entries.{level_of, number_of, record_of};

use path_archive::{Level, Reason, Slot, Verdict, check, slots_needed};

// The levels of `unix_path_check_entries`. Any other number is `CLOSED`, too.
const INSIDE: u32 = 0;

const CLOSED: u32 = 1;

// The results of `unix_path_check_entries`.
const ENTRIES_ACCEPTED: u32 = 0;

const ENTRIES_REFUSED: u32 = 1;

const ENTRIES_CUT_OFF: u32 = 2;

const ENTRIES_NO_ROOM: u32 = 3;

/// An entry of an archive that is refused, and why.
///
/// For a symbolic link `x` and a file `x/new`, its `entry` is 1, its `cause` 0, and its `reason` 2.
#[derive(Clone, Copy)]
#[repr(C)]
pub struct Refusal {
    /// The number of the entry; the first entry's is 0.
    pub entry: usize,
    /// The number of the entry that it clashes with, or its own number.
    pub cause: usize,
    /// Why it is refused: 0 for its name, 1 for its kind, 2 if it is below a file or link, 3 if a
    /// link's path is used twice, 4 for a hard link to a link, 5 for a link that leads out.
    pub reason: u32,
}

// Returns the level of a number.
fn level_of(level: u32) -> Level
    ensures { result ≡ level_of level }
{
    match level {
        INSIDE => Level::Inside,
        CLOSED.. => Level::Closed,
    }
}

// Returns the number of a reason.
fn number_of(reason: Reason) -> u32
    ensures { result ≡ number_of reason }
{
    match reason {
        Reason::Name => 0,
        Reason::Kind => 1,
        Reason::BelowLeaf => 2,
        Reason::LinkUsedTwice => 3,
        Reason::TargetIsLink => 4,
        Reason::LeadsOut => 5,
    }
}

/// Returns how many slots `unix_path_check_entries` needs for these records: one for each entry,
/// and one more for each hard link. Returns 0 if the last record is cut off.
///
/// For a file and a hard link, `f\0a\0\0h\0b\0a\0`, it is 3.
#[unsafe(no_mangle)]
pub extern "C" fn unix_path_entries_scratch(records: &[u8]) -> usize
    ensures count { OnEntries records.now (λ entries. result ≡ length (all_uses entries)) }
    ensures cut_off { entries_in records.now ≡ None → result ≡ 0 }
{
    slots_needed(records).unwrap_or(0)
}

/// Decides whether the entries of an archive are accepted: whether no extractor can write outside
/// of a new, empty directory, in whatever order it takes them.
///
/// Each entry is a record: its kind, its path and a link's target, with a NUL after each of the
/// three. The kind is `d` for a directory, `f` for a file, `l` for a symbolic link and `h` for a
/// hard link; any other is refused. The crate `path_archive` states the rule.
///
/// At level 0, what is accepted is safe for extractors that do not follow a symbolic link when they
/// work on its own path. At any other level no symbolic link leads out, either.
///
/// Returns 0 if the entries are accepted, 1 if one is refused, 2 if the last record is cut off, and
/// 3 if there are fewer slots than `unix_path_entries_scratch` returns. Writes the refusal of the
/// entry with the lowest number only if it returns 1; the entries before it are accepted.
///
/// For `l\0x\0/etc\0f\0x/passwd\0\0`, a symbolic link `x` and a file below it, it is 1.
#[unsafe(no_mangle)]
pub extern "C" fn unix_path_check_entries(
    records: &[u8],
    slots: &mut [Slot],
    level: u32,
    refusal: &mut Refusal,
) -> u32
    ensures answers { result ≤ ENTRIES_NO_ROOM }
    ensures cut_off { (result ≡ ENTRIES_CUT_OFF) ↔ (entries_in records.now ≡ None) }
    ensures no_room { (result ≡ ENTRIES_NO_ROOM) ↔ IsSomeAnd (entries_in records.now) (λ entries.
        length slots.old < length (all_uses entries)) }
    ensures accepted { (result ≡ ENTRIES_ACCEPTED) ↔ IsSomeAnd (entries_in records.now)
        (λ entries. (length (all_uses entries) ≤ length slots.old)
        × AcceptedAt (level_of level) entries) }
    ensures refused { result ≡ ENTRIES_REFUSED → (r : Found) × ((refusal.new ≡ record_of r)
        × IsSomeAnd (entries_in records.now) (λ entries. IsFirst (level_of level) entries r)) }
    ensures unchanged { result ≢ ENTRIES_REFUSED → refusal.new ≡ refusal.old }
{
    match check(records, slots, level_of(level)) {
        Verdict::Accepted => ENTRIES_ACCEPTED,
        Verdict::Refused(found) => {
            *refusal = Refusal {
                entry: found.entry,
                cause: found.cause,
                reason: number_of(found.reason),
            };
            ENTRIES_REFUSED
        }
        Verdict::CutOff => ENTRIES_CUT_OFF,
        Verdict::NoRoom => ENTRIES_NO_ROOM,
    }
}
