//! The runs of a key. A key is a lead, which is a root, a leading `.` or nothing, and then runs.
//! Each `..` is a run, and so are names up to the next `..` or the end of the key.
ghost use Rattle.std.specs.Prelude.{◌≡◌, ◌<◌, ◌≤◌, ◌^◌, ℕ, List, [], ◌++◌, length, None, IfSome};
ghost use Rattle.unix_path.specs.CommonDir.{inner_values};
ghost use Rattle.unix_path.specs.Parts.{values, ParentDir};
ghost use Rattle.unix_path.specs.Prefixes.{IsPrefixOf};
ghost use Rattle.path_runs.specs.Spelling.{slash_each};
ghost use Rattle.path_keys.specs.Keys.{code, key_of, IsKey};
ghost use Rattle.path_keys.specs.Runs.{lead_text, run_code, run_text, TakesRun};

use crate::codes::{CUR_DIR_MARK, PARENT_DIR_MARK, ROOT_MARK};
use unix_path::internal::{name_run_end, no_name_starts_at};

// The root or the `.` with which a path begins, if it begins with one.
#[derive(Clone, Copy)]
pub(crate) enum Lead {
    Absent,
    Root,
    Dot,
}

impl Lead {
    // Returns the number of bytes before the next component in a path: 0, 1 for `/`, 2 for `./`.
    #[inline(always)]
    pub(crate) fn len_in_path(self) -> usize
        ensures { result ≡ length (lead_text self) }
    {
        match self {
            Lead::Absent => 0,
            Lead::Root => 1,
            Lead::Dot => 2,
        }
    }
}

// A key's lead, and the rest of the key after it.
#[derive(Clone, Copy)]
pub(crate) struct Started<'a> {
    pub(crate) lead: Lead,
    pub(crate) rest: &'a [u8],
}

// Splits a key into its lead and the rest after it.
#[inline(always)]
pub(crate) fn past_lead(key: &[u8]) -> Started<'_>
    ensures lead { key.now ≡ key_of (values (lead_text result.lead)) ++ result.rest.now }
    ensures inner { IsKey key.now
        → (t : List ℕ) × (key_of (inner_values t) ≡ result.rest.now) }
{
    let absent = Started {
        lead: Lead::Absent,
        rest: key,
    };
    if key.len() < 2 {
        return absent;
    }
    if key[0] != 0 {
        return absent;
    }
    if key[1] == ROOT_MARK {
        return Started {
            lead: Lead::Root,
            rest: &key[2..],
        };
    }
    if key[1] == CUR_DIR_MARK {
        return Started {
            lead: Lead::Dot,
            rest: &key[2..],
        };
    }
    absent
}

// A run of a key after its lead.
#[derive(Clone, Copy)]
pub(crate) enum Run<'a> {
    // A `..`.
    ParentDir,
    // The bytes of names in the key, without the last end mark.
    Names(&'a [u8]),
}

impl<'a> Run<'a> {
    // Returns the length of this run in the key.
    #[inline(always)]
    pub(crate) fn len(self) -> usize
        requires { length (run_code self) < 2 ^ 64 }
        ensures { result ≡ length (run_code self.entry) }
    {
        match self {
            Run::ParentDir => 2,
            Run::Names(names) => names.len() + 1,
        }
    }

    // Returns the length of this run in a path with components after it, including its last slash.
    #[inline(always)]
    pub(crate) fn text_len(self) -> usize
        requires { length (run_text self) < 2 ^ 64 }
        ensures { result ≡ length (run_text self.entry) }
    {
        match self {
            Run::ParentDir => 3,
            Run::Names(names) => names.len() + 1,
        }
    }
}

// Does the same as `run_in`, for bytes at the end of a key. Their components, with a slash for
// each, have at most `max_len` bytes in a path. If `bytes` has that many bytes too, all components
// are names, since a `..` has more bytes in a path than in a key. Then `bytes` needn't be searched.
// Most keys consist of a lead and names, so this holds at their first run.
#[inline(always)]
pub(crate) fn next_run(bytes: &[u8], max_len: usize) -> Option<Run<'_>>
    requires { (t : List ℕ) × (key_of (inner_values t) ≡ bytes.now)
        × (length (slash_each (inner_values t)) ≤ max_len) }
    ensures some { IfSome result (λ run. TakesRun bytes.now run) }
    ensures none { result ≡ None → (t : List ℕ) → key_of (inner_values t) ≡ bytes.now
        → bytes.now ≡ [] }
{
    if bytes.len() == max_len && max_len > 0 {
        return Some(Run::Names(&bytes[..max_len - 1]));
    }
    run_in(bytes)
}

// Returns the run with which these bytes begin. Returns `None` only if the bytes are not the key of
// one or more components that may follow others.
#[inline(always)]
pub(crate) fn run_in(bytes: &[u8]) -> Option<Run<'_>>
    ensures some { IfSome result (λ run. TakesRun bytes.now run) }
    ensures none { result ≡ None → (t : List ℕ) → key_of (inner_values t) ≡ bytes.now
        → bytes.now ≡ [] }
{
    if bytes.starts_with(&[0, PARENT_DIR_MARK]) {
        return Some(Run::ParentDir);
    }
    names_in(bytes)
}

// Returns the names at the beginning of these bytes, up to the next code that isn't a name's, or
// the end. Returns `None` if the bytes don't begin with a name, or if the last name has no end
// mark, so that the bytes are not a key.
#[inline(always)]
fn names_in(bytes: &[u8]) -> Option<Run<'_>>
    requires { IsPrefixOf (code ParentDir) bytes.now → ⊥ }
    ensures some { IfSome result (λ run. TakesRun bytes.now run) }
    ensures none { result ≡ None → (t : List ℕ) → key_of (inner_values t) ≡ bytes.now
        → bytes.now ≡ [] }
{
    // A slash is a raised dot.
    if no_name_starts_at(bytes, 0, 0, b'/') {
        return None;
    }
    let end = name_run_end(bytes, 0, b'/');
    if end == bytes.len() {
        return None;
    }
    Some(Run::Names(&bytes[..end]))
}
