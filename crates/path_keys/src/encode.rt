//! Writing the key of a path: the codes of its components, one after the other.
ghost use Rattle.std.specs.Prelude.{◌≡◌, ◌+◌, ◌≤◌, ◌<◌, ◌^◌, ◌∷◌, ◌++◌, [], false, length};
ghost use Rattle.std.specs.Prelude.{ℕ, List, drop, vec_capacity, vec_len, MatchOption};
ghost use Rattle.unix_path.specs.CommonDir.{inner_values};
ghost use Rattle.unix_path.specs.Parts.{values};
ghost use Rattle.unix_path.specs.Scan.{is_filler};
ghost use Rattle.path_runs.specs.Buffer.{buffer_after};
ghost use Rattle.path_runs.specs.Overlay.{overlay};
ghost use Rattle.path_keys.specs.Keys.{key_of};
ghost use Rattle.path_keys.specs.PathRuns.{run_key};

use crate::codes::{CUR_DIR_MARK, PARENT_DIR_MARK, ROOT_MARK};
use crate::recode::names_to_key;
use unix_path::Path;
use unix_path::internal::{after_filler, is_filler, name_run_end, starts_with_parent_dir};

/// Returns the length of a path's key, which is at most the length of the path plus 2.
///
/// For `/a` it is 4, and for the empty path 0.
#[must_use]
pub fn key_len(path: Path<'_>) -> usize
    ensures { result ≡ length (key_of (values path.entry.bytes.now)) }
{
    key_len_of(path.as_unix_str().as_bytes())
}

/// Writes the key of a path to the beginning of `out`, and returns its length.
///
/// The key is what `PathKey::from_path` creates. The bytes of `out` after the key are unchanged. If
/// `out` is too short for the whole key, nothing is written, and the length returned is greater
/// than the length of `out`. The length of the path plus 2 is always enough.
///
/// For `/a` the key is 00 01 61 00, of 4 bytes.
pub fn write_key(path: Path<'_>, out: &mut [u8]) -> usize
    ensures out { out.new ≡ buffer_after (key_of (values path.entry.bytes.now)) out.old }
    ensures length { result ≡ length (key_of (values path.entry.bytes.now)) }
{
    let needed = sufficient_len(path, out.len());
    if needed > out.len() {
        return needed;
    }
    write_key_unchecked(path.as_unix_str().as_bytes(), out)
}

// Returns a length that is enough for the key of a path: the length of the path plus 2 if that is
// at most `available`, since the key then needn't be counted, and otherwise the length of the key.
#[inline]
pub(crate) fn sufficient_len(path: Path<'_>, available: usize) -> usize
    ensures enough { length (key_of (values path.entry.bytes.now)) ≤ result }
    ensures fits { length (key_of (values path.entry.bytes.now)) ≤ available → result ≤ available }
    ensures exact { available < result → result ≡ length (key_of (values path.entry.bytes.now)) }
{
    let most = path.as_unix_str().len() + 2;
    if most <= available {
        return most;
    }
    key_len(path)
}

// Writes the key of a path over the bytes of the vector, which must be long enough, and truncates
// the vector to the key.
#[inline]
pub(crate) fn overwrite_and_truncate(key: &mut Vec<u8>, path: &[u8])
    requires { length (key_of (values path.now)) ≤ vec_len key.old }
    ensures bytes { key.new.items ≡ key_of (values path.now) }
    ensures capacity { vec_capacity key.new ≡ vec_capacity key.old }
{
    let len = write_key_unchecked(path, key);
    key.truncate(len);
}

// Returns the length of the key of a path.
fn key_len_of(path: &[u8]) -> usize
    requires { length (key_of (values path.now)) < 2 ^ 64 }
    ensures { result ≡ length (key_of (values path.now)) }
{
    let mut len = if lead_mark(path).is_some() { 2 } else { 0 };
    let mut rest = after_filler(path);
    while !rest.is_empty() {
        let end = run_len(rest);
        len += run_key_len(rest, end);
        rest = after_filler(&rest[end..]);
    }
    len
}

// Writes the key of a path to the beginning of `out`, which must be long enough.
// Returns the length of the key.
fn write_key_unchecked(path: &[u8], out: &mut [u8]) -> usize
    requires { length (key_of (values path.now)) ≤ length out.old }
    ensures out { out.new ≡ buffer_after (key_of (values path.now)) out.old }
    ensures len { result ≡ length (key_of (values path.now)) }
{
    let mut at = write_lead(path, out);
    let mut rest = after_filler(path);
    while !rest.is_empty() {
        let end = run_len(rest);
        at += write_run(out, at, rest, end);
        rest = after_filler(&rest[end..]);
    }
    at
}

// If a path begins with a root or a `.`, writes its code to the beginning of `out`. Returns the
// number of bytes written: 2, or 0 if the path begins with neither.
#[inline]
fn write_lead(path: &[u8], out: &mut [u8]) -> usize
    requires { length (key_of (values path.now)) ≤ length out.old }
    ensures { (lead : List ℕ) × (key_of (values path.now) ≡ lead ++ key_of (inner_values path.now))
        × (result ≡ length lead) × (out.new ≡ overlay 0 lead out.old) }
{
    let Some(mark) = lead_mark(path) else {
        return 0;
    };
    write_marked_code(out, 0, mark);
    2
}

// Returns the mark of the root or the `.` with which a path begins; `None` if it begins with
// neither.
#[inline]
fn lead_mark(path: &[u8]) -> Option<u8>
    ensures { MatchOption result (key_of (values path.now) ≡ key_of (inner_values path.now))
        (λ mark. key_of (values path.now) ≡ (0 ∷ mark ∷ []) ++ key_of (inner_values path.now)) }
{
    if path.is_empty() {
        return None;
    }
    if !is_filler(path, 0) {
        return None;
    }
    if path[0] == b'/' {
        return Some(ROOT_MARK);
    }
    Some(CUR_DIR_MARK)
}

// Returns the length of the run with which the bytes of a path begin: of a `..`, or of names
// separated by single slashes.
#[inline]
fn run_len(bytes: &[u8]) -> usize
    requires some { 0 < length bytes.now }
    requires not_filler { is_filler bytes.now 0 ≡ false }
    ensures some { 0 < result }
    ensures in_range { result ≤ length bytes.now }
    ensures key { key_of (inner_values bytes.now)
        ≡ run_key bytes.now result ++ key_of (inner_values (drop result bytes.now)) }
{
    if starts_with_parent_dir(bytes) {
        return 2;
    }
    name_run_end(bytes, b'/', b'.')
}

// Returns the length in a key of the run with which the bytes of a path begin. The run has `len`
// bytes in the path.
#[inline]
fn run_key_len(bytes: &[u8], len: usize) -> usize
    requires some { 0 < length bytes.now }
    requires in_range { len ≤ length bytes.now }
    ensures { result ≡ length (run_key bytes.now len) }
{
    if starts_with_parent_dir(bytes) {
        return 2;
    }
    len + 1
}

// Overwrites the bytes of `out` from `at` on with the bytes in a key of the run with which `bytes`
// begins. The run has `len` bytes in the path. Returns the number of bytes written.
#[inline(always)]
fn write_run(out: &mut [u8], at: usize, bytes: &[u8], len: usize) -> usize
    requires some { 0 < length bytes.now }
    requires in_range { len ≤ length bytes.now }
    requires fits { at + length (run_key bytes.now len) ≤ length out.old }
    ensures out { out.new ≡ overlay at (run_key bytes.now len) out.old }
    ensures len { result ≡ length (run_key bytes.now len) }
{
    if starts_with_parent_dir(bytes) {
        write_marked_code(out, at, PARENT_DIR_MARK);
        return 2;
    }
    names_to_key(out, at, &bytes[..len]);
    write_end_mark(out, at + len);
    len + 1
}

// Overwrites the two bytes of `out` from `at` on with the code that is 0 and `mark`.
#[inline]
fn write_marked_code(out: &mut [u8], at: usize, mark: u8)
    requires { at + 2 ≤ length out.old }
    ensures { out.new ≡ overlay at (0 ∷ mark ∷ []) out.old }
{
    out[at..at + 2].copy_from_slice(&[0, mark]);
}

// Overwrites the byte of `out` at `at` with 0, the end mark of a name.
#[inline(always)]
fn write_end_mark(out: &mut [u8], at: usize)
    requires { at < length out.old }
    ensures { out.new ≡ overlay at (0 ∷ []) out.old }
{
    out[at] = 0;
}
