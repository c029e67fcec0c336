//! Keys of paths for ordered stores, written to the caller's buffers.
ghost use Rattle.std.specs.Prelude.{◌≡◌, ◌↔◌, ◌⊎◌, ◌<◌, ◌≤◌, ◌+◌, ◌*◌, ℕ, List, [], length};
ghost use Rattle.unix_path.specs.Parts.{values};
ghost use Rattle.path_runs.specs.Buffer.{buffer_after};
ghost use Rattle.path_runs.specs.Spelling.{spelling_of};
ghost use Rattle.path_keys.specs.Keys.{key_of, IsKey};
ghost use Rattle.path_keys.specs.Ranges.{IsRangeEnd};
ghost use Rattle.unix_path_c.specs.ErrorCodes.{IsLength};

use crate::error_codes::{NO_END, NOT_A_KEY, TOO_LONG};
use crate::output::len_or_too_long;
use path_keys::{is_key, write_key, write_path_of};
use unix_bytes::internal::write_at;
use unix_path::Path;

/// Writes the key of a path to `out` if it fits, and returns the key's length.
///
/// A store that compares keys byte by byte sorts them in the order of their paths. Two keys are
/// identical if and only if their paths are equal. The root is 00 01, a leading `.` is 00 02, and
/// each `..` is 00 03. A name is its bytes, of which each byte less than 2F is raised by one, and
/// then 00. The key has at most `path.len() + 2` bytes.
///
/// The key of `/a` is 00 01 61 00, of 4 bytes. The key of the empty path is empty.
#[tactic(auto, using(crate::proofs::lemmas::buffers::BoundLemmas::bounds))]
#[unsafe(no_mangle)]
pub extern "C" fn unix_path_key(path: &[u8], out: &mut [u8]) -> usize
    ensures out { out.new ≡ buffer_after (key_of (values path.now)) out.old }
    ensures length { result ≡ length (key_of (values path.now)) }
    ensures len_bound { result ≤ length path.now + 2 }
{
    write_key(Path { bytes: path }, out)
}

/// Writes the path of a key to `out` if it fits, and returns the path's length.
///
/// The length is at most `3 * key.len() / 2`. The path is the canonical form of the paths that have
/// the key.
///
/// Returns `UNIX_PATH_NOT_A_KEY` if and only if the bytes are the key of no path. Returns
/// `UNIX_PATH_TOO_LONG` if the path has more than `PTRDIFF_MAX` bytes, which no buffer has.
///
/// The path of 00 02 61 00 62 00 is `./a/b`, of 5 bytes. 61, 00 04 and 61 00 00 01 are not keys.
#[unsafe(no_mangle)]
pub extern "C" fn unix_path_from_key(key: &[u8], out: &mut [u8]) -> usize
    ensures answers { IsLength result ⊎ ((result ≡ NOT_A_KEY) ⊎ (result ≡ TOO_LONG)) }
    ensures not_a_key { (result ≡ NOT_A_KEY) ↔ (IsKey key.now → ⊥) }
    ensures too_long { (s : List ℕ) → key_of (values s) ≡ key.now
        → result ≡ TOO_LONG → TOO_LONG ≤ length (spelling_of (values s)) }
    ensures length { (s : List ℕ) → key_of (values s) ≡ key.now
        → IsLength result → result ≡ length (spelling_of (values s)) }
    ensures out { (s : List ℕ) → key_of (values s) ≡ key.now
        → out.new ≡ buffer_after (spelling_of (values s)) out.old }
    ensures len_bound { IsLength result → 2 * result ≤ 3 * length key.now }
    ensures not_a_key_unchanged { result ≡ NOT_A_KEY → out.new ≡ out.old }
{
    match write_path_of(key, out) {
        Some(len) => len_or_too_long(len),
        None => NOT_A_KEY,
    }
}

// Writes the end of a key's range to the beginning of the buffer if it fits, and returns its
// length.
fn write_end(out: &mut [u8], key: &[u8]) -> usize
    requires non_empty { 0 < length key.now }
    requires is_key { IsKey key.now }
    ensures end { (end : List ℕ) × IsRangeEnd key.now (Some end) × (length end ≡ result)
        × (out.new ≡ buffer_after end out.old) }
    ensures length { result ≡ length key.now }
    ensures fits { IsLength result }
{
    let last = key.len() - 1;
    if last < out.len() {
        write_at(out, 0, key);
        // The last byte of a key is less than 4.
        out[last] = key[last] + 1;
    }
    key.len()
}

/// Writes the end of a key's range to `out` if it fits, and returns the end's length, which is also
/// the key's length.
///
/// The range contains the byte strings that are at least this key and less than the end. These are
/// all byte strings that begin with this key. The keys among them are the keys of all paths that
/// start with this key's path. The end is the key with its last byte raised by one. The call is
/// like `path_keys`'s `PathKey::range_under`.
///
/// Returns `UNIX_PATH_NO_END` if and only if the key is empty. The empty key is the key of the
/// empty path; its range contains every byte string and has no end. Returns `UNIX_PATH_NOT_A_KEY`
/// if and only if the bytes are the key of no path.
///
/// For the key of `a`, 61 00, the end is 61 01, of 2 bytes.
#[unsafe(no_mangle)]
pub extern "C" fn unix_path_key_range_end(key: &[u8], out: &mut [u8]) -> usize
    ensures answers { IsLength result ⊎ ((result ≡ NO_END) ⊎ (result ≡ NOT_A_KEY)) }
    ensures no_end { (result ≡ NO_END) ↔ (key.now ≡ []) }
    ensures not_a_key { (result ≡ NOT_A_KEY) ↔ (IsKey key.now → ⊥) }
    ensures end { IsLength result → (end : List ℕ) × IsRangeEnd key.now (Some end)
        × (length end ≡ result) × (out.new ≡ buffer_after end out.old) }
    ensures length { IsLength result → result ≡ length key.now }
    ensures no_end_unchanged { result ≡ NO_END → out.new ≡ out.old }
    ensures not_a_key_unchanged { result ≡ NOT_A_KEY → out.new ≡ out.old }
{
    if key.is_empty() {
        return NO_END;
    }
    if !is_key(key) {
        return NOT_A_KEY;
    }
    write_end(out, key)
}
