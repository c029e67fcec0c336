//! Reading a key back as a path.
ghost use Rattle.std.specs.Prelude.{◌≡◌, ◌↔◌, ℕ, List, [], length, IfOk, IsErrOf, IsOk, IsTrue};
ghost use Rattle.std.specs.Prelude.{is_some, None, Some};
ghost use Rattle.std.specs.Fmt.{padded};
ghost use Rattle.unix_path.specs.Buffers.{path_bytes};
ghost use Rattle.unix_path.specs.Parts.{values};
ghost use Rattle.path_runs.specs.Buffer.{buffer_after};
ghost use Rattle.path_runs.specs.Spelling.{spelling_of};
ghost use Rattle.path_keys.specs.Keys.{key_of, IsKey};

use crate::decode::{path_len, write_text};
use std::alloc::{AllocError, Global};
use std::error::Error;
use std::fmt;
use unix_bytes::bytes::UnixString;
use unix_path::PathBuf;

/// The error of reading bytes back as a path.
///
/// Its text is formatted like a `str` (width, precision, fill and alignment).
#[derive(Debug, Drop)]
pub enum KeyError {
    /// No path has these bytes as its key. It is printed as `not the key of a path`.
    NotAKey,
    /// An allocation failed. It is printed as `out of memory`.
    Memory(AllocError),
}

/// Writes the text of the variant, formatted like a `str` (width, precision, fill and alignment).
///
/// `KeyError::NotAKey` is printed as `not the key of a path`.
impl fmt::Display for KeyError {
    ghost use Rattle.path_keys.specs.Errors.{key_error_text};

    ghost output = { λ error. Some (key_error_text error) };

    ghost styled_output = { λ error spec. Some (padded spec (key_error_text error)) };

    fn fmt<W: fmt::Write>(&self, f: &mut fmt::Formatter<W>) -> fmt::Result {
        f.pad(match self {
            KeyError::NotAKey => "not the key of a path",
            KeyError::Memory(_) => "out of memory",
        })
    }
}

impl Error for KeyError {}

/// Returns `Memory` with the error of the allocation.
///
/// With it, `?` works on the result of `PathKey::from_path` in a function whose error is
/// `KeyError`.
impl From<AllocError> for KeyError {
    ghost use Rattle.path_keys.specs.declared.read.KeyError.TheVariants.{Memory};

    ghost from_gives = { λ error variant. variant ≡ Memory error };

    fn from(error: AllocError) -> KeyError {
        KeyError::Memory(error)
    }
}

// Returns the path of a key. The path has `len` bytes.
fn read_text(alloc: Global, key: &[u8], len: usize) -> Result<Vec<u8>, AllocError>
    requires { (s : List ℕ) × (key_of (values s) ≡ key.now)
        × (len ≡ length (spelling_of (values s))) }
    ensures read { (s : List ℕ) → key_of (values s) ≡ key.now
        → IfOk result (λ text. text.items ≡ spelling_of (values s)) }
    ensures succeeds { len ≡ 0 → IsOk result }
{
    let mut text = Vec::with_capacity(alloc, len)?;
    text.resize(len, 0)?;
    write_text(key, &mut text);
    Ok(text)
}

/// Returns true if these bytes are the key of some path.
///
/// 61 00 is a key. 61, 00 04 and 61 00 00 01 are not keys.
#[must_use]
pub fn is_key(key: &[u8]) -> bool
    ensures { IsTrue result ↔ IsKey key.now }
{
    path_len(key).is_some()
}

/// Returns the path of a key: the canonical form of the paths that have the key.
///
/// The error is `NotAKey` if and only if no path has these bytes as its key. Nothing has been
/// allocated then. The error is `Memory` if the allocation fails. Allocates once, the length of the
/// path, or not at all for the empty key.
///
/// For 00 02 61 00 62 00 it is `./a/b`. 61, 00 04 and 61 00 00 01 are not keys.
pub fn path_of(alloc: Global, key: &[u8]) -> Result<PathBuf, KeyError>
    ensures not_a_key { IsErrOf result KeyError.NotAKey ↔ (IsKey key.now → ⊥) }
    ensures values { IfOk result (λ p. key_of (values (path_bytes p)) ≡ key.now) }
    ensures read_back { (s : List ℕ) → key_of (values s) ≡ key.now
        → IfOk result (λ p. path_bytes p ≡ spelling_of (values s)) }
    ensures succeeds { key.now ≡ [] → IsOk result }
{
    let Some(len) = path_len(key) else {
        return Err(KeyError::NotAKey);
    };
    let text = read_text(alloc, key, len)?;
    Ok(PathBuf::from(UnixString::from(text)))
}

/// Writes the path of a key to the beginning of `out`, and returns its length; `None` if no path
/// has these bytes as its key.
///
/// The path is what `path_of` returns, the canonical form of the paths that have the key. The bytes
/// of `out` after it are unchanged. If `out` is too short for all of it, nothing is written, and
/// the length returned is greater than the length of `out`. If the bytes are not a key, nothing is
/// written either.
///
/// For 00 02 61 00 62 00 it is `./a/b`, of 5 bytes. For 61, 00 04 and 61 00 00 01 it is `None`.
pub fn write_path_of(key: &[u8], out: &mut [u8]) -> Option<usize>
    ensures is_key { IsTrue (is_some result) ↔ IsKey key.now }
    ensures none { result ≡ None → out.new ≡ out.old }
    ensures out { (s : List ℕ) → key_of (values s) ≡ key.now
        → out.new ≡ buffer_after (spelling_of (values s)) out.old }
    ensures length { (s : List ℕ) → key_of (values s) ≡ key.now
        → result ≡ Some (length (spelling_of (values s))) }
{
    let Some(len) = path_len(key) else {
        return None;
    };
    if len > out.len() {
        return Some(len);
    }
    write_text(key, &mut out[..len]);
    Some(len)
}
