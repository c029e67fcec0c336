//! The end of a path: a `..`, a name, or a slash.
//!
//! This module is for code that works on the single bytes of a path. Other code uses `Path` and
//! `Components`.
ghost use Rattle.std.specs.Prelude.{◌≡◌, ◌<◌, ◌↔◌, length, Some, IsTrue};
ghost use Rattle.unix_path.specs.Extensions.{name_end_of};
ghost use Rattle.unix_path.specs.Joins.{needs_no_separator};
ghost use Rattle.unix_path.specs.Scan.{ends_with_parent_dir};

// Returns true if and only if the last piece is `..`. It is true for `a/..`, and false for `a..`
// and `a/../`.
#[inline]
pub(crate) fn ends_with_parent_dir(bytes: &[u8]) -> bool
    requires { 0 < length bytes.now }
    ensures { result ≡ ends_with_parent_dir bytes.now }
{
    let len = bytes.len();
    bytes[len - 1] == b'.'
        && len > 1
        && bytes[len - 2] == b'.'
        && (len == 2 || bytes[len - 3] == b'/')
}

/// Returns true if and only if the bytes end in a name: the last piece is not empty, and neither
/// `.` nor `..`.
///
/// Reads the last three bytes. It is true for `a/.b`, and false for `a/`, `a/.` and `a/..`.
#[inline]
#[tactic(auto, using(crate::proofs::lemmas::names::NamedLemmas::name_endings))]
pub fn ends_in_name(bytes: &[u8]) -> bool
    ensures { IsTrue result ↔ (name_end_of bytes.now ≡ Some (length bytes.now)) }
{
    if bytes.is_empty() {
        return false;
    }
    let len = bytes.len();
    if bytes[len - 1] != b'.' {
        return bytes[len - 1] != b'/';
    }
    if len == 1 || bytes[len - 2] == b'/' {
        return false;
    }
    !ends_with_parent_dir(bytes)
}

/// Returns true if and only if the bytes are empty or end in a slash. A path without a root can
/// then be appended without a separator.
///
/// It is true for `a/`, and false for `a`.
#[inline]
#[tactic(auto, using(crate::proofs::lemmas::edits::JoinLemmas::separated))]
pub fn needs_no_separator(bytes: &[u8]) -> bool
    ensures { result ≡ needs_no_separator bytes.now }
{
    bytes.is_empty() || bytes[bytes.len() - 1] == b'/'
}
