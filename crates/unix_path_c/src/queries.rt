//! Queries about one path or two paths.
ghost use Rattle.std.specs.Prelude.{◌≡◌, ◌↔◌, ◌≤◌, ◌⊎◌, ℕ, IsTrue, List, [], ◌∷◌, length};
ghost use Rattle.std.specs.Prelude.{pos, negsuc, true, false};
ghost use Rattle.std.specs.Ordering.{is_eq};
ghost use Rattle.unix_bytes.specs.Utf8.{IsText};
ghost use Rattle.unix_path.specs.CommonDir.{common_dir_of};
ghost use Rattle.unix_path.specs.Order.{values_cmp, IsBefore};
ghost use Rattle.unix_path.specs.Parts.{RootDir, SameValues, is_rooted, values};
ghost use Rattle.unix_path.specs.Prefixes.{IsPrefixOf, IsSuffixOf};
ghost use Rattle.path_within.specs.Below.{ends_in_slash, has_nul, names_below};
ghost use Rattle.path_within.specs.Escapes.{Escapes};
ghost use Rattle.unix_path_c.specs.Queries.{path_hash, sign_of};

use path_within::within::escapes;
use path_within::{Request, RequestError, ends_in_slash, request_is_root};
use std::cmp::Ordering;
use std::hash::{DefaultHasher, Hash, Hasher};
use unix_path::Path;

/// Returns true if and only if the path starts with the components of `base`. Every path starts
/// with the empty path.
///
/// Only whole components match, whatever filler is between them.
///
/// A path that starts with a directory may still leave it: no `..` is resolved, and `/dest/../etc`
/// starts with `/dest`. To keep a path below a directory, use `unix_path_join_beneath`.
///
/// `/etc/passwd` starts with `/etc/`, and not with `/e`.
#[unsafe(no_mangle)]
pub extern "C" fn unix_path_starts_with(path: &[u8], base: &[u8]) -> bool
    ensures { IsTrue result ↔ IsPrefixOf (values base.now) (values path.now) }
{
    Path::from_bytes(path).starts_with(Path::from_bytes(base))
}

/// Returns true if and only if the path ends with the components of `child`. Every path ends with
/// the empty path.
///
/// Only whole components match, whatever filler is between them.
///
/// `a/b` ends with `b`, and with neither `./b` nor `/b`.
#[unsafe(no_mangle)]
pub extern "C" fn unix_path_ends_with(path: &[u8], child: &[u8]) -> bool
    ensures { IsTrue result ↔ IsSuffixOf (values child.now) (values path.now) }
{
    Path::from_bytes(path).ends_with(Path::from_bytes(child))
}

/// Returns the index just after the last `/` of the longest common prefix of both paths' bytes, or
/// 0 if that prefix has no `/`.
///
/// For `a/./b` and `a/b` it is 2, and for `a/b` and `ab` it is 0.
#[unsafe(no_mangle)]
pub extern "C" fn unix_path_common_dir(a: &[u8], b: &[u8]) -> usize
    ensures value { result ≡ common_dir_of a.now b.now }
    ensures in_first { result ≤ length a.now }
    ensures in_second { result ≤ length b.now }
{
    Path::from_bytes(a).common_dir(Path::from_bytes(b))
}

/// Returns true if and only if the two paths are equal: they have the same components, whatever
/// filler is between them.
///
/// `a//b/.` equals `a/b`, and `./a` does not equal `a`.
#[unsafe(no_mangle)]
pub extern "C" fn unix_path_equal(a: &[u8], b: &[u8]) -> bool
    ensures value { result ≡ is_eq (values_cmp (values a.now) (values b.now)) }
    ensures same { IsTrue result ↔ SameValues a.now b.now }
{
    Path::from_bytes(a) == Path::from_bytes(b)
}

// Returns -1, 0 or 1 for less, equal or greater.
fn sign(order: Ordering) -> i32
    ensures { result ≡ sign_of order }
{
    match order {
        Ordering::Less => -1,
        Ordering::Equal => 0,
        Ordering::Greater => 1,
    }
}

/// Returns -1, 0 or 1 if the first path comes before the second, is equal to it, or comes after it.
///
/// Paths are compared component by component. The root comes first, then `.`, then `..`, and then
/// names by their bytes. A path comes before the longer paths that start with it.
///
/// `a/b` comes before `a.b`. For `a//b` and `a/b` it is 0.
#[unsafe(no_mangle)]
pub extern "C" fn unix_path_compare(a: &[u8], b: &[u8]) -> i32
    ensures value { result ≡ sign_of (values_cmp (values a.now) (values b.now)) }
    ensures less { (result ≡ negsuc 0) ↔ IsBefore (values a.now) (values b.now) }
    ensures equal { (result ≡ pos 0) ↔ SameValues a.now b.now }
    ensures greater { (result ≡ pos 1) ↔ IsBefore (values b.now) (values a.now) }
{
    sign(Path::from_bytes(a).cmp(&Path::from_bytes(b)))
}

/// Returns a hash of the path's components, which is the same on every machine and in every run.
/// Equal paths have the same hash.
///
/// It is SipHash-1-3 with both keys 0, so an attacker who chooses the paths can find many with the
/// same hash. Rust's `DefaultHasher::new()` computes the same function, but this library defines
/// which bytes of a path are hashed, so Rust's hash of a `Path` may differ.
///
/// For `a//b` and `a/b` it is the same.
#[tactic(auto, unfolding(crate::specs::Queries::path_hash))]
#[unsafe(no_mangle)]
pub extern "C" fn unix_path_hash(path: &[u8]) -> u64
    ensures value { result ≡ path_hash (values path.now) }
    ensures same { (other : List ℕ) → SameValues path.now other
        → result ≡ path_hash (values other) }
{
    let mut state = DefaultHasher::new();
    Path::from_bytes(path).hash(&mut state);
    state.finish()
}

/// Returns true if and only if the path is valid UTF-8 (RFC 3629). Rust's `Path::to_str` makes the
/// same test, and returns the string.
///
/// For the bytes 61 C3 A9 it is true, and for 61 FF it is false.
#[unsafe(no_mangle)]
pub extern "C" fn unix_path_is_utf8(path: &[u8]) -> bool
    ensures { IsTrue result ↔ IsText path.now }
{
    Path::from_bytes(path).to_str().is_some()
}

/// Returns true if and only if the path escapes: it has a root, or some prefix of its components
/// has more `..` than names, even if later names come down again.
///
/// Purely lexical: if a component may be a symbolic link, only the system knows where `..` leads.
///
/// For `a/../../root/x` and `/a` it is true; for `a/../..foo` it is false.
#[unsafe(no_mangle)]
pub extern "C" fn unix_path_escapes(path: &[u8]) -> bool
    ensures { IsTrue result ↔ Escapes (values path.now) }
{
    escapes(Path::from_bytes(path))
}

/// Returns 0 if a path from outside can be joined by `unix_path_join_beneath`, and otherwise the
/// first reason that applies: 1 if it has a root, 2 if it goes above where it starts, 3 if it has a
/// NUL byte.
///
/// For `a/../b` it is 0, for `/../a` it is 1, for `a/../..` it is 2, and for `a\0.png` it is 3.
#[unsafe(no_mangle)]
pub extern "C" fn unix_path_check_request(path: &[u8]) -> i32
    ensures rooted { (result ≡ pos 1) ↔ (is_rooted path.now ≡ true) }
    ensures escapes { (result ≡ pos 2)
        ↔ ((is_rooted path.now ≡ false) × Escapes (values path.now)) }
    ensures nul { (result ≡ pos 3)
        ↔ ((Escapes (values path.now) → ⊥) × (has_nul path.now ≡ true)) }
    ensures answers { (result ≡ pos 0)
        ⊎ ((result ≡ pos 1) ⊎ ((result ≡ pos 2) ⊎ (result ≡ pos 3))) }
{
    match Request::beneath(Path::from_bytes(path)) {
        Ok(_) => 0,
        Err(RequestError::Rooted) => 1,
        Err(RequestError::Escapes) => 2,
        Err(RequestError::Nul) => 3,
    }
}

/// Returns true if and only if a path from outside has no name after it is resolved in the way of
/// `unix_path_join_in_root`. If such a path has no NUL, its join is the root itself. The test is
/// like `path_within`'s `Request::is_root`.
///
/// For `a/..`, `/`, `..` and the empty path it is true; for `.foo` and `a/../b` it is false.
#[unsafe(no_mangle)]
pub extern "C" fn unix_path_request_is_root(path: &[u8]) -> bool
    ensures { IsTrue result ↔ (names_below (values path.now) ≡ []) }
{
    request_is_root(Path::from_bytes(path))
}

/// Returns true if and only if the path's last component is a name and a slash or a `/.` follows
/// it.
///
/// A system call then requires the name to be a directory. `unix_path_join_beneath` and
/// `unix_path_join_in_root` drop the slash or `/.`. The test is like `path_within`'s
/// `Request::ends_in_slash`.
///
/// For `a/` and `a/.` it is true; for `a`, `a/..` and `/` it is false.
#[unsafe(no_mangle)]
pub extern "C" fn unix_path_ends_in_slash(path: &[u8]) -> bool
    ensures { result ≡ ends_in_slash path.now }
{
    ends_in_slash(Path::from_bytes(path))
}

/// Returns true if and only if the path begins with the root.
///
/// `/tmp` is absolute, and `tmp` is not.
#[unsafe(no_mangle)]
pub extern "C" fn unix_path_is_absolute(path: &[u8]) -> bool
    ensures value { result ≡ is_rooted path.now }
    ensures root { IsTrue result ↔ IsPrefixOf (RootDir ∷ []) (values path.now) }
{
    Path::from_bytes(path).is_absolute()
}
