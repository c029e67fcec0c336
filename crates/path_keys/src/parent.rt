//! The parent and the file name of a key's path, as slices of the key, and a test for prefixes.
ghost use Rattle.std.specs.Prelude.{◌≡◌, ◌↔◌, ◌≤◌, ℕ, [], ◌∷◌, ◌++◌, List, length, map, take, None};
ghost use Rattle.std.specs.Prelude.{option_map, IfSome, IsTrue};
ghost use Rattle.unix_path.specs.Names.{file_name_of};
ghost use Rattle.unix_path.specs.Parents.{parent_of};
ghost use Rattle.unix_path.specs.Parts.{values, Value};
ghost use Rattle.unix_path.specs.Prefixes.{IsPrefixOf};
ghost use Rattle.unix_path.specs.Slices.{LiesIn, memory_offset};
ghost use Rattle.path_keys.specs.Keys.{code, key_of, raised, IsKey};
ghost use Rattle.path_keys.specs.Codes.{code_bytes};

use crate::codes::{Code, code_in};

// The last code of a key, and the index at which it begins.
#[derive(Clone, Copy)]
struct LastCode<'a> {
    start: usize,
    code: Code<'a>,
}

// Returns the last code of a key; `None` if the key is empty or the bytes are not a key.
fn last_code(key: &[u8]) -> Option<LastCode<'_>>
    ensures in_range { IfSome result (λ last. last.start ≤ length key.now) }
    ensures some { IfSome result (λ last. (s : List ℕ) → key_of (values s) ≡ key.now
        → (front : List Value) × (v : Value) × (values s ≡ front ++ v ∷ [])
        × (take last.start key.now ≡ key_of front) × (code v ≡ code_bytes last.code)) }
    ensures none { result ≡ None → ((s : List ℕ) → key_of (values s) ≡ key.now
        → values s ≡ []) }
    ensures not_a_key { (IsKey key.now → ⊥) → result ≡ None }
{
    let mut last = None;
    let mut first = true;
    let mut rest = key;
    while let Some(code) = code_in(rest, first) {
        last = Some(LastCode {
            start: key.len() - rest.len(),
            code,
        });
        rest = &rest[code.len()..];
        first = false;
    }
    if !rest.is_empty() {
        return None;
    }
    last
}

/// Returns the key of the parent of a key's path, as a prefix of the key. Like `Path::parent`.
///
/// Returns `None` if the path has no parent, or if no path has these bytes as its key.
///
/// For 61 00 62 00, the key of `a/b`, it is 61 00. For the key of `/`, and for 61 00 00 04, which
/// is not a key, it is `None`.
#[must_use]
pub fn key_parent(key: &[u8]) -> Option<&[u8]>
    ensures value { (s : List ℕ) → key_of (values s) ≡ key.now
        → option_map (λ parent. parent.now) result
        ≡ option_map (λ parent. key_of (values parent)) (parent_of s) }
    ensures not_a_key { (IsKey key.now → ⊥) → result ≡ None }
    ensures place { IfSome result (λ parent. LiesIn parent key.entry) }
    ensures start { IfSome result (λ parent. memory_offset parent ≡ memory_offset key.entry) }
{
    let Some(last) = last_code(key) else {
        return None;
    };
    if last.code.is_root() {
        return None;
    }
    Some(&key[..last.start])
}

/// Returns the file name of a key's path, as its bytes in the key without the final 00. Like
/// `Path::file_name`.
///
/// Each byte of the name that is less than 2F is raised by one. Returns `None` if the path has no
/// file name, or if no path has these bytes as its key.
///
/// For 61 00 62 2F 63 00, the key of `a/b.c`, it is 62 2F 63. For the key of `a/..`, and for
/// 61 00 62, which is not a key, it is `None`.
#[must_use]
pub fn key_name(key: &[u8]) -> Option<&[u8]>
    ensures value { (s : List ℕ) → key_of (values s) ≡ key.now
        → option_map (λ name. name.now) result
        ≡ option_map (λ name. map raised name) (file_name_of (values s)) }
    ensures not_a_key { (IsKey key.now → ⊥) → result ≡ None }
{
    let Some(last) = last_code(key) else {
        return None;
    };
    last.code.name()
}

/// Returns true if the path of a key starts with the path of the key `base`: if `base` is a prefix
/// of `key`.
///
/// Like `Path::starts_with`, it resolves no `..`: the key of `a/..` starts with the key of `a`. To
/// keep a path below a directory, use `Request::beneath` and `Root::join` of the crate
/// `path_within`, or its `join_within`.
///
/// The key of `a/b` starts with the key of `a`. The key of `ab` does not.
#[must_use]
pub fn key_starts_with(key: &[u8], base: &[u8]) -> bool
    ensures bytes { IsTrue result ↔ IsPrefixOf base.now key.now }
    ensures values { (s t : List ℕ) → key_of (values s) ≡ key.now → key_of (values t) ≡ base.now
        → (IsTrue result ↔ IsPrefixOf (values t) (values s)) }
{
    key.starts_with(base)
}
