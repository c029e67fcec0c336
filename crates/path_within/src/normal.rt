//! Tests for paths that are resolved already.
ghost use Rattle.std.specs.Prelude.{◌≡◌, ◌↔◌, [], IsTrue};
ghost use Rattle.std.specs.List.{list_all};
ghost use Rattle.unix_path.specs.Cursor.{cursor_values};
ghost use Rattle.unix_path.specs.Views.{value_of};
ghost use Rattle.path_within.specs.Escapes.{is_name, is_parent_dir};
ghost use Rattle.path_within.specs.Resolved.{resolved_bytes_of, ParentDirsThenNames, IsNormal};

use crate::names_only::{is_names_only, name_starts_at};
use path_runs::canonical::is_canonical;
use unix_path::{Component, Components, Path};

// Returns true if the component is a name.
#[inline]
fn is_name(part: Component<'_>) -> bool
    ensures { result ≡ is_name (value_of part.entry) }
{
    matches!(part, Component::Normal(_))
}

// Returns true if all these components are names. Recognises a path of names only without visiting
// its components.
#[inline]
pub(crate) fn are_names(parts: Components<'_>) -> bool
    ensures { result ≡ list_all is_name (cursor_values parts.entry) }
{
    let rest = parts.as_path();
    if is_names_only(rest) {
        return !rest.has_root();
    }
    let mut parts = parts;
    parts.all(is_name)
}

// Returns true if the component is `..`.
#[inline]
fn is_parent_dir(part: Component<'_>) -> bool
    ensures { result ≡ is_parent_dir (value_of part.entry) }
{
    matches!(part, Component::ParentDir)
}

// Returns true if these components are zero or more `..`, and then zero or more names.
fn are_parent_dirs_then_names(parts: Components<'_>) -> bool
    ensures { IsTrue result ↔ ParentDirsThenNames (cursor_values parts.entry) }
{
    let mut rest = parts;
    while let Some(part) = rest.next() {
        if !is_parent_dir(part) {
            return is_name(part) && are_names(rest);
        }
    }
    true
}

// Returns true if no component after the first is a root, none is `.`, and no `..` follows a name
// or a root.
#[tactic(auto, using(crate::proofs::lemmas::names_only::NormalLemmas::names_iff))]
fn is_normal(parts: Components<'_>) -> bool
    ensures { IsTrue result ↔ IsNormal (cursor_values parts.entry) }
{
    let mut rest = parts;
    match rest.next() {
        Some(Component::RootDir) => are_names(rest),
        _ => are_parent_dirs_then_names(parts),
    }
}

// Returns true if the path is resolved already, that is, if `resolved` returns the same bytes. Not
// inlined, because it is called for few paths, and its callers should stay small.
#[inline(never)]
#[tactic(auto, using(crate::proofs::lemmas::names_only::NormalLemmas::is_resolved_cases))]
pub(crate) fn is_resolved(path: Path<'_>) -> bool
    ensures { IsTrue result
        ↔ (resolved_bytes_of path.entry.bytes.now ≡ path.entry.bytes.now) }
{
    // `is_canonical` reads 16 bytes at a time and is the faster test, so it is called first.
    is_canonical(path) && is_normal(path.components())
}

// Returns true only if the path is resolved already, and always for the empty path. Visits the
// components of few paths: only if the first piece is not a name, or if the path ends in a dot but
// not in `/.`.
#[inline]
#[tactic(auto, using(crate::proofs::lemmas::names_only::NamesOnlyLemmas::is_known_resolved_cases))]
pub(crate) fn is_known_resolved(path: Path<'_>) -> bool
    ensures resolved { IsTrue result
        → resolved_bytes_of path.entry.bytes.now ≡ path.entry.bytes.now }
    ensures empty { path.entry.bytes.now ≡ [] → IsTrue result }
{
    if is_names_only(path) {
        return true;
    }
    let bytes = path.bytes;
    if !name_starts_at(bytes, 0) {
        return is_resolved(path);
    }
    bytes.ends_with(b".") && !bytes.ends_with(b"/.") && is_resolved(path)
}
