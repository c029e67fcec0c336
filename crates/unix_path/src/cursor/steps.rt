//! The first and the last component of the bytes that remain in a walk.
ghost use Rattle.std.specs.Prelude.{◌≡◌, ◌<◌, ◌≤◌, ◌∷◌, ◌++◌, ℕ, [], true, false, length};
ghost use Rattle.std.specs.Prelude.{take, drop};
ghost use Rattle.std.specs.Str.{bytes_eq};
ghost use Rattle.unix_path.specs.Parts.{cur_dir, inner_parts, parts, values};
ghost use Rattle.unix_path.specs.Scan.{starts_with_parent_dir, ends_with_parent_dir, is_filler};
ghost use Rattle.unix_path.specs.Scan.{EndsInPart};
ghost use Rattle.unix_path.specs.Views.{value_of};
ghost use Rattle.unix_path.specs.Rest.{rest};

use crate::cursor::Component;
use crate::filler::{filler_len, is_filler, trimmed_len};
use crate::first_component::{name_step, parent_dir_step, starts_with_parent_dir};
use crate::path_end::ends_with_parent_dir;
use unix_bytes::bytes::UnixStr;
use unix_bytes::internal::after_last;

// Returns true if and only if the path begins with the root or a leading `.`.
#[inline]
pub(crate) fn has_lead(path: &[u8]) -> bool
    ensures { result ≡ is_filler path.now 0 }
{
    !path.is_empty() && is_filler(path, 0)
}

// Returns the root or the leading `.` that the path begins with.
#[inline]
#[tactic(auto, using(crate::proofs::lemmas::steps::LeadLemmas::leads))]
fn lead(path: &[u8]) -> Component<'_>
    requires some { 0 < length path.now }
    requires lead { is_filler path.now 0 ≡ true }
    ensures { parts path.now ≡ record { start = 0; end = 1; value = value_of result }
        ∷ inner_parts 1 (drop 1 path.now) }
{
    if path[0] == b'/' {
        Component::RootDir
    } else {
        Component::CurDir
    }
}

// Splits off the root or leading `.`, and the filler after it. Returns the length of both together,
// and the component.
#[inline]
fn split_lead(path: &[u8]) -> (usize, Component<'_>)
    requires some { 0 < length path.now }
    requires lead { is_filler path.now 0 ≡ true }
    ensures in_range { result.0 ≤ length path.now }
    ensures parts { (end : ℕ) × (parts path.now
        ≡ record { start = 0; end = end; value = value_of result.1 }
        ∷ inner_parts result.0 (drop result.0 path.now)) }
    ensures not_filler { result.0 < length path.now → is_filler path.now result.0 ≡ false }
{
    (1 + filler_len(&path[1..]), lead(path))
}

// Splits off the first component, and the filler after it. Returns the length of both together, and
// the component. `has_lead` must be the result of the function `has_lead` for `path`.
#[inline(always)]
pub(crate) fn split_first_component(path: &[u8], has_lead: bool) -> (usize, Component<'_>)
    requires some { 0 < length path.now }
    requires lead { has_lead ≡ is_filler path.now 0 }
    ensures in_range { result.0 ≤ length path.now }
    ensures parts { (end : ℕ) × (parts path.now
        ≡ record { start = 0; end = end; value = value_of result.1 }
        ∷ inner_parts result.0 (drop result.0 path.now)) }
    ensures not_filler { result.0 < length path.now → is_filler path.now result.0 ≡ false }
{
    if has_lead {
        split_lead(path)
    } else if starts_with_parent_dir(path) {
        (parent_dir_step(path), Component::ParentDir)
    } else {
        let (end, step) = name_step(path);
        let name = UnixStr {
            bytes: &path[..end],
        };
        (step, Component::Normal(name))
    }
}

// Splits off the last component and the filler before it. The component must be the root or a name,
// and end where `path` ends. Returns how many bytes remain, and the component.
#[inline(always)]
pub(crate) fn split_last_root_or_name(path: &[u8]) -> (usize, Component<'_>)
    requires some { 0 < length path.now }
    requires no_dot { bytes_eq path.now cur_dir ≡ false }
    requires no_parent { ends_with_parent_dir path.now ≡ false }
    requires ends { EndsInPart path.now }
    ensures in_range { result.0 ≤ length path.now }
    ensures value { values path.now
        ≡ values (take result.0 path.now) ++ value_of result.1 ∷ [] }
    ensures rest { rest path.now 0 1 ≡ take result.0 path.now }
    ensures rest_ends { EndsInPart (take result.0 path.now) }
{
    let start = after_last(path, b'/');
    if start == path.len() {
        return (0, Component::RootDir);
    }
    let name = UnixStr {
        bytes: &path[start..],
    };
    (trimmed_len(path, 0, start), Component::Normal(name))
}

// Splits off the last component, which must end where `path` ends, and the filler before it.
// Returns how many bytes remain, and the component.
#[inline(always)]
pub(super) fn split_last_component(path: &[u8]) -> (usize, Component<'_>)
    requires some { 0 < length path.now }
    requires ends { EndsInPart path.now }
    ensures in_range { result.0 ≤ length path.now }
    ensures value { values path.now
        ≡ values (take result.0 path.now) ++ value_of result.1 ∷ [] }
    ensures rest { rest path.now 0 1 ≡ take result.0 path.now }
    ensures rest_ends { EndsInPart (take result.0 path.now) }
{
    if path == b".".as_slice() {
        (0, Component::CurDir)
    } else if ends_with_parent_dir(path) {
        (trimmed_len(path, 0, path.len() - 2), Component::ParentDir)
    } else {
        split_last_root_or_name(path)
    }
}
