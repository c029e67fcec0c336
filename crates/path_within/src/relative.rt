//! The relative path from one path to another.
ghost use Rattle.std.specs.Prelude.{◌≡◌, ◌≤◌, ◌<◌, ◌-◌, ◌^◌, ℕ, List, Some, None, min, length};
ghost use Rattle.std.specs.Prelude.{drop, option_map, replicate, ◌++◌, [], true, IfOk, IsOk};
ghost use Rattle.std.specs.List.{common_prefix_len};
ghost use Rattle.std.specs.Str.{bytes_eq};
ghost use Rattle.unix_path.specs.Buffers.{path_bytes};
ghost use Rattle.unix_path.specs.Order.{same_value};
ghost use Rattle.unix_path.specs.Parts.{ParentDir, Value, is_rooted, value_bytes, values};
ghost use Rattle.unix_path.specs.Views.{value_of};
ghost use Rattle.path_runs.specs.Buffer.{buffer_after};
ghost use Rattle.path_runs.specs.Spelling.{spelling_of};
ghost use Rattle.path_within.specs.Backward.{last_names};
ghost use Rattle.path_within.specs.Below.{names_below};
ghost use Rattle.path_within.specs.Pieces.{remaining_values};
ghost use Rattle.path_within.specs.NamePieces.{is_names_only};
ghost use Rattle.path_within.specs.RelativePaths.{relative_path_of};
ghost use Rattle.path_within.specs.Layouts.{layout_values};
ghost use Rattle.path_within.specs.WrittenBytes.{slashed_len};

use crate::backward::{LastResolved, Pieces, count_resolved};
use crate::names_only::name_starts_at;
use crate::outlined::is_names_only;
use crate::write::{Layout, Names};
use std::alloc::{AllocError, Global};
use unix_path::laws::walks_in_order;
use unix_path::{Component, Path, PathBuf};

// Returns the number of components.
fn component_count(path: Path<'_>) -> usize
    ensures { result ≡ length (values path.entry.bytes.now) }
{
    walks_in_order();
    path.components().count()
}

// Returns true if the components have the same bytes.
#[inline]
fn is_same(part: Component<'_>, other: Component<'_>) -> bool
    ensures { result
        ≡ bytes_eq (value_bytes (value_of part.entry)) (value_bytes (value_of other.entry)) }
{
    part.as_unix_str().bytes == other.as_unix_str().bytes
}

// Returns an index up to which both paths have the same components: 0, or an index just after a
// slash at which a name starts in both paths. Reads 16 bytes at a time.
#[inline]
fn shared_end(from: Path<'_>, to: Path<'_>) -> usize
    ensures in_first { result ≤ length from.entry.bytes.now }
    ensures in_second { result ≤ length to.entry.bytes.now }
    ensures shared { (shared : List Value)
        × (values from.entry.bytes.now ≡ shared ++ values (drop result from.entry.bytes.now))
        × (values to.entry.bytes.now ≡ shared ++ values (drop result to.entry.bytes.now)) }
{
    let index = from.common_dir(to);
    if name_starts_at(from.bytes, index) && name_starts_at(to.bytes, index) {
        return index;
    }
    0
}

// Returns the rest of each path after the components that both start with.
fn after_shared<'a, 'b>(from: Path<'a>, to: Path<'b>) -> (Path<'a>, Path<'b>)
    ensures first { values result.0.bytes.now ≡ drop (common_prefix_len same_value
        (values from.entry.bytes.now) (values to.entry.bytes.now)) (values from.entry.bytes.now) }
    ensures second { values result.1.bytes.now ≡ drop (common_prefix_len same_value
        (values from.entry.bytes.now) (values to.entry.bytes.now)) (values to.entry.bytes.now) }
{
    let index = shared_end(from, to);
    let mut rest = Path::from_bytes(&from.bytes[index..]).components();
    let mut other_rest = Path::from_bytes(&to.bytes[index..]).components();
    loop {
        let (first, second) = (rest, other_rest);
        match (rest.next(), other_rest.next()) {
            (Some(part), Some(other)) if is_same(part, other) => {}
            _ => return (first.as_path(), second.as_path()),
        }
    }
}

// Returns the relative path from one path to another. Both are paths of names only. Either both
// have a root, or neither has one.
fn names_only_steps<'a>(from: Path<'_>, to: Path<'a>) -> Layout<'a>
    requires from { is_names_only from.bytes.now ≡ true }
    requires to { is_names_only to.bytes.now ≡ true }
    requires roots { is_rooted from.bytes.now ≡ is_rooted to.bytes.now }
    ensures { Some (layout_values result)
        ≡ relative_path_of (values from.entry.bytes.now) (values to.entry.bytes.now) }
{
    let (rest, other_rest) = after_shared(from, to);
    Layout::after_parent_dirs(
        component_count(rest),
        Layout::names_of(other_rest, is_names_only(other_rest)),
    )
}

// Takes the last `count` names that remain of the pieces in `rest` after resolving. Returns the
// length of these names, with a slash for each.
#[tactic(auto, using(crate::proofs::lemmas::backward::SharedLemmas::skip_last_names_cases))]
fn skip_last_names(rest: &mut Pieces<'_>, count: usize) -> usize
    requires few { length (remaining_values rest.old) < 2 ^ 64 }
    requires some { count ≤ length (names_below (remaining_values rest.old)) }
    requires fits { slashed_len (names_below (remaining_values rest.old)) < 2 ^ 64 }
    ensures few { length (remaining_values rest.new) ≤ length (remaining_values rest.old) }
    ensures names { names_below (remaining_values rest.old)
        ≡ names_below (remaining_values rest.new) ++ last_names count (remaining_values rest.old) }
    ensures len { result ≡ slashed_len (last_names count (remaining_values rest.old)) }
{
    let mut remaining = count;
    let mut len = 0_usize;
    while remaining > 0 {
        let LastResolved::Name(name) = rest.next_back_resolved() else {
            return len;
        };
        len += 1 + name.bytes.len();
        remaining -= 1;
    }
    len
}

// The names that two resolved paths both start with.
#[derive(Clone, Copy)]
struct SharedNames {
    count: usize,
    // The length of the second path's names that are not shared, with a slash for each.
    len: usize,
}

// Counts the names that two paths both start with after they are resolved. Resolved, `from` has
// `first` names, and `to` has `second` names. Names are found from the last to the first. The path
// with more names first skips its extra last names. Then the remaining names are compared in pairs,
// one from each path. The shared names end before the differing pair with the lowest index, which
// is the last differing pair found.
fn shared_names(from: Path<'_>, first: usize, to: Path<'_>, second: usize) -> SharedNames
    requires first { first ≡ length (names_below (values from.bytes.now)) }
    requires second { second ≡ length (names_below (values to.bytes.now)) }
    ensures count { result.count ≡ common_prefix_len same_value
        (names_below (values from.entry.bytes.now)) (names_below (values to.entry.bytes.now)) }
    ensures len { let names = names_below (values to.entry.bytes.now) in
        result.len ≡ slashed_len (drop (common_prefix_len same_value
        (names_below (values from.entry.bytes.now)) names) names) }
{
    let mut rest = Pieces::new(from);
    let mut other_rest = Pieces::new(to);
    let _taken = skip_last_names(&mut rest, first.saturating_sub(second));
    let mut taken_len = skip_last_names(&mut other_rest, second.saturating_sub(first));
    let mut index = first.min(second);
    let mut count = index;
    let mut len = taken_len;
    while let LastResolved::Name(name) = rest.next_back_resolved() {
        let LastResolved::Name(other) = other_rest.next_back_resolved() else {
            return SharedNames { count, len };
        };
        index -= 1;
        taken_len += 1 + other.bytes.len();
        if name.bytes != other.bytes {
            count = index;
            len = taken_len;
        }
    }
    SharedNames { count, len }
}

// Returns the relative path from one path to another, or `None` if there is none. Either both paths
// have a root, or neither has one.
fn resolved_steps<'a>(from: Path<'_>, to: Path<'a>) -> Option<Layout<'a>>
    requires { is_rooted from.bytes.now ≡ is_rooted to.bytes.now }
    ensures { option_map layout_values result
        ≡ relative_path_of (values from.entry.bytes.now) (values to.entry.bytes.now) }
{
    let first = count_resolved(from);
    let second = count_resolved(to);
    if first.parent_dirs > second.parent_dirs {
        return None;
    }
    if first.parent_dirs < second.parent_dirs {
        let names = Names::last(to, second.names, second.len);
        return Some(Layout::after_parent_dirs(
            first.names + (second.parent_dirs - first.parent_dirs),
            names,
        ));
    }
    let shared = shared_names(from, first.names, to, second.names);
    let names = Names::last(to, second.names - shared.count, shared.len);
    Some(Layout::after_parent_dirs(first.names - shared.count, names))
}

// Returns the relative path from one path to another, or `None` if there is none.
fn steps<'a>(from: Path<'_>, to: Path<'a>) -> Option<Layout<'a>>
    ensures { option_map layout_values result
        ≡ relative_path_of (values from.entry.bytes.now) (values to.entry.bytes.now) }
{
    if from.has_root() != to.has_root() {
        return None;
    }
    if is_names_only(from) && is_names_only(to) {
        return Some(names_only_steps(from, to));
    }
    resolved_steps(from, to)
}

/// Returns the relative path from one path to another, or `None` if there is none.
///
/// Both paths are resolved lexically, and the components that both then start with are dropped. The
/// relative path is a `..` for each remaining name of the first path, and then the rest of the
/// second. Between equal paths it is the empty path. The result is `None` if and only if one path
/// has a root and the other has none, or the rest of the first path contains a `..`. Then no path
/// without a root leads from the first path to the second. Python's `PurePath.relative_to` with
/// `walk_up` does the same without resolving.
///
/// Purely lexical: if a component may be a symbolic link, only the system knows where a `..` leads.
/// The result is allocated once; `None` and the empty path allocate nothing, and succeed. Otherwise
/// fails if the allocation fails.
///
/// From `/a/b/c` to `/a/d` it is `../../d`. From `../x` to `y` there is none.
pub fn relative_path(
    alloc: Global,
    from: Path<'_>,
    to: Path<'_>,
) -> Result<Option<PathBuf>, AllocError>
    ensures bytes { IfOk result (λ found. option_map path_bytes found ≡ option_map spelling_of
        (relative_path_of (values from.entry.bytes.now) (values to.entry.bytes.now))) }
    ensures succeeds { relative_path_of (values from.entry.bytes.now) (values to.entry.bytes.now)
        ≡ Some [] → IsOk result }
    ensures succeeds_none { relative_path_of (values from.entry.bytes.now)
        (values to.entry.bytes.now) ≡ None → IsOk result }
{
    if from.bytes == to.bytes {
        return Ok(Some(PathBuf::new(alloc)));
    }
    let Some(layout) = steps(from, to) else {
        return Ok(None);
    };
    Ok(Some(layout.to_path_buf(alloc)?))
}

/// Writes the relative path from one path to another to the beginning of `out`. Returns its length,
/// or `None` if there is no relative path.
///
/// The function `relative_path` returns the same path. If the path fits, the rest of `out` is
/// unchanged. If the path is longer than `out`, nothing is written, and its length is still
/// returned, or `usize::MAX` if its length is greater than that. If there is no relative path,
/// nothing is written.
///
/// From `/a/b/c` to `/a/d` it is `../../d`, of 7 bytes.
pub fn write_relative_path(from: Path<'_>, to: Path<'_>, out: &mut [u8]) -> Option<usize>
    ensures length { result ≡ option_map (λ steps. min (2 ^ 64 - 1) (length (spelling_of steps)))
        (relative_path_of (values from.entry.bytes.now) (values to.entry.bytes.now)) }
    ensures out { (steps : List Value)
        → relative_path_of (values from.entry.bytes.now) (values to.entry.bytes.now) ≡ Some steps
        → out.new ≡ buffer_after (spelling_of steps) out.old }
    ensures none { relative_path_of (values from.entry.bytes.now) (values to.entry.bytes.now) ≡ None
        → out.new ≡ out.old }
{
    let Some(layout) = steps(from, to) else {
        return None;
    };
    Some(layout.write(out))
}
