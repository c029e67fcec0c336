//! Walks over the components of a path. The caller keeps a walk as two indices.
ghost use Rattle.std.specs.Prelude.{◌≡◌, ◌↔◌, ◌<◌, ◌≤◌, min, [], ◌∷◌, ◌++◌, length};
ghost use Rattle.std.specs.Prelude.{IsFalse, IsTrue};
ghost use Rattle.unix_path.specs.Parts.{parts, value_bytes, values};
ghost use Rattle.unix_path.specs.Rest.{rest};
ghost use Rattle.unix_path.specs.Views.{value_of};
ghost use Rattle.unix_path_c.specs.Spans.{span_bytes, span_end};
ghost use Rattle.unix_path_c.specs.Walks.{InOrder, remaining, part_bytes, part_end, part_in};
ghost use Rattle.unix_path_c.specs.Walks.{part_value, remaining_parts, value_of_kind};

use crate::first_component::{NORMAL, PARENT_DIR, first_part};
use crate::last_step::last_name;
use crate::spans::Span;
use unix_path::{Component, Path};

/// A walk over the components of a path, from both ends: the rest lies between two indices.
///
/// The caller keeps the walk, and passes it with the bytes of the same path. A walk has ended if
/// its indices are equal, out of order or past the path's end. A copy of a walk is an independent
/// walk. A walk is like Rust's `Components`.
///
/// For `/tmp//foo/` a new walk is from 0 to 9.
#[derive(Clone, Copy)]
#[repr(C)]
pub struct Walk {
    /// The index at which the rest begins, counted from the beginning of the path.
    pub front: usize,
    /// The index at which the rest ends, counted from the beginning of the path.
    pub back: usize,
}

/// A component of a path: its position and its kind. It is like Rust's `Component`.
///
/// The component `foo` of `/tmp//foo/` starts at 6, and has 3 bytes and the kind 3.
#[derive(Clone, Copy)]
#[repr(C)]
pub struct Part {
    /// The index of the component's first byte, counted from the beginning of the path.
    pub start: usize,
    /// The number of bytes of the component.
    pub length: usize,
    /// 0 for the root, 1 for a leading `.`, 2 for `..`, and 3 for a name.
    pub kind: u32,
}

// Returns the kind of a component.
#[inline]
fn kind_of(part: Component<'_>) -> u32
    ensures value { value_of part.entry
        ≡ value_of_kind result (value_bytes (value_of part.entry)) }
    ensures in_range { result < 4 }
{
    match part {
        Component::RootDir => 0,
        Component::CurDir => 1,
        Component::ParentDir => PARENT_DIR,
        Component::Normal(_) => NORMAL,
    }
}

// Returns the rest of a walk. It is empty if the walk's indices are out of order or past the path's
// end.
#[inline]
fn rest_of<'a>(path: &'a [u8], walk: &Walk) -> Path<'a>
    ensures { result.bytes.now ≡ remaining path.now walk.now }
{
    match path.get(walk.front..walk.back) {
        Some(remaining_bytes) => Path::from_bytes(remaining_bytes),
        None => Path::from_bytes(b""),
    }
}

// Does the same as `unix_path_next`, for a first component of any kind. Not inlined, so that most
// steps stay small.
#[inline(never)]
fn take_first(path: &[u8], walk: &mut Walk, part: &mut Part) -> bool
    ensures ended { IsFalse result ↔ (remaining path.now walk.old ≡ []) }
    ensures walk_unchanged { IsFalse result → walk.new ≡ walk.old }
    ensures part_unchanged { IsFalse result → part.new ≡ part.old }
    ensures parts { IsTrue result →
        remaining_parts path.now walk.old ≡ part_in path.now part.new
        ∷ remaining_parts path.now walk.new }
    ensures values { IsTrue result → values (remaining path.now walk.old)
        ≡ part_value path.now part.new ∷ values (remaining path.now walk.new) }
    ensures bytes { IsTrue result →
        part_bytes path.now part.new ≡ value_bytes (part_value path.now part.new) }
    ensures kind { IsTrue result → part.new.kind < 4 }
    ensures remaining_bytes { IsTrue result
        → remaining path.now walk.new ≡ rest (remaining path.now walk.old) 1 0 }
    ensures in_order { IsTrue result → InOrder (walk.old.front ∷ part.new.start
        ∷ part_end part.new ∷ walk.new.front ∷ walk.new.back ∷ walk.old.back
        ∷ length path.now ∷ []) }
{
    let mut parts = rest_of(path, walk).components();
    let len = parts.as_path().bytes.len();
    let Some(first) = parts.next() else {
        return false;
    };
    let back = walk.front + len;
    *part = Part {
        start: walk.front,
        length: first.as_unix_str().bytes.len(),
        kind: kind_of(first),
    };
    *walk = Walk {
        front: back - parts.as_path().bytes.len(),
        back,
    };
    true
}

// Does the same as `unix_path_next_back`, for a last component of any kind. Not inlined, so that
// most steps stay small.
#[inline(never)]
fn take_last(path: &[u8], walk: &mut Walk, part: &mut Part) -> bool
    ensures ended { IsFalse result ↔ (remaining path.now walk.old ≡ []) }
    ensures walk_unchanged { IsFalse result → walk.new ≡ walk.old }
    ensures part_unchanged { IsFalse result → part.new ≡ part.old }
    ensures parts { IsTrue result → remaining_parts path.now walk.old
        ≡ remaining_parts path.now walk.new ++ part_in path.now part.new ∷ [] }
    ensures values { IsTrue result → values (remaining path.now walk.old)
        ≡ values (remaining path.now walk.new) ++ part_value path.now part.new ∷ [] }
    ensures bytes { IsTrue result →
        part_bytes path.now part.new ≡ value_bytes (part_value path.now part.new) }
    ensures kind { IsTrue result → part.new.kind < 4 }
    ensures remaining_bytes { IsTrue result
        → remaining path.now walk.new ≡ rest (remaining path.now walk.old) 0 1 }
    ensures in_order { IsTrue result → InOrder (walk.old.front ∷ walk.new.front ∷ walk.new.back
        ∷ part.new.start ∷ part_end part.new ∷ walk.old.back ∷ length path.now ∷ []) }
{
    let mut parts = rest_of(path, walk).components();
    let len = parts.as_path().bytes.len();
    let Some(last) = parts.next_back() else {
        return false;
    };
    let length = last.as_unix_str().bytes.len();
    *part = Part {
        start: walk.front + len - length,
        length,
        kind: kind_of(last),
    };
    walk.back = walk.front + parts.as_path().bytes.len();
    true
}

/// Begins a walk over all components of a path.
///
/// The rest lies between `front` and `back`, and ends where the last component ends. The previous
/// contents of `walk` do not matter.
///
/// For `/tmp//foo/` the walk is from 0 to 9.
#[unsafe(no_mangle)]
pub extern "C" fn unix_path_components(path: &[u8], walk: &mut Walk)
    ensures parts { remaining_parts path.now walk.new ≡ parts path.now }
    ensures values { values (remaining path.now walk.new) ≡ values path.now }
    ensures remaining_bytes { remaining path.now walk.new ≡ rest path.now 0 0 }
    ensures in_order { InOrder (walk.new.front ∷ walk.new.back ∷ length path.now ∷ []) }
{
    let parts = Path::from_bytes(path).components();
    *walk = Walk {
        front: 0,
        back: parts.as_path().bytes.len(),
    };
}

/// Removes the first component from the rest of a walk, and writes it to `part`. Returns false if
/// no component remains.
///
/// For `/tmp//foo/` the components are the root at 0, `tmp` at 1 and `foo` at 6.
#[unsafe(no_mangle)]
pub extern "C" fn unix_path_next(path: &[u8], walk: &mut Walk, part: &mut Part) -> bool
    ensures ended { IsFalse result ↔ (remaining path.now walk.old ≡ []) }
    ensures walk_unchanged { IsFalse result → walk.new ≡ walk.old }
    ensures part_unchanged { IsFalse result → part.new ≡ part.old }
    ensures parts { IsTrue result →
        remaining_parts path.now walk.old ≡ part_in path.now part.new
        ∷ remaining_parts path.now walk.new }
    ensures values { IsTrue result → values (remaining path.now walk.old)
        ≡ part_value path.now part.new ∷ values (remaining path.now walk.new) }
    ensures bytes { IsTrue result →
        part_bytes path.now part.new ≡ value_bytes (part_value path.now part.new) }
    ensures kind { IsTrue result → part.new.kind < 4 }
    ensures remaining_bytes { IsTrue result
        → remaining path.now walk.new ≡ rest (remaining path.now walk.old) 1 0 }
    ensures in_order { IsTrue result → InOrder (walk.old.front ∷ part.new.start
        ∷ part_end part.new ∷ walk.new.front ∷ walk.new.back ∷ walk.old.back
        ∷ length path.now ∷ []) }
{
    let remaining_bytes = rest_of(path, walk).bytes;
    if remaining_bytes.is_empty() {
        return false;
    }
    let Some((length, step, kind)) = first_part(remaining_bytes) else {
        return take_first(path, walk, part);
    };
    *part = Part {
        start: walk.front,
        length,
        kind,
    };
    walk.front += step;
    true
}

/// Removes the last component from the rest of a walk, and writes it to `part`. Returns false if no
/// component remains.
///
/// For `/tmp//foo/` the components are `foo` at 6, `tmp` at 1 and the root at 0.
#[unsafe(no_mangle)]
pub extern "C" fn unix_path_next_back(path: &[u8], walk: &mut Walk, part: &mut Part) -> bool
    ensures ended { IsFalse result ↔ (remaining path.now walk.old ≡ []) }
    ensures walk_unchanged { IsFalse result → walk.new ≡ walk.old }
    ensures part_unchanged { IsFalse result → part.new ≡ part.old }
    ensures parts { IsTrue result → remaining_parts path.now walk.old
        ≡ remaining_parts path.now walk.new ++ part_in path.now part.new ∷ [] }
    ensures values { IsTrue result → values (remaining path.now walk.old)
        ≡ values (remaining path.now walk.new) ++ part_value path.now part.new ∷ [] }
    ensures bytes { IsTrue result →
        part_bytes path.now part.new ≡ value_bytes (part_value path.now part.new) }
    ensures kind { IsTrue result → part.new.kind < 4 }
    ensures remaining_bytes { IsTrue result
        → remaining path.now walk.new ≡ rest (remaining path.now walk.old) 0 1 }
    ensures in_order { IsTrue result → InOrder (walk.old.front ∷ walk.new.front ∷ walk.new.back
        ∷ part.new.start ∷ part_end part.new ∷ walk.old.back ∷ length path.now ∷ []) }
{
    let remaining_bytes = rest_of(path, walk).bytes;
    if remaining_bytes.is_empty() {
        return false;
    }
    let Some((before, start)) = last_name(remaining_bytes) else {
        return take_last(path, walk, part);
    };
    *part = Part {
        start: walk.front + start,
        length: remaining_bytes.len() - start,
        kind: NORMAL,
    };
    walk.back = walk.front + before;
    true
}

/// Writes the span of the rest of a walk to `span`: from the first remaining component to the end
/// of the last.
///
/// If no component remains, the span's length is 0.
///
/// For `/tmp//foo/` after one `unix_path_next` the span starts at 1 and has 8 bytes: `tmp//foo`.
#[unsafe(no_mangle)]
pub extern "C" fn unix_path_as_path(path: &[u8], walk: &Walk, span: &mut Span)
    ensures bytes { span_bytes path.now span.new ≡ rest (remaining path.now walk.now) 0 0 }
    ensures values { values (span_bytes path.now span.new)
        ≡ values (remaining path.now walk.now) }
    ensures start { span.new.start ≡ min walk.now.front (length path.now) }
    ensures in_range { span_end span.new ≤ length path.now }
{
    *span = Span {
        start: walk.front.min(path.len()),
        length: rest_of(path, walk).components().as_path().bytes.len(),
    };
}
