//! The ancestors of a path, one at a time: the path, its parent, and so on. The caller keeps the
//! length of the next ancestor.
ghost use Rattle.std.specs.Prelude.{◌≡◌, ◌↔◌, ◌≤◌, ◌-◌, ◌^◌, [], ◌∷◌, length, IsFalse, IsTrue};
ghost use Rattle.unix_path_c.specs.Ancestors.{remaining_ancestors};
ghost use Rattle.unix_path_c.specs.Spans.{span_bytes, span_end};

use crate::spans::Span;
use unix_path::Path;

// The value of `next` after the last ancestor. No path has as many bytes.
const NO_MORE_ANCESTORS: usize = usize::MAX;

/// Writes the span of the path's next ancestor to `ancestor`, and advances `next`. Returns false if
/// no ancestor remains.
///
/// The ancestors are the path itself, its parent, the parent's parent, and so on. Each is a prefix
/// of the path. `next` is the length of the next ancestor: the path's length for the first, and
/// `SIZE_MAX` once none remains. No ancestor remains either if `next` is any other number greater
/// than the path's length. The call is like the `next` of Rust's `Path::ancestors`.
///
/// For `../a`, with 4 as the first `next`, the ancestors have 4, 2 and 0 bytes.
#[unsafe(no_mangle)]
pub extern "C" fn unix_path_next_ancestor(
    path: &[u8],
    next: &mut usize,
    ancestor: &mut Span,
) -> bool
    ensures ended { IsFalse result ↔ (remaining_ancestors path.now next.old ≡ []) }
    ensures next_unchanged { IsFalse result → next.new ≡ next.old }
    ensures ancestor_unchanged { IsFalse result → ancestor.new ≡ ancestor.old }
    ensures ancestors { IsTrue result → remaining_ancestors path.now next.old
        ≡ span_bytes path.now ancestor.new ∷ remaining_ancestors path.now next.new }
    ensures last { IsTrue result → remaining_ancestors path.now next.new ≡ []
        → next.new ≡ 2 ^ 64 - 1 }
    ensures start { IsTrue result → ancestor.new.start ≡ 0 }
    ensures inside { IsTrue result → span_end ancestor.new ≤ length path.now }
{
    let length = *next;
    if length > path.len() {
        return false;
    }
    let bytes = &path[..length];
    *next = match (Path { bytes }).parent() {
        Some(parent) => parent.bytes.len(),
        None => NO_MORE_ANCESTORS,
    };
    *ancestor = Span { start: 0, length };
    true
}
