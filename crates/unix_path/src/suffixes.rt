//! Suffixes of paths, compared by components. Usually the last bytes decide.
ghost use Rattle.std.specs.Prelude.{◌≡◌, ◌↔◌, ◌<◌, ◌≤◌, ◌-◌, ◌==◌, ◌++◌, List, false, IsTrue};
ghost use Rattle.std.specs.Prelude.{None, IfSome, drop, length, slice_index, take};
ghost use Rattle.std.specs.List.{position_or_len};
ghost use Rattle.unix_path.specs.Parts.{Value, is_slash, slash, values};
ghost use Rattle.unix_path.specs.Prefixes.{IsSuffixOf};
ghost use Rattle.unix_path.specs.Scan.{EndsInPart};

use crate::cursor::Components;
use crate::pair::is_piece_start;

// Returns true only if the last byte of `bytes` belongs to a component and isn't a slash. The last
// piece is then a component.
#[inline]
fn ends_in_part(bytes: &[u8]) -> bool
    ensures some { IsTrue result → 0 < length bytes.now }
    ensures no_slash { IsTrue result
        → (slice_index bytes.now (length bytes.now - 1) == slash) ≡ false }
    ensures part { IsTrue result → EndsInPart bytes.now }
{
    let len = bytes.len();
    if len == 0 || bytes[len - 1] == b'/' {
        return false;
    }
    bytes[len - 1] != b'.' || len == 1 || bytes[len - 2] != b'/'
}

// Returns the length of the longest common suffix of `a` and `b` that contains no slash.
#[inline]
fn common_suffix_len(a: &[u8], b: &[u8]) -> usize
    ensures in_first { result ≤ length a.now }
    ensures in_second { result ≤ length b.now }
    ensures same { drop (length a.now - result) a.now ≡ drop (length b.now - result) b.now }
    ensures no_slash { position_or_len is_slash (drop (length a.now - result) a.now) ≡ result }
    ensures longest { result < length a.now → result < length b.now
        → slice_index a.now (length a.now - 1 - result)
        ≡ slice_index b.now (length b.now - 1 - result)
        → slice_index a.now (length a.now - 1 - result) ≡ slash }
{
    let shorter_len = a.len().min(b.len());
    let mut len = 0;
    while len < shorter_len
        && a[a.len() - 1 - len] == b[b.len() - 1 - len]
        && a[a.len() - 1 - len] != b'/'
    {
        len += 1;
    }
    len
}

// Returns 0 if one of the paths is empty, or ends in a slash or in filler. Otherwise returns the
// length of the last component if both paths have the same one, and `None` if their last components
// differ. Without as many last bytes, both paths lack the same components. Reads only the last
// components and the slashes before them.
#[inline]
pub(crate) fn shared_last_len(a: &[u8], b: &[u8]) -> Option<usize>
    ensures apart { result ≡ None → IsSuffixOf (values b.now) (values a.now) → ⊥ }
    ensures in_first { IfSome result (λ len. len ≤ length a.now) }
    ensures in_second { IfSome result (λ len. len ≤ length b.now) }
    ensures shared { IfSome result (λ len. (shared : List Value)
        × (values a.now ≡ values (take (length a.now - len) a.now) ++ shared)
        × (values b.now ≡ values (take (length b.now - len) b.now) ++ shared)) }
{
    if !ends_in_part(a) || !ends_in_part(b) {
        return Some(0);
    }
    let len = common_suffix_len(a, b);
    if is_piece_start(a, a.len() - len) && is_piece_start(b, b.len() - len) {
        Some(len)
    } else {
        None
    }
}

// Returns true if and only if the components of `path` end with the components of `child`. They are
// compared one by one. Not inlined, so that callers need no stack space for two walks if the last
// bytes decide.
#[inline(never)]
pub(crate) fn ends_with_parts(path: &[u8], child: &[u8]) -> bool
    ensures { IsTrue result ↔ IsSuffixOf (values child.now) (values path.now) }
{
    let mut walk = Components::new(path);
    let mut child_walk = Components::new(child);
    while let Some(part) = child_walk.next_back() {
        let Some(own) = walk.next_back() else {
            return false;
        };
        if !own.has_same_value(part) {
            return false;
        }
    }
    true
}
