//! The entry whose path is the longest prefix of a path.
ghost use Rattle.std.specs.Prelude.{◌≡◌, ◌≤◌, ◌<◌, ◌^◌, ℕ, List, length};
ghost use Rattle.std.specs.Prelude.{IfOk, IfSome, IsOk, None};
ghost use Rattle.unix_path.specs.Parts.{Value, values};
ghost use Rattle.unix_path.specs.Rest.{rest};
ghost use Rattle.unix_path.specs.Slices.{EndsAt, IsTail, LiesIn};
ghost use Rattle.unix_path.specs.Prefixes.{IsPrefixOf, stripped_of};
ghost use Rattle.unix_path.specs.Views.{value_of};
ghost use Rattle.path_keys.specs.Keys.{code, key_of};
ghost use Rattle.path_tree.specs.Entries.{entry_at};
ghost use Rattle.path_tree.specs.Nearest.{IsNearest};

use super::PathTree;
use crate::lookup_key::{LookupKey, STACK_LEN};
use std::alloc::AllocError;
use unix_path::internal::after_filler;
use unix_path::{Component, Path};

// Returns the length of the component's code in a key.
#[inline]
fn code_len(part: Component<'_>) -> usize
    requires { length (code (value_of part)) < 2 ^ 64 }
    ensures { result ≡ length (code (value_of part.entry)) }
{
    match part {
        Component::Normal(name) => name.len() + 1,
        _ => 2,
    }
}

// Returns the rest of `path` after `base` and the filler that follows `base`; all of `path` if
// `base` is empty. `path` must end where its last component ends, and `base` must be `path` without
// some of its last components.
#[inline]
fn rest_after<'a>(path: Path<'a>, base: Path<'_>) -> Path<'a>
    requires trimmed { rest path.bytes.now 0 0 ≡ path.bytes.now }
    requires base { (m : ℕ) × (base.bytes.now ≡ rest path.bytes.now 0 m) }
    ensures bytes { result.bytes.now ≡ stripped_of path.entry.bytes.now base.entry.bytes.now }
    ensures tail { IsTail result.bytes path.entry.bytes }
{
    let len = base.as_unix_str().len();
    if len == 0 {
        return path;
    }
    Path::from_bytes(after_filler(&path.as_unix_str().as_bytes()[len..]))
}

impl<V> PathTree<V> {
    ghost use Rattle.path_tree.specs.Tree.{entries_of};

    // Finds the entry whose path is the longest prefix of `path`. Returns the rest of `path` after
    // that prefix, and the entry's value; `None` if no entry's path is a prefix of `path`. `key` is
    // the key of `path`.
    fn nearest_by<'a>(&self, path: Path<'a>, key: &[u8]) -> Option<(Path<'a>, &V)>
        requires { key.now ≡ key_of (values path.bytes.now) }
        ensures nearest { IfSome result (λ found.
            IsNearest path.entry.bytes.now (entries_of self.now) found.0.bytes.now found.1.now) }
        ensures none { result ≡ None → (base : List Value)
            → IsPrefixOf base (values path.entry.bytes.now)
            → entry_at (key_of base) (entries_of self.now) ≡ None }
        ensures place { IfSome result (λ found. LiesIn found.0.bytes path.entry.bytes) }
        ensures end { IfSome result (λ found.
            EndsAt found.0.bytes path.entry.bytes (length (rest path.entry.bytes.now 0 0))) }
    {
        let mut parts = path.components();
        let whole = parts.as_path();
        let mut end = key.len();
        loop {
            if let Some(value) = self.find_filtered(&key[..end]) {
                return Some((rest_after(whole, parts.as_path()), value));
            }
            let Some(part) = parts.next_back() else {
                return None;
            };
            end -= code_len(part);
        }
    }

    /// Finds the entry whose path is the longest prefix of `path`, component by component. Returns
    /// the rest of `path`, as a slice of its bytes, and the entry's value; `None` if no entry's
    /// path is a prefix of `path`. The slice ends where the last component of `path` ends, even if
    /// it is empty.
    ///
    /// An entry at the empty path matches every path. The tree is searched for `path`, then for its
    /// parent, and so on. With more than 64 entries, a Bloom filter saves most look-ups of paths
    /// that have no entry. Allocates, once, only if the path's key is longer than 512 bytes, which
    /// requires a path of more than 510 bytes. Fails only if that allocation fails.
    ///
    /// With 1 at `/`, 2 at `/a/b` and 3 at `/a/bc`, for `/a/b//c/d` it is `c/d` with 2.
    pub fn longest_prefix<'a>(&self, path: Path<'a>) -> Result<Option<(Path<'a>, &V)>, AllocError>
        ensures nearest { IfOk result (λ found. IfSome found (λ near.
            IsNearest path.entry.bytes.now (entries_of self.now) near.0.bytes.now near.1.now)) }
        ensures none { IfOk result (λ found. found ≡ None → (base : List Value)
            → IsPrefixOf base (values path.entry.bytes.now)
            → entry_at (key_of base) (entries_of self.now) ≡ None) }
        ensures place { IfOk result (λ found. IfSome found (λ near.
            LiesIn near.0.bytes path.entry.bytes)) }
        ensures end { IfOk result (λ found. IfSome found (λ near.
            EndsAt near.0.bytes path.entry.bytes (length (rest path.entry.bytes.now 0 0)))) }
        ensures succeeds { length (key_of (values path.entry.bytes.now)) ≤ 512 → IsOk result }
    {
        let mut buffer = [0u8; STACK_LEN];
        let key = LookupKey::of(self.alloc, path, &mut buffer)?;
        Ok(self.nearest_by(path, key.as_bytes()))
    }
}
