//! The entries of a tree in path order: all entries, and the entries under a base.
ghost use Rattle.std.specs.Prelude.{◌≡◌, ◌<◌, ◌^◌, ◌-◌, [], IfOk, IfSome, IsOk, IsTrue, Some};
ghost use Rattle.std.specs.Prelude.{ℕ, false, length, option_map, slice_get};
ghost use Rattle.std.specs.Global.{Vec};
ghost use Rattle.std.specs.List.{All};
ghost use Rattle.std.specs.List.Sorted.{IsStrictlySortedBy};
ghost use Rattle.std.specs.Map.{keys_of};
ghost use Rattle.std.specs.Map.Iter.{ShowsInOrder, ShowsInReverse, deref_pair};
ghost use Rattle.path_keys.specs.Held.{key_bytes};
ghost use Rattle.path_keys.specs.Keys.{IsKey};
ghost use Rattle.path_keys.specs.Ranges.{bytes_cmp, end_of};
ghost use Rattle.path_tree.specs.Entries.{entries_under, key_entries};

use super::PathTree;
use crate::lookup_key::vec_of;
use path_keys::{KeyRange, PathKey};
use std::alloc::AllocError;
use std::collections::btree_map::{Iter, Range};

impl<V> PathTree<V> {
    ghost use Rattle.path_tree.specs.Tree.{entries_of};

    /// Returns an iterator over the keys and their values, in path order.
    ///
    /// `path_of` reads a key back. With 1 at `a.b` and 2 at `a//b`, the iterator yields 61 00 62 00
    /// with 2, and then 61 2F 62 00 with 1.
    pub fn iter(&self) -> Iter<'_, Vec<u8>, V>
        ensures entries { key_entries result ≡ entries_of self.now }
        ensures ordered { IsStrictlySortedBy bytes_cmp (keys_of (entries_of self.now)) }
        ensures runs { ShowsInOrder (deref_pair {K = Vec ℕ} {X = V}) }
        ensures runs_back { ShowsInReverse (deref_pair {K = Vec ℕ} {X = V}) }
        ensures fits { length (entries_of self.now) < 2 ^ 63 }
    {
        self.entries.iter()
    }

    /// Returns an iterator over the keys that start with the key of the base, and their values, in
    /// path order.
    ///
    /// Whole components count: `a.b` is not under `a`. An entry at the base comes first. The bytes
    /// of a key after the base's key are the key of the rest of the path. The walk visits no other
    /// entries. Allocates once, the length of the base's key, or not at all for the empty path.
    /// Fails if the allocation fails.
    ///
    /// No `..` is resolved: `a/../b` is under `a`. To keep a path below a directory, use
    /// `Request::beneath` and `Root::join` of the crate `path_within`, or its `join_within`.
    ///
    /// With 1 at `a/b`, 2 at `a` and 3 at `a.b`, the iterator under `a` yields 61 00 with 2, and
    /// then 61 00 62 00 with 1.
    pub fn under(&self, base: &PathKey) -> Result<Range<'_, Vec<u8>, V>, AllocError>
        ensures entries { IfOk result (λ range. key_entries range
            ≡ entries_under (key_bytes base.now) (entries_of self.now)) }
        ensures ordered { IfOk result (λ range.
            IsStrictlySortedBy bytes_cmp (keys_of (key_entries range))) }
        ensures runs { IsOk result → ShowsInOrder (deref_pair {K = Vec ℕ} {X = V}) }
        ensures runs_back { IsOk result → ShowsInReverse (deref_pair {K = Vec ℕ} {X = V}) }
        ensures fits { IfOk result (λ range. length range < 2 ^ 63) }
        ensures succeeds { key_bytes base.now ≡ [] → IsOk result }
    {
        let KeyRange { first: _, end } = base.range_under()?;
        let Some(end) = end else {
            return Ok(self.entries.range(..));
        };
        Ok(self.between(vec_of(base), &end))
    }

    // Returns the entries whose keys start with the first key. The second key is the end of their
    // range.
    fn between(&self, first: &Vec<u8>, end: &Vec<u8>) -> Range<'_, Vec<u8>, V>
        requires { end_of first.now.items ≡ Some end.now.items }
        ensures entries { key_entries result
            ≡ entries_under first.now.items (entries_of self.now) }
        ensures ordered { IsStrictlySortedBy bytes_cmp (keys_of (key_entries result)) }
        ensures runs { ShowsInOrder (deref_pair {K = Vec ℕ} {X = V}) }
        ensures runs_back { ShowsInReverse (deref_pair {K = Vec ℕ} {X = V}) }
        ensures fits { length result < 2 ^ 63 }
    {
        self.entries.range(first..end)
    }

    // Returns true if some key of the tree starts with the key of the base.
    pub(super) fn has_under(&self, base: &PathKey) -> bool
        ensures some { IsTrue result
            → entries_under (key_bytes base.now) (entries_of self.now) ≡ [] → ⊥ }
        ensures none { result ≡ false
            → entries_under (key_bytes base.now) (entries_of self.now) ≡ [] }
    {
        let base = vec_of(base);
        match self.entries.range(base..).next() {
            Some((key, _)) => key.as_slice().starts_with(base),
            None => false,
        }
    }

    // Does nothing. Its contract states what the tree's invariant says of the entries.
    #[inline]
    pub(crate) fn show_entries(&self)
        ensures keys { All IsKey (keys_of (entries_of self.now)) }
        ensures ordered { IsStrictlySortedBy bytes_cmp (keys_of (entries_of self.now)) }
    {
        let _len = self.entries.len();
    }

    /// Returns the first key in path order, and its value; `None` if there are no entries. Like
    /// `BTreeMap::first_key_value`.
    ///
    /// With 1 at `a.b` and 2 at `a/b` it is 61 00 62 00 with 2.
    pub fn first(&self) -> Option<(&[u8], &V)>
        ensures entry { option_map deref_pair result ≡ slice_get (entries_of self.now) 0 }
        ensures key { IfSome result (λ entry. IsKey entry.0.now) }
    {
        let Some((key, value)) = self.entries.first_key_value() else {
            return None;
        };
        Some((key.as_slice(), value))
    }

    /// Returns the last key in path order, and its value; `None` if there are no entries. Like
    /// `BTreeMap::last_key_value`.
    ///
    /// With 1 at `a.b` and 2 at `a/b` it is 61 2F 62 00 with 1.
    pub fn last(&self) -> Option<(&[u8], &V)>
        ensures entry { option_map deref_pair result
            ≡ slice_get (entries_of self.now) (length (entries_of self.now) - 1) }
        ensures key { IfSome result (λ entry. IsKey entry.0.now) }
    {
        let Some((key, value)) = self.entries.last_key_value() else {
            return None;
        };
        Some((key.as_slice(), value))
    }
}
