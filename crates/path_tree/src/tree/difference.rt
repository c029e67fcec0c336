//! The entries of one tree that another lacks.
ghost use Rattle.std.specs.Prelude.{◌≡◌, [], IfOk, IsOk, map};
ghost use Rattle.std.specs.List.Sorted.{IsStrictlySortedBy};
ghost use Rattle.std.specs.Map.{keys_of};
ghost use Rattle.std.specs.Map.Iter.{deref_pair};
ghost use Rattle.path_keys.specs.Ranges.{bytes_cmp};
ghost use Rattle.path_tree.specs.Difference.{entries_lacking};

use super::PathTree;
use std::alloc::AllocError;

impl<V> PathTree<V> {
    ghost use Rattle.path_tree.specs.Tree.{entries_of};

    /// Returns the keys of the paths that the other tree lacks, and their values, in path order.
    ///
    /// Walks over both trees once. If this tree has fewer than a sixteenth of the other tree's
    /// entries, it looks up each key in the other tree instead. Allocates as the list grows. Fails
    /// if an allocation fails, and then the list is dropped. If the other tree has all paths, does
    /// not allocate, and succeeds. Like `BTreeSet::difference`, with values.
    ///
    /// With 1 at `a/b` and 2 at `c`, compared with a tree with 3 at `a//b`, it is 63 00 with 2.
    pub fn difference<'a, W>(
        &'a self,
        other: &PathTree<W>,
    ) -> Result<Vec<(&'a [u8], &'a V)>, AllocError>
        ensures entries { IfOk result (λ found. map deref_pair found.items
            ≡ entries_lacking (entries_of other.now) (entries_of self.entry.now)) }
        ensures ordered { IfOk result (λ found.
            IsStrictlySortedBy bytes_cmp (keys_of (map deref_pair found.items))) }
        ensures succeeds { entries_lacking (entries_of other.now) (entries_of self.entry.now) ≡ []
            → IsOk result }
    {
        let mut found = Vec::new(self.alloc);
        let mut others = other.merge_cursor(self.entries.len());
        for (key, value) in self.entries.iter() {
            if others.find(key).is_none() {
                found.push((key.as_slice(), value))?;
            }
        }
        Ok(found)
    }
}
