//! The paths that two trees have with different values.
ghost use Rattle.std.specs.Prelude.{◌≡◌, [], IfOk, IsOk, map};
ghost use Rattle.std.specs.List.Sorted.{IsStrictlySortedBy};
ghost use Rattle.path_keys.specs.Ranges.{bytes_cmp};
ghost use Rattle.path_tree.specs.Changed.{borrowed_both, entries_changed};

use super::PathTree;
use std::alloc::AllocError;

impl<V> PathTree<V> {
    ghost use Rattle.path_tree.specs.Tree.{entries_of};

    /// Returns the keys of the paths that both trees have with different values, each with the
    /// value of this tree and then the value of the other, in path order.
    ///
    /// Walks over both trees once. If this tree has fewer than a sixteenth of the other tree's
    /// entries, it looks up each key in the other tree instead. Allocates as the list grows. Fails
    /// if an allocation fails, and then the list is dropped. If no value differs, does not
    /// allocate, and succeeds.
    ///
    /// With 1 at `a/b`, 2 at `c` and 3 at `d`, compared with a tree with 5 at `a//b` and 2 at `c`,
    /// it is 61 00 62 00 with 1 and 5.
    pub fn changed<'a, 'b>(
        &'a self,
        other: &'b PathTree<V>,
    ) -> Result<Vec<(&'a [u8], &'a V, &'b V)>, AllocError>
    where
        V: PartialEq,
        ensures entries { IfOk result (λ found. map borrowed_both found.items
            ≡ entries_changed V.eq (entries_of other.entry.now) (entries_of self.entry.now)) }
        ensures ordered { IfOk result (λ found.
            IsStrictlySortedBy bytes_cmp (map (λ both. both.0.now) found.items)) }
        ensures succeeds { entries_changed V.eq (entries_of other.entry.now)
            (entries_of self.entry.now) ≡ [] → IsOk result }
    {
        let mut found = Vec::new(self.alloc);
        let mut others = other.merge_cursor(self.entries.len());
        for (key, value) in self.entries.iter() {
            if let Some(other_value) = others.find(key) {
                if !value.eq(other_value) {
                    found.push((key.as_slice(), value, other_value))?;
                }
            }
        }
        Ok(found)
    }
}
