//! Inserting many entries one after the other, and removing all entries under a base.
ghost use Rattle.std.specs.Prelude.{◌≡◌, ℕ, List, [], IfOk, OnOk, OnErr, length};
ghost use Rattle.std.specs.Iterator.{IsFinite};
ghost use Rattle.path_keys.specs.Held.{key_bytes};
ghost use Rattle.path_tree.specs.Entries.{entries_outside, entries_under};
ghost use Rattle.path_tree.specs.Many.{InsertsAll, InsertsBeginning};

use super::PathTree;
use crate::lookup_key::bytes_of;
use path_keys::PathKey;
use std::alloc::{AllocError, Global};
use unix_path::Path;

impl<V> PathTree<V> {
    ghost use Rattle.path_tree.specs.Tree.{entries_of};

    /// Creates a tree by inserting each value at its path, one after the other.
    ///
    /// The caller shows that `next` may be called on `items`, and that `items` ends. Of equal
    /// paths, the tree has the value of the last one. Allocates as `insert` does for each item.
    /// Fails if an insertion fails, and then all values are dropped.
    ///
    /// From 1 at `a/b`, 2 at `c` and 3 at `a//b` it creates a tree with 3 at `a/b` and 2 at `c`.
    pub fn from_iter<'a, I: Iterator<Item = (Path<'a>, V)>>(
        alloc: Global,
        items: I,
    ) -> Result<PathTree<V>, AllocError>
    where
        V: Drop,
        requires can { I.can_next items }
        requires ends { IsFinite (I.remaining items) }
        ensures ok { IfOk result (λ tree. InsertsAll I.next_gives items [] (entries_of tree)) }
        ensures err { OnErr result
            ((entries : List (List ℕ × V)) × InsertsBeginning I.next_gives items [] entries) }
    {
        let mut tree = PathTree::new(alloc);
        tree.extend(items)?;
        Ok(tree)
    }

    /// Inserts each value at its path, one after the other.
    ///
    /// The caller shows that `next` may be called on `items`, and that `items` ends. Of equal
    /// paths, the tree has the value of the last one. Allocates as `insert` does for each item. If
    /// an insertion fails, its item is dropped, and the insertions before it stay.
    ///
    /// A tree with 1 at `a/b`, extended by 2 at `c` and 3 at `a//b`, has 3 at `a/b` and 2 at `c`.
    #[tactic(auto, using(crate::proofs::lemmas::entries::ManyLemmas::entries_in_snoc))]
    pub fn extend<'a, I: Iterator<Item = (Path<'a>, V)>>(
        &mut self,
        items: I,
    ) -> Result<(), AllocError>
    where
        V: Drop,
        requires can { I.can_next items }
        requires ends { IsFinite (I.remaining items) }
        ensures ok { OnOk result
            (InsertsAll I.next_gives items (entries_of self.old) (entries_of self.new)) }
        ensures err { OnErr result
            (InsertsBeginning I.next_gives items (entries_of self.old) (entries_of self.new)) }
    {
        for (path, value) in items {
            self.insert(path, value)?;
        }
        Ok(())
    }

    /// Removes each entry whose key starts with the key of the base, and returns the number of
    /// entries removed.
    ///
    /// Whole components count: `a.b` is not under `a`. Visits every entry, like `BTreeMap::retain`.
    ///
    /// With 1 at `a/b`, 2 at `a` and 3 at `a.b`, it removes 2 entries under `a`, and leaves 3 at
    /// `a.b`.
    pub fn remove_under(&mut self, base: &PathKey) -> usize
    where
        V: Drop,
        ensures entries { entries_of self.new
            ≡ entries_outside (key_bytes base.now) (entries_of self.old) }
        ensures count { result
            ≡ length (entries_under (key_bytes base.now) (entries_of self.old)) }
    {
        let base = bytes_of(base);
        let before = self.entries.len();
        self.entries
            .retain(|key, _| !key.as_slice().starts_with(base));
        before - self.entries.len()
    }
}
