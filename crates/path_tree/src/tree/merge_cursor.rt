//! A cursor that finds increasing keys in a tree.
ghost use Rattle.std.specs.Prelude.{◌≡◌, List, ℕ};
ghost use Rattle.std.specs.List.Sorted.{IsStrictlySortedBy};
ghost use Rattle.std.specs.Map.{keys_of};
ghost use Rattle.std.specs.Option.{option_copied};
ghost use Rattle.std.specs.declared.cmp.Ordering.TheVariants.{Less};
ghost use Rattle.std.proofs.Props.{props};
ghost use Rattle.path_keys.specs.Ranges.{bytes_cmp};
ghost use Rattle.path_tree.specs.Entries.{entries_from, entry_at, key_entries};

use super::PathTree;
use std::collections::btree_map::Iter;
use unix_bytes::internal::compare_bytes;

// Finds increasing keys in a tree, in one of two ways.
#[derive(Drop)]
pub(super) enum MergeCursor<'a, V> {
    // Walks over the entries up to each key.
    Walk(EntryWalk<'a, V>),
    // Looks each key up.
    LookUp(&'a PathTree<V>),
}

// The entries that a walk has not passed: the next one, and the rest.
#[derive(Drop)]
pub(super) struct EntryWalk<'a, V> {
    next: Option<(&'a Vec<u8>, &'a V)>,
    rest: Iter<'a, Vec<u8>, V>,
    ghost sorted: { IsStrictlySortedBy (λ k l. bytes_cmp k.items l.items)
        (keys_of (entries_from next rest)) } by { Prim.hlevel props },
}

impl<V> PathTree<V> {
    ghost use Rattle.path_tree.specs.Cursor.{cursor_entries};
    ghost use Rattle.path_tree.specs.Tree.{entries_of};

    // Returns a cursor that is to find so many keys. If `keys` is less than a sixteenth of the
    // number of the tree's entries, the cursor looks each key up, which then takes less time than a
    // walk over all entries.
    pub(super) fn merge_cursor(&self, keys: usize) -> MergeCursor<'_, V>
        ensures { cursor_entries result ≡ entries_of self.now }
    {
        if keys < self.entries.len() / 16 {
            return MergeCursor::LookUp(self);
        }
        let mut rest = self.entries.iter();
        let next = rest.next();
        MergeCursor::Walk(EntryWalk { next, rest })
    }
}

impl<'a, V> MergeCursor<'a, V> {
    ghost use Rattle.path_tree.specs.Cursor.{cursor_entries};

    // Returns the value at this key; `None` if there is none. After the call, the cursor finds only
    // greater keys.
    pub(super) fn find(&mut self, key: &Vec<u8>) -> Option<&'a V>
        ensures value { option_copied result
            ≡ entry_at key.now.items (cursor_entries self.old) }
        ensures greater { (k : List ℕ) → bytes_cmp key.now.items k ≡ Less
            → entry_at k (cursor_entries self.new) ≡ entry_at k (cursor_entries self.old) }
    {
        match self {
            MergeCursor::Walk(walk) => walk.find(key),
            MergeCursor::LookUp(tree) => tree.entries.get(key),
        }
    }
}

impl<'a, V> EntryWalk<'a, V> {
    // Passes the entries up to this key, and returns the value at the key; `None` if there is none.
    fn find(&mut self, key: &Vec<u8>) -> Option<&'a V>
        ensures value { option_copied result
            ≡ entry_at key.now.items (key_entries (entries_from self.old.next self.old.rest)) }
        ensures greater { (k : List ℕ) → bytes_cmp key.now.items k ≡ Less
            → entry_at k (key_entries (entries_from self.new.next self.new.rest))
            ≡ entry_at k (key_entries (entries_from self.old.next self.old.rest)) }
    {
        while let Some((other, value)) = self.next {
            let order = compare_bytes(other, key);
            if order.is_gt() {
                return None;
            }
            self.next = self.rest.next();
            if order.is_eq() {
                return Some(value);
            }
        }
        None
    }
}
