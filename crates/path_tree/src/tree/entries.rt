//! The entries of a tree by the bytes of their keys.
ghost use Rattle.std.specs.Prelude.{◌≡◌, true, IfOk, OnOk, OnErr, None, Some};
ghost use Rattle.std.specs.Borrow.{sem};
ghost use Rattle.std.specs.BTreeMap.{insert_entry, is_at};
ghost use Rattle.std.specs.Map.{remove_entry};
ghost use Rattle.std.specs.Option.{option_copied, option_copied_mut};
ghost use Rattle.path_runs.specs.Rows.{SameElsewhere};
ghost use Rattle.path_keys.specs.KeyValues.{is_own};
ghost use Rattle.path_keys.specs.Ranges.{bytes_cmp};
ghost use Rattle.path_tree.specs.Entries.{entry_at};

use super::PathTree;
use crate::key_filter::KeyFilter;
use std::alloc::AllocError;

impl<V> PathTree<V> {
    ghost use Rattle.path_tree.specs.Borrowed.{borrows_value};
    ghost use Rattle.path_tree.specs.Tree.{entries_of};

    // Returns the value at the key with these bytes; `None` if there is none.
    #[inline]
    pub(super) fn find(&self, key: &[u8]) -> Option<&V>
        ensures { option_copied result ≡ entry_at key.now (entries_of self.now) }
    {
        self.entries.get(key)
    }

    // Does the same as `find`. Faster for keys that the tree lacks, because the filter rules out
    // most of them.
    #[inline]
    pub(super) fn find_filtered(&self, key: &[u8]) -> Option<&V>
        ensures { option_copied result ≡ entry_at key.now (entries_of self.now) }
    {
        if !self.key_filter.may_contain(key) {
            return None;
        }
        self.find(key)
    }

    // Returns a mutable reference to the value at the key with these bytes; `None` if there is
    // none.
    #[inline]
    pub(super) fn find_mut(&mut self, key: &[u8]) -> Option<&mut V>
        ensures* writes_back { sem 𝓛 (borrows_value V.row self.entry key.now result) }
        ensures value { option_copied_mut result ≡ entry_at key.now (entries_of self.old) }
    {
        self.entries.get_mut(key)
    }

    // Inserts the value at this key, and returns the old value; `None` if there was none. Fails if
    // an allocation for the entry fails, and then the entries are unchanged.
    pub(super) fn put(&mut self, key: Vec<u8>, value: V) -> Result<Option<V>, AllocError>
    where
        V: Drop,
        requires { is_own key.items ≡ true }
        ensures entries { OnOk result (entries_of self.new
            ≡ insert_entry bytes_cmp (entries_of self.old) key.items value) }
        ensures old { IfOk result (λ old. old ≡ entry_at key.items (entries_of self.old)) }
        ensures found { OnOk result (entry_at key.items (entries_of self.new) ≡ Some value) }
        ensures others { OnOk result
            (SameElsewhere bytes_cmp key.items (entries_of self.old) (entries_of self.new)) }
        ensures err { OnErr result (entries_of self.new ≡ entries_of self.old) }
    {
        self.key_filter.insert(key.as_slice());
        let old = self.entries.insert(key, value)?;
        self.rebuild_filter();
        Ok(old)
    }

    // Rebuilds the filter if it is saturated. If the allocation fails, the old filter stays.
    pub(super) fn rebuild_filter(&mut self)
        ensures { entries_of self.new ≡ entries_of self.old }
    {
        if self.key_filter.is_saturated(self.entries.len()) {
            if let Ok(filter) = KeyFilter::from_keys(self.alloc, &self.entries) {
                self.key_filter = filter;
            }
        }
    }

    // Removes and returns the value at the key with these bytes; `None` if there is none.
    #[inline]
    pub(super) fn take(&mut self, key: &[u8]) -> Option<V>
        ensures value { result ≡ entry_at key.now (entries_of self.old) }
        ensures entries { entries_of self.new
            ≡ remove_entry (is_at (bytes_cmp key.now)) (entries_of self.old) }
        ensures gone { entry_at key.now (entries_of self.new) ≡ None }
        ensures others { SameElsewhere bytes_cmp key.now (entries_of self.old)
            (entries_of self.new) }
    {
        self.entries.remove(key)
    }
}
