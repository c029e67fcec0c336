//! A tree of values by path, over the standard library's ordered map of keys.
ghost use Rattle.std.specs.Prelude.{◌≡◌, ◌↔◌, ◌≤◌, [], length, is_some};
ghost use Rattle.std.specs.Prelude.{IfOk, OnOk, OnErr, IsOk, IsTrue, None, Some};
ghost use Rattle.std.specs.Borrow.{sem};
ghost use Rattle.std.specs.BTreeMap.{insert_entry, is_at};
ghost use Rattle.std.specs.List.{AllPass};
ghost use Rattle.std.specs.Map.{keys_of, remove_entry};
ghost use Rattle.std.specs.Option.{option_copied, option_copied_mut};
ghost use Rattle.std.proofs.Props.{props};
ghost use Rattle.unix_path.specs.Parts.{values};
ghost use Rattle.path_runs.specs.Rows.{SameElsewhere};
ghost use Rattle.path_keys.specs.Held.{key_bytes};
ghost use Rattle.path_keys.specs.Keys.{key_of};
ghost use Rattle.path_keys.specs.KeyValues.{is_own};
ghost use Rattle.path_keys.specs.Ranges.{bytes_cmp};
ghost use Rattle.path_tree.specs.Entries.{entry_at};
ghost use Rattle.path_tree.specs.KeyFilter.{may_contain};

mod changed;
mod children;
mod difference;
mod entries;
mod longest_prefix;
mod lookup;
mod many;
mod merge_cursor;
mod move_under;
mod ranges;
mod sorted;

use crate::key_filter::KeyFilter;
use crate::lookup_key::{LookupKey, STACK_LEN, bytes_of, owned_key};
pub use lookup::LookupError;
pub use move_under::MoveError;
use path_keys::PathKey;
pub use sorted::SortedError;
use std::alloc::{AllocError, Global};
use std::collections::BTreeMap;
use std::fmt;
use unix_path::Path;

/// Values by path: a tree in which equal paths are one key, kept as the bytes of `PathKey`.
///
/// The entries are in path order. A look-up needs a key that the caller keeps, or a path, but no
/// owned path. A path's spelling is not kept. Compare `BTreeMap<PathBuf, V>`.
///
/// A tree of more than 64 entries also keeps a Bloom filter over its keys, of one to four bytes for
/// each key, which saves `longest_prefix` most of its look-ups. When the filter is full it is
/// rebuilt. If the allocation for that fails, the tree keeps the filter that it has.
///
/// A tree with 1 at `a/b` also has 1 at `a//b`.
#[derive(Drop)]
pub struct PathTree<V> {
    alloc: Global,
    entries: BTreeMap<Vec<u8>, V>,
    key_filter: KeyFilter,
    ghost own: { AllPass (λ k. is_own k.items) (keys_of entries.entries) } by { Prim.hlevel props },
    ghost filtered: { AllPass (λ k. may_contain key_filter k.items)
        (keys_of entries.entries) } by { Prim.hlevel props },
}

impl<V> PathTree<V> {
    ghost use Rattle.path_tree.specs.Borrowed.{borrows_value};
    ghost use Rattle.path_tree.specs.Tree.{entries_of};

    /// Returns a tree without entries. Does not allocate.
    ///
    /// It has no value at `a`.
    pub fn new(alloc: Global) -> PathTree<V>
        ensures { entries_of result ≡ [] }
    {
        PathTree {
            alloc,
            entries: BTreeMap::new(alloc),
            key_filter: KeyFilter::accept_all(alloc),
        }
    }

    /// Inserts the value at the path, and returns the value that an equal path had; `None` if there
    /// was no equal path.
    ///
    /// Allocates for the path's key, even if the tree has an equal path, and for a new entry. Fails
    /// if one of these allocations fails: then the tree is unchanged, and the value is dropped.
    /// Also allocates for a new Bloom filter when the filter is full, and does not fail if that
    /// allocation fails. To change the value of a path that the tree has, `get_mut` returns a
    /// reference to the value, and does not allocate.
    ///
    /// With 1 at `a/b` and no other entry, inserting 2 at `a//b/` returns 1. The tree then has 2 at
    /// `a/b`, and no other entry.
    pub fn insert(&mut self, path: Path<'_>, value: V) -> Result<Option<V>, AllocError>
    where
        V: Drop,
        ensures entries { OnOk result (entries_of self.new ≡ insert_entry bytes_cmp
            (entries_of self.old) (key_of (values path.entry.bytes.now)) value) }
        ensures old { IfOk result (λ old. old
            ≡ entry_at (key_of (values path.entry.bytes.now)) (entries_of self.old)) }
        ensures found { OnOk result
            (entry_at (key_of (values path.entry.bytes.now)) (entries_of self.new) ≡ Some value) }
        ensures others { OnOk result
            (SameElsewhere bytes_cmp (key_of (values path.entry.bytes.now))
            (entries_of self.old) (entries_of self.new)) }
        ensures err { OnErr result (entries_of self.new ≡ entries_of self.old) }
    {
        let key = owned_key(self.alloc, path)?;
        self.put(key, value)
    }

    /// Returns the value at the path of this key; `None` if there is no such path.
    ///
    /// With 1 at `a/b`, for the key of `a/./b` it is 1.
    pub fn get(&self, key: &PathKey) -> Option<&V>
        ensures { option_copied result ≡ entry_at (key_bytes key.now) (entries_of self.now) }
    {
        self.find(bytes_of(key))
    }

    /// Returns the value at the path that is equal to this one; `None` if there is no such path.
    ///
    /// Allocates, once, only if the path's key is longer than 512 bytes, which requires a path of
    /// more than 510 bytes. Fails only if that allocation fails. Like `BTreeMap::get`.
    ///
    /// With 1 at `a/b`, for `a/./b` it is 1.
    pub fn get_path(&self, path: Path<'_>) -> Result<Option<&V>, AllocError>
        ensures value { IfOk result (λ found. option_copied found
            ≡ entry_at (key_of (values path.entry.bytes.now)) (entries_of self.now)) }
        ensures succeeds { length (key_of (values path.entry.bytes.now)) ≤ 512 → IsOk result }
    {
        let mut buffer = [0u8; STACK_LEN];
        let key = LookupKey::of(self.alloc, path, &mut buffer)?;
        Ok(self.find(key.as_bytes()))
    }

    /// Returns a mutable reference to the value at the path of this key; `None` if there is no such
    /// path.
    ///
    /// With 1 at `a/b`, writing 2 through the reference for the key of `a//b` leaves 2 at `a/b`.
    pub fn get_mut(&mut self, key: &PathKey) -> Option<&mut V>
        ensures* writes_back { sem 𝓛 (borrows_value V.row self.entry (key_bytes key.now) result) }
        ensures value { option_copied_mut result
            ≡ entry_at (key_bytes key.now) (entries_of self.old) }
    {
        self.find_mut(bytes_of(key))
    }

    /// Returns true if the path of this key is in the tree, like `BTreeMap::contains_key`.
    ///
    /// With 1 at `a/b` and no other entry, a tree contains the key of `a//b/`, but not the key of
    /// `a`.
    #[must_use]
    pub fn contains(&self, key: &PathKey) -> bool
        ensures { result ≡ is_some (entry_at (key_bytes key.now) (entries_of self.now)) }
    {
        self.get(key).is_some()
    }

    /// Returns true if an equal path is in the tree, like `BTreeMap::contains_key`.
    ///
    /// Allocates, once, only if the path's key is longer than 512 bytes, which requires a path of
    /// more than 510 bytes. Fails only if that allocation fails.
    ///
    /// With 1 at `a/b` and no other entry, a tree contains `a//b/`, but not `a`.
    pub fn contains_path(&self, path: Path<'_>) -> Result<bool, AllocError>
        ensures value { IfOk result (λ found. found
            ≡ is_some (entry_at (key_of (values path.entry.bytes.now)) (entries_of self.now))) }
        ensures succeeds { length (key_of (values path.entry.bytes.now)) ≤ 512 → IsOk result }
    {
        Ok(self.get_path(path)?.is_some())
    }

    /// Removes the path of this key, and returns its value; `None` if there is no such path.
    ///
    /// With 1 at `a/b` and no other entry, removing the key of `a//b` returns 1 and leaves no
    /// entries.
    pub fn remove(&mut self, key: &PathKey) -> Option<V>
        ensures value { result ≡ entry_at (key_bytes key.now) (entries_of self.old) }
        ensures entries { entries_of self.new
            ≡ remove_entry (is_at (bytes_cmp (key_bytes key.now))) (entries_of self.old) }
        ensures gone { entry_at (key_bytes key.now) (entries_of self.new) ≡ None }
        ensures others { SameElsewhere bytes_cmp (key_bytes key.now)
            (entries_of self.old) (entries_of self.new) }
    {
        self.take(bytes_of(key))
    }

    /// Removes the path that is equal to this one, and returns its value; `None` if there is no
    /// such path.
    ///
    /// Allocates, once, only if the path's key is longer than 512 bytes, which requires a path of
    /// more than 510 bytes. Fails only if that allocation fails, and then the tree is unchanged.
    /// Like `BTreeMap::remove`.
    ///
    /// With 1 at `a/b` and no other entry, removing `a//b` returns 1 and leaves no entries.
    pub fn remove_path(&mut self, path: Path<'_>) -> Result<Option<V>, AllocError>
        ensures value { IfOk result (λ found. found
            ≡ entry_at (key_of (values path.entry.bytes.now)) (entries_of self.old)) }
        ensures entries { OnOk result (entries_of self.new
            ≡ remove_entry (is_at (bytes_cmp (key_of (values path.entry.bytes.now))))
            (entries_of self.old)) }
        ensures gone { OnOk result
            (entry_at (key_of (values path.entry.bytes.now)) (entries_of self.new) ≡ None) }
        ensures others { OnOk result
            (SameElsewhere bytes_cmp (key_of (values path.entry.bytes.now))
            (entries_of self.old) (entries_of self.new)) }
        ensures err { OnErr result (entries_of self.new ≡ entries_of self.old) }
        ensures succeeds { length (key_of (values path.entry.bytes.now)) ≤ 512 → IsOk result }
    {
        let mut buffer = [0u8; STACK_LEN];
        let key = LookupKey::of(self.alloc, path, &mut buffer)?;
        Ok(self.take(key.as_bytes()))
    }

    /// Returns the number of entries.
    ///
    /// It is 1 if 1 was inserted at `a/b`, and then 2 at `a//b`.
    pub fn len(&self) -> usize
        ensures { result ≡ length (entries_of self.now) }
    {
        self.entries.len()
    }

    /// Returns true if there are no entries.
    ///
    /// It is true for a new tree.
    #[must_use]
    pub fn is_empty(&self) -> bool
        ensures { IsTrue result ↔ (entries_of self.now ≡ []) }
    {
        self.entries.is_empty()
    }

    /// Removes all entries.
    ///
    /// With 1 at `a/b`, it leaves no value at `a/b`.
    pub fn clear(&mut self)
    where
        V: Drop,
        ensures { entries_of self.new ≡ [] }
    {
        self.entries.clear();
    }
}

/// Writes the bytes of the keys and their values, in path order, as `BTreeMap` does.
///
/// With 1 at `a/b` it is `{[97, 0, 98, 0]: 1}`.
impl<V: fmt::Debug> fmt::Debug for PathTree<V> {
    fn fmt<W: fmt::Write>(&self, f: &mut fmt::Formatter<W>) -> fmt::Result {
        self.entries.fmt(f)
    }
}
