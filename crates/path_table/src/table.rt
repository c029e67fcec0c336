//! A table of values by path, built on the standard library's ordered map.
ghost use Rattle.std.specs.Prelude.{◌≡◌, ◌↔◌, ◌<◌, ◌^◌, [], length, is_some, map};
ghost use Rattle.std.specs.Prelude.{IfOk, OnOk, OnErr, IsOk, IsSome, IsTrue};
ghost use Rattle.std.specs.Borrow.{sem};
ghost use Rattle.std.specs.BTreeMap.{insert_entry, is_at};
ghost use Rattle.std.specs.List.Sorted.{IsStrictlySortedBy};
ghost use Rattle.std.specs.Map.{keys_of, remove_entry};
ghost use Rattle.std.specs.Map.Iter.{ShowsInOrder, ShowsInReverse, deref_pair};
ghost use Rattle.std.specs.Option.{option_copied, option_copied_mut};
ghost use Rattle.unix_path.specs.Buffers.{path_bytes};
ghost use Rattle.unix_path.specs.Order.{values_cmp};
ghost use Rattle.unix_path.specs.Parts.{values};
ghost use Rattle.unix_path.specs.declared.buf.PathBuf.{PathBuf};
ghost use Rattle.path_runs.specs.TableLaws.{rows_of};
ghost use Rattle.path_runs.specs.Rows.{SameElsewhere};
ghost use Rattle.path_table.specs.Table.{entries_of, key_bytes, paths_cmp};
ghost use Rattle.path_runs.specs.Rows.{value_at};
ghost use Rattle.path_table.specs.Table.{table_of};

mod under;

use path_runs::laws;
use std::alloc::{AllocError, Global};
use std::collections::BTreeMap;
use std::collections::btree_map::Iter;
use std::fmt;
pub use under::Under;
use unix_path::PathBuf;

/// A table of values by path, like a `BTreeMap<PathBuf, V>`.
///
/// Equal paths are one key, and the entries are in path order. A table with 1 at `a/b` also has 1
/// at `a//b`.
#[derive(Drop)]
pub struct PathTable<V> {
    inner: BTreeMap<PathBuf, V>,
}

impl<V> PathTable<V> {
    ghost use Rattle.path_table.specs.Lent.{lends_table_value};

    /// Returns a table without entries. Allocates nothing.
    ///
    /// A new table has no value at `a`.
    pub fn new(alloc: Global) -> PathTable<V>
        ensures { table_of result ≡ [] }
    {
        PathTable {
            inner: BTreeMap::new(alloc),
        }
    }

    /// Inserts `value` at `path`. Returns the value that an equal path had, or `None` if there was
    /// no such path.
    ///
    /// If the table has an equal path, that path stays the key with its bytes unchanged, its value
    /// is replaced, and nothing is allocated. Otherwise `path` becomes the key with its bytes
    /// unchanged, which allocates for the entry. If that allocation fails, the call fails, the
    /// table is unchanged, and `path` and `value` are dropped. The bytes of all other keys are
    /// unchanged.
    ///
    /// If a table has only 1 at `a/b`, inserting 2 at `a//b/` returns 1 and leaves only the entry
    /// `a/b` with 2.
    pub fn insert(&mut self, path: PathBuf, value: V) -> Result<Option<V>, AllocError>
    where
        V: Drop,
        ensures rows { OnOk result (table_of self.new
            ≡ insert_entry values_cmp (table_of self.old) (values (path_bytes path)) value) }
        ensures old { IfOk result (λ old. old
            ≡ value_at (values (path_bytes path)) (table_of self.old)) }
        ensures found { OnOk result
            (value_at (values (path_bytes path)) (table_of self.new) ≡ Some value) }
        ensures others { OnOk result (SameElsewhere values_cmp (values (path_bytes path))
            (table_of self.old) (table_of self.new)) }
        ensures entries { OnOk result (entries_of self.new
            ≡ insert_entry paths_cmp (entries_of self.old) path value) }
        ensures key_stays { IfOk result (λ old.
            IsSome old → key_bytes self.new ≡ key_bytes self.old) }
        ensures err { OnErr result (table_of self.new ≡ table_of self.old) }
        ensures err_keys { OnErr result (key_bytes self.new ≡ key_bytes self.old) }
        ensures succeeds { IsSome (value_at (values (path_bytes path)) (table_of self.old))
            → IsOk result }
    {
        laws::lookup_by_values::<V>();
        laws::insert_by_values::<V>();
        let old = self.inner.insert(path, value)?;
        Ok(old)
    }

    /// Returns the value at the path equal to `path`, or `None` if there is no such path.
    ///
    /// If a table has 1 at `a/b`, the value at `a/./b` is 1.
    pub fn get(&self, path: &PathBuf) -> Option<&V>
        ensures { option_copied result
            ≡ value_at (values (path_bytes path.now)) (table_of self.now) }
    {
        laws::lookup_by_values::<V>();
        self.inner.get(path)
    }

    /// Returns a mutable reference to the value at the path equal to `path`, or `None` if there is
    /// no such path.
    ///
    /// If a table has 1 at `a/b`, writing 2 through the reference for `a//b` leaves 2 at `a/b`.
    pub fn get_mut(&mut self, path: &PathBuf) -> Option<&mut V>
        ensures* writes_back { sem 𝓛 (lends_table_value V.row self.entry
            (values (path_bytes path.now)) result) }
        ensures value { option_copied_mut result
            ≡ value_at (values (path_bytes path.now)) (table_of self.old) }
    {
        laws::lookup_by_values::<V>();
        self.inner.get_mut(path)
    }

    /// Removes the entry at the path equal to `path`. Returns its value, or `None` if there is no
    /// such path. The bytes of all other keys are unchanged.
    ///
    /// If a table has only 1 at `a/b`, removing `a//b` returns 1 and leaves no entries.
    pub fn remove(&mut self, path: &PathBuf) -> Option<V>
        ensures value { result ≡ value_at (values (path_bytes path.now)) (table_of self.old) }
        ensures rows { table_of self.new
            ≡ remove_entry (is_at (values_cmp (values (path_bytes path.now))))
            (table_of self.old) }
        ensures gone { value_at (values (path_bytes path.now)) (table_of self.new) ≡ None }
        ensures others { SameElsewhere values_cmp (values (path_bytes path.now))
            (table_of self.old) (table_of self.new) }
        ensures entries { entries_of self.new
            ≡ remove_entry (is_at (paths_cmp path.now)) (entries_of self.old) }
    {
        laws::lookup_by_values::<V>();
        laws::remove_by_values::<V>();
        self.inner.remove(path)
    }

    /// Returns the number of entries.
    ///
    /// If a table has only 1 at `a/b`, and 2 is inserted at `a//b`, the number of entries is still
    /// 1.
    pub fn len(&self) -> usize
        ensures { result ≡ length (table_of self.now) }
    {
        self.inner.len()
    }

    /// Returns true if and only if there are no entries.
    ///
    /// A new table is empty.
    #[must_use]
    pub fn is_empty(&self) -> bool
        ensures { IsTrue result ↔ (table_of self.now ≡ []) }
    {
        self.inner.is_empty()
    }

    /// Removes all entries.
    ///
    /// If a table had 1 at `a/b`, it has no value at `a/b` any more.
    pub fn clear(&mut self)
    where
        V: Drop,
        ensures { table_of self.new ≡ [] }
    {
        self.inner.clear();
    }

    /// Returns an iterator over the entries in path order. The keys have the bytes with which they
    /// were inserted.
    ///
    /// If a table has 1 at `a.b` and 2 at `a//b`, the iterator yields `a//b` with 2, and then `a.b`
    /// with 1.
    pub fn iter(&self) -> Iter<'_, PathBuf, V>
        ensures rows { rows_of path_bytes result ≡ table_of self.now }
        ensures keys { map path_bytes (keys_of result) ≡ key_bytes self.now }
        ensures ordered { IsStrictlySortedBy values_cmp (keys_of (table_of self.now)) }
        ensures runs { ShowsInOrder (deref_pair {K = PathBuf} {X = V}) }
        ensures runs_back { ShowsInReverse (deref_pair {K = PathBuf} {X = V}) }
        ensures fits { length (table_of self.now) < 2 ^ 63 }
    {
        self.inner.iter()
    }

    /// Returns true if and only if the table has a path equal to `path`. Corresponds to Rust's
    /// `BTreeMap::contains_key`.
    ///
    /// A table with only 1 at `a/b` contains `a//b/`, but not `a`.
    #[must_use]
    pub fn contains(&self, path: &PathBuf) -> bool
        ensures { result ≡ is_some (value_at (values (path_bytes path.now)) (table_of self.now)) }
    {
        laws::lookup_by_values::<V>();
        self.inner.contains_key(path)
    }
}

/// Writes the paths and their values in path order, like the debug form of a `BTreeMap`.
///
/// A table with only 1 at `a/b` is written as `{"a/b": 1}`.
impl<V: fmt::Debug> fmt::Debug for PathTable<V> {
    fn fmt<W: fmt::Write>(&self, f: &mut fmt::Formatter<W>) -> fmt::Result {
        self.inner.fmt(f)
    }
}
