//! Trees of files in memory: values by path. Equal paths are one key.
ghost use Rattle.std.specs.Prelude.{◌≡◌, IfOk, OnOk, OnErr, []};
ghost use Rattle.std.specs.BTreeMap.{insert_entry, is_at};
ghost use Rattle.std.specs.Map.{lookup, remove_entry};
ghost use Rattle.std.specs.Option.{option_copied};
ghost use Rattle.unix_path.specs.Buffers.{path_bytes};
ghost use Rattle.unix_path.specs.Order.{values_cmp};
ghost use Rattle.unix_path.specs.Parts.{values};
ghost use Rattle.callers.specs.Tree.{rows};

use path_runs::laws;
use std::alloc::{AllocError, Global};
use std::collections::BTreeMap;
use unix_path::{Path, PathBuf};

/// Values by path, like a `BTreeMap<PathBuf, V>`. Equal paths are one key.
///
/// A tree with 1 at `a/b` also has 1 at `a//b`.
#[derive(Drop)]
pub struct Tree<V> {
    files: BTreeMap<PathBuf, V>,
}

impl<V> Tree<V> {
    /// Returns a tree without files. Nothing is allocated yet.
    ///
    /// The new tree has no value at `a`.
    pub fn new(alloc: Global) -> Tree<V>
        ensures { rows result ≡ [] }
    {
        Tree {
            files: BTreeMap::new(alloc),
        }
    }

    /// Inserts the value at the path. Returns the old value of an equal path in the tree, or `None`
    /// if there was no equal path.
    ///
    /// If there is an equal path, it stays as the key, and its value is replaced. Allocates for the
    /// path and, if there is no equal path, for its entry in the tree. Fails if an allocation
    /// fails; then the tree is unchanged, and the value is dropped.
    ///
    /// With 1 at `a/b`, inserting 2 at `a//b/` returns 1, and leaves 2 at `a/b` as the only entry.
    pub fn insert(
        &mut self,
        alloc: Global,
        path: Path<'_>,
        value: V,
    ) -> Result<Option<V>, AllocError>
    where
        V: Drop,
        ensures rows { OnOk result (rows self.new
            ≡ insert_entry values_cmp (rows self.old) (values path.entry.bytes.now) value) }
        ensures old { IfOk result (λ old. old
            ≡ lookup (is_at (values_cmp (values path.entry.bytes.now))) (rows self.old)) }
        ensures err { OnErr result (rows self.new ≡ rows self.old) }
    {
        laws::lookup_by_values::<V>();
        laws::insert_by_values::<V>();
        let key = path.to_path_buf(alloc)?;
        let old = self.files.insert(key, value)?;
        Ok(old)
    }

    /// Returns the value of the path in the tree that is equal to `path`, or `None` if there is no
    /// such path.
    ///
    /// With 1 at `a/b`, the value of `a/./b` is 1.
    pub fn get(&self, path: &PathBuf) -> Option<&V>
        ensures { option_copied result
            ≡ lookup (is_at (values_cmp (values (path_bytes path.now)))) (rows self.now) }
    {
        laws::lookup_by_values::<V>();
        self.files.get(path)
    }

    /// Removes the path in the tree that is equal to `path`. Returns its value, or `None` if there
    /// is no such path.
    ///
    /// With 1 at `a/b` as the only entry, removing `a//b` returns 1, and leaves no files.
    pub fn remove(&mut self, path: &PathBuf) -> Option<V>
        ensures value { result
            ≡ lookup (is_at (values_cmp (values (path_bytes path.now)))) (rows self.old) }
        ensures rows { rows self.new
            ≡ remove_entry (is_at (values_cmp (values (path_bytes path.now)))) (rows self.old) }
    {
        laws::lookup_by_values::<V>();
        laws::remove_by_values::<V>();
        self.files.remove(path)
    }
}
