//! Trees created at once from items whose paths are strictly increasing.
ghost use Rattle.std.specs.Prelude.{◌≡◌, ℕ, List, [], ◌∷◌, ◌++◌, IfOk, IsErrOf, OnOk, Some, true};
ghost use Rattle.std.specs.BTreeMap.{IsFromIterResult};
ghost use Rattle.std.specs.Fmt.{padded};
ghost use Rattle.std.specs.Global.{Vec};
ghost use Rattle.std.specs.Iterator.{IsFinite};
ghost use Rattle.std.specs.Ordering.{is_lt};
ghost use Rattle.path_keys.specs.Ranges.{bytes_cmp};
ghost use Rattle.path_tree.specs.Sorted.{ListsAll, StopsRising};

use super::PathTree;
use crate::key_filter::KeyFilter;
use crate::lookup_key::owned_key;
use std::alloc::{AllocError, Global};
use std::collections::BTreeMap;
use std::error::Error;
use std::fmt;
use unix_path::Path;

/// The error of [`PathTree::from_sorted`].
///
/// Its text is formatted like a `str` (width, precision, fill and alignment).
#[derive(Debug, Drop)]
pub enum SortedError {
    /// A path is not greater than the path before it. It is printed as `paths are not sorted`.
    NotSorted,
    /// An allocation failed. It is printed as `out of memory`.
    Memory(AllocError),
}

/// Writes the text of the variant, formatted like a `str` (width, precision, fill and alignment).
///
/// `SortedError::NotSorted` is printed as `paths are not sorted`.
impl fmt::Display for SortedError {
    ghost use Rattle.path_tree.specs.Errors.{sorted_error_text};

    ghost output = { λ error. Some (sorted_error_text error) };

    ghost styled_output = { λ error spec. Some (padded spec (sorted_error_text error)) };

    fn fmt<W: fmt::Write>(&self, f: &mut fmt::Formatter<W>) -> fmt::Result {
        f.pad(match self {
            SortedError::NotSorted => "paths are not sorted",
            SortedError::Memory(_) => "out of memory",
        })
    }
}

impl Error for SortedError {}

/// Returns `Memory` with the error of the allocation.
///
/// With it, `?` works on the result of `PathTree::insert` in a function whose error is
/// `SortedError`.
impl From<AllocError> for SortedError {
    ghost use Rattle.path_tree.specs.declared.tree.sorted.SortedError.TheVariants.{Memory};

    ghost from_gives = { λ error variant. variant ≡ Memory error };

    fn from(error: AllocError) -> SortedError {
        SortedError::Memory(error)
    }
}

// Returns true if the key is greater than the last key of the entries, or if there are no entries.
fn rises<V>(entries: &[(Vec<u8>, V)], key: &Vec<u8>) -> bool
    ensures first { entries.now ≡ [] → result ≡ true }
    ensures others { (front : List (Vec ℕ × V)) (last : Vec ℕ × V)
        → entries.now ≡ front ++ last ∷ [] → result ≡ is_lt (bytes_cmp last.0.items key.now.items) }
{
    match entries.last() {
        Some((last, _)) => last.cmp(key).is_lt(),
        None => true,
    }
}

// Appends an entry.
pub(super) fn put_last<V: Drop>(
    entries: &mut Vec<(Vec<u8>, V)>,
    key: Vec<u8>,
    value: V,
) -> Result<(), AllocError>
    ensures { OnOk result (entries.new.items ≡ entries.old.items ++ (key, value) ∷ []) }
{
    entries.push((key, value))?;
    Ok(())
}

// Returns the map of these entries.
fn map_of<V: Drop>(
    alloc: Global,
    entries: Vec<(Vec<u8>, V)>,
) -> Result<BTreeMap<Vec<u8>, V>, AllocError>
    ensures { IfOk result
        (IsFromIterResult (λ k l. bytes_cmp k.items l.items) entries.items) }
{
    entries.into_iter().collect(alloc)
}

impl<V> PathTree<V> {
    ghost use Rattle.path_tree.specs.Tree.{entries_of};

    /// Creates a tree of these values at their paths, which have to be strictly increasing.
    ///
    /// The caller shows that `next` may be called on `items`, and that `items` ends. If a path is
    /// not greater than the path before it, the error is `NotSorted`, and the items after it are
    /// not read. If an allocation fails, the error is `Memory`. After an error all values are
    /// dropped.
    ///
    /// The tree is filled at once, in time linear in the items and the bytes of their keys, whereas
    /// `from_iter` searches the tree for each item. Allocates for each path's key, for two lists of
    /// the items, for the tree, and for the Bloom filter as `insert` does. `FromIterator` of
    /// `BTreeMap` does the same for a sorted list.
    ///
    /// From 1 at `a/b` and 2 at `a.b` it creates a tree with both. For 1 at `b` and 2 at `a` it
    /// fails.
    pub fn from_sorted<'a, I: Iterator<Item = (Path<'a>, V)>>(
        alloc: Global,
        items: I,
    ) -> Result<PathTree<V>, SortedError>
    where
        V: Drop,
        requires can { I.can_next items }
        requires ends { IsFinite (I.remaining items) }
        ensures ok { IfOk result (λ tree. ListsAll I.next_gives items (entries_of tree)) }
        ensures not_sorted { IsErrOf result SortedError.NotSorted
            → StopsRising I.next_gives items }
    {
        let mut entries = Vec::new(alloc);
        for (path, value) in items {
            let key = owned_key(alloc, path)?;
            if !rises(&entries, &key) {
                return Err(SortedError::NotSorted);
            }
            put_last(&mut entries, key, value)?;
        }
        let mut tree = PathTree {
            alloc,
            entries: map_of(alloc, entries)?,
            key_filter: KeyFilter::accept_all(alloc),
        };
        tree.rebuild_filter();
        Ok(tree)
    }
}
