//! Moving entries from one base to another.
ghost use Rattle.std.specs.Prelude.{◌≡◌, ◌↔◌, ◌<◌, ◌++◌, ℕ, List, [], drop, length, true};
ghost use Rattle.std.specs.Prelude.{IfOk, IsErrOf, OnErr, OnOk, Some};
ghost use Rattle.std.specs.Fmt.{padded};
ghost use Rattle.std.specs.List.{AllPass};
ghost use Rattle.std.specs.Map.{keys_of};
ghost use Rattle.unix_path.specs.Prefixes.{IsPrefixOf};
ghost use Rattle.path_keys.specs.Held.{key_bytes};
ghost use Rattle.path_keys.specs.KeyValues.{is_own};
ghost use Rattle.path_tree.specs.Entries.{entries_outside, entries_under, key_entries};
ghost use Rattle.path_tree.specs.Many.{entries_with};
ghost use Rattle.path_tree.specs.Moved.{moved_entries};

use super::PathTree;
use super::sorted::put_last;
use crate::lookup_key::bytes_of;
use path_keys::PathKey;
use std::alloc::{AllocError, Global};
use std::error::Error;
use std::fmt;

/// The error of [`PathTree::move_under`].
///
/// Its text is formatted like a `str` (width, precision, fill and alignment).
#[derive(Debug, Drop)]
pub enum MoveError {
    /// The target starts with the source. It is printed as `the target is inside its source`.
    Inside,
    /// There already are entries under the target. It is printed as `the target has entries`.
    Occupied,
    /// An allocation failed. It is printed as `out of memory`.
    Memory(AllocError),
}

/// Writes the text of the variant, formatted like a `str` (width, precision, fill and alignment).
///
/// `MoveError::Occupied` is printed as `the target has entries`.
impl fmt::Display for MoveError {
    ghost use Rattle.path_tree.specs.Errors.{move_error_text};

    ghost output = { λ error. Some (move_error_text error) };

    ghost styled_output = { λ error spec. Some (padded spec (move_error_text error)) };

    fn fmt<W: fmt::Write>(&self, f: &mut fmt::Formatter<W>) -> fmt::Result {
        f.pad(match self {
            MoveError::Inside => "the target is inside its source",
            MoveError::Occupied => "the target has entries",
            MoveError::Memory(_) => "out of memory",
        })
    }
}

impl Error for MoveError {}

/// Returns `Memory` with the error of the allocation.
///
/// With it, `?` works on the result of `PathTree::insert` in a function whose error is `MoveError`.
impl From<AllocError> for MoveError {
    ghost use Rattle.path_tree.specs.declared.tree.move_under.MoveError.TheVariants.{Memory};

    ghost from_gives = { λ error variant. variant ≡ Memory error };

    fn from(error: AllocError) -> MoveError {
        MoveError::Memory(error)
    }
}

// Returns the key with its prefix `from` replaced by `to`.
fn moved_key(alloc: Global, key: &[u8], from: &[u8], to: &[u8]) -> Result<Vec<u8>, AllocError>
    requires own { is_own key.now ≡ true }
    requires from_own { is_own from.now ≡ true }
    requires to_own { is_own to.now ≡ true }
    requires some { 0 < length from.now }
    requires begins { IsPrefixOf from.now key.now }
    ensures own { IfOk result (λ moved. is_own moved.items ≡ true) }
    ensures bytes { IfOk result (λ moved. moved.items
        ≡ to.now ++ drop (length from.now) key.now) }
{
    let rest = &key[from.len()..];
    let mut moved = Vec::with_capacity(alloc, to.len() + rest.len())?;
    moved.extend_from_slice(to)?;
    moved.extend_from_slice(rest)?;
    Ok(moved)
}

impl<V> PathTree<V> {
    ghost use Rattle.path_tree.specs.Tree.{entries_of};

    // Returns the entries under `from`, with the keys that they have after the move to `to`.
    fn moved(&self, from: &[u8], to: &[u8]) -> Result<Vec<(Vec<u8>, V)>, AllocError>
    where
        V: Copy,
        requires from_own { is_own from.now ≡ true }
        requires to_own { is_own to.now ≡ true }
        requires some { 0 < length from.now }
        ensures own { IfOk result (λ moved. AllPass (λ k. is_own k.items) (keys_of moved.items)) }
        ensures entries { IfOk result (λ moved. key_entries moved.items
            ≡ moved_entries from.now to.now (entries_of self.now)) }
    {
        let mut moved = Vec::new(self.alloc);
        for (key, value) in self.entries.iter() {
            if key.as_slice().starts_with(from) {
                let key = moved_key(self.alloc, key, from, to)?;
                put_last(&mut moved, key, *value)?;
            }
        }
        Ok(moved)
    }

    // Inserts these entries, one after the other. If an insertion fails, the insertions before it
    // stay.
    fn put_all(&mut self, entries: Vec<(Vec<u8>, V)>) -> Result<(), AllocError>
    where
        V: Drop,
        requires { AllPass (λ k. is_own k.items) (keys_of entries.items) }
        ensures ok { OnOk result (entries_of self.new
            ≡ entries_with (entries_of self.old) (key_entries entries.items)) }
        ensures err { OnErr result ((front : List (List ℕ × V))
            × ((last : List (List ℕ × V)) × (key_entries entries.items ≡ front ++ last)
            × (entries_of self.new ≡ entries_with (entries_of self.old) front))) }
    {
        for (key, value) in entries {
            self.put(key, value)?;
        }
        Ok(())
    }

    /// Moves each entry under `from` to the same path under `to`, and returns the number of entries
    /// moved, like `std::fs::rename`.
    ///
    /// The components after `from` in an entry's path then follow `to`. Either all entries are
    /// moved, or the tree is unchanged. The error is
    ///
    /// - `Inside` if and only if `to` starts with `from`. So nothing can be moved from the empty
    ///   path, which is a prefix of every path.
    /// - `Occupied` if and only if an entry is already under `to`, and `to` doesn't start with
    ///   `from`. So a move to the empty path succeeds only if there are no entries.
    /// - `Memory` if an allocation fails.
    ///
    /// The values are copied, because the new entries are inserted before the old ones are removed.
    /// Visits every entry. Allocates for a list of what is moved, for each new key and its entry,
    /// and for the Bloom filter as `insert` does.
    ///
    /// With 1 at `a/b`, 2 at `a` and 3 at `a.b`, a move from `a` to `c/d` moves 2 entries. The tree
    /// then has 1 at `c/d/b`, 2 at `c/d` and 3 at `a.b`.
    pub fn move_under(&mut self, from: &PathKey, to: &PathKey) -> Result<usize, MoveError>
    where
        V: Copy + Drop,
        ensures entries { OnOk result (entries_of self.new ≡ entries_with
            (entries_outside (key_bytes from.now) (entries_of self.old))
            (moved_entries (key_bytes from.now) (key_bytes to.now) (entries_of self.old))) }
        ensures count { IfOk result (λ count. count
            ≡ length (entries_under (key_bytes from.now) (entries_of self.old))) }
        ensures free { OnOk result
            (entries_under (key_bytes to.now) (entries_of self.old) ≡ []) }
        ensures inside { IsErrOf result MoveError.Inside
            ↔ IsPrefixOf (key_bytes from.now) (key_bytes to.now) }
        ensures occupied { IsErrOf result MoveError.Occupied
            ↔ ((IsPrefixOf (key_bytes from.now) (key_bytes to.now) → ⊥)
            × ¬ (entries_under (key_bytes to.now) (entries_of self.old) ≡ [])) }
        ensures err { OnErr result (entries_of self.new ≡ entries_of self.old) }
    {
        if to.starts_with(from) {
            return Err(MoveError::Inside);
        }
        if self.has_under(to) {
            return Err(MoveError::Occupied);
        }
        let moved = self.moved(bytes_of(from), bytes_of(to))?;
        self.show_entries();
        let count = moved.len();
        if let Err(error) = self.put_all(moved) {
            self.remove_under(to);
            return Err(MoveError::Memory(error));
        }
        self.remove_under(from);
        Ok(count)
    }
}
