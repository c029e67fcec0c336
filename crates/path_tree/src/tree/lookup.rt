//! Mutable references to values, by path.
ghost use Rattle.std.specs.Prelude.{◌≡◌, ◌≤◌, length, IfOk, IsErrOf, IsOk, IsSome, None, Some};
ghost use Rattle.std.specs.Borrow.{sem};
ghost use Rattle.std.specs.Fmt.{padded};
ghost use Rattle.unix_path.specs.Parts.{values};
ghost use Rattle.path_keys.specs.Keys.{key_of};
ghost use Rattle.path_tree.specs.Entries.{entry_at};

use super::PathTree;
use crate::lookup_key::{LookupKey, STACK_LEN};
use std::alloc::AllocError;
use std::error::Error;
use std::fmt;
use unix_path::Path;

/// The error of [`PathTree::get_mut_path`].
///
/// Its text is formatted like a `str` (width, precision, fill and alignment).
#[derive(Debug, Drop)]
pub enum LookupError {
    /// The tree has no such path. It is printed as `no such path`.
    Absent,
    /// An allocation failed. It is printed as `out of memory`.
    Memory(AllocError),
}

/// Writes the text of the variant, formatted like a `str` (width, precision, fill and alignment).
///
/// `LookupError::Absent` is printed as `no such path`.
impl fmt::Display for LookupError {
    ghost use Rattle.path_tree.specs.Errors.{lookup_error_text};

    ghost output = { λ error. Some (lookup_error_text error) };

    ghost styled_output = { λ error spec. Some (padded spec (lookup_error_text error)) };

    fn fmt<W: fmt::Write>(&self, f: &mut fmt::Formatter<W>) -> fmt::Result {
        f.pad(match self {
            LookupError::Absent => "no such path",
            LookupError::Memory(_) => "out of memory",
        })
    }
}

impl Error for LookupError {}

/// Returns `Memory` with the error of the allocation.
///
/// With it, `?` works on the result of `PathTree::insert` in a function whose error is
/// `LookupError`.
impl From<AllocError> for LookupError {
    ghost use Rattle.path_tree.specs.declared.tree.lookup.LookupError.TheVariants.{Memory};

    ghost from_gives = { λ error variant. variant ≡ Memory error };

    fn from(error: AllocError) -> LookupError {
        LookupError::Memory(error)
    }
}

impl<V> PathTree<V> {
    ghost use Rattle.path_tree.specs.Borrowed.{borrows_found};
    ghost use Rattle.path_tree.specs.Tree.{entries_of};

    /// Returns a mutable reference to the value at the path that is equal to this one.
    ///
    /// Allocates, once, only if the path's key is longer than 512 bytes, which requires a path of
    /// more than 510 bytes. The error is `Memory` if that allocation fails, and otherwise `Absent`
    /// if there is no such path. After an error the tree is unchanged. Like `BTreeMap::get_mut`.
    ///
    /// With 1 at `a/b`, writing 2 through the reference for `a//b` leaves 2 at `a/b`.
    pub fn get_mut_path(&mut self, path: Path<'_>) -> Result<&mut V, LookupError>
        ensures* writes_back { sem 𝓛 (borrows_found V.row self.entry
            (key_of (values path.entry.bytes.now)) result) }
        ensures value { IfOk result (λ value. Some value.now
            ≡ entry_at (key_of (values path.entry.bytes.now)) (entries_of self.old)) }
        ensures absent { IsErrOf result LookupError.Absent
            → entry_at (key_of (values path.entry.bytes.now)) (entries_of self.old) ≡ None }
        ensures absent_short { length (key_of (values path.entry.bytes.now)) ≤ 512
            → entry_at (key_of (values path.entry.bytes.now)) (entries_of self.old) ≡ None
            → IsErrOf result LookupError.Absent }
        ensures succeeds { length (key_of (values path.entry.bytes.now)) ≤ 512
            → IsSome (entry_at (key_of (values path.entry.bytes.now)) (entries_of self.old))
            → IsOk result }
    {
        let mut buffer = [0u8; STACK_LEN];
        let key = LookupKey::of(self.alloc, path, &mut buffer)?;
        match self.find_mut(key.as_bytes()) {
            Some(value) => Ok(value),
            None => Err(LookupError::Absent),
        }
    }
}
