//! Owned paths.
ghost use Rattle.std.specs.Prelude.{◌≡◌, ◌<◌, ◌≤◌, [], length, IfOk, IsOk};
ghost use Rattle.unix_path.specs.Buffers.{path_bytes, capacity};
ghost use Rattle.unix_path.specs.Parts.{values, value_bytes};
ghost use Rattle.unix_path.specs.Rest.{rest};

mod collect;
mod conversions;
mod edits;
mod extensions;
mod order;
mod spare_capacity;

use crate::cursor::Iter;
use crate::path::Path;
pub use extensions::ExtensionError;
use std::alloc::{AllocError, Global};
use std::fmt;
use unix_bytes::bytes::{UnixStr, UnixString};

/// An owned path that can be edited: bytes that slashes separate into components.
///
/// It keeps its allocator. An edit makes at most one allocation, before it removes anything. If the
/// allocation fails, the bytes are unchanged. `extend` is an exception: it pushes item by item, and
/// if a push fails, the items that were pushed before stay joined. `into_boxed_path` drops the path
/// if it fails.
///
/// `foo//bar/.` after `pop` is `foo`.
#[derive(Drop)]
pub struct PathBuf {
    inner: UnixString,
}

impl PathBuf {
    /// Returns the empty path. Does not allocate.
    ///
    /// `PathBuf::new(alloc)` has no component.
    #[must_use]
    #[inline]
    pub fn new(alloc: Global) -> PathBuf
        ensures { path_bytes result ≡ [] }
    {
        PathBuf {
            inner: UnixString::new(alloc),
        }
    }

    /// Returns the empty path with spare capacity for at least `count` bytes.
    ///
    /// Allocates once, and fails if the allocation fails. If `count` is 0, it does not allocate,
    /// and succeeds.
    ///
    /// `PathBuf::with_capacity(alloc, 10)?` can hold 10 bytes before it grows.
    #[must_use]
    pub fn with_capacity(alloc: Global, count: usize) -> Result<PathBuf, AllocError>
        ensures bytes { IfOk result (λ p. path_bytes p ≡ []) }
        ensures capacity { IfOk result (λ p. count ≤ capacity p) }
        ensures succeeds { count ≡ 0 → IsOk result }
    {
        let inner = UnixString::with_capacity(alloc, count)?;
        Ok(PathBuf { inner })
    }

    /// Returns the path as a view of all its bytes.
    ///
    /// After a push of `foo/` onto the empty path, it is `foo/`.
    #[must_use]
    #[inline]
    pub fn as_path(&self) -> Path<'_>
        ensures { result.bytes.now ≡ path_bytes self.now }
    {
        Path::new(self.inner.as_unix_str())
    }

    /// Returns how many bytes the path can hold before it grows.
    ///
    /// After `with_capacity(alloc, 10)` it is at least 10.
    #[must_use]
    #[inline]
    pub fn capacity(&self) -> usize
        ensures { result ≡ capacity self.now }
    {
        self.inner.capacity()
    }

    /// Removes all bytes, and keeps the capacity.
    ///
    /// `/foo` after `clear` has no component.
    #[inline]
    pub fn clear(&mut self)
        ensures bytes { path_bytes self.new ≡ [] }
        ensures capacity { capacity self.new ≡ capacity self.old }
    {
        self.inner.clear();
    }

    /// Returns a copy of the path, with the same allocator.
    ///
    /// Allocates once, and fails if the allocation fails. If the path is empty, it does not
    /// allocate, and succeeds.
    ///
    /// A clone of `foo/` is another `foo/`.
    #[must_use]
    pub fn clone(&self) -> Result<PathBuf, AllocError>
        ensures bytes { IfOk result (λ p. path_bytes p ≡ path_bytes self.now) }
        ensures succeeds { path_bytes self.now ≡ [] → IsOk result }
    {
        let inner = self.inner.clone()?;
        Ok(PathBuf { inner })
    }
}

/// Converts the path into the walk that `as_path().iter()` returns. Like Rust's `IntoIterator` of
/// `&PathBuf`.
///
/// For `/tmp/` it yields `/` and `tmp`.
impl<'a> IntoIterator for &'a PathBuf {
    ghost use Rattle.std.specs.Prelude.{◌^◌, map};
    ghost use Rattle.unix_path.specs.Cursor.{cursor_rest, iter_cursor, iter_bytes};

    type Item = UnixStr<'a>;

    type IntoIter = Iter<'a>;

    ghost into_iter_gives = { λ path walk.
        (cursor_rest (iter_cursor walk) ≡ rest (path_bytes path.now) 0 0)
        × (iter_bytes walk ≡ map value_bytes (values (path_bytes path.now)))
        × (length (iter_bytes walk) < 2 ^ 64) };

    #[inline]
    fn into_iter(self) -> Iter<'a> {
        self.as_path().iter()
    }
}

/// Writes the debug form of `as_path`: for `/tmp` it is `"/tmp"`.
impl fmt::Debug for PathBuf {
    fn fmt<W: fmt::Write>(&self, f: &mut fmt::Formatter<W>) -> fmt::Result {
        fmt::Debug::fmt(&self.as_path(), f)
    }
}
