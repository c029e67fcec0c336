//! Boxed paths.
ghost use Rattle.std.specs.Prelude.{◌≡◌, ◌↔◌, [], length, IsTrue, Some, IsOk, IfOk};
ghost use Rattle.std.specs.Ordering.{is_eq};
ghost use Rattle.std.specs.Cmp;
ghost use Rattle.std.specs.Cmp.{eq_by_cmp_equiv, partial_order_from_total};
ghost use Rattle.std.specs.Cmp.Rules.{comparing};
ghost use Rattle.std.proofs.Common.{rules, ap};
ghost use Rattle.unix_path.specs.Buffers.{path_bytes, capacity};
ghost use Rattle.unix_path.specs.Hashed.{hash_input_of};
ghost use Rattle.unix_path.specs.Pointers.{boxed_bytes, cow_bytes, IsBorrowed};
ghost use Rattle.unix_path.specs.Order.{values_cmp};
ghost use Rattle.unix_path.specs.OrderLaws.{values_cmp-total, is_eq-values_cmp};
ghost use Rattle.unix_path.specs.Parts.{values, SameValues};

use crate::buf::PathBuf;
use crate::kept::CowPath;
use crate::path::Path;
use std::alloc::{AllocError, Global};
use std::cmp::Ordering;
use std::fmt;
use std::hash::{Hash, Hasher};
use unix_bytes::bytes::UnixString;

/// An owned path that can't be edited: its bytes, without spare capacity.
///
/// It keeps its allocator. Comparison and hashing use the components, as for `Path`. Like Rust's
/// `Box<Path>`.
///
/// The boxed `foo/` uses 4 bytes.
#[derive(Drop)]
pub struct BoxedPath {
    bytes: UnixString,
}

impl BoxedPath {
    /// Returns a copy of the path.
    ///
    /// Allocates once, and fails if the allocation fails. If the path is empty, it does not
    /// allocate, and succeeds. Like Rust's `From<&Path>` of `Box<Path>`.
    ///
    /// For `foo/` it is another `foo/`.
    pub fn from_path(alloc: Global, path: Path<'_>) -> Result<BoxedPath, AllocError>
        ensures bytes { IfOk result (λ p. boxed_bytes p ≡ path.entry.bytes.now) }
        ensures succeeds { path.entry.bytes.now ≡ [] → IsOk result }
    {
        let bytes = path.as_unix_str().to_unix_string(alloc)?;
        Ok(BoxedPath { bytes })
    }

    /// Converts the buffer into a boxed path with the same bytes, and releases the spare capacity.
    ///
    /// If the buffer has no spare capacity, it does not allocate. Otherwise the bytes are moved; if
    /// this fails, the buffer is dropped. Like Rust's `From<PathBuf>` of `Box<Path>`.
    ///
    /// For `foo/` with the capacity 10 it is `foo/` in 4 bytes.
    pub fn from_path_buf(path: PathBuf) -> Result<BoxedPath, AllocError>
        ensures bytes { IfOk result (λ p. boxed_bytes p ≡ path_bytes path) }
        ensures succeeds { capacity path ≡ length (path_bytes path) → IsOk result }
    {
        let mut path = path;
        path.shrink_to_fit()?;
        Ok(BoxedPath {
            bytes: path.into_unix_string(),
        })
    }

    /// Copies a borrowed path, or converts an owned one and releases its spare capacity.
    ///
    /// For a borrowed path it allocates and fails as `from_path` does, and for an owned one as
    /// `from_path_buf` does. An owned path is dropped on failure. Like Rust's `From<Cow<Path>>` of
    /// `Box<Path>`.
    ///
    /// For a borrowed `foo/` it is a boxed `foo/`.
    pub fn from_cow(alloc: Global, path: CowPath<'_>) -> Result<BoxedPath, AllocError>
        ensures bytes { IfOk result (λ p. boxed_bytes p ≡ cow_bytes path.entry) }
        ensures succeeds { (p : PathBuf) → path.entry ≡ CowPath.Owned p
            → capacity p ≡ length (path_bytes p) → IsOk result }
        ensures succeeds_empty { IsBorrowed path.entry → cow_bytes path.entry ≡ [] → IsOk result }
    {
        match path {
            CowPath::Borrowed(path) => BoxedPath::from_path(alloc, path),
            CowPath::Owned(path) => BoxedPath::from_path_buf(path),
        }
    }

    /// Returns the path as a view of all its bytes. Like Rust's `&**path`.
    ///
    /// For a boxed `foo/` it is `foo/`.
    #[inline]
    pub fn as_path(&self) -> Path<'_>
        ensures { result.bytes.now ≡ boxed_bytes self.now }
    {
        Path::new(self.bytes.as_unix_str())
    }

    /// Returns a copy of the path, with the same allocator.
    ///
    /// Allocates once, and fails if the allocation fails. If the path is empty, it does not
    /// allocate, and succeeds.
    ///
    /// A clone of `foo/` is another `foo/`.
    #[must_use]
    pub fn clone(&self) -> Result<BoxedPath, AllocError>
        ensures bytes { IfOk result (λ p. boxed_bytes p ≡ boxed_bytes self.now) }
        ensures succeeds { boxed_bytes self.now ≡ [] → IsOk result }
    {
        let bytes = self.bytes.clone()?;
        Ok(BoxedPath { bytes })
    }

    /// Converts the path into a buffer, in the same memory.
    ///
    /// Does not allocate, and so never fails.
    ///
    /// For a boxed `foo/` it is `foo/`.
    #[must_use]
    pub fn into_path_buf(self, _alloc: Global) -> Result<PathBuf, AllocError>
        ensures bytes { IfOk result (λ p. path_bytes p ≡ boxed_bytes self) }
        ensures succeeds { IsOk result }
    {
        Ok(PathBuf::from(self.bytes))
    }
}

impl PathBuf {
    /// Converts the path into a boxed path, and releases its spare capacity.
    ///
    /// If there is no spare capacity, it does not allocate. Otherwise the bytes are moved; if this
    /// fails, the path is dropped.
    ///
    /// For `foo/` with the capacity 10 it is `foo/` in 4 bytes.
    #[must_use]
    pub fn into_boxed_path(self) -> Result<BoxedPath, AllocError>
        ensures bytes { IfOk result (λ p. boxed_bytes p ≡ path_bytes self) }
        ensures succeeds { capacity self ≡ length (path_bytes self) → IsOk result }
    {
        BoxedPath::from_path_buf(self)
    }
}

/// Two boxed paths are equal if and only if their components are, as for `Path`: `a//b` equals
/// `a/b`.
impl PartialEq for BoxedPath {
    ghost eq = { λ x y. is_eq (values_cmp (values (boxed_bytes x)) (values (boxed_bytes y))) };

    ghost laws = { Cmp.partial_equiv_from_equiv
        (eq_by_cmp_equiv (Cmp.on_total (λ path. values (boxed_bytes path)) values_cmp-total)) };

    fn eq(&self, other: &Self) -> bool
        ensures value { result
            ≡ is_eq (values_cmp (values (boxed_bytes self.now)) (values (boxed_bytes other.now))) }
        ensures same { IsTrue result ↔ SameValues (boxed_bytes self.now) (boxed_bytes other.now) }
    {
        self.as_path() == other.as_path()
    }
}

impl Eq for BoxedPath {
    ghost laws = { eq_by_cmp_equiv
        (Cmp.on_total (λ path. values (boxed_bytes path)) values_cmp-total) };
}

impl PartialOrd for BoxedPath {
    ghost partial_cmp = { λ x y. Some
        (values_cmp (values (boxed_bytes x)) (values (boxed_bytes y))) };

    ghost laws = { partial_order_from_total
        (Cmp.on_total (λ path. values (boxed_bytes path)) values_cmp-total) };

    fn partial_cmp(&self, other: &Self) -> Option<Ordering> {
        Some(self.cmp(other))
    }
}

/// Boxed paths are ordered by their components, as for `Path`: `a/b` comes before `a.b`.
impl Ord for BoxedPath {
    ghost cmp = { λ x y. values_cmp (values (boxed_bytes x)) (values (boxed_bytes y)) };

    ghost total = { Cmp.on_total (λ path. values (boxed_bytes path)) values_cmp-total };

    ghost matches_partial_cmp = { Prim.search (comparing, rules) };

    ghost matches_eq = { Prim.search (comparing, rules) };

    fn cmp(&self, other: &Self) -> Ordering {
        self.as_path().cmp(&other.as_path())
    }
}

/// Hashes the path like `as_path`: `a//b` and `a/b` have the same hash. A type that hashes several
/// paths should feed the hasher something between them, as explained for `Path`.
impl Hash for BoxedPath {
    ghost hash_input = { λ path. hash_input_of (values (boxed_bytes path)) };

    ghost respects_eq = { λ x y e. ap hash_input_of (is_eq-values_cmp _ _ e) };

    fn hash<H: Hasher>(&self, state: &mut H) {
        self.as_path().hash(state);
    }
}

/// Writes the debug form of `as_path`: for `/tmp` it is `"/tmp"`.
impl fmt::Debug for BoxedPath {
    fn fmt<W: fmt::Write>(&self, f: &mut fmt::Formatter<W>) -> fmt::Result {
        fmt::Debug::fmt(&self.as_path(), f)
    }
}
