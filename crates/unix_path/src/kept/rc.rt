//! Paths with several owners.
ghost use Rattle.std.specs.Prelude.{◌≡◌, ◌↔◌, IsTrue, Some, IfOk};
ghost use Rattle.std.specs.Ordering.{is_eq};
ghost use Rattle.std.specs.Cmp;
ghost use Rattle.std.specs.Cmp.{eq_by_cmp_equiv, partial_order_from_total};
ghost use Rattle.std.specs.Cmp.Rules.{comparing};
ghost use Rattle.std.proofs.Common.{rules, ap};
ghost use Rattle.unix_path.specs.Buffers.{path_bytes};
ghost use Rattle.unix_path.specs.Hashed.{hash_input_of};
ghost use Rattle.unix_path.specs.Pointers.{rc_bytes};
ghost use Rattle.unix_path.specs.Order.{values_cmp};
ghost use Rattle.unix_path.specs.OrderLaws.{values_cmp-total, is_eq-values_cmp};
ghost use Rattle.unix_path.specs.Parts.{values, SameValues};

use crate::buf::PathBuf;
use crate::path::Path;
use std::alloc::{AllocError, Global};
use std::cmp::Ordering;
use std::fmt;
use std::hash::{Hash, Hasher};
use std::rc::RcSlice;

/// A path with several owners, none of whom can edit it.
///
/// Comparison and hashing use the components, as for `Path`. Like Rust's `Rc<Path>`.
///
/// A clone of `foo/` is the same `foo/` with one more owner.
#[derive(Drop)]
pub struct RcPath {
    bytes: RcSlice<u8>,
}

impl RcPath {
    /// Returns a copy of the path, with one owner.
    ///
    /// Allocates once for the count of owners, and once more for the bytes if there are any. Fails
    /// if an allocation fails. Like Rust's `From<&Path>` of `Rc<Path>`.
    ///
    /// For `foo/` it is another `foo/`.
    pub fn from_path(alloc: Global, path: Path<'_>) -> Result<RcPath, AllocError>
        ensures { IfOk result (λ p. rc_bytes p ≡ path.entry.bytes.now) }
    {
        let bytes = RcSlice::from_slice(alloc, path.bytes)?;
        Ok(RcPath { bytes })
    }

    /// Returns a copy of the buffer's bytes, with one owner. The buffer is dropped.
    ///
    /// Allocates once for the count of owners, and once more for the bytes if there are any. Fails
    /// if an allocation fails. Like Rust's `From<PathBuf>` of `Rc<Path>`.
    ///
    /// For `foo/` it is another `foo/`.
    pub fn from_path_buf(alloc: Global, path: PathBuf) -> Result<RcPath, AllocError>
        ensures { IfOk result (λ p. rc_bytes p ≡ path_bytes path) }
    {
        RcPath::from_path(alloc, path.as_path())
    }

    /// Returns the path as a view of all its bytes. Like Rust's `&**path`.
    ///
    /// For a shared `foo/` it is `foo/`.
    #[inline]
    pub fn as_path(&self) -> Path<'_>
        ensures { result.bytes.now ≡ rc_bytes self.now }
    {
        Path {
            bytes: self.bytes.as_slice(),
        }
    }

    /// Returns the same path, with one more owner.
    ///
    /// Does not allocate. Fails if the count of owners is at its limit. In this case Rust ends the
    /// process.
    ///
    /// A clone of `foo/` is `foo/`.
    #[must_use]
    pub fn clone(&self) -> Result<RcPath, AllocError>
        ensures { IfOk result (λ p. rc_bytes p ≡ rc_bytes self.now) }
    {
        let bytes = self.bytes.clone()?;
        Ok(RcPath { bytes })
    }
}

/// Two shared paths are equal if and only if their components are, as for `Path`: `a//b` equals
/// `a/b`.
impl PartialEq for RcPath {
    ghost eq = { λ x y. is_eq (values_cmp (values (rc_bytes x)) (values (rc_bytes y))) };

    ghost laws = { Cmp.partial_equiv_from_equiv
        (eq_by_cmp_equiv (Cmp.on_total (λ path. values (rc_bytes path)) values_cmp-total)) };

    fn eq(&self, other: &Self) -> bool
        ensures value { result
            ≡ is_eq (values_cmp (values (rc_bytes self.now)) (values (rc_bytes other.now))) }
        ensures same { IsTrue result ↔ SameValues (rc_bytes self.now) (rc_bytes other.now) }
    {
        self.as_path() == other.as_path()
    }
}

impl Eq for RcPath {
    ghost laws = { eq_by_cmp_equiv
        (Cmp.on_total (λ path. values (rc_bytes path)) values_cmp-total) };
}

impl PartialOrd for RcPath {
    ghost partial_cmp = { λ x y. Some
        (values_cmp (values (rc_bytes x)) (values (rc_bytes y))) };

    ghost laws = { partial_order_from_total
        (Cmp.on_total (λ path. values (rc_bytes path)) values_cmp-total) };

    fn partial_cmp(&self, other: &Self) -> Option<Ordering> {
        Some(self.cmp(other))
    }
}

/// Shared paths are ordered by their components, as for `Path`: `a/b` comes before `a.b`.
impl Ord for RcPath {
    ghost cmp = { λ x y. values_cmp (values (rc_bytes x)) (values (rc_bytes y)) };

    ghost total = { Cmp.on_total (λ path. values (rc_bytes path)) values_cmp-total };

    ghost matches_partial_cmp = { Prim.search (comparing, rules) };

    ghost matches_eq = { Prim.search (comparing, rules) };

    fn cmp(&self, other: &Self) -> Ordering {
        self.as_path().cmp(&other.as_path())
    }
}

/// Hashes the path like `as_path`: `a//b` and `a/b` have the same hash. A type that hashes several
/// paths should feed the hasher something between them, as explained for `Path`.
impl Hash for RcPath {
    ghost hash_input = { λ path. hash_input_of (values (rc_bytes path)) };

    ghost respects_eq = { λ x y e. ap hash_input_of (is_eq-values_cmp _ _ e) };

    fn hash<H: Hasher>(&self, state: &mut H) {
        self.as_path().hash(state);
    }
}

/// Writes the debug form of `as_path`: for `/tmp` it is `"/tmp"`.
impl fmt::Debug for RcPath {
    fn fmt<W: fmt::Write>(&self, f: &mut fmt::Formatter<W>) -> fmt::Result {
        fmt::Debug::fmt(&self.as_path(), f)
    }
}
