//! Paths that are borrowed or owned.
ghost use Rattle.std.specs.Prelude.{◌≡◌, ◌↔◌, [], IsTrue, Some, IsOk, IfOk};
ghost use Rattle.std.specs.Ordering.{is_eq};
ghost use Rattle.std.specs.Cmp;
ghost use Rattle.std.specs.Cmp.{eq_by_cmp_equiv, partial_order_from_total};
ghost use Rattle.std.specs.Cmp.Rules.{comparing};
ghost use Rattle.std.proofs.Common.{rules, ap};
ghost use Rattle.unix_path.specs.Buffers.{path_bytes};
ghost use Rattle.unix_path.specs.Hashed.{hash_input_of};
ghost use Rattle.unix_path.specs.Pointers.{cow_bytes, IsBorrowed};
ghost use Rattle.unix_path.specs.Order.{values_cmp};
ghost use Rattle.unix_path.specs.OrderLaws.{values_cmp-total, is_eq-values_cmp};
ghost use Rattle.unix_path.specs.Parts.{values, SameValues};

use crate::buf::PathBuf;
use crate::path::Path;
use std::alloc::{AllocError, Global};
use std::cmp::Ordering;
use std::fmt;
use std::hash::{Hash, Hasher};

/// A path that is either borrowed or owned.
///
/// Comparison and hashing use the components, as for `Path`, whether it is borrowed or owned. Like
/// Rust's `Cow<Path>`.
///
/// `CowPath::from` of a `Path` is `Borrowed`, and of a `PathBuf` it is `Owned`.
#[derive(Drop)]
pub enum CowPath<'a> {
    /// A view of a path.
    Borrowed(Path<'a>),
    /// An owned path.
    Owned(PathBuf),
}

impl<'a> CowPath<'a> {
    /// Returns the path as a view of all its bytes. Like Rust's `&*path`.
    ///
    /// For a borrowed `foo/` it is `foo/`.
    #[inline]
    pub fn as_path(&self) -> Path<'_>
        ensures { result.bytes.now ≡ cow_bytes self.now }
    {
        match self {
            CowPath::Borrowed(path) => *path,
            CowPath::Owned(path) => path.as_path(),
        }
    }

    /// Converts the path into a buffer: a copy if it is borrowed, and the buffer itself if it is
    /// owned.
    ///
    /// Allocates once for a borrowed path that isn't empty, and fails if that allocation fails.
    /// Otherwise it does not allocate, and succeeds.
    ///
    /// For a borrowed `foo/` it is another `foo/`.
    pub fn into_owned(self, alloc: Global) -> Result<PathBuf, AllocError>
        ensures bytes { IfOk result (λ p. path_bytes p ≡ cow_bytes self.entry) }
        ensures succeeds { ¬ (IsBorrowed self.entry) → IsOk result }
        ensures succeeds_empty { cow_bytes self.entry ≡ [] → IsOk result }
    {
        match self {
            CowPath::Borrowed(path) => path.to_path_buf(alloc),
            CowPath::Owned(path) => Ok(path),
        }
    }

    /// Returns the same view if the path is borrowed, and a copy if it is owned.
    ///
    /// Allocates once for an owned path that isn't empty, and fails if that allocation fails.
    /// Otherwise it does not allocate, and succeeds.
    ///
    /// A clone of a borrowed `foo/` borrows the same bytes.
    #[must_use]
    pub fn clone(&self) -> Result<CowPath<'a>, AllocError>
        ensures bytes { IfOk result (λ p. cow_bytes p ≡ cow_bytes self.now) }
        ensures borrowed { IfOk result (λ p. IsBorrowed p ↔ IsBorrowed self.now) }
        ensures succeeds { IsBorrowed self.now → IsOk result }
        ensures succeeds_empty { cow_bytes self.now ≡ [] → IsOk result }
    {
        match self {
            CowPath::Borrowed(path) => Ok(CowPath::Borrowed(*path)),
            CowPath::Owned(path) => Ok(CowPath::Owned(path.clone()?)),
        }
    }
}

/// Returns the path, borrowed. Like Rust's `From<&Path>` of `Cow<Path>`.
///
/// For `foo/` it is a borrowed `foo/`.
impl<'a> From<Path<'a>> for CowPath<'a> {
    ghost from_gives = { λ path cow. (cow_bytes cow ≡ path.bytes.now) × IsBorrowed cow };

    #[inline]
    fn from(path: Path<'a>) -> CowPath<'a> {
        CowPath::Borrowed(path)
    }
}

/// Returns the path, owned.
///
/// For `foo/` it is an owned `foo/`.
impl<'a> From<PathBuf> for CowPath<'a> {
    ghost from_gives = { λ path cow. (cow_bytes cow ≡ path_bytes path) × ¬ (IsBorrowed cow) };

    #[inline]
    fn from(path: PathBuf) -> CowPath<'a> {
        CowPath::Owned(path)
    }
}

/// Returns the path, borrowed.
///
/// For `foo/` it is a borrowed `foo/`.
impl<'a> From<&'a PathBuf> for CowPath<'a> {
    ghost from_gives = { λ path cow. (cow_bytes cow ≡ path_bytes path.now) × IsBorrowed cow };

    #[inline]
    fn from(path: &'a PathBuf) -> CowPath<'a> {
        CowPath::Borrowed(path.as_path())
    }
}

/// Two paths are equal if and only if their components are, as for `Path`, whether they are
/// borrowed or owned: `a//b` equals `a/b`.
impl PartialEq for CowPath<'_> {
    ghost eq = { λ x y. is_eq (values_cmp (values (cow_bytes x)) (values (cow_bytes y))) };

    ghost laws = { Cmp.partial_equiv_from_equiv
        (eq_by_cmp_equiv (Cmp.on_total (λ path. values (cow_bytes path)) values_cmp-total)) };

    fn eq(&self, other: &Self) -> bool
        ensures value { result
            ≡ is_eq (values_cmp (values (cow_bytes self.now)) (values (cow_bytes other.now))) }
        ensures same { IsTrue result ↔ SameValues (cow_bytes self.now) (cow_bytes other.now) }
    {
        self.as_path() == other.as_path()
    }
}

impl Eq for CowPath<'_> {
    ghost laws = { eq_by_cmp_equiv
        (Cmp.on_total (λ path. values (cow_bytes path)) values_cmp-total) };
}

impl PartialOrd for CowPath<'_> {
    ghost partial_cmp = { λ x y. Some
        (values_cmp (values (cow_bytes x)) (values (cow_bytes y))) };

    ghost laws = { partial_order_from_total
        (Cmp.on_total (λ path. values (cow_bytes path)) values_cmp-total) };

    fn partial_cmp(&self, other: &Self) -> Option<Ordering> {
        Some(self.cmp(other))
    }
}

/// Paths that are borrowed or owned are ordered by their components, as for `Path`: `a/b` comes
/// before `a.b`.
impl Ord for CowPath<'_> {
    ghost cmp = { λ x y. values_cmp (values (cow_bytes x)) (values (cow_bytes y)) };

    ghost total = { Cmp.on_total (λ path. values (cow_bytes path)) values_cmp-total };

    ghost matches_partial_cmp = { Prim.search (comparing, rules) };

    ghost matches_eq = { Prim.search (comparing, rules) };

    fn cmp(&self, other: &Self) -> Ordering {
        self.as_path().cmp(&other.as_path())
    }
}

/// Hashes the path like `as_path`: `a//b` and `a/b` have the same hash. A type that hashes several
/// paths should feed the hasher something between them, as explained for `Path`.
impl Hash for CowPath<'_> {
    ghost hash_input = { λ path. hash_input_of (values (cow_bytes path)) };

    ghost respects_eq = { λ x y e. ap hash_input_of (is_eq-values_cmp _ _ e) };

    fn hash<H: Hasher>(&self, state: &mut H) {
        self.as_path().hash(state);
    }
}

/// Writes the debug form of `as_path`: for `/tmp` it is `"/tmp"`.
impl fmt::Debug for CowPath<'_> {
    fn fmt<W: fmt::Write>(&self, f: &mut fmt::Formatter<W>) -> fmt::Result {
        fmt::Debug::fmt(&self.as_path(), f)
    }
}
