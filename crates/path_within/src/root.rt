//! Roots: directories below which requests are joined.
ghost use Rattle.std.specs.Prelude.{◌≡◌, ◌↔◌, ◌+◌, ◌≤◌, ◌∷◌, ◌++◌, [], true, false, length};
ghost use Rattle.std.specs.Prelude.{if◌then◌else◌, vec_capacity};
ghost use Rattle.std.specs.Prelude.{IfOk, IfSome, OnOk, OnErr, IsOk, IsErrOf, IsTrue, Some, None};
ghost use Rattle.std.specs.Fmt.{padded};
ghost use Rattle.unix_path.specs.Buffers.{path_bytes, capacity};
ghost use Rattle.unix_path.specs.Joins.{needs_no_separator};
ghost use Rattle.unix_path.specs.Parts.{slash, values};
ghost use Rattle.unix_path.specs.Prefixes.{IsPrefixOf, stripped_of};
ghost use Rattle.unix_path.specs.Slices.{LiesIn};
ghost use Rattle.path_within.specs.Below.{below_of, has_nul, GoesDown, IsBelow};
ghost use Rattle.path_within.specs.Escapes.{has_root_or_parent_dir};
ghost use Rattle.path_within.specs.NamePieces.{is_names_only};
ghost use Rattle.path_within.specs.Requests.{request_bytes, request_names, request_slice};
ghost use Rattle.path_within.specs.Resolved.{resolved_bytes_of};

use crate::check::{check_parent_dir, has_nul};
use crate::request::Request;
use crate::resolved::resolved;
use core::mem::replace_with;
use std::alloc::{AllocError, Global};
use std::error::Error;
use std::fmt;
use unix_bytes::bytes::UnixString;
use unix_path::internal::needs_no_separator;
use unix_path::{Path, PathBuf};

/// The reason why a path is not below a root.
///
/// Displaying it pads the text like any string.
#[derive(Clone, Copy, Debug, PartialEq, Eq)]
pub enum StripError {
    /// The path does not start with the root's components, or the rest has a root or a `..`. It is
    /// printed as `path is outside its root`.
    Outside,
    /// There is a NUL byte after the root. It is printed as `path has a NUL byte`.
    Nul,
}

/// Writes the text of the variant, padded and truncated like a `str`.
///
/// `StripError::Outside` is printed as `path is outside its root`.
impl fmt::Display for StripError {
    ghost use Rattle.path_within.specs.Errors.{strip_error_text};

    ghost output = { λ error. Some (strip_error_text error) };

    ghost styled_output = { λ error spec. Some (padded spec (strip_error_text error)) };

    fn fmt<W: fmt::Write>(&self, f: &mut fmt::Formatter<W>) -> fmt::Result {
        f.pad(match self {
            StripError::Outside => "path is outside its root",
            StripError::Nul => "path has a NUL byte",
        })
    }
}

impl Error for StripError {}

// Appends bytes that fit in the spare capacity. The early return is never taken. Because of it, the
// compiler leaves out the code that grows the vector, and keeps the vector's fields in registers.
#[inline]
fn append(bytes: &mut Vec<u8>, more: &[u8])
    requires { length bytes.old.items + length more.now ≤ vec_capacity bytes.old }
    ensures bytes { bytes.new.items ≡ bytes.old.items ++ more.now }
    ensures capacity { vec_capacity bytes.old ≤ vec_capacity bytes.new }
{
    if bytes.capacity() - bytes.len() < more.len() {
        return;
    }
    let _ = bytes.extend_from_slice(more);
}

// Returns the second path after the first, with a slash between them unless the first is empty or
// ends in a slash. Reuses the memory of `previous`, which has enough capacity.
#[inline]
fn join_bytes_in(previous: PathBuf, both: (Path<'_>, Path<'_>)) -> (PathBuf, ())
    requires { length both.0.bytes.now + 1 + length both.1.bytes.now ≤ capacity previous }
    ensures bytes { path_bytes result.0 ≡ (both.entry.0.bytes.now
        ++ (if needs_no_separator both.entry.0.bytes.now then [] else slash ∷ []))
        ++ both.entry.1.bytes.now }
    ensures capacity { capacity previous ≤ capacity result.0 }
{
    let (root, path) = both;
    let mut bytes = previous.into_unix_string().into_bytes();
    bytes.clear();
    append(&mut bytes, root.bytes);
    if !needs_no_separator(root.bytes) {
        append(&mut bytes, b"/");
    }
    append(&mut bytes, path.bytes);
    (PathBuf::from(UnixString::from(bytes)), ())
}

// Returns the join of a root and a request. Reuses the memory of `previous`, which has enough
// capacity. First writes the root and the bytes of the request to the memory, with a slash between
// them if one is needed. Then overwrites these bytes with the join, which is at most as long.
#[tactic(auto, using(crate::proofs::lemmas::backward::JoinedLemmas::join_request_in_cases))]
fn join_request_in(previous: PathBuf, both: (Path<'_>, Request<'_>)) -> (PathBuf, ())
    requires { length both.0.bytes.now + 1 + length (request_bytes both.1) ≤ capacity previous }
    ensures bytes { path_bytes result.0
        ≡ below_of both.entry.0.bytes.now (request_names both.entry.1) }
    ensures capacity { capacity previous ≤ capacity result.0 }
{
    let (root, request) = both;
    let (joined, ()) = join_bytes_in(previous, (root, request.as_path()));
    let mut bytes = joined.into_unix_string().into_bytes();
    let len = request.write_below(root, &mut bytes);
    bytes.truncate(len);
    (PathBuf::from(UnixString::from(bytes)), ())
}

/// A directory below which requests are joined. Its path is either resolved once or kept verbatim.
///
/// A join consists of the root's bytes and then only names, and fails only if an allocation fails.
/// Purely lexical: if a component may be a symbolic link, the system has to refuse links below the
/// root.
///
/// Below the root `/srv/./www/`, resolved by `new`, the request `a/../b` is `/srv/www/b`.
#[derive(Debug, Drop)]
pub struct Root {
    path: PathBuf,
}

impl Root {
    ghost use Rattle.path_within.specs.Requests.{root_bytes};

    /// Returns the root with this path, resolved lexically.
    ///
    /// If a component before a `..` may be a symbolic link, use `verbatim`. Allocates the resolved
    /// path once, and fails if the allocation fails. If it is empty, which means the current
    /// directory, allocates nothing, and succeeds.
    ///
    /// For `/srv/a/../www/` it is the root `/srv/www`.
    pub fn new(alloc: Global, path: Path<'_>) -> Result<Root, AllocError>
        ensures bytes { IfOk result (λ r. root_bytes r ≡ resolved_bytes_of path.entry.bytes.now) }
        ensures succeeds { resolved_bytes_of path.entry.bytes.now ≡ [] → IsOk result }
    {
        let path = resolved(alloc, path)?;
        Ok(Root { path })
    }

    /// Returns the root with this path, verbatim.
    ///
    /// It is for roots whose components may be symbolic links: each `..` stays, and the system
    /// determines where it leads. Allocates once, as many bytes as the path has, and fails if the
    /// allocation fails. For the empty path it allocates nothing, and succeeds.
    ///
    /// For `/srv/a/../www/` it is the root `/srv/a/../www/`.
    pub fn verbatim(alloc: Global, path: Path<'_>) -> Result<Root, AllocError>
        ensures bytes { IfOk result (λ r. root_bytes r ≡ path.entry.bytes.now) }
        ensures succeeds { path.entry.bytes.now ≡ [] → IsOk result }
    {
        let path = path.to_path_buf(alloc)?;
        Ok(Root { path })
    }

    /// Returns the path of the root.
    ///
    /// For the root created from `/srv/./www/` by `new` it is `/srv/www`.
    #[must_use]
    #[inline]
    pub fn as_path(&self) -> Path<'_>
        ensures { result.bytes.now ≡ root_bytes self.now }
    {
        self.path.as_path()
    }

    // Replaces the contents of a buffer with the join of the root and a request. The buffer has
    // enough capacity.
    #[inline(always)]
    #[tactic(auto, using(crate::proofs::lemmas::below::BelowLemmas::root_fill_cases))]
    fn fill(&self, buffer: &mut PathBuf, request: Request<'_>)
        requires { length (root_bytes self.now) + 1 + length (request_bytes request)
            ≤ capacity buffer.old }
        ensures bytes { path_bytes buffer.new
            ≡ below_of (root_bytes self.now) (request_names request.entry) }
        ensures capacity { capacity buffer.old ≤ capacity buffer.new }
    {
        if request.is_verbatim() {
            // The request's bytes are its names, so they are copied without being parsed again.
            replace_with(buffer, (self.as_path(), request.as_path()), join_bytes_in);
            return;
        }
        replace_with(buffer, (self.as_path(), request), join_request_in);
    }

    // Returns an upper bound on the length of the join of the root and the request.
    #[inline]
    fn max_len(&self, request: Request<'_>) -> usize
        ensures { result ≡ length (root_bytes self.now) + 1 + length (request_bytes request.entry) }
    {
        self.as_path().as_unix_str().len() + 1 + request.as_path().as_unix_str().len()
    }

    /// Returns the request joined to the root: the root's bytes, and then the request's names, with
    /// a `/` between two names, and a `/` before the first name unless the root is empty or ends in
    /// `/`.
    ///
    /// After the root there is no `..`, no `.`, no NUL and no trailing slash. If the request has no
    /// name, the join is the root itself. Allocates once, one byte more than the root and the
    /// request have together. Fails only if the allocation fails.
    ///
    /// Below `/srv/www` the request `a/../b/` is `/srv/www/b`.
    #[must_use]
    pub fn join(&self, alloc: Global, request: Request<'_>) -> Result<PathBuf, AllocError>
        ensures bytes { IfOk result (λ p. path_bytes p
            ≡ below_of (root_bytes self.now) (request_names request.entry)) }
        ensures begins { IfOk result (λ p. IsPrefixOf (root_bytes self.now) (path_bytes p)) }
        ensures below { IfOk result (λ p. IsBelow (root_bytes self.now) (path_bytes p)) }
    {
        let mut joined = PathBuf::with_capacity(alloc, self.max_len(request))?;
        self.fill(&mut joined, request);
        Ok(joined)
    }

    /// Replaces the contents of the buffer with the join that `join` returns.
    ///
    /// If the buffer's capacity is at least one byte more than the root and the request have
    /// together, it allocates nothing and succeeds. Otherwise it allocates once. If the allocation
    /// fails, the buffer's bytes are unchanged. The capacity never shrinks.
    ///
    /// Below `/srv/www` the request `a` turns a buffer that holds `/tmp` into `/srv/www/a`.
    #[inline(always)]
    pub fn join_into(&self, buffer: &mut PathBuf, request: Request<'_>) -> Result<(), AllocError>
        ensures bytes { OnOk result (path_bytes buffer.new
            ≡ below_of (root_bytes self.now) (request_names request.entry)) }
        ensures begins { OnOk result (IsPrefixOf (root_bytes self.now) (path_bytes buffer.new)) }
        ensures below { OnOk result (IsBelow (root_bytes self.now) (path_bytes buffer.new)) }
        ensures err { OnErr result (path_bytes buffer.new ≡ path_bytes buffer.old) }
        ensures succeeds { length (root_bytes self.now) + 1 + length (request_bytes request.entry)
            ≤ capacity buffer.old → IsOk result }
        ensures capacity { capacity buffer.old ≤ capacity buffer.new }
    {
        // Reserves all capacity first, so that a failed allocation leaves the buffer unchanged.
        let previous = buffer.as_path().as_unix_str().len();
        buffer.reserve(self.max_len(request).saturating_sub(previous))?;
        self.fill(buffer, request);
        Ok(())
    }

    /// Returns the rest of a path after the root, as a request: the inverse of `join`.
    ///
    /// The error is `Outside` if and only if the path does not start with the root's components, or
    /// the rest has a root or a `..`. Otherwise it is `Nul` if and only if the rest has a NUL byte.
    /// Nothing is resolved: a path with a `..` after the root has to be resolved first.
    ///
    /// The request's path is a slice of the path.
    ///
    /// For `/srv//www/a/` and the root `/srv/www` it is the request `a`. `/srv/www2` and
    /// `/srv/www/a/../b` are refused.
    #[tactic(auto, using(crate::proofs::lemmas::names_only::RequestLemmas::request_rootless))]
    pub fn strip<'a>(&self, path: Path<'a>) -> Result<Request<'a>, StripError>
        ensures ok { IsOk result ↔ IsBelow (root_bytes self.now) path.entry.bytes.now }
        ensures nul { IsErrOf result StripError.Nul
            ↔ (GoesDown (root_bytes self.now) path.entry.bytes.now
            × (has_nul (stripped_of path.entry.bytes.now (root_bytes self.now)) ≡ true)) }
        ensures bytes { IfOk result (λ r.
            request_bytes r ≡ stripped_of path.entry.bytes.now (root_bytes self.now)) }
        ensures place { IfOk result (λ r. LiesIn (request_slice r) path.entry.bytes) }
    {
        let Ok(rest) = path.strip_prefix(self.as_path()) else {
            return Err(StripError::Outside);
        };
        let check = check_parent_dir(rest);
        if check.is_refused() {
            return Err(StripError::Outside);
        }
        if has_nul(rest.bytes) {
            return Err(StripError::Nul);
        }
        Ok(Request::from_checked(rest, check.is_names_only()))
    }

    /// Returns true if the path is below the root: it starts with the root's components, and the
    /// rest has no root, no `..` and no NUL byte. The root itself is below the root.
    ///
    /// For the root `/srv/www` it is true for `/srv/www/a`, and false for `/srv/www2`.
    #[must_use]
    pub fn contains(&self, path: Path<'_>) -> bool
        ensures { IsTrue result ↔ IsBelow (root_bytes self.now) path.entry.bytes.now }
    {
        self.strip(path).is_ok()
    }
}
