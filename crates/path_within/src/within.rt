//! Joins that stay under a root.
ghost use Rattle.std.specs.Prelude.{◌≡◌, ◌↔◌, true, false, [], IfOk, IsOk, IsErrOf, IsTrue, Some};
ghost use Rattle.std.specs.Fmt.{padded};
ghost use Rattle.unix_path.specs.Buffers.{path_bytes};
ghost use Rattle.unix_path.specs.Joins.{join_of};
ghost use Rattle.unix_path.specs.Parts.{values};
ghost use Rattle.unix_path.specs.Prefixes.{IsPrefixOf};
ghost use Rattle.path_within.specs.Below.{has_nul};
ghost use Rattle.path_within.specs.Escapes.{Escapes, has_root_or_parent_dir};
ghost use Rattle.path_within.specs.Resolved.{resolved_bytes_of};

use crate::check::{check_escape, has_nul};
pub use crate::check::{escapes, has_root_or_parent_dir};
use crate::names_only::is_names_only;
use crate::write::Layout;
use std::alloc::{AllocError, Global};
use std::error::Error;
use std::fmt;
use unix_path::{Path, PathBuf};

/// The error of `join_within` and `join_verbatim`.
///
/// Displaying it pads the text like any string.
#[derive(Debug, Drop)]
pub enum WithinError {
    /// The request escapes or, for `join_verbatim`, has a root or a `..`. It is printed as
    /// `path leaves its root`.
    Escapes,
    /// The request has a NUL byte, and neither a root nor a `..`. Only `join_verbatim` returns this
    /// error. It is printed as `path has a NUL byte`.
    Nul,
    /// An allocation failed. It is printed as `out of memory`.
    Memory(AllocError),
}

/// Writes the text of the variant, padded and truncated like a `str`.
///
/// `WithinError::Escapes` is printed as `path leaves its root`.
impl fmt::Display for WithinError {
    ghost use Rattle.path_within.specs.Errors.{within_error_text};

    ghost output = { λ error. Some (within_error_text error) };

    ghost styled_output = { λ error spec. Some (padded spec (within_error_text error)) };

    fn fmt<W: fmt::Write>(&self, f: &mut fmt::Formatter<W>) -> fmt::Result {
        f.pad(match self {
            WithinError::Escapes => "path leaves its root",
            WithinError::Nul => "path has a NUL byte",
            WithinError::Memory(_) => "out of memory",
        })
    }
}

impl Error for WithinError {}

/// Returns `Memory`, with the error of the allocation.
///
/// It makes `?` work on a `Path::join` in a function whose error is a `WithinError`.
impl From<AllocError> for WithinError {
    ghost use Rattle.path_within.specs.declared.within.WithinError.TheVariants.{Memory};

    ghost from_gives = { λ error variant. variant ≡ Memory error };

    fn from(error: AllocError) -> WithinError {
        WithinError::Memory(error)
    }
}

/// Joins the request to the root, and resolves the join lexically. The result starts with the
/// resolved root.
///
/// The error is `Escapes` if and only if the request escapes; nothing has been allocated then. The
/// error is `Memory` if the allocation fails. A trailing slash of the request is dropped, and the
/// result may be the root itself. A request with a leading slash is refused; for paths of URLs use
/// `Request::in_root`. The join is allocated once; an empty join allocates nothing, and succeeds.
///
/// Purely lexical: if a component of the root or of the request may be a symbolic link, use
/// `join_verbatim` and let the system refuse links.
///
/// A request with a NUL byte is not refused, and `..\0` is a name. A system call reads a path only
/// up to its first NUL, so it may read the result as the root's parent. For `/srv` and `..\0/a` the
/// result is `/srv/..\0/a`, which a system call reads as `/srv/..`. `Request::beneath` and
/// `Request::in_root` refuse a path with a NUL, and `has_nul` tests for one.
///
/// `/srv/www` with `a/../b` is `/srv/www/b`. With `a/../../x` it is refused.
pub fn join_within(alloc: Global, root: Path<'_>, request: Path<'_>) -> Result<PathBuf, WithinError>
    ensures escapes { IsErrOf result WithinError.Escapes
        ↔ Escapes (values request.entry.bytes.now) }
    ensures nul { IsErrOf result WithinError.Nul → ⊥ }
    ensures bytes { IfOk result (λ p. path_bytes p
        ≡ resolved_bytes_of (join_of root.entry.bytes.now request.entry.bytes.now)) }
    ensures succeeds { (Escapes (values request.entry.bytes.now) → ⊥)
        → resolved_bytes_of (join_of root.entry.bytes.now request.entry.bytes.now) ≡ []
        → IsOk result }
    ensures within { IfOk result (λ p. IsPrefixOf (values (resolved_bytes_of root.entry.bytes.now))
        (values (path_bytes p))) }
{
    let check = check_escape(request);
    if check.is_refused() {
        return Err(WithinError::Escapes);
    }
    let is_request_names_only = check.is_names_only();
    if is_request_names_only && is_names_only(root) {
        // The join is resolved already.
        return Ok(root.join(alloc, request)?);
    }
    let names = Layout::names_of(request, is_request_names_only);
    let layout = Layout::of(root).with(names);
    Ok(layout.to_path_buf(alloc)?)
}

/// Returns the request joined to the root, both verbatim, if the request has no root, no `..` and
/// no NUL.
///
/// It is for a root whose components may be symbolic links: each `..` of the root stays. Lexically,
/// the request only goes down from the root. The system follows a link below the root wherever it
/// leads. The root may contain a NUL. A trailing slash of the request stays, and the result may be
/// the root itself, with a trailing slash. A request with a leading slash is refused; for paths of
/// URLs use `Request::in_root`.
///
/// The error is `Escapes` if and only if the request has a root or any `..`. Otherwise it is `Nul`
/// if and only if the request has a NUL byte, at which a system call would end the join. Nothing
/// has been allocated in either case. The error is `Memory` if the allocation fails. Allocates
/// once, as many bytes as the join has. If both paths are empty, it allocates nothing and succeeds.
///
/// `/srv/../www` with `./a` is `/srv/../www/./a`. With `a/../b` or `..\0/a` it is refused.
pub fn join_verbatim(
    alloc: Global,
    root: Path<'_>,
    request: Path<'_>,
) -> Result<PathBuf, WithinError>
    ensures escapes { IsErrOf result WithinError.Escapes
        ↔ (has_root_or_parent_dir (values request.entry.bytes.now) ≡ true) }
    ensures nul { IsErrOf result WithinError.Nul
        ↔ ((has_root_or_parent_dir (values request.entry.bytes.now) ≡ false)
        × (has_nul request.entry.bytes.now ≡ true)) }
    ensures bytes { IfOk result (λ p. path_bytes p
        ≡ join_of root.entry.bytes.now request.entry.bytes.now) }
    ensures within { IfOk result (λ p. IsPrefixOf (values root.entry.bytes.now)
        (values (path_bytes p))) }
    ensures succeeds { root.entry.bytes.now ≡ [] → request.entry.bytes.now ≡ [] → IsOk result }
{
    if has_root_or_parent_dir(request) {
        return Err(WithinError::Escapes);
    }
    if has_nul(request.bytes) {
        return Err(WithinError::Nul);
    }
    Ok(root.join(alloc, request)?)
}
