//! An unpacker of archives: the paths at which entries are unpacked, and the reasons why some
//! entries are refused.
ghost use Rattle.std.specs.Prelude.{◌≡◌, ◌↔◌, true, false, IfOk, IsErrOf};
ghost use Rattle.unix_path.specs.Buffers.{path_bytes};
ghost use Rattle.unix_path.specs.Parts.{is_rooted, values};
ghost use Rattle.path_within.specs.Below.{below_of, has_nul, IsBelow};
ghost use Rattle.path_within.specs.Escapes.{Escapes};
ghost use Rattle.path_within.specs.Requests.{root_bytes};
ghost use Rattle.path_within.specs.Resolved.{resolved_of};

use path_within::{Request, RequestError, Root};
use std::alloc::{AllocError, Global};
use unix_path::{Path, PathBuf};

/// The reason why an entry is not unpacked.
#[derive(Debug, Drop)]
pub enum UnpackError {
    /// The entry has a root, escapes or has a NUL byte, as the error says.
    Refused(RequestError),
    /// An allocation failed.
    Memory(AllocError),
}

/// Returns `Refused`, with the error of the request.
///
/// It makes `?` work on a `Request::beneath` in a function whose error is an `UnpackError`.
impl From<RequestError> for UnpackError {
    ghost use Rattle.callers.specs.declared.archive.UnpackError.TheVariants.{Refused};

    ghost from_gives = { λ error variant. variant ≡ Refused error };

    fn from(error: RequestError) -> UnpackError {
        UnpackError::Refused(error)
    }
}

/// Returns `Memory`, with the error of the allocation.
///
/// It makes `?` work on a `Root::join` in a function whose error is an `UnpackError`.
impl From<AllocError> for UnpackError {
    ghost use Rattle.callers.specs.declared.archive.UnpackError.TheVariants.{Memory};

    ghost from_gives = { λ error variant. variant ≡ Memory error };

    fn from(error: AllocError) -> UnpackError {
        UnpackError::Memory(error)
    }
}

/// Returns the path at which an entry of an archive is unpacked: the names of the entry, resolved,
/// below the root.
///
/// An entry that has a root, escapes or has a NUL byte is refused, with an error for each, before
/// anything is allocated. Allocates once. Fails with `Memory` if the allocation fails.
///
/// Below `/tmp/x`, the entry `a/./b` is unpacked at `/tmp/x/a/b`, and `../b` is refused as
/// `Escapes`.
pub fn unpack_path(alloc: Global, root: &Root, entry: Path<'_>) -> Result<PathBuf, UnpackError>
    ensures rooted { IsErrOf result (UnpackError.Refused RequestError.Rooted)
        ↔ (is_rooted entry.entry.bytes.now ≡ true) }
    ensures escapes { IsErrOf result (UnpackError.Refused RequestError.Escapes)
        ↔ ((is_rooted entry.entry.bytes.now ≡ false)
        × Escapes (values entry.entry.bytes.now)) }
    ensures nul { IsErrOf result (UnpackError.Refused RequestError.Nul)
        ↔ ((Escapes (values entry.entry.bytes.now) → ⊥)
        × (has_nul entry.entry.bytes.now ≡ true)) }
    ensures bytes { IfOk result (λ p. path_bytes p
        ≡ below_of (root_bytes root.now) (resolved_of (values entry.entry.bytes.now))) }
    ensures below { IfOk result (λ p. IsBelow (root_bytes root.now) (path_bytes p)) }
{
    let request = Request::beneath(entry)?;
    Ok(root.join(alloc, request)?)
}
