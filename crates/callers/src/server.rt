//! A file server: the files that requests name, each written to the same buffer.
ghost use Rattle.std.specs.Prelude.{◌≡◌, ◌↔◌, false, IfOk, OnErr, IsTrue};
ghost use Rattle.std.specs.Bool.{OnTrue, OnFalse};
ghost use Rattle.unix_path.specs.Buffers.{path_bytes};
ghost use Rattle.unix_path.specs.Parts.{values};
ghost use Rattle.path_within.specs.Below.{below_of, has_nul, names_below, IsBelow};
ghost use Rattle.path_within.specs.Requests.{root_bytes};

use path_within::{Request, Root};
use std::alloc::AllocError;
use unix_path::{Path, PathBuf};

/// Sets `file` to the path of the file that a request names, below the served root. Returns false
/// if and only if the request has a NUL byte; then `file` is unchanged.
///
/// The request is read as in a chroot: leading slashes are dropped, and a `..` that would go above
/// the served root leads to this root. Allocates only if the capacity of `file` is too small. If
/// the allocation fails, `file` is unchanged.
///
/// Below `/srv/www`, the file of `/a/../../b.html` is `/srv/www/b.html`.
pub fn find_file(root: &Root, file: &mut PathBuf, request: Path<'_>) -> Result<bool, AllocError>
    ensures found { IfOk result (λ found.
        IsTrue found ↔ (has_nul request.entry.bytes.now ≡ false)) }
    ensures bytes { IfOk result (λ found. OnTrue found (path_bytes file.new
        ≡ below_of (root_bytes root.now) (names_below (values request.entry.bytes.now)))) }
    ensures below { IfOk result (λ found.
        OnTrue found (IsBelow (root_bytes root.now) (path_bytes file.new))) }
    ensures refused { IfOk result (λ found.
        OnFalse found (path_bytes file.new ≡ path_bytes file.old)) }
    ensures err { OnErr result (path_bytes file.new ≡ path_bytes file.old) }
{
    let Ok(request) = Request::in_root(request) else {
        return Ok(false);
    };
    root.join_into(file, request)?;
    Ok(true)
}
