//! A table of mounts: paths below mount points, mapped to files below the roots mounted there.
ghost use Rattle.std.specs.Prelude.{◌≡◌, IfOk, IfSome, None};
ghost use Rattle.unix_path.specs.Buffers.{path_bytes};
ghost use Rattle.path_tree.specs.Tree.{entries_of};
ghost use Rattle.callers.specs.Mounts.{IsMounted, IsUnmounted};

use path_tree::PathTree;
use path_within::{Request, Root};
use std::alloc::{AllocError, Global};
use unix_path::{Path, PathBuf};

/// Returns the file of a path: the rest of the path after the nearest mount point, below the root
/// that is mounted there.
///
/// The nearest mount point is the longest mount point that the path starts with. The result is
/// `None` if there is no such mount point, or if a NUL byte follows it in the path. Each `..` after
/// the mount point drops the name before it, and a `..` that would go above the mount point leads
/// to the root mounted there. Allocates for the result, and also for the path's key if the key is
/// longer than 512 bytes. Fails if an allocation fails.
///
/// With `/srv` mounted at `/`, and `/home/me` at `/me`, the file of `/me/../a` is `/home/me/a`.
pub fn mounted_file(
    alloc: Global,
    mounts: &PathTree<Root>,
    path: Path<'_>,
) -> Result<Option<PathBuf>, AllocError>
    ensures file { IfOk result (λ found. IfSome found (λ file.
        IsMounted path.entry.bytes.now (entries_of mounts.now) (path_bytes file))) }
    ensures none { IfOk result (λ found. found ≡ None
        → IsUnmounted path.entry.bytes.now (entries_of mounts.now)) }
{
    let Some((rest, root)) = mounts.longest_prefix(path)? else {
        return Ok(None);
    };
    let Ok(request) = Request::in_root(rest) else {
        return Ok(None);
    };
    let file = root.join(alloc, request)?;
    Ok(Some(file))
}
