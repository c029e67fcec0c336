//! A router: finds the handler of a path, which is that of the longest route that is a prefix of
//! the path.
ghost use Rattle.std.specs.Prelude.{IfOk};
ghost use Rattle.path_tree.specs.Tree.{entries_of};
ghost use Rattle.callers.specs.Router.{IsRouted};

use path_tree::PathTree;
use std::alloc::AllocError;
use unix_path::Path;

/// Finds the longest route that is a prefix of a path. Returns the handler of the route, and the
/// rest of the path after the route.
///
/// If no route is a prefix of the path, returns the fallback and the whole path. A prefix consists
/// of whole components, and no `..` is resolved. Allocates, once, only if the path's key is longer
/// than 512 bytes, which requires a path of more than 510 bytes. Fails only if that allocation
/// fails.
///
/// With 1 at `/` and 2 at `/api`, `/api//users` has the handler 2 and the rest `users`, and `/apis`
/// has the handler 1 and the rest `apis`.
pub fn route<'a, 'r, H>(
    routes: &'r PathTree<H>,
    fallback: &'r H,
    path: Path<'a>,
) -> Result<(&'r H, Path<'a>), AllocError>
    ensures { IfOk result (λ route. IsRouted path.entry.bytes.now (entries_of routes.entry.now)
        fallback.entry.now route.1.bytes.now route.0.now) }
{
    match routes.longest_prefix(path)? {
        Some((rest, handler)) => Ok((handler, rest)),
        None => Ok((fallback, path)),
    }
}
