//! Maps the paths of URLs to files below a document root.
ghost use Rattle.std.specs.Prelude.{◌≡◌, ◌↔◌, false, IfOk, IfSome, IsSome};
ghost use Rattle.unix_path.specs.Buffers.{path_bytes};
ghost use Rattle.unix_path.specs.Prefixes.{IsPrefixOf, stripped_of};
ghost use Rattle.unix_path.specs.Parts.{values};
ghost use Rattle.path_within.specs.Below.{below_of, has_nul, names_below, IsBelow};
ghost use Rattle.path_within.specs.Requests.{root_bytes};

use path_within::{Request, Root};
use std::alloc::{AllocError, Global};
use unix_path::{Path, PathBuf};

/// Returns the file that a URL's path names: the rest of the path after the prefix, below the
/// document root.
///
/// The result is `None` if the path does not start with the prefix, or if the rest has a NUL byte.
/// Nothing is decoded. Each `..` drops the name before it, and a `..` that would go above the
/// prefix leads to the document root. Allocates once, and nothing for `None`. Fails if the
/// allocation fails.
///
/// With the prefix `/static` and the root `/srv/www`, the file of `/static//css/../a.css` is
/// `/srv/www/a.css`.
pub fn map_url(
    alloc: Global,
    prefix: Path<'_>,
    document_root: &Root,
    url: Path<'_>,
) -> Result<Option<PathBuf>, AllocError>
    ensures is_some { let rest = stripped_of url.entry.bytes.now prefix.entry.bytes.now in
        IfOk result (λ found. IsSome found
        ↔ (IsPrefixOf (values prefix.entry.bytes.now) (values url.entry.bytes.now)
        × (has_nul rest ≡ false))) }
    ensures bytes { let rest = stripped_of url.entry.bytes.now prefix.entry.bytes.now in
        IfOk result (λ found. IfSome found (λ p. path_bytes p
        ≡ below_of (root_bytes document_root.now) (names_below (values rest)))) }
    ensures below { IfOk result (λ found. IfSome found (λ p.
        IsBelow (root_bytes document_root.now) (path_bytes p))) }
{
    let Ok(rest) = url.strip_prefix(prefix) else {
        return Ok(None);
    };
    let Ok(request) = Request::in_root(rest) else {
        return Ok(None);
    };
    let file = document_root.join(alloc, request)?;
    Ok(Some(file))
}
