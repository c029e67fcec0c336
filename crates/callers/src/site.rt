//! The files of a site, found by paths of URLs that may contain `..`.
ghost use Rattle.std.specs.Prelude.{◌≡◌, ◌↔◌, IfOk, IfSome, IsErrOf, IsSome};
ghost use Rattle.unix_path.specs.Buffers.{path_bytes};
ghost use Rattle.unix_path.specs.Joins.{join_of};
ghost use Rattle.unix_path.specs.Prefixes.{IsPrefixOf, stripped_of};
ghost use Rattle.unix_path.specs.Parts.{values};
ghost use Rattle.path_within.specs.Resolved.{resolved_bytes_of};
ghost use Rattle.path_within.specs.Escapes.{Escapes};

use path_within::WithinError;
use path_within::within::join_within;
use std::alloc::Global;
use unix_path::{Path, PathBuf};

/// Returns the file that a URL's path names, or `None` if the path does not start with the prefix.
/// The file is the rest of the path after the prefix, joined within the document root.
///
/// Nothing is decoded, and each `..` is dropped with the name before it. The error is `Escapes` if
/// and only if the path starts with the prefix and the rest after the prefix escapes; then nothing
/// is allocated. The error is `Memory` if the allocation fails. Allocates once, and nothing for
/// `None`.
///
/// With the prefix `/static` and the root `/srv/www`, the file of `/static/css/../a.css` is
/// `/srv/www/a.css`, and `/static/../a` is refused.
pub fn file_of(
    alloc: Global,
    prefix: Path<'_>,
    document_root: Path<'_>,
    url: Path<'_>,
) -> Result<Option<PathBuf>, WithinError>
    ensures is_some { IfOk result (λ found. IsSome found
        ↔ IsPrefixOf (values prefix.entry.bytes.now) (values url.entry.bytes.now)) }
    ensures bytes { let rest = stripped_of url.entry.bytes.now prefix.entry.bytes.now in
        IfOk result (λ found. IfSome found (λ p. path_bytes p
        ≡ resolved_bytes_of (join_of document_root.entry.bytes.now rest))) }
    ensures within { IfOk result (λ found. IfSome found (λ p. IsPrefixOf
        (values (resolved_bytes_of document_root.entry.bytes.now)) (values (path_bytes p)))) }
    ensures escapes { let rest = stripped_of url.entry.bytes.now prefix.entry.bytes.now in
        IsErrOf result WithinError.Escapes
        ↔ (IsPrefixOf (values prefix.entry.bytes.now) (values url.entry.bytes.now)
        × Escapes (values rest)) }
{
    let Ok(rest) = url.strip_prefix(prefix) else {
        return Ok(None);
    };
    let file = join_within(alloc, document_root, rest)?;
    Ok(Some(file))
}
