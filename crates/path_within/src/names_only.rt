//! Paths of names only: the bytes of such a path are an optional root, and then one or more names
//! with single slashes between them.
ghost use Rattle.std.specs.Prelude.{◌≡◌, not, true, IsTrue};
ghost use Rattle.unix_path.specs.NameRunEnds.{no_name_starts_at};
ghost use Rattle.unix_path.specs.Parts.{dot, slash};
ghost use Rattle.path_within.specs.NamePieces.{is_names_only};

use unix_path::Path;
use unix_path::internal::{has_no_name_run_end, no_name_starts_at};

// Returns true if the piece that begins at `at` is a name: neither empty, nor `.`, nor `..`.
#[inline]
pub(crate) fn name_starts_at(bytes: &[u8], at: usize) -> bool
    ensures { result ≡ not (no_name_starts_at slash dot bytes.now at) }
{
    !no_name_starts_at(bytes, at, b'/', b'.')
}

// Returns true only if the path is one of names only. Returns false even for such a path if its
// last byte is a dot. The first piece and the last byte are read first, because they rule out most
// paths that escape.
#[inline(always)]
pub(crate) fn is_names_only(path: Path<'_>) -> bool
    ensures { IsTrue result → is_names_only path.entry.bytes.now ≡ true }
{
    let bytes = &path.bytes[usize::from(path.has_root())..];
    if !name_starts_at(bytes, 0) || matches!(bytes.last(), Some(b'/' | b'.')) {
        return false;
    }
    has_no_name_run_end(bytes, b'/', b'.')
}
