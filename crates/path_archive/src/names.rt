//! Tests of one path by itself.
ghost use Rattle.std.specs.Prelude.{◌≡◌, ◌↔◌, ◌&&◌, not, true};
ghost use Rattle.unix_path.specs.Parts.{counts, values};
ghost use Rattle.path_within.specs.Below.{has_nul};
ghost use Rattle.path_within.specs.Escapes.{has_root_or_parent_dir};
ghost use Rattle.path_archive.specs.Entries.{use_as};
ghost use Rattle.path_archive.specs.Rule.{IsNamed, ends_in_name};
ghost use Rattle.path_archive.specs.Slots.{used_as_of};

use crate::outlined::has_root_or_parent_dir;
use crate::slot::is_directory;
use path_within::has_nul;
use unix_bytes::internal::after_last;
use unix_path::Path;

// Returns true if the piece is neither empty nor `.`.
fn counts(piece: &[u8]) -> bool
    ensures { result ≡ counts piece.now }
{
    !(piece == b"".as_slice() || piece == b".".as_slice())
}

// Returns true if the last piece of the path is neither empty nor `.`.
fn ends_in_name(path: &[u8]) -> bool
    ensures { result ≡ ends_in_name path.now }
{
    counts(&path[after_last(path, b'/')..])
}

// Returns true if the path has no root, no `..` and no NUL.
fn goes_down(path: &[u8]) -> bool
    ensures { result ≡ (not (has_root_or_parent_dir (values path.now)) && not (has_nul path.now)) }
{
    !has_root_or_parent_dir(Path::from_bytes(path)) && !has_nul(path)
}

// Returns true if the path has only names and no NUL, and ends in a name unless its rank is a
// directory's.
pub(crate) fn is_named(path: &[u8], rank: usize) -> bool
    ensures { (result ≡ true) ↔ IsNamed (use_as (used_as_of rank) path.now) }
{
    if !goes_down(path) {
        return false;
    }
    is_directory(rank) || ends_in_name(path)
}
