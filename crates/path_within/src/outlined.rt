//! A test that is compiled once for the calls that inlining it would hardly make faster.
ghost use Rattle.std.specs.Prelude.{◌≡◌, true, IsTrue};
ghost use Rattle.path_within.specs.NamePieces.{is_names_only};

use crate::names_only;
use unix_path::Path;

// Returns true only if the path is one of names only, like the function of the same name.
#[inline(never)]
pub(crate) fn is_names_only(path: Path<'_>) -> bool
    ensures { IsTrue result → is_names_only path.entry.bytes.now ≡ true }
{
    names_only::is_names_only(path)
}
