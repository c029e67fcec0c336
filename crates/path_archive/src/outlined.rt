//! Two tests of other crates, compiled once for all calls of this crate instead of into each.
ghost use Rattle.std.specs.Prelude.{◌≡◌, ◌↔◌, IsTrue};
ghost use Rattle.unix_path.specs.Parts.{values};
ghost use Rattle.unix_path.specs.Prefixes.{IsPrefixOf};
ghost use Rattle.path_within.specs.Escapes.{has_root_or_parent_dir};

use path_within::within;
use unix_path::Path;

// Returns true if the path has a root or a `..`.
#[inline(never)]
pub(crate) fn has_root_or_parent_dir(path: Path<'_>) -> bool
    ensures { result ≡ has_root_or_parent_dir (values path.entry.bytes.now) }
{
    within::has_root_or_parent_dir(path)
}

// Returns true if the path's components start with those of the base.
#[inline(never)]
pub(crate) fn starts_with(path: Path<'_>, base: Path<'_>) -> bool
    ensures { IsTrue result
        ↔ IsPrefixOf (values base.entry.bytes.now) (values path.entry.bytes.now) }
{
    path.starts_with(base)
}
