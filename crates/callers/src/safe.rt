//! Paths that stay below each directory that they are joined to.
ghost use Rattle.std.specs.Prelude.{◌≡◌, ◌↔◌, false, IsTrue};
ghost use Rattle.unix_path.specs.Parts.{is_rooted, values};
ghost use Rattle.callers.specs.Below.{StaysBelow};

use unix_path::laws::walks_in_order;
use unix_path::{Component, Path};

/// Returns true if a path stays below each directory that it is joined to: it is relative, and no
/// component is `..`.
///
/// It is true for `a/..b`, and false for `a/../b` and `/a`.
pub fn stays_below(request: Path<'_>) -> bool
    ensures value { IsTrue result ↔ StaysBelow (values request.entry.bytes.now) }
    ensures rootless { IsTrue result → is_rooted request.entry.bytes.now ≡ false }
{
    walks_in_order();
    !request.has_root()
        && request
            .components()
            .all(|part| part != Component::ParentDir)
}
