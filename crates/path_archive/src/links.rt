//! Tests of one symbolic link by itself.
ghost use Rattle.std.specs.Prelude.{◌≡◌, ◌↔◌, ◌-◌, false, length, List};
ghost use Rattle.unix_path.specs.Parts.{Value, values};
ghost use Rattle.path_archive.specs.Entries.{components};
ghost use Rattle.path_archive.specs.Rule.{StaysBelow, StaysInside};

use crate::outlined::has_root_or_parent_dir;
use crate::slot::without_dot;
use path_within::has_nul;
use unix_path::laws::walks_in_order;
use unix_path::{Component, Path};

// Returns the number of directories above a path.
fn depth_of(path: &[u8]) -> usize
    ensures { result ≡ length (components path.now) - 1 }
{
    walks_in_order();
    let names = without_dot(Path::from_bytes(path));
    names.components().count().saturating_sub(1)
}

// Returns false if the path has at most `depth` `..`, and after them only names. The directory that
// it starts from has `depth` names.
fn climbs_out(depth: usize, path: Path<'_>) -> bool
    ensures { (here : List Value) → length here ≡ depth
        → ((result ≡ false) ↔ StaysBelow here (values path.entry.bytes.now)) }
{
    let mut above = depth;
    let mut rest = path.components();
    'ups: loop {
        let names = rest.as_path();
        match rest.next() {
            None => return false,
            Some(Component::Normal(_)) => return has_root_or_parent_dir(names),
            Some(Component::RootDir) => return true,
            Some(Component::CurDir) => return true,
            Some(Component::ParentDir) => {
                if above == 0 {
                    return true;
                }
                above -= 1;
            }
        }
    }
}

/// Returns true if the symbolic link at `path` to `target` leads out of the directory in which the
/// path is.
///
/// It is false if and only if the target has no root and no NUL, at most as many `..` as there are
/// directories above the link, and after them only names.
///
/// Purely lexical: the directories above the link may not be links. Accepted entries meet that.
///
/// It is false for `a/b` to `../c`, and true for `a/b` to `../../c`, `/c` or `c/../d`.
#[must_use]
pub fn leads_out(path: &[u8], target: &[u8]) -> bool
    ensures { (result ≡ false) ↔ StaysInside path.now target.now }
{
    if has_nul(target) {
        return true;
    }
    climbs_out(depth_of(path), without_dot(Path::from_bytes(target)))
}
