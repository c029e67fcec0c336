//! Answers that are paths.
ghost use Rattle.std.specs.Prelude.{◌≡◌, ◌++◌, OnOk};
ghost use Rattle.unix_path.specs.Joins.{join_of};
ghost use Rattle.unix_path.specs.Parents.{parent_of};
ghost use Rattle.unix_path.specs.Parts.{values};
ghost use Rattle.path_runs.specs.Spelling.{spelling_of};
ghost use Rattle.pathtool.specs.Answers.{optional, strip_answer};

use crate::names::push_optional;
use path_runs::canonical::canonical;
use std::alloc::AllocError;
use unix_path::Path;

/// Appends `base` joined with `path` to `answer`.
///
/// Also allocates for the join.
///
/// For `a` and the empty path appends `a/`.
pub fn push_join(base: Path<'_>, path: Path<'_>, answer: &mut Vec<u8>) -> Result<(), AllocError>
    ensures { OnOk result (answer.new.items
        ≡ answer.old.items ++ join_of base.entry.bytes.now path.entry.bytes.now) }
{
    let joined = base.join(*answer.allocator(), path)?;
    answer.extend_from_slice(joined.as_path().as_unix_str().as_bytes())
}

/// Appends the canonical form of the path to `answer`.
///
/// For the empty path nothing is appended. Also allocates for the canonical form.
///
/// For `.//a/./b/` appends `./a/b`.
pub fn push_canon(path: Path<'_>, answer: &mut Vec<u8>) -> Result<(), AllocError>
    ensures { OnOk result (answer.new.items
        ≡ answer.old.items ++ spelling_of (values path.entry.bytes.now)) }
{
    let spelling = canonical(*answer.allocator(), path)?;
    answer.extend_from_slice(spelling.as_path().as_unix_str().as_bytes())
}

/// Appends `+` and the path's parent to `answer`, or `-` if it has none.
///
/// For `a/b` appends `+a`, and for `/` appends `-`.
#[tactic(auto, using(crate::proofs::AddLemmas::adds_some, crate::proofs::AddLemmas::adds_none))]
pub fn push_parent(path: Path<'_>, answer: &mut Vec<u8>) -> Result<(), AllocError>
    ensures { OnOk result (answer.new.items
        ≡ answer.old.items ++ optional (parent_of path.entry.bytes.now)) }
{
    match path.parent() {
        Some(parent) => push_optional(Some(parent.as_unix_str()), answer),
        None => push_optional(None, answer),
    }
}

/// Appends `+` and the rest of the path after `base` to `answer`, or `prefix not found` if the path
/// doesn't start with the components of `base`.
///
/// For `a/b` and `a` appends `+b`.
#[tactic(auto, using(crate::proofs::AddLemmas::adds_rest, crate::proofs::AddLemmas::adds_error))]
pub fn push_stripped(path: Path<'_>, base: Path<'_>, answer: &mut Vec<u8>) -> Result<(), AllocError>
    ensures { OnOk result (answer.new.items ≡ answer.old.items
        ++ strip_answer path.entry.bytes.now base.entry.bytes.now) }
{
    match path.strip_prefix(base) {
        Ok(rest) => push_optional(Some(rest.as_unix_str()), answer),
        Err(_) => answer.extend_from_slice(b"prefix not found"),
    }
}
