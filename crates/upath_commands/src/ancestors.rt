//! The answers of `parent` and `ancestors`.
ghost use Rattle.std.specs.Prelude.{◌≡◌, ◌++◌, ◌∷◌, OnOk, map, option_map};
ghost use Rattle.unix_path.specs.Ancestors.{remaining_ancestors};
ghost use Rattle.upath_commands.specs.Answers.{dot_if_empty, is_current, parent_answer};
ghost use Rattle.upath_commands.specs.Answers.{parents_answer, record_output, up_to_current};

use crate::answer::dot_if_empty;
use crate::command::Options;
use crate::push::push_answer;
use std::alloc::AllocError;
use unix_path::Path;
use unix_path::cursor::Ancestors;

// Returns true if and only if the path equals `.`.
fn is_current(path: Path<'_>) -> bool
    ensures { result ≡ is_current path.entry.bytes.now }
{
    path == Path { bytes: b"." }
}

// Returns the parent, or `None` of the empty path, the root and `.`.
pub(crate) fn parent_answer(path: Path<'_>) -> Option<Path<'_>>
    ensures { option_map (λ parent. parent.bytes.now) result
        ≡ parent_answer path.entry.bytes.now }
{
    if is_current(path) {
        return None;
    }
    Some(dot_if_empty(path.parent()?))
}

// Appends the paths that the walk has yet to yield, up to the first that equals `.`.
fn push_walk(
    walk: Ancestors<'_>,
    path: Path<'_>,
    options: Options,
    out: &mut Vec<u8>,
) -> Result<(), AllocError>
    ensures { OnOk result (out.new.items ≡ out.old.items
        ++ record_output options path.entry.bytes.now
        (map dot_if_empty (up_to_current (remaining_ancestors walk.entry)))) }
{
    let mut walk = walk;
    while let Some(parent) = walk.next() {
        push_answer(path, dot_if_empty(parent).bytes, options, out)?;
        if is_current(parent) {
            return Ok(());
        }
    }
    Ok(())
}

// Appends the path and each of its parents.
pub(crate) fn push_ancestors(
    path: Path<'_>,
    options: Options,
    out: &mut Vec<u8>,
) -> Result<(), AllocError>
    ensures { OnOk result (out.new.items ≡ out.old.items
        ++ record_output options path.entry.bytes.now
        (path.entry.bytes.now ∷ parents_answer path.entry.bytes.now)) }
{
    push_answer(path, path.bytes, options, out)?;
    if is_current(path) {
        return Ok(());
    }
    let mut walk = path.ancestors();
    let _itself = walk.next();
    push_walk(walk, path, options, out)
}
