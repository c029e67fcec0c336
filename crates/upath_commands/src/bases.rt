//! The answers of `strip`, `under` and `relative`, which compare a path with a base.
ghost use Rattle.std.specs.Prelude.{◌≡◌, IfOk, option_map};
ghost use Rattle.unix_path.specs.Pointers.{cow_bytes};
ghost use Rattle.upath_commands.specs.Answers.{dot_if_empty, Finds, relative_of, rest_after};
ghost use Rattle.upath_commands.specs.Answers.{rest_below, rest_under, under_answer};

use crate::answer::{dot_if_empty, dotted};
use crate::command::Options;
use path_within::relative::relative_path;
use path_within::resolved::resolved;
use path_within::within::has_root_or_parent_dir;
use std::alloc::{AllocError, Global};
use unix_path::{CowPath, Path};

// Returns what follows the base, if the path starts with its components.
#[tactic(auto, using(crate::proofs::TestLemmas::rest_after_found))]
fn rest_after<'a>(base: Path<'_>, path: Path<'a>) -> Option<Path<'a>>
    ensures { option_map (λ rest. rest.bytes.now) result
        ≡ rest_after base.entry.bytes.now path.entry.bytes.now }
{
    path.strip_prefix(base).ok()
}

// Returns what follows the base, if the path starts with its components and only names follow.
fn rest_below<'a>(base: Path<'_>, path: Path<'a>) -> Option<Path<'a>>
    ensures { option_map (λ rest. rest.bytes.now) result
        ≡ rest_below base.entry.bytes.now path.entry.bytes.now }
{
    let rest = rest_after(base, path)?;
    if has_root_or_parent_dir(rest) {
        return None;
    }
    Some(rest)
}

// Returns what follows the base, or `.` in place of the empty path.
pub(crate) fn strip_answer<'a>(base: Path<'_>, path: Path<'a>) -> Option<CowPath<'a>>
    ensures { option_map cow_bytes result
        ≡ option_map dot_if_empty (rest_after base.entry.bytes.now path.entry.bytes.now) }
{
    let rest = rest_after(base, path)?;
    Some(CowPath::Borrowed(dot_if_empty(rest)))
}

// Returns the relative path from a directory, or `.` in place of the empty path.
pub(crate) fn relative_answer<'a>(
    alloc: Global,
    from: Path<'_>,
    path: Path<'_>,
) -> Result<Option<CowPath<'a>>, AllocError>
    ensures { Finds result
        (option_map dot_if_empty (relative_of from.entry.bytes.now path.entry.bytes.now)) }
{
    match relative_path(alloc, from, path)? {
        Some(answer) => Ok(Some(dotted(answer))),
        None => Ok(None),
    }
}

// Returns what `under` prints for a path, if this is what follows the base in it.
fn selected_answer<'a>(
    alloc: Global,
    options: Options,
    path: Path<'a>,
    rest: Option<Path<'_>>,
) -> Result<Option<CowPath<'a>>, AllocError>
    ensures { Finds result (under_answer options path.entry.bytes.now
        (option_map (λ rest. rest.bytes.now) rest.entry)) }
{
    Ok(match rest {
        None if options.inverted => Some(CowPath::Borrowed(path)),
        Some(rest) if !options.inverted && options.stripped => {
            Some(CowPath::Owned(dot_if_empty(rest).to_path_buf(alloc)?))
        }
        Some(_) if !options.inverted => Some(CowPath::Borrowed(path)),
        _ => None,
    })
}

// Returns what `under` prints for a path, if anything.
pub(crate) fn under_answer<'a>(
    alloc: Global,
    options: Options,
    base: Path<'_>,
    path: Path<'a>,
) -> Result<Option<CowPath<'a>>, AllocError>
    ensures { Finds result (under_answer options path.entry.bytes.now
        (rest_under options base.entry.bytes.now path.entry.bytes.now)) }
{
    if options.by_components {
        return selected_answer(alloc, options, path, rest_after(base, path));
    }
    let base = resolved(alloc, base)?;
    let resolved = resolved(alloc, path)?;
    let rest = rest_below(base.as_path(), resolved.as_path());
    selected_answer(alloc, options, path, rest)
}
