//! Paths that escape, or have a NUL.
ghost use Rattle.std.specs.Prelude.{◌≡◌, ◌++◌, ◌∷◌, IfOk};
ghost use Rattle.std.specs.Str.{byte};
ghost use Rattle.unix_path.specs.Pointers.{cow_bytes};
ghost use Rattle.upath_commands.specs.Answers.{escape_reason, escaping_of, Finds};
ghost use Rattle.upath_commands.specs.Escaping.{escapes};

use crate::answer::path_of_bytes;
use crate::command::Options;
use path_within::{has_nul, within};
use std::alloc::{AllocError, Global};
use unix_path::{CowPath, Path};

// Returns true if the path escapes.
pub(crate) fn escapes(path: Path<'_>) -> bool
    ensures { result ≡ escapes path.entry.bytes.now }
{
    within::escapes(path)
}

// Returns the reason why a path is refused, a tab, and the path.
fn with_reason<'a>(alloc: Global, path: Path<'_>) -> Result<CowPath<'a>, AllocError>
    ensures { IfOk result (λ answer. cow_bytes answer
        ≡ escape_reason path.entry.bytes.now ++ byte "\t" ∷ path.entry.bytes.now) }
{
    let reason: &[u8] = if path.has_root() {
        b"root"
    } else if escapes(path) {
        b"escapes"
    } else {
        b"nul"
    };
    let mut line = Vec::new(alloc);
    line.extend_from_slice(reason)?;
    line.push(b'\t')?;
    line.extend_from_slice(path.bytes)?;
    Ok(path_of_bytes(line))
}

// Returns what `escapes` prints for a path, if anything.
pub(crate) fn escapes_answer<'a>(
    alloc: Global,
    options: Options,
    path: Path<'a>,
) -> Result<Option<CowPath<'a>>, AllocError>
    ensures { Finds result (escaping_of options path.entry.bytes.now) }
{
    let is_refused = escapes(path) || has_nul(path.bytes);
    if is_refused == options.inverted {
        return Ok(None);
    }
    if is_refused && options.with_reason {
        return Ok(Some(with_reason(alloc, path)?));
    }
    Ok(Some(CowPath::Borrowed(path)))
}
