//! Answers as records.
ghost use Rattle.std.specs.Prelude.{◌≡◌, ◌++◌, ◌∷◌, [], OnOk};
ghost use Rattle.upath_commands.specs.Answers.{end_of, record_output};

use crate::command::Options;
use std::alloc::AllocError;
use unix_path::Path;

// Returns the byte that ends a record.
pub(crate) fn end_of(options: Options) -> u8
    ensures { result ≡ end_of options }
{
    if options.null { 0 } else { b'\n' }
}

// Appends an answer to a path as a record, unless `quiet`.
pub(crate) fn push_answer(
    path: Path<'_>,
    answer: &[u8],
    options: Options,
    out: &mut Vec<u8>,
) -> Result<(), AllocError>
    ensures { OnOk result (out.new.items ≡ out.old.items
        ++ record_output options path.entry.bytes.now
        (answer.now ∷ [])) }
{
    if options.quiet {
        return Ok(());
    }
    if options.pair {
        out.extend_from_slice(path.bytes)?;
        out.push(if options.null { 0 } else { b'\t' })?;
    }
    out.extend_from_slice(answer)?;
    out.push(end_of(options))?;
    Ok(())
}
