//! The records of an input.
ghost use Rattle.std.specs.Prelude.{◌≡◌, IfOk};
ghost use Rattle.std.specs.Io.BufRead.{first_piece};
ghost use Rattle.upath_commands.specs.Records.{paths_of, records_of};

use std::alloc::{AllocError, Global};
use unix_bytes::internal::find_byte;
use unix_path::Path;

// Returns the bytes before the first byte `end`, or all bytes if there is none.
fn first_record(input: &[u8], end: u8) -> &[u8]
    ensures { result.now ≡ first_piece end input.now }
{
    let len = find_byte(input, end);
    &input[..len]
}

/// Returns the records of an input as paths, in the same memory. A record ends at the byte `end`,
/// which the last record may lack if it isn't empty.
///
/// Allocates for the list. Fails only if that allocation fails.
///
/// For the bytes `a b`, and for a space as `end`, it returns `a` and `b`.
pub fn records_in(alloc: Global, input: &[u8], end: u8) -> Result<Vec<Path<'_>>, AllocError>
    ensures { IfOk result (λ paths. paths_of paths.items ≡ records_of end input.now) }
{
    let mut paths = Vec::new(alloc);
    let mut at = 0;
    while at < input.len() {
        let path = Path::from_bytes(first_record(&input[at..], end));
        paths.push(path)?;
        at += path.bytes.len();
        if at < input.len() {
            at += 1;
        }
    }
    Ok(paths)
}
