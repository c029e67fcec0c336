//! Reads the input.
ghost use Rattle.std.specs.Prelude.{◌≡◌, ◌<◌, false, IfOk, IfErr, IfSome, OnErr};
ghost use Rattle.std.specs.Io.{ReadsAtMost};
ghost use Rattle.std.specs.Io.KnownBytes.{ReadConsumes};
ghost use Rattle.byte_streams.specs.Calls.{ReadsNone, ReadsSome};
ghost use Rattle.byte_streams.specs.Watched.{has_failed, watched_inner};
ghost use Rattle.upath_commands.specs.Outputs.{is_read_error, IsOfWrite};
ghost use Rattle.upath_commands.specs.Replies.{ReadCalls};

use crate::output::RunError;
use byte_streams::{Source, Watched};
use std::alloc::Global;

// The input is read in blocks of at most so many bytes.
pub(crate) const BLOCK: usize = 65536;

// Makes one read. Returns the number of bytes, 0 only at the end of the input or for an empty
// `chunk`.
pub(crate) fn read_some<R: Source>(
    reader: &mut Watched<R>,
    chunk: &mut [u8],
) -> Result<usize, RunError>
    requires { has_failed reader.old ≡ false }
    ensures bound { ReadsAtMost result chunk.new }
    ensures bytes { ReadConsumes (R.remaining (watched_inner reader.old))
        (R.remaining (watched_inner reader.new)) result chunk.new }
    ensures read { has_failed reader.new ≡ is_read_error result }
    ensures some { IfOk result (λ count. 0 < count
        → ReadsSome R.read_gives (watched_inner reader.old) (watched_inner reader.new)) }
    ensures none { IfOk result (λ count. count ≡ 0
        → ReadsNone R.read_gives (watched_inner reader.old) (watched_inner reader.new)) }
    ensures err { OnErr result
        (ReadsNone R.read_gives (watched_inner reader.old) (watched_inner reader.new)) }
    ensures only_read { IfErr result (λ error. error ≡ RunError.Read) }
{
    match reader.read_once(chunk) {
        Ok(count) => Ok(count),
        Err(_) => Err(RunError::Read),
    }
}

// Reads an input to its end.
pub(crate) fn read_all<R: Source>(
    alloc: Global,
    reader: &mut Watched<R>,
) -> Result<Vec<u8>, RunError>
    requires { has_failed reader.old ≡ false }
    ensures bytes { IfOk result (λ bytes.
        IfSome (R.remaining (watched_inner reader.old)) (λ input. bytes.items ≡ input)) }
    ensures reads { ReadCalls R.Source result reader.old reader.new }
    ensures no_write { IfErr result (λ error. IsOfWrite error → ⊥) }
{
    let mut bytes = Vec::new(alloc);
    let mut chunk = [0u8; BLOCK];
    loop {
        let count = read_some(reader, &mut chunk)?;
        if count == 0 {
            return Ok(bytes);
        }
        bytes.extend_from_slice(&chunk[..count])?;
    }
}
