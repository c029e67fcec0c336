//! Reads lines to the end of an input, and writes an answer to each.
ghost use Rattle.std.specs.Prelude.{◌≡◌, ◌↔◌, false, IsTrue, IfOk, OnOk, OnErr, IfErr, IfSome};
ghost use Rattle.std.specs.Prelude.{Some, IsErrOf, ◌⊎◌};
ghost use Rattle.std.specs.Fmt.{padded};
ghost use Rattle.std.specs.Io.KnownBytes.{Appends, Consumes, IsAtEnd};
ghost use Rattle.byte_streams.specs.Watched.{has_failed, has_ended, is_flushed, watched_inner};
ghost use Rattle.byte_streams.specs.Watched.{AppendsPrefix};
ghost use Rattle.byte_streams.specs.Calls.{Many, ReadsUntilNone, WritesSome, WritesUntilNone};
ghost use Rattle.byte_streams.specs.Calls.{WritesAndFlushes};
ghost use Rattle.std.specs.declared.io.Error.{Error as IoError};
ghost use Rattle.pathtool.specs.Answers.{output_of};
ghost use Rattle.pathtool.specs.RunError.{error_text};
ghost use Rattle.pathtool.specs.declared.run.RunError.TheVariants.{Memory};

use crate::commands::push_answer_line;
use crate::fields::first_line;
use crate::io_traits::{Sink, Source};
use crate::watched::Watched;
use byte_streams::write_all;
use std::alloc::{AllocError, Global};
use std::error::Error;
use std::fmt;

/// The error of a run.
///
/// It is displayed as `read error`, `write error` or `out of memory`, padded like a string.
///
/// `RunError::Memory` is displayed as `out of memory`.
#[derive(Clone, Copy, Debug, PartialEq, Eq)]
pub enum RunError {
    /// The reader failed.
    Read,
    /// The writer failed, or a write of one byte or more wrote none.
    Write,
    /// An allocation failed.
    Memory,
}

/// Writes the message of the error, padded like a string.
impl fmt::Display for RunError {
    ghost output = { λ error. Some (error_text error) };

    ghost styled_output = { λ error spec. Some (padded spec (error_text error)) };

    fn fmt<W: fmt::Write>(&self, f: &mut fmt::Formatter<W>) -> fmt::Result {
        f.pad(match self {
            RunError::Read => "read error",
            RunError::Write => "write error",
            RunError::Memory => "out of memory",
        })
    }
}

impl Error for RunError {}

/// Converts a failed allocation to `Memory`.
impl From<AllocError> for RunError {
    ghost from_gives = { λ error variant. variant ≡ Memory };

    fn from(_: AllocError) -> RunError {
        RunError::Memory
    }
}

// Reads until a read returns no byte, and returns all bytes read.
fn read_to_end<R: Source>(alloc: Global, reader: &mut Watched<R>) -> Result<Vec<u8>, RunError>
    requires failed { has_failed reader.old ≡ false }
    requires ended { has_ended reader.old ≡ false }
    ensures bytes { IfOk result (λ input. Consumes (R.remaining (watched_inner reader.old))
        (R.remaining (watched_inner reader.new)) input.items) }
    ensures at_end { OnOk result (IsAtEnd (R.remaining (watched_inner reader.new))) }
    ensures ok { OnOk result (IsTrue (has_ended reader.new)) }
    ensures err { OnErr result (has_ended reader.new ≡ false) }
    ensures read { IsErrOf result RunError.Read ↔ IsTrue (has_failed reader.new) }
    ensures no_write { IfErr result (λ error. (error ≡ RunError.Write) → ⊥) }
    ensures reads { ReadsUntilNone R.read_gives (watched_inner reader.old)
        (watched_inner reader.new) }
{
    let mut input = Vec::new(alloc);
    let mut chunk = [0u8; 65536];
    loop {
        let count = match reader.read_once(&mut chunk) {
            Ok(count) => count,
            Err(_) => return Err(RunError::Read),
        };
        if count == 0 {
            return Ok(input);
        }
        input.extend_from_slice(&chunk[..count])?;
    }
}

// Writes the answer to each line of the input, and a newline after each answer.
fn write_answers<W: Sink>(
    alloc: Global,
    input: &[u8],
    writer: &mut Watched<W>,
) -> Result<(), RunError>
    requires { has_failed writer.old ≡ false }
    ensures ok { OnOk result (Appends (W.contents (watched_inner writer.old))
        (W.contents (watched_inner writer.new)) (output_of input.now)) }
    ensures err { OnErr result (AppendsPrefix (W.contents (watched_inner writer.old))
        (W.contents (watched_inner writer.new)) (output_of input.now)) }
    ensures write { IsErrOf result RunError.Write ↔ IsTrue (has_failed writer.new) }
    ensures no_read { IfErr result (λ error. (error ≡ RunError.Read) → ⊥) }
    ensures writes { OnOk result (Many (WritesSome W.write_gives) (watched_inner writer.old)
        (watched_inner writer.new)) }
    ensures gave_up { OnErr result (WritesUntilNone W.write_gives (watched_inner writer.old)
        (watched_inner writer.new)) }
{
    let mut answer = Vec::new(alloc);
    let mut unanswered = input;
    while !unanswered.is_empty() {
        let (line, rest) = first_line(unanswered);
        answer.clear();
        push_answer_line(line, &mut answer)?;
        match write_all(writer, answer.as_slice()) {
            Ok(()) => unanswered = rest,
            Err(_) => return Err(RunError::Write),
        }
    }
    Ok(())
}

/// Reads the input to its end, writes the answer to each of its lines, each followed by a newline,
/// and flushes.
///
/// For an input without lines nothing is written. Allocates for the input and for each answer.
/// Returns `Memory` if an allocation fails. Returns `Read` if a read fails; nothing has been
/// written then. Returns `Write` if a write or the flush fails, or if a write of one byte or more
/// writes none. After `Write` or `Memory` a prefix of the output has been written, and nothing if
/// the input was not read to its end.
///
/// The answer to the input `parts`, a tab, `a//b` and a newline is `a`, a tab, `b` and a newline.
pub fn run<R: Source, W: Sink>(
    alloc: Global,
    reader: &mut Watched<R>,
    writer: &mut Watched<W>,
) -> Result<(), RunError>
    requires reader { has_failed reader.old ≡ false }
    requires ended { has_ended reader.old ≡ false }
    requires writer { has_failed writer.old ≡ false }
    ensures ok { OnOk result (IfSome (R.remaining (watched_inner reader.old)) (λ input.
        Appends (W.contents (watched_inner writer.old))
        (W.contents (watched_inner writer.new)) (output_of input))) }
    ensures ended { OnOk result (IsTrue (has_ended reader.new)) }
    ensures flushed { OnOk result (IsTrue (is_flushed writer.new)) }

    // The error is `Read` if and only if the reader has failed, and `Write` if and only if the
    // writer has failed.
    ensures read { IsErrOf result RunError.Read ↔ IsTrue (has_failed reader.new) }
    ensures write { IsErrOf result RunError.Write ↔ IsTrue (has_failed writer.new) }

    // If the run fails, it has written a prefix of the output, or nothing if the input was not read
    // to its end.
    ensures err { OnErr result (IfSome (R.remaining (watched_inner reader.old)) (λ input.
        AppendsPrefix (W.contents (watched_inner writer.old))
        (W.contents (watched_inner writer.new)) (output_of input))) }
    ensures unread { has_ended reader.new ≡ false → writer.new ≡ writer.old }
    ensures read_failed { IsErrOf result RunError.Read → writer.new ≡ writer.old }

    // The calls: each read except possibly the last returned bytes, each write except possibly the
    // last wrote bytes, and there is at most one flush, after all writes.
    ensures reads { ReadsUntilNone R.read_gives (watched_inner reader.old)
        (watched_inner reader.new) }
    ensures flushes { OnOk result (WritesAndFlushes W.write_gives W.flush_gives
        (watched_inner writer.old) (Ok tt) (watched_inner writer.new)) }
    ensures gave_up { OnErr result (WritesUntilNone W.write_gives
        (watched_inner writer.old) (watched_inner writer.new)
        ⊎ ((error : IoError) × WritesAndFlushes W.write_gives W.flush_gives
        (watched_inner writer.old) (Err error) (watched_inner writer.new))) }
{
    let input = read_to_end(alloc, reader)?;
    write_answers(alloc, input.as_slice(), writer)?;
    if writer.flush_once().is_err() {
        return Err(RunError::Write);
    }
    Ok(())
}
