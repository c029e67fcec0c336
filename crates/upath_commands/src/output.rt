//! Answers, with a buffer before their sink.
ghost use Rattle.std.specs.Prelude.{◌≡◌, ◌↔◌, ◌<◌, [], length, false, IfOk, IfErr, OnOk};
ghost use Rattle.std.specs.IoError.{error_kind};
ghost use Rattle.upath_commands.specs.Commands.{text_for};
ghost use Rattle.upath_commands.specs.Invocations.{task_value};
ghost use Rattle.upath_commands.specs.Outputs.{Emitted, Finished, IsOfWrite, unwritten};
ghost use Rattle.upath_commands.specs.Outputs.{write_failed, written_to};
ghost use Rattle.upath_commands.specs.Tasks.{answers};
ghost use Rattle.upath_commands.specs.declared.output.RunError.TheVariants.{Memory};

use crate::command::Task;
use crate::task::push_answers;
use byte_streams::{Sink, Watched, write_all};
use std::alloc::{AllocError, Global};
use std::io;
use std::io::ErrorKind;
use unix_path::Path;

// The output is written when at least so many bytes wait.
const FULL: usize = 65536;

/// The error of a run.
///
/// `RunError::from(AllocError)` is `RunError::Memory`.
#[derive(Clone, Copy, Debug, PartialEq, Eq)]
pub enum RunError {
    /// A read failed.
    Read,
    /// A write failed, or wrote nothing of one byte or more.
    Write,
    /// Nobody reads the output any more: the pipe is closed.
    Closed,
    /// An allocation failed.
    Memory,
    /// An allocation failed before the arguments were understood. Nothing was read or written, and
    /// the caller reports it.
    Arguments,
}

/// Converts a failed allocation to `Memory`.
impl From<AllocError> for RunError {
    ghost from_gives = { λ error variant. variant ≡ Memory };

    fn from(_: AllocError) -> RunError {
        RunError::Memory
    }
}

// Returns the error of a run for that of a write.
fn write_error(error: &io::Error) -> RunError
    ensures closed { (result ≡ RunError.Closed) ↔ (error_kind error.now ≡ ErrorKind.BrokenPipe) }
    ensures only_write { IsOfWrite result }
{
    if error.kind() == ErrorKind::BrokenPipe {
        RunError::Closed
    } else {
        RunError::Write
    }
}

// A sink, and the answers that are not yet written.
//
// They are written once there are 64 KiB or more, before each read of the input, and at the end.
#[derive(Drop)]
pub(crate) struct Output<W> {
    writer: Watched<W>,
    buffer: Vec<u8>,
}

impl<W: Sink> Output<W> {
    // Creates an output without bytes before the sink.
    pub(crate) fn new(alloc: Global, writer: W) -> Output<W>
        ensures writer { written_to result ≡ writer }
        ensures write { write_failed result ≡ false }
        ensures empty { unwritten result ≡ [] }
    {
        Output {
            writer: Watched::new(writer),
            buffer: Vec::new(alloc),
        }
    }

    // Writes the pending bytes.
    pub(crate) fn write_out(&mut self) -> Result<(), RunError>
        requires { write_failed self.old ≡ false }
        ensures emitted { Emitted W.Sink result self.old self.new [] }
        ensures none { OnOk result (unwritten self.new ≡ []) }
        ensures only_write { IfErr result IsOfWrite }
    {
        match write_all(&mut self.writer, self.buffer.as_slice()) {
            Ok(()) => {
                self.buffer.clear();
                Ok(())
            }
            Err(error) => Err(write_error(&error)),
        }
    }

    // Adds a text.
    pub(crate) fn add(&mut self, text: &[u8]) -> Result<(), RunError>
        requires { write_failed self.old ≡ false }
        ensures emitted { Emitted W.Sink result self.old self.new text.now }
        ensures only_memory { IfErr result (λ error. error ≡ RunError.Memory) }
    {
        self.buffer.extend_from_slice(text)?;
        Ok(())
    }

    // Adds what the task prints for a path. Returns true if the path is answered.
    pub(crate) fn answer(&mut self, task: &Task<'_>, path: Path<'_>) -> Result<bool, RunError>
        requires { write_failed self.old ≡ false }
        ensures emitted { Emitted W.Sink result self.old self.new
            (text_for (task_value task.now) path.entry.bytes.now) }
        ensures answered { IfOk result (λ is_answered.
            is_answered ≡ answers (task_value task.now) path.entry.bytes.now) }
        ensures bounded { OnOk result (length (unwritten self.new) < 65536) }
        ensures no_read { IfErr result (λ error. (error ≡ RunError.Read) → ⊥) }
    {
        let is_answered = push_answers(task, path, &mut self.buffer)?;
        if self.buffer.len() >= FULL {
            self.write_out()?;
        }
        Ok(is_answered)
    }

    // Writes the pending bytes, and flushes.
    pub(crate) fn finish(&mut self) -> Result<(), RunError>
        requires { write_failed self.old ≡ false }
        ensures finished { Finished W.Sink result self.old self.new }
        ensures only_write { IfErr result IsOfWrite }
    {
        self.write_out()?;
        match self.writer.flush_once() {
            Ok(()) => Ok(()),
            Err(error) => Err(write_error(&error)),
        }
    }
}
