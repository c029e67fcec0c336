//! Messages, whose failures are ignored.
//!
//! After a failed write nothing more is written.
ghost use Rattle.std.specs.Prelude.{◌≡◌, [], false, IfErr, OnErr, OnOk};
ghost use Rattle.upath_commands.specs.Invocations.{task_value, usage_value};
ghost use Rattle.upath_commands.specs.Outputs.{error_line, Told};
ghost use Rattle.upath_commands.specs.Refusals.{message_for};
ghost use Rattle.upath_commands.specs.Usage.{usage_line};

use crate::command::Task;
use crate::output::RunError;
use crate::reasons::push_message;
use crate::usage::{UsageError, push_usage};
use byte_streams::{Sink, Watched, write_all};
use std::alloc::{AllocError, Global};
use unix_path::Path;

// Writes a message, unless a write has failed before.
pub(crate) fn send<E: Sink>(sink: &mut Watched<E>, message: &[u8])
    ensures { Told E.Sink sink.old sink.new message.now }
{
    if !sink.failed() {
        let _ = write_all(sink, message);
    }
}

// Writes the message for a path that is not answered. `line` is a buffer for it.
pub(crate) fn report<E: Sink>(
    sink: &mut Watched<E>,
    line: &mut Vec<u8>,
    task: &Task<'_>,
    path: Path<'_>,
) -> Result<(), RunError>
    ensures told { OnOk result (Told E.Sink sink.old sink.new
        (message_for (task_value task.now) path.entry.bytes.now)) }
    ensures err { OnErr result (Told E.Sink sink.old sink.new []) }
    ensures only_memory { IfErr result (λ error. error ≡ RunError.Memory) }
{
    line.clear();
    push_message(task, path, line)?;
    send(sink, line.as_slice());
    Ok(())
}

// Writes the message for wrong usage.
pub(crate) fn report_usage<E: Sink>(
    alloc: Global,
    sink: &mut Watched<E>,
    error: UsageError<'_>,
) -> Result<(), AllocError>
    ensures told { OnOk result (Told E.Sink sink.old sink.new
        (usage_line (usage_value error.entry))) }
    ensures err { OnErr result (Told E.Sink sink.old sink.new []) }
{
    let mut line = Vec::new(alloc);
    push_usage(error, &mut line)?;
    send(sink, line.as_slice());
    Ok(())
}

// Writes the message for an error of the run, unless `is_quiet`, nobody reads the output any more,
// or the caller reports the error. It needs no memory.
pub(crate) fn report_error<E: Sink>(sink: &mut Watched<E>, is_quiet: bool, error: RunError)
    ensures { Told E.Sink sink.old sink.new (error_line is_quiet error) }
{
    if is_quiet {
        return;
    }
    match error {
        RunError::Read => send(sink, b"upath: read error\n"),
        RunError::Write => send(sink, b"upath: write error\n"),
        RunError::Memory => send(sink, b"upath: out of memory\n"),
        RunError::Closed | RunError::Arguments => {}
    }
}
