//! Answers paths, one after the other: operands, and the records of an input as they are read.
ghost use Rattle.std.specs.Prelude.{◌≡◌, ◌++◌, ◌∷◌, ℕ, List, OnOk, false};
ghost use Rattle.byte_streams.specs.Watched.{has_failed};
ghost use Rattle.upath_commands.specs.Answers.{end_of};
ghost use Rattle.upath_commands.specs.Records.{paths_of, records_of};
ghost use Rattle.upath_commands.specs.Replies.{answers_failed, Replied, RepliedTo};
ghost use Rattle.upath_commands.specs.Selections.{selected, taken};
ghost use Rattle.upath_commands.specs.Invocations.{task_value};

use crate::command::Task;
use crate::input::{BLOCK, read_some};
use crate::messages::report;
use crate::output::RunError;
use crate::push::end_of;
use crate::records::records_in;
use crate::replies::{Replies, Tally};
use crate::selection::Selection;
use byte_streams::{Sink, Source, Watched};
use std::alloc::Global;
use unix_bytes::internal::after_last;
use unix_path::Path;

// Answers a path if it is selected, or writes the message for it.
fn answer_next<W: Sink, E: Sink>(
    alloc: Global,
    task: &Task<'_>,
    selection: &mut Selection,
    path: Path<'_>,
    replies: &mut Replies<W, E>,
) -> Result<(), RunError>
    requires { answers_failed replies.old ≡ false }
    ensures replied { Replied W.Sink E.Sink (task_value task.now) result replies.old replies.new
        (taken selection.old path.entry.bytes.now) }
    ensures rest { OnOk result ((paths : List (List ℕ))
        → selected selection.old (path.entry.bytes.now ∷ paths)
        ≡ taken selection.old path.entry.bytes.now ++ selected selection.new paths) }
{
    if !selection.take(alloc, path)? {
        return Ok(());
    }
    let is_answered = replies.answers.answer(task, path)?;
    let Tally { all, any } = replies.tally;
    replies.tally = Tally {
        all: all && is_answered,
        any: any || is_answered,
    };
    if is_answered {
        return Ok(());
    }
    report(&mut replies.messages, &mut replies.line, task, path)
}

// Answers each of these paths that is selected.
pub(crate) fn answer_paths<W: Sink, E: Sink>(
    alloc: Global,
    task: &Task<'_>,
    selection: &mut Selection,
    paths: &[Path<'_>],
    replies: &mut Replies<W, E>,
) -> Result<(), RunError>
    requires { answers_failed replies.old ≡ false }
    ensures replied { Replied W.Sink E.Sink (task_value task.now) result replies.old replies.new
        (selected selection.old (paths_of paths.now)) }
    ensures rest { OnOk result ((more : List (List ℕ))
        → selected selection.old (paths_of paths.now ++ more)
        ≡ selected selection.old (paths_of paths.now) ++ selected selection.new more) }
{
    let mut index = 0;
    while index < paths.len() {
        answer_next(alloc, task, selection, paths[index], replies)?;
        index += 1;
    }
    Ok(())
}

// Answers each record of these bytes that is selected.
fn answer_records<W: Sink, E: Sink>(
    alloc: Global,
    task: &Task<'_>,
    selection: &mut Selection,
    bytes: &[u8],
    replies: &mut Replies<W, E>,
) -> Result<(), RunError>
    requires { answers_failed replies.old ≡ false }
    ensures replied { Replied W.Sink E.Sink (task_value task.now) result replies.old replies.new
        (selected selection.old (records_of (end_of (task_value task.now).options) bytes.now)) }
    ensures rest { let records = records_of (end_of (task_value task.now).options) bytes.now in
        OnOk result ((more : List (List ℕ)) → selected selection.old (records ++ more)
        ≡ selected selection.old records ++ selected selection.new more) }
{
    let paths = records_in(alloc, bytes, end_of(task.options))?;
    answer_paths(alloc, task, selection, paths.as_slice(), replies)
}

// Answers each record of an input that is selected. Before each read all answers are written. A
// record is answered once its end is read, or the end of the input.
pub(crate) fn answer_input<R: Source, W: Sink, E: Sink>(
    alloc: Global,
    task: &Task<'_>,
    selection: &mut Selection,
    reader: &mut Watched<R>,
    replies: &mut Replies<W, E>,
) -> Result<(), RunError>
    requires write { answers_failed replies.old ≡ false }
    requires read { has_failed reader.old ≡ false }
    ensures { let value = task_value task.now in
        RepliedTo R.Source W.Sink E.Sink value result reader.old reader.new replies.old replies.new
        (λ input. selected selection.old (records_of (end_of value.options) input)) }
{
    let end = end_of(task.options);
    let mut chunk = [0u8; BLOCK];
    let mut records = Vec::new(alloc);
    for _ in 0..u64::MAX {
        replies.answers.write_out()?;
        let count = read_some(reader, &mut chunk)?;
        if count == 0 {
            return answer_records(alloc, task, selection, records.as_slice(), replies);
        }
        let read = &chunk[..count];
        let len = after_last(read, end);
        if len == 0 {
            records.extend_from_slice(read)?;
            continue;
        }
        records.extend_from_slice(&read[..len])?;
        answer_records(alloc, task, selection, records.as_slice(), replies)?;
        records.clear();
        records.extend_from_slice(&read[len..])?;
    }
    Err(RunError::Memory)
}
