//! What a command prints for a path.
ghost use Rattle.upath_commands.specs.Answers.{Finds};
ghost use Rattle.upath_commands.specs.Commands.{answer_of};
ghost use Rattle.upath_commands.specs.Invocations.{task_value};
ghost use Rattle.upath_commands.specs.Tasks.{Prints, PrintsOnly};

use crate::ancestors::{parent_answer, push_ancestors};
use crate::answer::{dotted, path_of_name};
use crate::bases::{relative_answer, strip_answer, under_answer};
use crate::command::{Command, Task};
use crate::escapes::escapes_answer;
use crate::joins::join_answer;
use crate::keys::{key_answer, unkey_answer};
use crate::parts::push_parts;
use crate::push::push_answer;
use path_runs::canonical::canonical;
use path_within::resolved::resolved;
use std::alloc::{AllocError, Global};
use unix_path::{CowPath, Path};

// Returns the answer of a command that has at most one.
fn answer_of<'a>(
    alloc: Global,
    task: &Task<'_>,
    path: Path<'a>,
) -> Result<Option<CowPath<'a>>, AllocError>
    ensures { let value = task_value task.now in
        Finds result (answer_of value.command value path.entry.bytes.now) }
{
    let Task { options, base, .. } = *task;
    match task.command {
        Command::Canon => Ok(Some(CowPath::Owned(canonical(alloc, path)?))),
        Command::Resolve => Ok(Some(dotted(resolved(alloc, path)?))),
        Command::Parent => Ok(parent_answer(path).map(CowPath::Borrowed)),
        Command::Name => Ok(path_of_name(path.file_name())),
        Command::Stem => Ok(path_of_name(path.file_stem())),
        Command::Extension => Ok(path_of_name(path.extension())),
        Command::Join => join_answer(alloc, options.rule, base, path),
        Command::Strip => Ok(strip_answer(base, path)),
        Command::Relative => relative_answer(alloc, base, path),
        Command::Key => key_answer(alloc, path),
        Command::Unkey => unkey_answer(alloc, options.null, path),
        Command::Escapes => escapes_answer(alloc, options, path),
        Command::Under => under_answer(alloc, options, base, path),
        Command::Sort | Command::Uniq => Ok(Some(CowPath::Borrowed(path))),
        _ => Ok(None),
    }
}

// Appends the answer of a command that has at most one. Returns true if the path is answered.
fn push_only(task: &Task<'_>, path: Path<'_>, out: &mut Vec<u8>) -> Result<bool, AllocError>
    ensures { PrintsOnly result out.old.items out.new.items (task_value task.now)
        path.entry.bytes.now }
{
    let Some(answer) = answer_of(*out.allocator(), task, path)? else {
        let fallback = match task.command {
            Command::Escapes | Command::Under | Command::Check => None,
            _ => task.or,
        };
        if let Some(text) = fallback {
            push_answer(path, text.bytes, task.options, out)?;
        }
        return Ok(matches!(task.command, Command::Escapes) && !task.options.inverted);
    };
    push_answer(path, answer.as_path().bytes, task.options, out)?;
    Ok(!matches!(task.command, Command::Escapes) || task.options.inverted)
}

// Appends what the task prints for a path. Returns true if the path is answered.
pub(crate) fn push_answers(
    task: &Task<'_>,
    path: Path<'_>,
    out: &mut Vec<u8>,
) -> Result<bool, AllocError>
    ensures { Prints result out.old.items out.new.items (task_value task.now)
        path.entry.bytes.now }
{
    match task.command {
        Command::Ancestors => push_ancestors(path, task.options, out)?,
        Command::Parts => push_parts(path, task.options, out)?,
        _ => return push_only(task, path, out),
    }
    Ok(true)
}
