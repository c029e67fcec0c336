//! Why a path has no answer.
ghost use Rattle.std.specs.Prelude.{◌≡◌, ◌++◌, IfOk, OnOk, option_map};
ghost use Rattle.upath_commands.specs.Invocations.{task_value};
ghost use Rattle.unix_path.specs.Parts.{is_rooted};
ghost use Rattle.upath_commands.specs.Refusals.{join_reason, message_for, no_relative, reason_of};
ghost use Rattle.upath_commands.specs.Refusals.{reason_text, unkey_reason};

use crate::command::{Command, JoinRule, Task};
use crate::escapes::escapes;
use crate::keys::unkeyed_path;
use crate::shown::push_shown;
use path_within::within::has_root_or_parent_dir;
use std::alloc::{AllocError, Global};
use unix_path::Path;

// Why a path has no answer.
#[derive(Clone, Copy)]
pub(crate) enum Reason<'a> {
    // This text.
    Plain(&'static [u8]),
    // There is no relative path from this directory, and this text says why.
    NoRelative(Path<'a>, &'static [u8]),
}

// Returns why there is no relative path.
fn no_relative(dir: Path<'_>, path: Path<'_>) -> &'static [u8]
    ensures { result.now ≡ no_relative (is_rooted dir.entry.bytes.now)
        (is_rooted path.entry.bytes.now) }
{
    match (dir.has_root(), path.has_root()) {
        (true, false) | (false, true) => b", as only one of them has a leading slash",
        _ => b", which has a .. that the path lacks",
    }
}

// Returns why a path is refused that the rule refuses.
fn join_reason(rule: JoinRule, path: Path<'_>) -> &'static [u8]
    ensures { result.now ≡ join_reason rule path.entry.bytes.now }
{
    match rule {
        JoinRule::Beneath if path.has_root() => b"has a root",
        JoinRule::Beneath if escapes(path) => b"leaves its root",
        JoinRule::Verbatim if path.has_root() => b"has a root",
        JoinRule::Verbatim if has_root_or_parent_dir(path) => b"has a ..",
        _ => b"has a NUL byte",
    }
}

// Returns why `unkey` has no answer to a text to which it has none.
fn unkey_reason(alloc: Global, null: bool, text: &[u8]) -> Result<&'static [u8], AllocError>
    ensures { IfOk result (λ reason. reason.now ≡ unkey_reason null text.now) }
{
    match unkeyed_path(alloc, text)? {
        Some(_) if null => Ok(b"has a NUL byte"),
        Some(_) => Ok(b"has a newline, which needs -z"),
        None => Ok(b"not a key"),
    }
}

// Returns why a path has no answer that has none. Allocates for `unkey`.
fn reason_of<'a>(
    alloc: Global,
    task: &Task<'a>,
    path: Path<'_>,
) -> Result<Option<Reason<'a>>, AllocError>
    ensures { let value = task_value task.now in IfOk result (λ found.
        option_map reason_text found ≡ reason_of value.command value path.entry.bytes.now) }
{
    let null = task.options.null;
    Ok(Some(match task.command {
        Command::Parent => Reason::Plain(b"no parent"),
        Command::Name | Command::Stem => Reason::Plain(b"no file name"),
        Command::Extension => Reason::Plain(b"no extension"),
        Command::Join => Reason::Plain(join_reason(task.options.rule, path)),
        Command::Strip => Reason::Plain(b"doesn't start with the base"),
        Command::Relative => Reason::NoRelative(task.base, no_relative(task.base, path)),
        Command::Unkey => Reason::Plain(unkey_reason(alloc, null, path.bytes)?),
        Command::Check => Reason::Plain(b"is out of order"),
        _ => return Ok(None),
    }))
}

// Appends a reason.
fn push_text(reason: Reason<'_>, out: &mut Vec<u8>) -> Result<(), AllocError>
    ensures { OnOk result (out.new.items ≡ out.old.items ++ reason_text reason.entry) }
{
    match reason {
        Reason::Plain(text) => out.extend_from_slice(text)?,
        Reason::NoRelative(dir, text) => {
            out.extend_from_slice(b"no relative path from ")?;
            push_shown(dir.bytes, out)?;
            out.extend_from_slice(text)?;
        }
    }
    Ok(())
}

// Appends the message for a path that is not answered.
pub(crate) fn push_message(
    task: &Task<'_>,
    path: Path<'_>,
    out: &mut Vec<u8>,
) -> Result<(), AllocError>
    ensures { OnOk result (out.new.items
        ≡ out.old.items ++ message_for (task_value task.now) path.entry.bytes.now) }
{
    if task.options.quiet {
        return Ok(());
    }
    let Some(reason) = reason_of(*out.allocator(), task, path)? else {
        return Ok(());
    };
    out.extend_from_slice(b"upath: ")?;
    push_shown(path.bytes, out)?;
    out.extend_from_slice(b": ")?;
    push_text(reason, out)?;
    out.push(b'\n')?;
    Ok(())
}
