//! Answers to lines. A line is a command and its arguments.
ghost use Rattle.std.specs.Prelude.{◌≡◌, ◌++◌, ◌∷◌, [], OnOk};
ghost use Rattle.pathtool.specs.Answers.{answer_to, answer_of};
ghost use Rattle.pathtool.specs.ExtraFields.{extra_fields};
ghost use Rattle.pathtool.specs.Steps.{newline};

use crate::comparisons::{push_ends, push_order, push_starts};
use crate::edits::push_edit;
use crate::fields::{ExtraFields, Line, is_named, line_from};
use crate::lists::{push_ancestors, push_parts, push_parts_reversed};
use crate::names::{push_extension, push_name, push_stem};
use crate::paths::{push_canon, push_join, push_parent, push_stripped};
use crate::tables::push_under;
use crate::texts::{push_bad_command, push_json, push_show};
use crate::walks::push_walk;
use std::alloc::AllocError;
use unix_path::Path;

// Appends the answer to a line that has a path.
fn push_answer_to(line: Line<'_>, answer: &mut Vec<u8>) -> Result<(), AllocError>
    ensures { OnOk result (answer.new.items ≡ answer.old.items ++ answer_to
        (line.entry.command.now ∷ line.entry.path.bytes.now ∷ extra_fields line.entry.extra)) }
{
    let Line {
        command,
        path,
        extra,
        ..
    } = line;
    match extra {
        _ if is_named(command, b"edit") => push_edit(path, extra, answer),
        _ if is_named(command, b"under") => push_under(path, extra, answer),

        ExtraFields::None if is_named(command, b"parts") => push_parts(path, answer),
        ExtraFields::None if is_named(command, b"back") => push_parts_reversed(path, answer),
        ExtraFields::None if is_named(command, b"parent") => push_parent(path, answer),
        ExtraFields::None if is_named(command, b"name") => push_name(path, answer),
        ExtraFields::None if is_named(command, b"stem") => push_stem(path, answer),
        ExtraFields::None if is_named(command, b"ext") => push_extension(path, answer),
        ExtraFields::None if is_named(command, b"ancestors") => push_ancestors(path, answer),
        ExtraFields::None if is_named(command, b"canon") => push_canon(path, answer),
        ExtraFields::None if is_named(command, b"show") => push_show(path, answer),
        ExtraFields::None if is_named(command, b"json") => push_json(path, answer),

        ExtraFields::One(bytes) if is_named(command, b"join") => push_join(
            path,
            Path { bytes },
            answer,
        ),
        ExtraFields::One(bytes) if is_named(command, b"strip") => push_stripped(
            path,
            Path { bytes },
            answer,
        ),
        ExtraFields::One(bytes) if is_named(command, b"starts") => push_starts(
            path,
            Path { bytes },
            answer,
        ),
        ExtraFields::One(bytes) if is_named(command, b"ends") => push_ends(
            path,
            Path { bytes },
            answer,
        ),
        ExtraFields::One(bytes) if is_named(command, b"cmp") => push_order(
            path,
            Path { bytes },
            answer,
        ),
        ExtraFields::One(letters) if is_named(command, b"walk") => push_walk(path, letters, answer),

        _ => push_bad_command(answer),
    }
}

// Appends the answer to a line.
fn push_answer(line: &[u8], answer: &mut Vec<u8>) -> Result<(), AllocError>
    ensures { OnOk result (answer.new.items ≡ answer.old.items ++ answer_of line.now) }
{
    match line_from(line) {
        Some(line) => push_answer_to(line, answer),
        None => push_bad_command(answer),
    }
}

/// Appends the answer to `line`, and a newline, to `answer`.
///
/// The answer is `bad command` if the command, an edit or a turn is unknown, or if the number of
/// fields is wrong. Allocates like the function of the command, and when `answer` grows.
///
/// The answer to `parts`, a tab and `a//b` is `a`, a tab and `b`.
pub fn push_answer_line(line: &[u8], answer: &mut Vec<u8>) -> Result<(), AllocError>
    ensures { OnOk result (answer.new.items
        ≡ answer.old.items ++ (answer_of line.now ++ newline ∷ [])) }
{
    push_answer(line, answer)?;
    answer.push(b'\n')?;
    Ok(())
}
