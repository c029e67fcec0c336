//! Answers to lists of edits.
ghost use Rattle.std.specs.Prelude.{◌≡◌, ◌++◌, ◌∷◌, IfOk, OnOk, None, Some, is_some, map};
ghost use Rattle.std.specs.Prelude.{option_map};
ghost use Rattle.std.specs.Prelude.{if◌then◌else◌};
ghost use Rattle.std.specs.List.{filter_map, flat_map, list_all};
ghost use Rattle.std.specs.Map.{lookup};
ghost use Rattle.std.specs.Str.{bytes_eq};
ghost use Rattle.path_runs.specs.EditViews.{edit_value};
ghost use Rattle.pathtool.specs.Fields.{fields_of, tabs};
ghost use Rattle.pathtool.specs.ExtraFields.{extra_fields};
ghost use Rattle.pathtool.specs.EditFields.{edits_by_name, edit_of_field, answer_word};
ghost use Rattle.pathtool.specs.EditFields.{edit_answer, edit_items};
ghost use Rattle.pathtool.specs.Steps.{tab};

use crate::fields::{ExtraFields, is_named};
use crate::texts::push_bad_command;
use path_runs::edits::apply;
use path_runs::{Answer, Edit};
use std::alloc::{AllocError, Global};
use unix_bytes::bytes::UnixStr;
use unix_bytes::internal::find_byte;
use unix_path::Path;

// Returns the edit with this name, such as `push:` or `pop`, and with the bytes `argument` if it
// needs any. Returns `None` if no edit has the name.
fn edit_by_name<'a>(name: &[u8], argument: &'a [u8]) -> Option<Edit<'a>>
    ensures { option_map edit_value result
        ≡ option_map (λ edit. edit argument.now) (lookup (bytes_eq name.now) edits_by_name) }
{
    let argument = UnixStr::from_bytes(argument);
    if is_named(name, b"push:") {
        Some(Edit::Push(Path::new(argument)))
    } else if is_named(name, b"pop") {
        Some(Edit::Pop)
    } else if is_named(name, b"name:") {
        Some(Edit::SetFileName(argument))
    } else if is_named(name, b"ext:") {
        Some(Edit::SetExtension(argument))
    } else if is_named(name, b"add:") {
        Some(Edit::AddExtension(argument))
    } else if is_named(name, b"clear") {
        Some(Edit::Clear)
    } else {
        None
    }
}

// Returns the edit that a field names, or `None` if it names no edit.
fn edit_from(field: &[u8]) -> Option<Edit<'_>>
    ensures { option_map edit_value result ≡ edit_of_field field.now }
{
    let index = find_byte(field, b':');
    if index == field.len() {
        edit_by_name(field, &[])
    } else {
        edit_by_name(&field[..index + 1], &field[index + 1..])
    }
}

// Returns the edits that these fields name, or `None` if one of the fields names no edit.
fn edits_from(alloc: Global, fields: &[u8]) -> Result<Option<Vec<Edit<'_>>>, AllocError>
    ensures { IfOk result (λ edits. option_map (λ es. map edit_value es.items) edits
        ≡ (if list_all (λ field. is_some (edit_of_field field)) (fields_of fields.now)
        then Some (filter_map edit_of_field (fields_of fields.now)) else None)) }
{
    let mut edits = Vec::new(alloc);
    for field in fields.split(|b| *b == b'\t') {
        let Some(edit) = edit_from(field) else {
            return Ok(None);
        };
        edits.push(edit)?;
    }
    Ok(Some(edits))
}

// Returns the word for the answer of an edit.
fn answer_word(answer: Answer) -> &'static str
    ensures { result.now ≡ answer_word answer }
{
    match answer {
        Answer::Plain => "ok",
        Answer::Flag(true) => "true",
        Answer::Flag(false) => "false",
        Answer::Separator => "separator",
    }
}

// Appends the word for each answer, with a tab before it.
fn push_words(answers: &[Answer], answer: &mut Vec<u8>) -> Result<(), AllocError>
    ensures { OnOk result (answer.new.items
        ≡ answer.old.items ++ flat_map (λ given. tab ∷ answer_word given) answers.now) }
{
    for given in answers {
        answer.push(b'\t')?;
        answer.extend_from_slice(answer_word(*given).as_bytes())?;
    }
    Ok(())
}

// Applies the edits to the path. Appends the bytes of the edited path, and then, each after a tab,
// the words for the answers of the edits.
fn push_edited(path: Path<'_>, edits: &[Edit<'_>], answer: &mut Vec<u8>) -> Result<(), AllocError>
    ensures { OnOk result (answer.new.items ≡ answer.old.items
        ++ tabs (edit_items path.entry.bytes.now (map edit_value edits.now))) }
{
    let alloc = *answer.allocator();
    let mut edited = path.to_path_buf(alloc)?;
    let Ok(answers) = apply(alloc, &mut edited, edits) else {
        return Err(AllocError);
    };
    answer.extend_from_slice(edited.as_path().as_unix_str().as_bytes())?;
    push_words(answers.as_slice(), answer)
}

// Appends the answer to the edits that these fields name.
fn push_edits(path: Path<'_>, fields: &[u8], answer: &mut Vec<u8>) -> Result<(), AllocError>
    ensures { OnOk result (answer.new.items
        ≡ answer.old.items ++ edit_answer path.entry.bytes.now (fields_of fields.now)) }
{
    match edits_from(*answer.allocator(), fields)? {
        Some(edits) => push_edited(path, edits.as_slice(), answer),
        None => push_bad_command(answer),
    }
}

/// Applies the edits that the fields name to the path. Appends the edited path to `answer`, and
/// then the answer of each edit.
///
/// Without fields, appends the path unchanged. Appends only `bad command` if a field names no edit.
/// Also allocates for the edits, for their answers and for the path.
///
/// For `foo/.` and the fields `ext:bar` and `pop`, appends the empty path, a tab, `true`, a tab and
/// `true`.
pub fn push_edit(
    path: Path<'_>,
    extra: ExtraFields<'_>,
    answer: &mut Vec<u8>,
) -> Result<(), AllocError>
    ensures { OnOk result (answer.new.items
        ≡ answer.old.items ++ edit_answer path.entry.bytes.now (extra_fields extra.entry)) }
{
    match extra {
        ExtraFields::None => push_edited(path, &[], answer),
        ExtraFields::One(field) => match edit_from(field) {
            Some(edit) => push_edited(path, &[edit], answer),
            None => push_bad_command(answer),
        },
        ExtraFields::Several(fields) => push_edits(path, fields, answer),
    }
}
