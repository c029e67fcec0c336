//! One line of a listing.
ghost use Rattle.std.specs.Prelude.{◌≡◌, IfOk, IfSome, None, ℕ, List, ◌++◌};
ghost use Rattle.path_archive.specs.Entries.{EntryValue};
ghost use Rattle.tar_listing.specs.Form.{IsLine, target_text};
ghost use Rattle.tar_listing.specs.Reading.{CannotRead, IsEntryPushed, IsPushed, after_words};
ghost use Rattle.tar_listing.specs.Reading.{kind_code};

use crate::columns::{Kind, line_start};
use crate::text::push_text;
use std::alloc::AllocError;

// Returns the kind of an entry as a record has it.
fn kind_code(kind: Kind) -> u8
    ensures { result ≡ kind_code kind }
{
    match kind {
        Kind::Directory => b'd',
        Kind::File => b'f',
        Kind::Symlink => b'l',
        Kind::HardLink => b'h',
        Kind::Other => b'o',
    }
}

// Returns what follows this text, or `None` if the bytes don't begin with it.
fn after_text<'a>(rest: &'a [u8], text: &[u8]) -> Option<&'a [u8]>
    ensures some { IfSome result (λ after. rest.now ≡ text.now ++ after.now) }
    ensures none { result ≡ None → (after : List ℕ) → rest.now ≡ text.now ++ after → ⊥ }
{
    if rest.starts_with(text) {
        Some(&rest[text.len()..])
    } else {
        None
    }
}

// Appends the target after this text. Returns what follows it, or `None` if there is none.
fn push_after<'a>(
    rest: &'a [u8],
    text: &[u8],
    out: &mut Vec<u8>,
) -> Result<Option<&'a [u8]>, AllocError>
    ensures read { IfOk result (λ o. IfSome o (λ after.
        IsPushed (after_words text.now) rest.now after.now out.old.items out.new.items)) }
    ensures none { IfOk result (λ o. o ≡ None → CannotRead (after_words text.now) rest.now) }
{
    match after_text(rest, text) {
        Some(after) => push_text(after, out),
        None => Ok(None),
    }
}

// Appends the target of a link, which follows its name. Returns what follows the target.
fn push_target<'a>(
    kind: Kind,
    rest: &'a [u8],
    out: &mut Vec<u8>,
) -> Result<Option<&'a [u8]>, AllocError>
    ensures read { IfOk result (λ o. IfSome o (λ after.
        IsPushed (target_text kind) rest.now after.now out.old.items out.new.items)) }
    ensures none { IfOk result (λ o. o ≡ None → CannotRead (target_text kind) rest.now) }
{
    match kind {
        Kind::Symlink => push_after(rest, b" -> \"", out),
        Kind::HardLink => push_after(rest, b" link to \"", out),
        _ => Ok(Some(rest)),
    }
}

// Appends the record of the entry on the first line. Returns what follows the line, or `None` if
// the line is of another form.
pub(crate) fn push_entry<'a>(
    line: &'a [u8],
    records: &mut Vec<u8>,
) -> Result<Option<&'a [u8]>, AllocError>
    ensures read { IfOk result (λ o. IfSome o (λ after.
        IsEntryPushed line.now after.now records.old.items records.new.items)) }
    ensures none { IfOk result (λ o. o ≡ None → (e : EntryValue) (rest : List ℕ)
        → IsLine line.now e rest → ⊥) }
{
    let Some((kind, rest)) = line_start(line) else {
        return Ok(None);
    };
    records.push(kind_code(kind))?;
    records.push(0)?;
    let start = records.len();
    let Some(rest) = push_text(rest, records)? else {
        return Ok(None);
    };
    if records.len() == start {
        return Ok(None);
    }
    records.push(0)?;
    let Some(rest) = push_target(kind, rest, records)? else {
        return Ok(None);
    };
    records.push(0)?;
    Ok(after_text(rest, b"\n"))
}
