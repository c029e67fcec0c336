//! Answers that are valid UTF-8.
ghost use Rattle.std.specs.Prelude.{◌≡◌, ◌↔◌, ◌++◌, IfOk, IsErrOf, OnOk, codes};
ghost use Rattle.unix_bytes.specs.Lossy.{lossy_of};
ghost use Rattle.unix_bytes.specs.Chunks.{chunk_of, shown_chunk};
ghost use Rattle.unix_bytes.specs.Utf8.{IsText};
ghost use Rattle.std.specs.String.{string_bytes};
ghost use Rattle.json.specs.Print.{quoted};
ghost use Rattle.pathtool.specs.Fields.{bad_command};
ghost use Rattle.pathtool.specs.Quoted.{json_of};

use std::alloc::{AllocError, Global};
use unix_bytes::lossy::{Utf8Lossy, Utf8LossyChunk};
use unix_path::Path;
use unix_path::json::{JsonError, to_json};

// Appends the answer for an unknown command, edit or turn, or for the wrong number of fields.
pub(crate) fn push_bad_command(answer: &mut Vec<u8>) -> Result<(), AllocError>
    ensures { OnOk result (answer.new.items ≡ answer.old.items ++ bad_command) }
{
    answer.extend_from_slice(b"bad command")
}

// Appends the chunk's valid UTF-8, and U+FFFD if invalid bytes follow it.
fn push_chunk(chunk: Utf8LossyChunk<'_>, answer: &mut Vec<u8>) -> Result<(), AllocError>
    ensures { OnOk result (answer.new.items
        ≡ answer.old.items ++ shown_chunk (chunk_of chunk.entry)) }
{
    answer.extend_from_slice(chunk.valid.as_bytes())?;
    if chunk.broken.is_empty() {
        return Ok(());
    }
    answer.extend_from_slice("\u{FFFD}".as_bytes())
}

/// Appends the path to `answer`, with invalid UTF-8 replaced as in Rust's `Path::display`.
///
/// Each chunk of the path is valid UTF-8, followed by at most 3 invalid bytes. Valid UTF-8 is
/// appended unchanged, and the invalid bytes of a chunk are replaced by one U+FFFD.
///
/// For the bytes 61 FF appends `a` and U+FFFD.
pub fn push_show(path: Path<'_>, answer: &mut Vec<u8>) -> Result<(), AllocError>
    ensures { OnOk result (answer.new.items ≡ answer.old.items ++ lossy_of path.entry.bytes.now) }
{
    for chunk in Utf8Lossy::from_bytes(path.as_unix_str().as_bytes()).chunks() {
        push_chunk(chunk, answer)?;
    }
    Ok(())
}

// Returns the path as a JSON string: its compact text, with quotes.
fn json_text(alloc: Global, path: Path<'_>) -> Result<String, JsonError>
    ensures value { IfOk result (λ text. string_bytes text ≡ quoted path.entry.bytes.now) }
    ensures not_utf8 { IsErrOf result JsonError.NotUtf8 ↔ ¬ (IsText path.entry.bytes.now) }
{
    let value = to_json(alloc, path)?;
    value.to_string(alloc).map_err(JsonError::Memory)
}

// Appends the message for a path that isn't valid UTF-8.
fn push_not_utf8(answer: &mut Vec<u8>) -> Result<(), AllocError>
    ensures { OnOk result (answer.new.items
        ≡ answer.old.items ++ codes "path contains invalid UTF-8 characters") }
{
    answer.extend_from_slice(b"path contains invalid UTF-8 characters")
}

/// Appends the path as a JSON string to `answer`, or a message if it isn't valid UTF-8.
///
/// The string is compact, and quoted as in RFC 8259, section 7. Also allocates for a JSON value and
/// for its text.
///
/// For `a"b` appends `"a\"b"`, and for FF `path contains invalid UTF-8 characters`.
#[tactic(auto, using(crate::proofs::AddLemmas::adds_quoted))]
pub fn push_json(path: Path<'_>, answer: &mut Vec<u8>) -> Result<(), AllocError>
    ensures { OnOk result (answer.new.items ≡ answer.old.items ++ json_of path.entry.bytes.now) }
{
    match json_text(*answer.allocator(), path) {
        Ok(text) => answer.extend_from_slice(text.as_bytes()),
        Err(JsonError::NotUtf8) => push_not_utf8(answer),
        // Any other error is a failed allocation.
        Err(_) => Err(AllocError),
    }
}
