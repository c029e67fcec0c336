//! Paths as JSON strings.
ghost use Rattle.std.specs.Prelude.{◌≡◌, ◌≢◌, ◌↔◌, ℕ, List, [], None, Some, IfOk, IfErr, IsOk};
ghost use Rattle.std.specs.Prelude.{IsErrOf};
ghost use Rattle.std.specs.Fmt.{padded};
ghost use Rattle.serde_json.specs.Data.{string};
ghost use Rattle.serde_json.specs.Find.{as_str};
ghost use Rattle.serde_json.specs.View.{view};
ghost use Rattle.unix_bytes.specs.Utf8.{IsText};
ghost use Rattle.unix_path.specs.Buffers.{path_bytes};

use crate::buf::PathBuf;
use crate::path::Path;
use serde_json::Value;
use std::alloc::{AllocError, Global};
use std::error::Error;
use std::fmt;

/// The error of writing a path as JSON, or of reading a JSON value as a path.
///
/// Each variant is printed as the text in its comment, formatted like a `str` (width, precision,
/// fill and alignment).
///
/// `to_json` of the path with the bytes 66 FF fails with `NotUtf8`.
#[derive(Debug, Drop)]
pub enum JsonError {
    /// The path's bytes are not valid UTF-8: `path contains invalid UTF-8 characters`.
    NotUtf8,
    /// The value is not a string: `expected path string`.
    NotString,
    /// An allocation failed: `out of memory`.
    Memory(AllocError),
}

/// Writes the variant's text, formatted like a `str` (width, precision, fill and alignment).
///
/// `JsonError::NotString` is printed as `expected path string`.
impl fmt::Display for JsonError {
    ghost use Rattle.unix_path.specs.Json.{error_text};

    ghost output = { λ error. Some (error_text error) };

    ghost styled_output = { λ error spec. Some (padded spec (error_text error)) };

    fn fmt<W: fmt::Write>(&self, f: &mut fmt::Formatter<W>) -> fmt::Result {
        f.pad(match self {
            JsonError::NotUtf8 => "path contains invalid UTF-8 characters",
            JsonError::NotString => "expected path string",
            JsonError::Memory(_) => "out of memory",
        })
    }
}

impl Error for JsonError {}

/// Converts the error of an allocation into `Memory`.
///
/// This lets `?` work on a `Path::to_path_buf` in a function whose error is a `JsonError`.
impl From<AllocError> for JsonError {
    ghost use Rattle.unix_path.specs.declared.json.JsonError.TheVariants.{Memory};

    ghost from_gives = { λ error variant. variant ≡ Memory error };

    fn from(error: AllocError) -> JsonError {
        JsonError::Memory(error)
    }
}

/// Returns the path as a JSON string. Replaces serde's `Serialize`.
///
/// The error is `NotUtf8` if and only if the bytes are not valid UTF-8 (RFC 3629 section 4). It is
/// returned before anything is allocated. The error is `Memory` if the allocation fails. Allocates
/// once. If the path is empty, it does not allocate, and succeeds.
///
/// For `a//b` it is the string `a//b`.
pub fn to_json(alloc: Global, path: Path<'_>) -> Result<Value, JsonError>
    ensures value { IfOk result (λ value. view value ≡ string path.entry.bytes.now) }
    ensures refused { IsErrOf result JsonError.NotUtf8 ↔ ¬ (IsText path.entry.bytes.now) }
    ensures err { IfErr result (λ error. error ≢ JsonError.NotString) }
    ensures succeeds { path.entry.bytes.now ≡ [] → IsOk result }
{
    let Some(text) = path.to_str() else {
        return Err(JsonError::NotUtf8);
    };
    let mut copy = String::with_capacity(alloc, text.len())?;
    copy.push_str(text)?;
    Ok(Value::String(copy))
}

/// Returns the path that a JSON string contains. Replaces serde's `Deserialize`.
///
/// The error is `NotString` if and only if the value is not a string (for example, a number). It is
/// returned before anything is allocated. The error is `Memory` if the allocation fails. Allocates
/// once. If the string is empty, it does not allocate, and succeeds.
///
/// For the string `a//b` it is the path `a//b`. A path that `to_json` wrote is read back with the
/// same bytes.
pub fn from_json(alloc: Global, value: &Value) -> Result<PathBuf, JsonError>
    ensures value { IfOk result (λ path. view value.now ≡ string (path_bytes path)) }
    ensures bytes { IfOk result
        (λ path. (bytes : List ℕ) → view value.now ≡ string bytes → path_bytes path ≡ bytes) }
    ensures refused { IsErrOf result JsonError.NotString ↔ (as_str (view value.now) ≡ None) }
    ensures err { IfErr result (λ error. error ≢ JsonError.NotUtf8) }
    ensures succeeds { view value.now ≡ string [] → IsOk result }
{
    let Value::String(text) = value else {
        return Err(JsonError::NotString);
    };
    let path = PathBuf::from_text(alloc, text.as_str())?;
    Ok(path)
}
