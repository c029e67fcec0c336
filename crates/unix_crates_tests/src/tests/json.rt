//! Tests of paths as JSON, and what a caller can prove about them.
ghost use Rattle.std.specs.Prelude.{◌≡◌, IfOk};
ghost use Rattle.unix_path.specs.Buffers.{path_bytes};

use super::texts::{assert_text, text_of_error};
use serde_json::Value;
use std::alloc::{AllocError, Global};
use unix_bytes::bytes::UnixStr;
use unix_path::json::{JsonError, from_json, to_json};
use unix_path::{Path, PathBuf};

// Returns the path that is read from the JSON value of `path`. It has the same bytes.
fn write_then_read(alloc: Global, path: Path<'_>) -> Result<PathBuf, JsonError>
    ensures { IfOk result (λ p. path_bytes p ≡ path.entry.bytes.now) }
{
    let value = to_json(alloc, path)?;
    from_json(alloc, &value)
}

// Returns a copy of the path, or a `JsonError` if the allocation fails.
fn copied(alloc: Global, path: Path<'_>) -> Result<PathBuf, JsonError>
    ensures { IfOk result (λ p. path_bytes p ≡ path.entry.bytes.now) }
{
    let copy = path.to_path_buf(alloc)?;
    Ok(copy)
}

// Returns true if the call returned a JSON string of this text.
fn is_string(given: Result<Value, JsonError>, text: &str) -> bool {
    match given {
        Ok(value) => value.as_str() == Some(text),
        Err(_) => false,
    }
}

// Returns true if the call returned a path of this text.
fn is_path(given: Result<PathBuf, JsonError>, text: &str) -> bool {
    match given {
        Ok(path) => path.as_path().as_unix_str() == UnixStr::new(text),
        Err(_) => false,
    }
}

static TEXTS: [&str; 6] = ["a\"b", "", "a\\b", "\u{1}", "\u{E9}", "a//b/."];

// Returns true if the path of this text is written to JSON as this text, and is read back from it.
fn reads_back(alloc: Global, text: &str) -> bool {
    let path = Path::from_text(text);
    is_string(to_json(alloc, path), text)
        && is_path(write_then_read(alloc, path), text)
        && is_path(copied(alloc, path), text)
}

#[test]
fn a_written_path_reads_back(rt: HostRuntime) {
    for text in TEXTS.iter() {
        assert!(rt; reads_back(rt.alloc(), text), "{text}");
    }
}

// Returns true if the text is JSON, and `from_json` rejects its value because this is not a string.
fn is_no_string(alloc: Global, text: &str) -> bool {
    match Value::from_str(alloc, text) {
        Ok(value) => matches!(from_json(alloc, &value), Err(JsonError::NotString)),
        Err(_) => false,
    }
}

// Returns true if the text is a JSON string whose value is this path.
fn is_json_of(alloc: Global, text: &str, path: &str) -> bool {
    match Value::from_str(alloc, text) {
        Ok(value) => is_path(from_json(alloc, &value), path),
        Err(_) => false,
    }
}

static NO_STRINGS: [&str; 7] = ["7", "-7", "7.5", "null", "true", "[\"a\"]", "{\"a\":\"b\"}"];

#[test]
fn values_that_are_not_strings_are_refused(rt: HostRuntime) {
    let alloc = rt.alloc();
    for text in NO_STRINGS.iter() {
        assert!(rt; is_no_string(alloc, text), "{text}");
    }
    assert!(rt; is_json_of(alloc, "\"7\"", "7"));
}

#[test]
fn a_failed_allocation_is_memory(rt: HostRuntime) {
    assert!(rt; matches!(JsonError::from(AllocError), JsonError::Memory(_)));
}

#[test]
fn texts_of_errors(rt: HostRuntime) {
    let alloc = rt.alloc();
    let text = "path contains invalid UTF-8 characters|path contains invalid UTF-8 characters";
    assert_text(&rt, text_of_error(alloc, &JsonError::NotUtf8, 15), text);
    let text = "expected path string|expected path string";
    assert_text(&rt, text_of_error(alloc, &JsonError::NotString, 15), text);
    let text = "out of memory|  out of memory";
    assert_text(
        &rt,
        text_of_error(alloc, &JsonError::Memory(AllocError), 15),
        text,
    );
}
