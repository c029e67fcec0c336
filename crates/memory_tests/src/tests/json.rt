//! Errors of JSON while allocations fail.
use super::exhaust;
use serde_json::Value;
use std::alloc::Global;
use std::test::Fail;
use unix_path::Path;
use unix_path::json::{JsonError, from_json, to_json};

// Returns true if bytes that are not valid UTF-8 are rejected before anything is allocated.
fn is_not_text(alloc: Global) -> bool {
    matches!(
        to_json(alloc, Path::from_bytes(b"f\xff")),
        Err(JsonError::NotUtf8)
    )
}

fn is_no_string(alloc: Global, value: &Value) -> bool {
    matches!(from_json(alloc, value), Err(JsonError::NotString))
}

fn wants_memory(alloc: Global, value: &Value) -> bool {
    let made = to_json(alloc, Path::from_text("a"));
    let is_path_refused = matches!(made, Err(JsonError::Memory(_)));
    is_path_refused && matches!(from_json(alloc, value), Err(JsonError::Memory(_)))
}

#[test]
fn errors_of_json_without_memory(rt: HostRuntime) -> Result<(), Fail> {
    let alloc = rt.alloc();
    let number = Value::from_str(alloc, "7")?;
    let text = Value::from_str(alloc, "\"a\"")?;
    let _exhausted = exhaust(alloc)?;
    assert!(rt; is_not_text(alloc) && is_no_string(alloc, &number) && wants_memory(alloc, &text));
    Ok(())
}
