//! The module `json`.
use crate::traits::is_error;
use serde_json::Value;
use std::alloc::{AllocError, Global};
use unix_path::json::{JsonError, from_json, to_json};
use unix_path::{Path, PathBuf};

/// Calls the functions of `json`.
pub fn json(alloc: Global, path: Path<'_>, value: &Value) {
    let _: Result<Value, JsonError> = to_json(alloc, path);
    let _: Result<PathBuf, JsonError> = from_json(alloc, value);
}

/// Names the errors of `json`.
pub fn json_error(error: AllocError) -> [JsonError; 3] {
    let it: JsonError = JsonError::Memory(error);
    is_error(&it);
    [JsonError::NotUtf8, JsonError::NotString, it]
}
