//! Allocations of calls that fail for another reason, which they report before they allocate.
use super::super::{holds, path};
use super::report;
use path_keys::{KeyError, PathKey, path_of};
use path_runs::edits::rejoin;
use path_within::WithinError;
use path_within::relative::relative_path;
use path_within::within::{join_verbatim, join_within};
use serde_json::Value;
use std::alloc::AllocError;
use std::test::Fail;
use unix_path::bytes::UnixStr;
use unix_path::json::{JsonError, from_json, to_json};
use unix_path::{ExtensionError, Path, PathBuf};

// Returns the result of a test whose call has to reject an extension because it contains a slash;
// `given` is what the call returned, and `is_left` whether the path is unchanged.
fn report_separator<T: Drop>(given: Result<T, ExtensionError>, is_left: bool) -> Result<(), Fail> {
    match given {
        Err(ExtensionError::Separator) => report(true, is_left),
        Err(ExtensionError::Memory(_)) => report(false, is_left),
        Ok(_) => report(true, false),
    }
}

#[test]
fn separator_not_set(rt: HostRuntime) -> Result<(), Fail> {
    let mut buffer = PathBuf::from_text(rt.alloc(), "foo")?;
    let given = buffer.set_extension(UnixStr::new("x/y"));
    report_separator(given, holds(&buffer, "foo"))
}

#[test]
fn separator_not_added(rt: HostRuntime) -> Result<(), Fail> {
    let mut buffer = PathBuf::from_text(rt.alloc(), "foo")?;
    let given = buffer.add_extension(UnixStr::new("x/y"));
    report_separator(given, holds(&buffer, "foo"))
}

#[test]
fn no_copy_with_separator(rt: HostRuntime) -> Result<(), Fail> {
    let given = path("foo").with_extension(rt.alloc(), UnixStr::new("x/y"));
    report_separator(given, true)
}

#[test]
fn no_copy_with_added_separator(rt: HostRuntime) -> Result<(), Fail> {
    let given = path("foo").with_added_extension(rt.alloc(), UnixStr::new("x/y"));
    report_separator(given, true)
}

#[test]
fn broken_bytes_not_written(rt: HostRuntime) -> Result<(), Fail> {
    match to_json(rt.alloc(), Path::from_bytes(b"f\xff")) {
        Err(JsonError::NotUtf8) => report(true, true),
        Err(JsonError::Memory(_)) => report(false, true),
        _ => report(true, false),
    }
}

#[test]
fn null_not_read(rt: HostRuntime) -> Result<(), Fail> {
    match from_json(rt.alloc(), &Value::Null) {
        Err(JsonError::NotString) => report(true, true),
        Err(JsonError::Memory(_)) => report(false, true),
        _ => report(true, false),
    }
}

// Returns the result of a test whose call has to return `None`; `given` is what it returned.
fn report_none(given: Result<Option<PathBuf>, AllocError>) -> Result<(), Fail> {
    match given {
        Ok(found) => report(true, found.is_none()),
        Err(AllocError) => report(false, true),
    }
}

#[test]
fn other_path_not_rejoined(rt: HostRuntime) -> Result<(), Fail> {
    report_none(rejoin(rt.alloc(), path("a/b"), path("c")))
}

#[test]
fn no_relative_path_from_root(rt: HostRuntime) -> Result<(), Fail> {
    report_none(relative_path(rt.alloc(), path("/a"), path("b")))
}

#[test]
fn no_relative_path_from_above(rt: HostRuntime) -> Result<(), Fail> {
    report_none(relative_path(rt.alloc(), path("../x"), path("y")))
}

// Returns the result of a test whose call has to reject a request that leaves its root; `given` is
// what the call returned.
fn report_escape(given: Result<PathBuf, WithinError>) -> Result<(), Fail> {
    match given {
        Err(WithinError::Escapes) => report(true, true),
        Err(WithinError::Memory(_)) => report(false, true),
        _ => report(true, false),
    }
}

#[test]
fn escape_not_joined(rt: HostRuntime) -> Result<(), Fail> {
    report_escape(join_within(rt.alloc(), path("/srv"), path("a/../..")))
}

#[test]
fn up_not_joined_verbatim(rt: HostRuntime) -> Result<(), Fail> {
    report_escape(join_verbatim(rt.alloc(), path("/srv"), path("a/../b")))
}

#[test]
fn nul_not_joined_verbatim(rt: HostRuntime) -> Result<(), Fail> {
    match join_verbatim(rt.alloc(), path("/srv"), path("..\0/a")) {
        Err(WithinError::Nul) => report(true, true),
        Err(WithinError::Memory(_)) => report(false, true),
        _ => report(true, false),
    }
}

#[test]
fn no_key_not_read(rt: HostRuntime) -> Result<(), Fail> {
    match path_of(rt.alloc(), b"\x61") {
        Err(KeyError::NotAKey) => report(true, true),
        Err(KeyError::Memory(_)) => report(false, true),
        Ok(_) => report(true, false),
    }
}

#[test]
fn bytes_of_no_key_not_copied(rt: HostRuntime) -> Result<(), Fail> {
    match PathKey::from_bytes(rt.alloc(), b"\x61") {
        Err(KeyError::NotAKey) => report(true, true),
        Err(KeyError::Memory(_)) => report(false, true),
        Ok(_) => report(true, false),
    }
}
