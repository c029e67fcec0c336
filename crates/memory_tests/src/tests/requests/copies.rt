//! Allocations of calls that copy paths.
use super::super::path;
use super::{report, report_path};
use serde_json::Value;
use std::test::Fail;
use unix_path::bytes::UnixStr;
use unix_path::json::{JsonError, from_json, to_json};
use unix_path::{CowPath, ExtensionError, PathBuf};

#[test]
fn path_with_capacity(rt: HostRuntime) -> Result<(), Fail> {
    report_path(PathBuf::with_capacity(rt.alloc(), 10), "")
}

#[test]
fn path_from_bytes(rt: HostRuntime) -> Result<(), Fail> {
    report_path(
        PathBuf::from_unix_str(rt.alloc(), UnixStr::new("tmp/")),
        "tmp/",
    )
}

#[test]
fn path_from_text(rt: HostRuntime) -> Result<(), Fail> {
    report_path(PathBuf::from_text(rt.alloc(), "/tmp"), "/tmp")
}

#[test]
fn path_from_view(rt: HostRuntime) -> Result<(), Fail> {
    report_path(path("foo/").to_path_buf(rt.alloc()), "foo/")
}

#[test]
fn path_copied(rt: HostRuntime) -> Result<(), Fail> {
    let buffer = PathBuf::from_text(rt.alloc(), "foo/")?;
    report_path(buffer.clone(), "foo/")
}

#[test]
fn path_joined(rt: HostRuntime) -> Result<(), Fail> {
    report_path(path("/etc").join(rt.alloc(), path("passwd")), "/etc/passwd")
}

#[test]
fn path_with_name(rt: HostRuntime) -> Result<(), Fail> {
    let name = UnixStr::new("foobar.txt");
    report_path(
        path("/tmp/foo.txt").with_file_name(rt.alloc(), name),
        "/tmp/foobar.txt",
    )
}

// Returns the result of a test whose call has to return the path `text`, a copy with another
// extension; `given` is what it returned.
fn report_copy(given: Result<PathBuf, ExtensionError>, text: &str) -> Result<(), Fail> {
    match given {
        Ok(buffer) => report_path(Ok(buffer), text),
        Err(ExtensionError::Memory(error)) => report_path(Err(error), text),
        Err(ExtensionError::Separator) => report(true, false),
    }
}

#[test]
fn path_with_extension(rt: HostRuntime) -> Result<(), Fail> {
    let extension = UnixStr::new("txt");
    report_copy(
        path("foo.rs").with_extension(rt.alloc(), extension),
        "foo.txt",
    )
}

#[test]
fn path_with_added_extension(rt: HostRuntime) -> Result<(), Fail> {
    let extension = UnixStr::new("gz");
    report_copy(
        path("foo.tar").with_added_extension(rt.alloc(), extension),
        "foo.tar.gz",
    )
}

#[test]
fn path_from_many(rt: HostRuntime) -> Result<(), Fail> {
    let items = [path("/"), path("feel"), path("the.force/to/this.end")];
    let given = PathBuf::from_iter(rt.alloc(), items.iter().copied());
    report_path(given, "/feel/the.force/to/this.end")
}

#[test]
fn path_owned(rt: HostRuntime) -> Result<(), Fail> {
    report_path(
        CowPath::Borrowed(path("foo/")).into_owned(rt.alloc()),
        "foo/",
    )
}

#[test]
fn path_to_json(rt: HostRuntime) -> Result<(), Fail> {
    match to_json(rt.alloc(), path("a//b")) {
        Ok(Value::String(text)) => report(true, text.as_str() == "a//b"),
        Err(JsonError::Memory(_)) => report(false, true),
        _ => report(true, false),
    }
}

#[test]
fn path_from_json(rt: HostRuntime) -> Result<(), Fail> {
    let value = Value::String(String::from_str(rt.alloc(), "a//b")?);
    match from_json(rt.alloc(), &value) {
        Ok(buffer) => report_path(Ok(buffer), "a//b"),
        Err(JsonError::Memory(error)) => report_path(Err(error), ""),
        Err(_) => report(true, false),
    }
}
