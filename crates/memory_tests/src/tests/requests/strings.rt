//! Allocations of calls that create byte strings and lossy texts.
use super::{buffer_with_room, has_bytes, report};
use std::alloc::AllocError;
use std::test::Fail;
use unix_bytes::bytes::{LossyText, UnixStr, UnixString};
use unix_path::Path;

fn report_bytes(given: Result<UnixString, AllocError>, text: &str) -> Result<(), Fail> {
    match given {
        Ok(bytes) => report(true, has_bytes(&bytes, text)),
        Err(AllocError) => report(false, true),
    }
}

fn report_text(given: Result<LossyText<'_>, AllocError>, text: &str) -> Result<(), Fail> {
    match given {
        Ok(lossy) => report(true, lossy.as_str() == text),
        Err(AllocError) => report(false, true),
    }
}

#[test]
fn bytes_with_capacity(rt: HostRuntime) -> Result<(), Fail> {
    report_bytes(UnixString::with_capacity(rt.alloc(), 10), "")
}

#[test]
fn bytes_from_bytes(rt: HostRuntime) -> Result<(), Fail> {
    report_bytes(UnixStr::new("tmp").to_unix_string(rt.alloc()), "tmp")
}

#[test]
fn bytes_copied(rt: HostRuntime) -> Result<(), Fail> {
    let bytes = UnixStr::new("tmp").to_unix_string(rt.alloc())?;
    report_bytes(bytes.clone(), "tmp")
}

#[test]
fn bytes_pushed(rt: HostRuntime) -> Result<(), Fail> {
    let mut bytes = UnixStr::new("foo").to_unix_string(rt.alloc())?;
    let is_made = bytes.push(UnixStr::new("bar")).is_ok();
    report(
        is_made,
        has_bytes(&bytes, if is_made { "foobar" } else { "foo" }),
    )
}

#[test]
fn bytes_with_room(rt: HostRuntime) -> Result<(), Fail> {
    let mut bytes = UnixStr::new("foo").to_unix_string(rt.alloc())?;
    let is_made = bytes.reserve(6).is_ok();
    let has_room = bytes.capacity() >= 9;
    report(is_made, has_room == is_made && has_bytes(&bytes, "foo"))
}

#[test]
fn bytes_with_exact_room(rt: HostRuntime) -> Result<(), Fail> {
    let mut bytes = UnixStr::new("foo").to_unix_string(rt.alloc())?;
    let is_made = bytes.reserve_exact(6).is_ok();
    let capacity = if is_made { 9 } else { 3 };
    report(
        is_made,
        bytes.capacity() == capacity && has_bytes(&bytes, "foo"),
    )
}

#[test]
fn bytes_without_room(rt: HostRuntime) -> Result<(), Fail> {
    let mut bytes = buffer_with_room(rt.alloc(), "foo")?.into_unix_string();
    let is_made = bytes.shrink_to_fit().is_ok();
    let capacity = if is_made { 3 } else { 100 };
    report(
        is_made,
        bytes.capacity() == capacity && has_bytes(&bytes, "foo"),
    )
}

#[test]
fn bytes_with_less_room(rt: HostRuntime) -> Result<(), Fail> {
    let mut bytes = buffer_with_room(rt.alloc(), "foo")?.into_unix_string();
    let is_made = bytes.shrink_to(5).is_ok();
    let capacity = if is_made { 5 } else { 100 };
    report(
        is_made,
        bytes.capacity() == capacity && has_bytes(&bytes, "foo"),
    )
}

#[test]
fn bytes_shown(rt: HostRuntime) -> Result<(), Fail> {
    let broken = UnixStr::from_bytes(b"a\xffb");
    report_text(broken.to_string_lossy(rt.alloc()), "a\u{fffd}b")
}

#[test]
fn path_shown(rt: HostRuntime) -> Result<(), Fail> {
    let broken = Path::from_bytes(b"a\xffb");
    report_text(broken.to_string_lossy(rt.alloc()), "a\u{fffd}b")
}

#[test]
fn text_owned(rt: HostRuntime) -> Result<(), Fail> {
    match LossyText::Borrowed("ab").into_owned(rt.alloc()) {
        Ok(text) => report(true, text.as_str() == "ab"),
        Err(AllocError) => report(false, true),
    }
}
