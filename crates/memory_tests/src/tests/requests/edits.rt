//! Allocations of edits of a buffer.
use super::super::{holds, path};
use super::{buffer_with_room, report};
use std::alloc::AllocError;
use std::test::Fail;
use unix_path::bytes::UnixStr;
use unix_path::{ExtensionError, PathBuf};

// Returns the result of a test whose call has to change the path `before` to `after`, or to leave
// `before` if it fails; `edited` is what the call returned, and `buffer` what it left.
fn report_edit(
    edited: Result<(), AllocError>,
    buffer: &PathBuf,
    before: &str,
    after: &str,
) -> Result<(), Fail> {
    let is_made = edited.is_ok();
    report(is_made, holds(buffer, if is_made { after } else { before }))
}

#[test]
fn path_pushed(rt: HostRuntime) -> Result<(), Fail> {
    let mut buffer = PathBuf::from_text(rt.alloc(), "ab")?;
    let edited = buffer.push(path("cd"));
    report_edit(edited, &buffer, "ab", "ab/cd")
}

#[test]
fn rooted_path_pushed(rt: HostRuntime) -> Result<(), Fail> {
    let mut buffer = PathBuf::from_text(rt.alloc(), "ab")?;
    let edited = buffer.push(path("/cd"));
    report_edit(edited, &buffer, "ab", "/cd")
}

#[test]
fn name_set(rt: HostRuntime) -> Result<(), Fail> {
    let mut buffer = PathBuf::from_text(rt.alloc(), "a/bb")?;
    let edited = buffer.set_file_name(UnixStr::new("ccc"));
    report_edit(edited, &buffer, "a/bb", "a/ccc")
}

#[test]
fn end_replaced(rt: HostRuntime) -> Result<(), Fail> {
    let mut buffer = PathBuf::from_text(rt.alloc(), "a/b.rs")?;
    let edited = buffer.replace_end(6, Some(b'.'), b"bak");
    report_edit(edited, &buffer, "a/b.rs", "a/b.rs.bak")
}

// Returns the result of a test whose call has to change `foo/.` to `foo.bar`, or to leave `foo/.`
// if it fails; `edited` is what the call returned, and `buffer` what it left.
fn report_extension(edited: Result<bool, ExtensionError>, buffer: &PathBuf) -> Result<(), Fail> {
    match edited {
        Ok(is_made) => report(true, is_made && holds(buffer, "foo.bar")),
        Err(ExtensionError::Memory(_)) => report(false, holds(buffer, "foo/.")),
        Err(ExtensionError::Separator) => report(true, false),
    }
}

#[test]
fn extension_set(rt: HostRuntime) -> Result<(), Fail> {
    let mut buffer = PathBuf::from_text(rt.alloc(), "foo/.")?;
    let edited = buffer.set_extension(UnixStr::new("bar"));
    report_extension(edited, &buffer)
}

#[test]
fn extension_added(rt: HostRuntime) -> Result<(), Fail> {
    let mut buffer = PathBuf::from_text(rt.alloc(), "foo/.")?;
    let edited = buffer.add_extension(UnixStr::new("bar"));
    report_extension(edited, &buffer)
}

#[test]
fn path_with_room(rt: HostRuntime) -> Result<(), Fail> {
    let mut buffer = PathBuf::from_text(rt.alloc(), "foo")?;
    let is_made = buffer.reserve(6).is_ok();
    let has_room = buffer.capacity() >= 9;
    report(is_made, has_room == is_made && holds(&buffer, "foo"))
}

#[test]
fn path_with_exact_room(rt: HostRuntime) -> Result<(), Fail> {
    let mut buffer = PathBuf::from_text(rt.alloc(), "foo")?;
    let is_made = buffer.reserve_exact(6).is_ok();
    let capacity = if is_made { 9 } else { 3 };
    report(
        is_made,
        buffer.capacity() == capacity && holds(&buffer, "foo"),
    )
}

#[test]
fn path_without_room(rt: HostRuntime) -> Result<(), Fail> {
    let mut buffer = buffer_with_room(rt.alloc(), "foo")?;
    let is_made = buffer.shrink_to_fit().is_ok();
    let capacity = if is_made { 3 } else { 100 };
    report(
        is_made,
        buffer.capacity() == capacity && holds(&buffer, "foo"),
    )
}

#[test]
fn path_with_less_room(rt: HostRuntime) -> Result<(), Fail> {
    let mut buffer = buffer_with_room(rt.alloc(), "foo")?;
    let is_made = buffer.shrink_to(5).is_ok();
    let capacity = if is_made { 5 } else { 100 };
    report(
        is_made,
        buffer.capacity() == capacity && holds(&buffer, "foo"),
    )
}

// The path `ab` after no push, and after each of three pushes, which all grow the buffer.
const AB_AFTER_PUSHES: [&str; 4] = [
    "ab",
    "ab/c",
    "ab/c/0123456789",
    "ab/c/0123456789/0123456789012345678901234567890123456789",
];

// Returns true if the path is `ab` after some of the pushes, and the next push would make it longer
// than its capacity.
fn is_cut_short(buffer: &PathBuf) -> bool {
    let [none, one, two, three] = AB_AFTER_PUSHES;
    let next = if holds(buffer, none) {
        one
    } else if holds(buffer, one) {
        two
    } else if holds(buffer, two) {
        three
    } else {
        return false;
    };
    buffer.capacity() < next.len()
}

#[test]
fn path_extended(rt: HostRuntime) -> Result<(), Fail> {
    let mut buffer = PathBuf::from_text(rt.alloc(), "ab")?;
    let items = [
        path("c"),
        path("0123456789"),
        path("0123456789012345678901234567890123456789"),
    ];
    let is_made = buffer.extend(items.iter().copied()).is_ok();
    let [_, _, _, whole] = AB_AFTER_PUSHES;
    report(
        is_made,
        if is_made {
            holds(&buffer, whole)
        } else {
            is_cut_short(&buffer)
        },
    )
}
