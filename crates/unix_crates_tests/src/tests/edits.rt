//! Tests of file names that are set, of ends that are replaced, and of consecutive edits.
use super::kept_paths::buffer_has_bytes;
use super::views::path;
use std::alloc::{AllocError, Global};
use std::test::Fail;
use unix_bytes::bytes::UnixStr;
use unix_path::{Path, PathBuf};

// Returns true if the path has these bytes.
pub(super) fn has_bytes(found: &PathBuf, wanted: &str) -> bool {
    found.as_path().as_unix_str() == UnixStr::new(wanted)
}

// A path, a file name, and a copy of the path with that name.
static FILE_NAMES: [(&str, &str, &str); 16] = [
    ("foo", "foo", "foo"),
    ("foo", "bar", "bar"),
    ("foo", "", ""),
    ("", "foo", "foo"),
    (".", "foo", "./foo"),
    ("foo/", "bar", "bar"),
    ("foo/.", "bar", "bar"),
    ("..", "foo", "../foo"),
    ("foo/..", "bar", "foo/../bar"),
    ("/", "foo", "/foo"),
    ("foo", "/etc", "/etc"),
    ("/a", "..", "/.."),
    ("/", "bar", "/bar"),
    ("/bar", "baz.txt", "/baz.txt"),
    ("/tmp/foo.txt", "bar.txt", "/tmp/bar.txt"),
    ("/tmp", "var", "/var"),
];

#[test]
fn a_file_name_is_replaced_or_added(rt: HostRuntime) {
    for row in FILE_NAMES.iter() {
        let copied = path(row.0).with_file_name(rt.alloc(), UnixStr::new(row.1));
        assert!(rt; buffer_has_bytes(copied, row.2), "{} {}", row.0, row.1);
    }
}

static ENDS: [(&str, usize, Option<u8>, &str, &str); 5] = [
    ("a/b.rs", 3, Some(b'.'), "txt", "a/b.txt"),
    ("a/b.rs", 6, Some(b'.'), "bak", "a/b.rs.bak"),
    ("a/b.rs", 3, None, "", "a/b"),
    ("ab", 0, Some(b'/'), "cde", "/cde"),
    ("", 0, None, "a", "a"),
];

// Replaces the bytes after the first `row.1` bytes of the row's path. Returns true if the path is
// then the row's last text.
fn replaces_end(
    alloc: Global,
    row: &(&str, usize, Option<u8>, &str, &str),
) -> Result<bool, AllocError> {
    let mut buffer = PathBuf::from_text(alloc, row.0)?;
    if buffer.as_path().as_unix_str().len() < row.1 {
        return Ok(false);
    }
    buffer.replace_end(row.1, row.2, row.3.as_bytes())?;
    Ok(has_bytes(&buffer, row.4))
}

#[test]
fn ends_are_replaced(rt: HostRuntime) {
    for row in ENDS.iter() {
        assert!(rt;
            matches!(replaces_end(rt.alloc(), row), Ok(true)),
            "{}",
            row.4
        );
    }
}

// Pushes two names to `/`, sets an extension, sets another extension, and clears the path. Returns
// true if each edit has the expected result.
fn takes_edits(buffer: &mut PathBuf) -> bool {
    let is_pushed = buffer.push(path("feel")).is_ok() && buffer.push(path("the")).is_ok();
    let is_set = matches!(buffer.set_extension(UnixStr::new("force")), Ok(true));
    let is_extended = is_pushed && is_set && has_bytes(buffer, "/feel/the.force");
    let is_set_anew = matches!(buffer.set_extension(UnixStr::new("dark_side")), Ok(true));
    let is_replaced = is_set_anew && has_bytes(buffer, "/feel/the.dark_side");
    buffer.clear();
    is_extended && is_replaced && has_bytes(buffer, "")
}

#[test]
fn edits_follow_one_another(rt: HostRuntime) -> Result<(), Fail> {
    let mut buffer = PathBuf::from_text(rt.alloc(), "/")?;
    assert!(rt; takes_edits(&mut buffer));
    Ok(())
}

#[test]
fn many_paths_are_joined_from_the_left(rt: HostRuntime) {
    let parts = [path("/"), path("feel"), path("the.force")];
    let joined = PathBuf::from_iter(rt.alloc(), parts.iter().copied());
    assert!(rt; buffer_has_bytes(joined, "/feel/the.force"));
}

// Extends the path by `paths`. Returns true if this succeeds and the path is then `wanted`.
fn extends(buffer: &mut PathBuf, paths: &[Path<'_>], wanted: &str) -> bool {
    buffer.extend(paths.iter().copied()).is_ok() && has_bytes(buffer, wanted)
}

#[test]
fn many_paths_are_pushed_from_the_left(rt: HostRuntime) -> Result<(), Fail> {
    let parts = [path("b"), path("/c"), path("d")];
    let none: [Path<'_>; 0] = [];
    let mut buffer = PathBuf::from_text(rt.alloc(), "a")?;
    assert!(rt; extends(&mut buffer, &parts, "/c/d") && extends(&mut buffer, &none, "/c/d"));
    Ok(())
}
