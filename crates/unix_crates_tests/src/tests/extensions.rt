//! Tests of extensions that are set, added and rejected.
use super::edits::has_bytes;
use super::texts::{assert_text, text_of_error};
use super::views::path;
use std::alloc::{AllocError, Global};
use unix_bytes::bytes::UnixStr;
use unix_path::{ExtensionError, PathBuf};

// A path, an extension, the changed path, and whether the path has a file name.
static EXTENSIONS_SET: [(&str, &str, &str, bool); 18] = [
    ("foo", "txt", "foo.txt", true),
    ("foo.bar", "txt", "foo.txt", true),
    ("foo.bar.baz", "txt", "foo.bar.txt", true),
    (".test", "txt", ".test.txt", true),
    ("foo.txt", "", "foo", true),
    ("foo", "", "foo", true),
    ("", "foo", "", false),
    (".", "foo", ".", false),
    ("foo/", "bar", "foo.bar", true),
    ("foo/.", "bar", "foo.bar", true),
    ("..", "foo", "..", false),
    ("foo/..", "bar", "foo/..", false),
    ("/", "foo", "/", false),
    ("...", "", "..", true),
    ("..foo", "", ".", true),
    ("a/..foo", "", "a/.", true),
    ("foo.rs", "txt", "foo.txt", true),
    ("foo.rs/.", "txt", "foo.txt", true),
];

// Sets the extension of `old` in place and in a copy. Returns true if both become `new`, and the
// call in place returns `answer`.
fn takes_extension(
    alloc: Global,
    old: &str,
    extension: &str,
    new: &str,
    answer: bool,
) -> Result<bool, ExtensionError> {
    let mut buffer = PathBuf::from_text(alloc, old)?;
    let is_answered = buffer.set_extension(UnixStr::new(extension))? == answer;
    let copied = path(old).with_extension(alloc, UnixStr::new(extension))?;
    Ok(is_answered && has_bytes(&buffer, new) && has_bytes(&copied, new))
}

#[test]
fn an_extension_is_put_behind_the_stem(rt: HostRuntime) {
    for row in EXTENSIONS_SET.iter() {
        let answer = takes_extension(rt.alloc(), row.0, row.1, row.2, row.3);
        assert!(rt; matches!(answer, Ok(true)), "{} {}", row.0, row.1);
    }
}

// A path, an extension, the changed path, and whether the path has a file name.
static EXTENSIONS_ADDED: [(&str, &str, &str, bool); 13] = [
    ("foo.tar", "gz", "foo.tar.gz", true),
    ("foo.tar/.", "gz", "foo.tar.gz", true),
    ("a/b//", "c", "a/b.c", true),
    ("/a", "b.c", "/a.b.c", true),
    (".foo", "rs", ".foo.rs", true),
    ("foo.", "x", "foo..x", true),
    ("foo", ".", "foo..", true),
    ("a/.", "", "a/.", true),
    ("..", "x", "..", false),
    ("a/..", "x", "a/..", false),
    (".", "x", ".", false),
    ("/", "x", "/", false),
    ("", "x", "", false),
];

// Adds the extension to `old` in place and to a copy. Returns true if both become `new`, and the
// call in place returns `answer`.
fn adds_extension(
    alloc: Global,
    old: &str,
    extension: &str,
    new: &str,
    answer: bool,
) -> Result<bool, ExtensionError> {
    let mut buffer = PathBuf::from_text(alloc, old)?;
    let is_answered = buffer.add_extension(UnixStr::new(extension))? == answer;
    let copied = path(old).with_added_extension(alloc, UnixStr::new(extension))?;
    Ok(is_answered && has_bytes(&buffer, new) && has_bytes(&copied, new))
}

#[test]
fn an_extension_is_added_behind_the_name(rt: HostRuntime) {
    for row in EXTENSIONS_ADDED.iter() {
        let answer = adds_extension(rt.alloc(), row.0, row.1, row.2, row.3);
        assert!(rt; matches!(answer, Ok(true)), "{} {}", row.0, row.1);
    }
}

// A path, and an extension that is rejected.
static EXTENSIONS_REFUSED: [(&str, &str); 7] = [
    ("a", "x/y"),
    ("foo.rs/.", "/"),
    ("foo.rs", "a/"),
    ("foo.rs", "/a"),
    ("..", "x/y"),
    ("/", "x/y"),
    ("", "/"),
];

// Returns true if the extension is rejected for its separator.
fn is_separator<T>(answer: &Result<T, ExtensionError>) -> bool {
    matches!(answer, Err(ExtensionError::Separator))
}

// Returns true if all four calls reject the extension, and leave the path unchanged.
fn is_refused(alloc: Global, old: &str, extension: &str) -> Result<bool, AllocError> {
    let extension = UnixStr::new(extension);
    let mut buffer = PathBuf::from_text(alloc, old)?;
    Ok(
        is_separator(&buffer.set_extension(extension))
            && is_separator(&buffer.add_extension(extension))
            && is_separator(&path(old).with_extension(alloc, extension))
            && is_separator(&path(old).with_added_extension(alloc, extension))
            && has_bytes(&buffer, old),
    )
}

#[test]
fn an_extension_with_a_separator_is_refused(rt: HostRuntime) {
    for row in EXTENSIONS_REFUSED.iter() {
        let answer = is_refused(rt.alloc(), row.0, row.1);
        assert!(rt; matches!(answer, Ok(true)), "{} {}", row.0, row.1);
    }
}

#[test]
fn texts_of_refused_extensions(rt: HostRuntime) {
    let alloc = rt.alloc();
    let text = "extension contains a separator|  extension contains a separator";
    assert_text(
        &rt,
        text_of_error(alloc, &ExtensionError::Separator, 32),
        text,
    );
    let error = ExtensionError::from(AllocError);
    let text = "out of memory|                   out of memory";
    assert_text(&rt, text_of_error(alloc, &error, 32), text);
}
