//! Tests of the components of a path, from both ends.
use super::answers::assert_each;
use super::views::path;
use unix_bytes::bytes::UnixStr;
use unix_path::{Component, Path, is_separator};

// A path, and the bytes of its components.
static LISTS_OF_PARTS: [(&str, &[&str]); 31] = [
    ("", &[]),
    ("foo", &["foo"]),
    ("/", &["/"]),
    ("/foo", &["/", "foo"]),
    ("foo/", &["foo"]),
    ("/foo/", &["/", "foo"]),
    ("foo/bar", &["foo", "bar"]),
    ("/foo/bar", &["/", "foo", "bar"]),
    ("///foo///", &["/", "foo"]),
    ("///foo///bar", &["/", "foo", "bar"]),
    ("./.", &["."]),
    ("/..", &["/", ".."]),
    ("../", &[".."]),
    ("foo/.", &["foo"]),
    ("foo/..", &["foo", ".."]),
    ("foo/./", &["foo"]),
    ("foo/./bar", &["foo", "bar"]),
    ("foo/../", &["foo", ".."]),
    ("foo/../bar", &["foo", "..", "bar"]),
    ("./a", &[".", "a"]),
    (".", &["."]),
    ("./", &["."]),
    ("a/b", &["a", "b"]),
    ("a//b", &["a", "b"]),
    ("a/./b", &["a", "b"]),
    ("a/b/c", &["a", "b", "c"]),
    (".foo", &[".foo"]),
    ("/etc/passwd", &["/", "etc", "passwd"]),
    ("/tmp/foo/bar.txt", &["/", "tmp", "foo", "bar.txt"]),
    ("./tmp/foo/bar.txt", &[".", "tmp", "foo", "bar.txt"]),
    ("/tmp/foo.txt", &["/", "tmp", "foo.txt"]),
];

// Returns true if these are the components, from the first to the last.
fn gives(text: &str, parts: &[&str]) -> bool {
    let mut walk = path(text).iter();
    for part in parts {
        if walk.next() != Some(UnixStr::new(part)) {
            return false;
        }
    }
    walk.next().is_none() && walk.next_back().is_none()
}

// Returns true if these are the components, taken from the last to the first.
fn gives_back(text: &str, parts: &[&str]) -> bool {
    let mut walk = path(text).into_iter();
    for part in parts.iter().rev() {
        if walk.next_back() != Some(UnixStr::new(part)) {
            return false;
        }
    }
    walk.next_back().is_none() && walk.next().is_none()
}

fn component(text: &str) -> Component<'_> {
    if text == "/" {
        return Component::RootDir;
    }
    if text == "." {
        return Component::CurDir;
    }
    if text == ".." {
        return Component::ParentDir;
    }
    Component::Normal(UnixStr::new(text))
}

fn has_components(text: &str, parts: &[&str]) -> bool {
    let mut walk = path(text).components();
    for part in parts {
        let Some(found) = walk.next() else {
            return false;
        };
        if found != component(part) || found.as_unix_str() != UnixStr::new(part) {
            return false;
        }
    }
    walk.next().is_none()
}

// If the text begins with a slash, returns true if its path has a root and is absolute. Otherwise
// returns true if its path has no root and is relative.
fn has_right_root(text: &str) -> bool {
    let (path, is_rooted) = (path(text), text.as_bytes().starts_with(b"/"));
    path.has_root() == is_rooted
        && path.is_absolute() == is_rooted
        && path.is_relative() != is_rooted
}

// Returns true if each walk yields these components.
fn has_parts(text: &str, parts: &[&str]) -> bool {
    gives(text, parts) && gives_back(text, parts) && has_components(text, parts)
}

#[test]
fn lists_of_parts(rt: HostRuntime) {
    for row in LISTS_OF_PARTS.iter() {
        assert!(rt;
            has_parts(row.0, row.1) && has_right_root(row.0),
            "{}",
            row.0
        );
    }
}

#[test]
fn separators(rt: HostRuntime) {
    assert_each(
        &rt,
        &[
            unix_path::MAIN_SEPARATOR == '/',
            is_separator('/'),
            !is_separator('\\'),
            !is_separator('\u{2215}'),
            !is_separator('a'),
            !is_separator('❤'),
        ],
    );
}

// Returns true if the view has these bytes.
fn has_bytes(view: Path<'_>, bytes: &[u8]) -> bool {
    view.as_unix_str() == UnixStr::from_bytes(bytes)
}

#[test]
fn views_keep_all_bytes(rt: HostRuntime) {
    assert_each(
        &rt,
        &[
            has_bytes(Path::from_bytes(b"./a//\xff/"), b"./a//\xff/"),
            has_bytes(Path::from_bytes(b""), b""),
            has_bytes(Path::from_text("./a//b/"), b"./a//b/"),
            has_bytes(Path::from_text(""), b""),
        ],
    );
}
