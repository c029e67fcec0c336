//! Tests of `rejoin`, and of the text of an error.
use path_runs::edits::{ApplyError, rejoin};
use std::alloc::{AllocError, Global};
use unix_path::Path;
use unix_path::bytes::UnixStr;

// A path, a base, and the base joined with the rest of the path after it, or `None` if the path
// doesn't start with the base.
type BaseRow = (&'static str, &'static str, Option<&'static str>);

static JOINS_TO_A_BASE: [BaseRow; 6] = [
    ("/a//b/.", "/a/", Some("/a/b")),
    ("a", "a", Some("a/")),
    ("a", "b", None),
    (
        "/test/haha/foo.txt",
        "/test/haha/foo.txt/",
        Some("/test/haha/foo.txt/"),
    ),
    ("./foo/bar/", ".", Some("./foo/bar")),
    ("foo/bar", "foo/bar/baz", None),
];

// Returns true if `rejoin` returns the path in the row, or `None` if the row has none.
fn is_rejoined(alloc: Global, row: &BaseRow) -> bool {
    match rejoin(alloc, Path::from_text(row.0), Path::from_text(row.1)) {
        Ok(Some(joined)) => match row.2 {
            Some(want) => joined.as_path().as_unix_str() == UnixStr::new(want),
            None => false,
        },
        Ok(None) => row.2.is_none(),
        Err(AllocError) => false,
    }
}

#[test]
fn rows_of_joins_to_a_base(rt: HostRuntime) {
    for row in JOINS_TO_A_BASE.iter() {
        assert!(rt; is_rejoined(rt.alloc(), row), "{}", row.0);
    }
}

// Returns true if the error is printed as `out of memory`, and padded if a width is given.
fn is_printed(alloc: Global, error: &ApplyError) -> bool {
    match format!(in alloc; "{error}|{error:>15}") {
        Ok(text) => text.as_str() == "out of memory|  out of memory",
        Err(AllocError) => false,
    }
}

#[test]
fn text_of_the_error(rt: HostRuntime) {
    assert!(rt; is_printed(rt.alloc(), &ApplyError { done: 2 }));
}
