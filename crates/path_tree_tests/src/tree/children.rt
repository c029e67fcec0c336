//! The children of bases in trees, compared with a table.
use super::tree_of;
use path_keys::PathKey;
use std::alloc::{AllocError, Global};
use std::test::Fail;
use unix_path::Path;

// Paths of a tree, a base, and the base's children, each with its position among the paths, counted
// from 1, or `None` if it is not one of them.
type Row = (
    &'static [&'static str],
    &'static str,
    &'static [(&'static str, Option<u32>)],
);

static CHILDREN: [Row; 14] = [
    (&[], "", &[]),
    (&["a"], "a", &[]),
    (&["a"], "b", &[]),
    (&["ab/c", "aa", "b"], "a", &[]),
    (&["", "a"], "", &[("a", Some(2))]),
    (
        &["a/b/c", "a/b/d", "a/e", "a"],
        "a",
        &[("a/b", None), ("a/e", Some(3))],
    ),
    (
        &["a/b/c", "a/b", "a/b.c"],
        "a//",
        &[("a/b", Some(2)), ("a/b.c", Some(3))],
    ),
    (
        &["a/b/c/d/e", "a/b/c", "a/b/x", "a/c/d", "b"],
        "a/.",
        &[("a/b", None), ("a/c", None)],
    ),
    (
        &["/a", "./b", "..", "c", "../d", ""],
        "",
        &[("/", None), (".", None), ("..", Some(3)), ("c", Some(4))],
    ),
    (
        &["/a/x", "/b", "a/c"],
        "/",
        &[("/a", None), ("/b", Some(2))],
    ),
    (&["./a/b", "a"], ".", &[("./a", None)]),
    (
        &["a/../b", "a/..", "a/b"],
        "a",
        &[("a/..", Some(2)), ("a/b", Some(3))],
    ),
    (
        &["../../a", "../b"],
        "..",
        &[("../..", None), ("../b", Some(2))],
    ),
    (
        &["a/\u{0}/b", "a/\u{0}\u{0}"],
        "a",
        &[("a/\u{0}", None), ("a/\u{0}\u{0}", Some(2))],
    ),
];

// Returns true if the base has the children in the row, in the tree of the row's paths.
fn has_children(alloc: Global, row: &Row) -> Result<bool, AllocError> {
    let tree = tree_of(alloc, row.0)?;
    let base = PathKey::from_path(alloc, Path::from_text(row.1))?;
    let found = tree.children(&base)?;
    for ((key, value), (path, want)) in found.iter().zip(row.2) {
        let wanted = PathKey::from_path(alloc, Path::from_text(path))?;
        if *key != wanted.as_bytes() || value.copied() != *want {
            return Ok(false);
        }
    }
    Ok(found.len() == row.2.len())
}

#[test]
fn what_is_just_below_a_base(rt: HostRuntime) -> Result<(), Fail> {
    for row in CHILDREN.iter() {
        assert!(rt; has_children(rt.alloc(), row)?, "{}", row.1);
    }
    Ok(())
}
