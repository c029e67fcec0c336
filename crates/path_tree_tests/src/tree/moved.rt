//! Moves of entries from one base to another, compared with a table.
use super::tree_of;
use path_keys::PathKey;
use path_tree::PathTree;
use std::alloc::{AllocError, Global};
use std::test::Fail;
use unix_path::Path;

// Paths of a tree, whose values are their positions, counted from 1. Then the source and the target
// of a move. Then its result: the number of entries moved and the entries that the tree then has,
// or the text of the error.
type Row = (
    &'static [&'static str],
    &'static str,
    &'static str,
    Result<(usize, &'static [(&'static str, u32)]), &'static str>,
);

static MOVES: [Row; 18] = [
    (&[], "a", "b", Ok((0, &[]))),
    (&[], "a", "", Ok((0, &[]))),
    (&["x"], "a", "b", Ok((0, &[("x", 1)]))),
    (&["a"], "a", "b", Ok((1, &[("b", 1)]))),
    (
        &["a/b", "a", "a.b"],
        "a",
        "c/d",
        Ok((2, &[("a.b", 3), ("c/d", 2), ("c/d/b", 1)])),
    ),
    (
        &["a/b/c", "b"],
        "a/b",
        "x",
        Ok((1, &[("b", 2), ("x/c", 1)])),
    ),
    (
        &["a/b/c", "a/d"],
        "a/b/",
        "a//e",
        Ok((1, &[("a/d", 2), ("a/e/c", 1)])),
    ),
    (
        &["/a/..", "/a/b"],
        "/a",
        "../q",
        Ok((2, &[("../q/..", 1), ("../q/b", 2)])),
    ),
    (&["./a/b"], ".", "/", Ok((1, &[("/a/b", 1)]))),
    (&["\u{0}b/c"], "\u{0}b", ".", Ok((1, &[("./c", 1)]))),
    (&["a", "b"], "a", "b", Err("the target has entries")),
    (&["a", "b/c"], "a", "b", Err("the target has entries")),
    (&["x"], "a", "x/.", Err("the target has entries")),
    (&["a/b"], "a/b", "a", Err("the target has entries")),
    (&["x"], "a", "", Err("the target has entries")),
    (&["a/b"], "a", "a/c", Err("the target is inside its source")),
    (&["a/b"], "a", "a//", Err("the target is inside its source")),
    (&["/a"], "", "b", Err("the target is inside its source")),
];

// Returns true if the tree has these entries, in this order.
fn has_entries(
    alloc: Global,
    tree: &PathTree<u32>,
    want: &[(&str, u32)],
) -> Result<bool, AllocError> {
    for ((key, value), (path, place)) in tree.iter().zip(want) {
        let wanted = PathKey::from_path(alloc, Path::from_text(path))?;
        if key.as_slice() != wanted.as_bytes() || *value != *place {
            return Ok(false);
        }
    }
    Ok(tree.len() == want.len())
}

// Returns true if the move has the row's result: if it moves the row's entries, or if it fails with
// the row's error and leaves the tree unchanged.
fn is_moved(alloc: Global, row: &Row) -> Result<bool, AllocError> {
    let mut tree = tree_of(alloc, row.0)?;
    let from = PathKey::from_path(alloc, Path::from_text(row.1))?;
    let to = PathKey::from_path(alloc, Path::from_text(row.2))?;
    match (tree.move_under(&from, &to), row.3) {
        (Ok(count), Ok((want, entries))) => {
            Ok(count == want && has_entries(alloc, &tree, entries)?)
        }
        (Err(error), Err(want)) => {
            let text = format!(in alloc; "{error}")?;
            let before = tree_of(alloc, row.0)?;
            Ok(text.as_str() == want && tree.iter().eq(before.iter()))
        }
        _ => Ok(false),
    }
}

#[test]
fn what_is_moved(rt: HostRuntime) -> Result<(), Fail> {
    for row in MOVES.iter() {
        assert!(rt; is_moved(rt.alloc(), row)?, "{} {}", row.1, row.2);
    }
    Ok(())
}
