//! The nearest entries of paths, compared with a table, and of a path with a long key.
use super::{long_name, tree_of};
use std::alloc::{AllocError, Global};
use std::test::Fail;
use unix_path::Path;

// The tree's paths, a path, and, if it has a nearest entry, the rest of the path after this entry
// and the entry's position among the tree's paths, counted from 1.
type Row = (
    &'static [&'static str],
    &'static str,
    Option<(&'static str, u32)>,
);

static NEAREST: [Row; 16] = [
    (&[], "a", None),
    (&["/", "/a/b", "/a/bc"], "/a/b//c/d", Some(("c/d", 2))),
    (&["/", "/a/b", "/a/bc"], "/a/bcd/", Some(("a/bcd", 1))),
    (&["/", "/a/b", "/a/bc"], "a/b", None),
    (&[""], "x//y", Some(("x//y", 1))),
    (&[""], "/x", Some(("/x", 1))),
    (&["", "/"], "///", Some(("", 2))),
    (&["a/b"], "a", None),
    (&["a"], "a//", Some(("", 1))),
    (&["a"], "ab", None),
    (&["."], "./a/./b/", Some(("a/./b", 1))),
    (&["a", "a/b/c"], "a/./b", Some(("b", 1))),
    (&["..", ""], "../../x", Some(("../x", 1))),
    (&["..", "\u{2}"], "\u{2}/a", Some(("a", 2))),
    (&["a", "a/.."], "a/../b", Some(("b", 2))),
    (&["a.b", "a"], "a.b/c", Some(("c", 1))),
];

fn has_nearest(alloc: Global, row: &Row) -> Result<bool, AllocError> {
    let tree = tree_of(alloc, row.0)?;
    Ok(
        match (tree.longest_prefix(Path::from_text(row.1))?, row.2) {
            (Some((rest, value)), Some((left, want))) => {
                rest.as_unix_str().as_bytes() == left.as_bytes() && *value == want
            }
            (None, None) => true,
            _ => false,
        },
    )
}

#[test]
fn what_is_nearest(rt: HostRuntime) -> Result<(), Fail> {
    for row in NEAREST.iter() {
        assert!(rt; has_nearest(rt.alloc(), row)?, "{}", row.1);
    }
    Ok(())
}

// Tests a path whose key is too long for the stack.
#[test]
fn what_is_nearest_to_a_long_path(rt: HostRuntime) -> Result<(), Fail> {
    let alloc = rt.alloc();
    let tree = tree_of(alloc, &["a", "a/b/c"])?;
    let name = long_name(alloc, 600)?;
    let path = Path::from_text("a/b").join(alloc, Path::from_bytes(&name))?;
    let left = Path::from_text("b").join(alloc, Path::from_bytes(&name))?;
    match tree.longest_prefix(path.as_path())? {
        Some((rest, value)) => assert!(rt; rest == left.as_path() && *value == 1),
        None => assert!(rt; false),
    }
    Ok(())
}
