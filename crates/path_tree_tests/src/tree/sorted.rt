//! Trees created from strictly increasing paths, for the rows of a table, and compared with trees
//! into which the same paths are inserted one by one.
use super::has_at;
use path_tree::{PathTree, SortedError};
use std::alloc::{AllocError, Global};
use std::test::Fail;
use unix_path::Path;

// Paths, and whether they are strictly increasing.
static RISING: [(&'static [&'static str], bool); 10] = [
    (&[], true),
    (&["a//b"], true),
    (&["", "/", "/a", ".", "./a", "..", "../a", "a"], true),
    (&["a", "a/b", "a.b", "ab"], true),
    (&["\u{0}\u{2}", "\u{1}", "/a"], false),
    (&["a/b", "a"], false),
    (&["a.b", "a/b"], false),
    (&["a/b", "a//b/."], false),
    (&["a", "b", "c", "b"], false),
    (&["", ""], false),
];

// Returns the paths with their positions, counted from 1.
fn with_places(
    alloc: Global,
    paths: &[&'static str],
) -> Result<Vec<(Path<'static>, u32)>, AllocError> {
    let mut items = Vec::new(alloc);
    let mut place = 0u32;
    for path in paths {
        place = place.wrapping_add(1);
        items.push((Path::from_text(path), place))?;
    }
    Ok(items)
}

// If `rise` is true, returns true if a tree of all the paths is created. Otherwise returns true if
// the paths are rejected.
fn is_made(alloc: Global, paths: &[&'static str], rise: bool) -> Result<bool, AllocError> {
    let items = with_places(alloc, paths)?;
    match PathTree::from_sorted(alloc, items.iter().copied()) {
        Ok(tree) => {
            for (path, place) in items.iter() {
                if !has_at(alloc, &tree, path.as_unix_str().as_bytes(), Some(*place))? {
                    return Ok(false);
                }
            }
            Ok(rise && tree.len() == paths.len())
        }
        Err(SortedError::NotSorted) => Ok(!rise),
        Err(SortedError::Memory(error)) => Err(error),
    }
}

#[test]
fn paths_that_rise_make_a_tree(rt: HostRuntime) -> Result<(), Fail> {
    for (paths, rise) in RISING.iter() {
        assert!(rt; is_made(rt.alloc(), paths, *rise)?, "{paths:?}");
    }
    Ok(())
}

// Returns the names of two letters, in increasing order.
fn letters(alloc: Global) -> Result<Vec<[u8; 2]>, AllocError> {
    let mut names = Vec::new(alloc);
    for first in b'a'..=b'z' {
        for second in b'a'..=b'z' {
            names.push([first, second])?;
        }
    }
    Ok(names)
}

// Returns true if a tree of many increasing paths has the same entries as a tree into which they
// are inserted, in the same order.
fn is_as_inserted(alloc: Global) -> Result<bool, AllocError> {
    let names = letters(alloc)?;
    let mut items = Vec::new(alloc);
    for name in &names {
        items.push((Path::from_bytes(name.as_slice()), name[1]))?;
    }
    let inserted = PathTree::from_iter(alloc, items.iter().copied())?;
    match PathTree::from_sorted(alloc, items.iter().copied()) {
        Ok(tree) => Ok(tree.len() == names.len() && tree.iter().eq(inserted.iter())),
        Err(_) => Ok(false),
    }
}

#[test]
fn many_paths_make_the_tree_of_their_insertions(rt: HostRuntime) -> Result<(), Fail> {
    assert!(rt; is_as_inserted(rt.alloc())?);
    Ok(())
}
