//! The entries under bases in trees, compared with tables, and the first and last entries.
use super::tree_of;
use path_keys::PathKey;
use path_tree::PathTree;
use std::alloc::{AllocError, Global};
use std::test::Fail;
use unix_path::Path;

// Paths of a tree, a base, and the tree's paths that start with the base, in path order.
type Row = (
    &'static [&'static str],
    &'static str,
    &'static [&'static str],
);

static UNDER: [Row; 11] = [
    (&[], "", &[]),
    (&["./a", "a", "/a", ""], "", &["", "/a", "./a", "a"]),
    (&["/a.b", "/a/b"], "/a", &["/a/b"]),
    (&["a/b", "a", "a.b"], "a//", &["a", "a/b"]),
    (&["a//b/c", "a/b/d", "a.b"], "a/b", &["a/b/c", "a/b/d"]),
    (&["a/b", "a/../b", "./a/b"], "a/.", &["a/../b", "a/b"]),
    (&["a", "c"], "b", &[]),
    (&["..", "../a", "a", "\u{2}"], "..", &["..", "../a"]),
    (&["/", "/a", "a", ""], "//", &["/", "/a"]),
    (&["a\u{0}", "a/\u{0}", "a"], "a", &["a", "a/\u{0}"]),
    (&["a/b", "a/b.c", "a/b/c", "a/bc"], "a/b", &["a/b", "a/b/c"]),
];

fn is_key_of(alloc: Global, key: &[u8], path: &str) -> Result<bool, AllocError> {
    Ok(PathKey::from_path(alloc, Path::from_text(path))?.as_bytes() == key)
}

// Returns true if the entries under the row's base, in the tree of the row's paths, are those of
// the row.
fn has_under(alloc: Global, row: &Row) -> Result<bool, AllocError> {
    let tree = tree_of(alloc, row.0)?;
    let base = PathKey::from_path(alloc, Path::from_text(row.1))?;
    let mut place = 0usize;
    for (key, _) in tree.under(&base)? {
        let Some(path) = row.2.get(place) else {
            return Ok(false);
        };
        if !is_key_of(alloc, key, path)? {
            return Ok(false);
        }
        place = place.wrapping_add(1);
    }
    Ok(place == row.2.len())
}

#[test]
fn what_is_under_a_base(rt: HostRuntime) -> Result<(), Fail> {
    for row in UNDER.iter() {
        assert!(rt; has_under(rt.alloc(), row)?, "{}", row.1);
    }
    Ok(())
}

// Removes the entries under the row's base from the tree of the row's paths. Returns true if as
// many are removed as the row has, and the tree then has all other paths.
fn removes_under(alloc: Global, row: &Row) -> Result<bool, AllocError> {
    let mut tree = tree_of(alloc, row.0)?;
    let base = Path::from_text(row.1);
    if tree.remove_under(&PathKey::from_path(alloc, base)?) != row.2.len() {
        return Ok(false);
    }
    for path in row.0 {
        let path = Path::from_text(path);
        let is_removed = row.2.iter().any(|under| Path::from_text(under) == path);
        if tree.contains_path(path)? == is_removed {
            return Ok(false);
        }
    }
    Ok(tree.len().wrapping_add(row.2.len()) == row.0.len())
}

#[test]
fn what_is_removed_under_a_base(rt: HostRuntime) -> Result<(), Fail> {
    for row in UNDER.iter() {
        assert!(rt; removes_under(rt.alloc(), row)?, "{}", row.1);
    }
    Ok(())
}

// Returns true if there is an entry, and it has this path and this value.
fn is_entry(
    alloc: Global,
    entry: Option<(&[u8], &u32)>,
    path: &str,
    want: u32,
) -> Result<bool, AllocError> {
    match entry {
        Some((key, value)) => Ok(*value == want && is_key_of(alloc, key, path)?),
        None => Ok(false),
    }
}

// Returns true if the tree's values, in path order, are 4, 2, 1 and 3.
fn has_values_in_order(tree: &PathTree<u32>) -> bool {
    let mut values = [0; 4];
    for (place, (_, value)) in tree.iter().enumerate() {
        if place > 3 {
            return false;
        }
        values[place] = *value;
    }
    values == [4, 2, 1, 3]
}

#[test]
fn entries_in_path_order(rt: HostRuntime) -> Result<(), Fail> {
    let tree = tree_of(rt.alloc(), &["a.b", "a//b", "b", "a"])?;
    let is_first = is_entry(rt.alloc(), tree.first(), "a", 4)?;
    let is_last = is_entry(rt.alloc(), tree.last(), "b", 3)?;
    assert!(rt; is_first && is_last && has_values_in_order(&tree));
    let empty = tree_of(rt.alloc(), &[])?;
    assert!(rt; empty.first().is_none() && empty.last().is_none());
    Ok(())
}

// Returns true if `want` are the entries of the first tree whose paths the second tree lacks.
fn lacks(
    tree: &PathTree<u32>,
    other: &PathTree<u32>,
    want: &[(&[u8], &u32)],
) -> Result<bool, AllocError> {
    Ok(tree.difference(other)?.as_slice() == want)
}

#[test]
fn what_another_tree_lacks(rt: HostRuntime) -> Result<(), Fail> {
    let tree = tree_of(rt.alloc(), &["a/b", "c", "a.b"])?;
    let other = tree_of(rt.alloc(), &["a//b", "b"])?;
    let want: [(&[u8], &u32); 2] = [(b"a/b\x00", &3), (b"c\x00", &2)];
    assert!(rt; lacks(&tree, &other, want.as_slice())? && lacks(&tree, &tree, &[])?);
    Ok(())
}

// Returns true if `want` are the paths that both trees have, but with different values, and these
// values.
fn differ(
    tree: &PathTree<u32>,
    other: &PathTree<u32>,
    want: &[(&[u8], &u32, &u32)],
) -> Result<bool, AllocError> {
    Ok(tree.changed(other)?.as_slice() == want)
}

#[test]
fn what_another_tree_has_changed(rt: HostRuntime) -> Result<(), Fail> {
    let tree = tree_of(rt.alloc(), &["a/b", "c", "a.b", "d"])?;
    let other = tree_of(rt.alloc(), &["a//b", "b", "c/", "a.b", "d/."])?;
    let want: [(&[u8], &u32, &u32); 3] = [
        (b"a/b\x00", &3, &4),
        (b"c\x00", &2, &3),
        (b"d\x00", &4, &5),
    ];
    assert!(rt; differ(&tree, &other, want.as_slice())? && differ(&tree, &tree, &[])?);
    Ok(())
}

// Returns a tree of 64 paths of two letters, each with the value 2.
fn tree_of_many(alloc: Global) -> Result<PathTree<u32>, AllocError> {
    let mut tree = PathTree::new(alloc);
    for number in 0..64u8 {
        let path = [b'a' + number / 8, b'/', b'a' + number % 8];
        tree.insert(Path::from_bytes(path.as_slice()), 2)?;
    }
    Ok(tree)
}

// Looks up few keys in a tree of many, and compares a tree of many with a tree of few.
#[test]
fn few_beside_many(rt: HostRuntime) -> Result<(), Fail> {
    let many = tree_of_many(rt.alloc())?;
    let few = tree_of(rt.alloc(), &["a/b", "b//h/", "c"])?;
    let lacking: [(&[u8], &u32); 1] = [(b"c\x00", &3)];
    let changed: [(&[u8], &u32, &u32); 1] = [(b"a\x00b\x00", &1, &2)];
    let back: [(&[u8], &u32, &u32); 1] = [(b"a\x00b\x00", &2, &1)];
    assert!(rt; lacks(&few, &many, lacking.as_slice())?);
    assert!(rt; differ(&few, &many, changed.as_slice())? && differ(&many, &few, back.as_slice())?);
    assert!(rt; many.difference(&few)?.len() == 62);
    Ok(())
}
