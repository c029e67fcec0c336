//! Tests of `path_tree`: tables of calls, callers, and a tree compared with a list.
mod beside_list;
mod children;
mod marked;
mod moved;
mod nearest;
mod ranges;
mod sorted;
mod uses;

use path_keys::PathKey;
use path_tree::{LookupError, PathTree};
use std::alloc::{AllocError, Global};
use std::test::Fail;
use unix_path::Path;

// Returns a tree of these paths, with the values 1, 2 and so on in their order.
fn tree_of(alloc: Global, paths: &[&str]) -> Result<PathTree<u32>, AllocError> {
    let mut tree = PathTree::new(alloc);
    let mut value = 0u32;
    for path in paths {
        value = value.wrapping_add(1);
        tree.insert(Path::from_text(path), value)?;
    }
    Ok(tree)
}

// Returns true if the tree has the value `want`, or no value, at the path and at the path's key.
fn has_at(
    alloc: Global,
    tree: &PathTree<u32>,
    path: &[u8],
    want: Option<u32>,
) -> Result<bool, AllocError> {
    let path = Path::from_bytes(path);
    let key = PathKey::from_path(alloc, path)?;
    let by_path = tree.get_path(path)?.copied() == want;
    let is_known = tree.contains_path(path)? == want.is_some();
    let by_key = tree.get(&key).copied() == want;
    Ok(by_path && by_key && is_known && tree.contains(&key) == want.is_some())
}

// The tree's paths, another path, and the position of the tree's path that equals it, counted from
// 1, or `None` if there is none.
type Row = (&'static [&'static str], &'static [u8], Option<u32>);

static FOUND: [Row; 14] = [
    (&[], b"", None),
    (&[""], b"", Some(1)),
    (&["/"], b"", None),
    (&["/", "", "."], b"./.", Some(3)),
    (&["/", "", "."], b"//", Some(1)),
    (&["a/b", "a", "a.b"], b"a//b/.", Some(1)),
    (&["a/b", "a", "a.b"], b"a/", Some(2)),
    (&["a/b", "a", "a.b"], b"a.b/", Some(3)),
    (&["a/b", "a", "a.b"], b"./a/b", None),
    (&["a/b", "a", "a.b"], b"/a/b", None),
    (&["a/b", "a", "a.b"], b"b/../a", None),
    (&["a/b", "a/b/"], b"a/b", Some(2)),
    (&["..", "../..", "/.."], b"..//..", Some(2)),
    (&["\u{0}\u{2}", "a\u{0}b"], b"a\x00b", Some(2)),
];

#[test]
fn what_is_found(rt: HostRuntime) -> Result<(), Fail> {
    for (paths, path, want) in FOUND.iter() {
        let tree = tree_of(rt.alloc(), paths)?;
        assert!(rt;
            has_at(rt.alloc(), &tree, path, *want)?,
            "{}",
            path.escape_ascii()
        );
    }
    Ok(())
}

// Returns a path of `len` bytes, whose key is one byte longer.
fn long_name(alloc: Global, len: u32) -> Result<Vec<u8>, AllocError> {
    let mut name = Vec::new(alloc);
    name.resize(len as usize, b'a')?;
    Ok(name)
}

// Inserts a name with its length as the value.
fn insert_name(
    alloc: Global,
    tree: &mut PathTree<u32>,
    len: u32,
) -> Result<Option<u32>, AllocError> {
    let name = long_name(alloc, len)?;
    tree.insert(Path::from_bytes(&name), len)
}

// Returns true if the tree has the name with its length as the value, and no longer has the name
// after it is removed.
fn is_taken_out(alloc: Global, tree: &mut PathTree<u32>, len: u32) -> Result<bool, AllocError> {
    let name = long_name(alloc, len)?;
    Ok(
        has_at(alloc, tree, &name, Some(len))?
            && insert_name(alloc, tree, len)? == Some(len)
            && tree.remove_path(Path::from_bytes(&name))? == Some(len)
            && has_at(alloc, tree, &name, None)?,
    )
}

// Tests that the tree finds names whose keys have 511, 512 and 513 bytes. A key of at most 512
// bytes fits on the stack.
#[test]
fn long_paths_are_found(rt: HostRuntime) -> Result<(), Fail> {
    let mut tree = PathTree::new(rt.alloc());
    for len in [510, 511, 512] {
        insert_name(rt.alloc(), &mut tree, len)?;
    }
    for len in [510, 511, 512] {
        assert!(rt; is_taken_out(rt.alloc(), &mut tree, len)?, "{len}");
    }
    assert!(rt; tree.is_empty());
    Ok(())
}

// Returns true if the value at `a/b` is 8, can be changed to 9 and back to 8 through other
// spellings of the path, and `./a/b` is absent.
fn writes_by_path(tree: &mut PathTree<u32>) -> bool {
    for (path, old, new) in [("a//b", 8u32, 9u32), ("./a/b", 0, 0), ("a/b/.", 9, 8)] {
        match tree.get_mut_path(Path::from_text(path)) {
            Ok(value) if *value == old => *value = new,
            Err(LookupError::Absent) if old == 0 => {}
            _ => return false,
        }
    }
    true
}

// Returns true if the tree, with `a.b` and `a//b`, has one entry for all spellings of a path.
fn has_one_entry(alloc: Global, tree: &mut PathTree<u32>) -> Result<bool, AllocError> {
    let key = PathKey::from_path(alloc, Path::from_text("a/./b"))?;
    let before = tree.insert(Path::from_text("a/b/"), 7)? == Some(2) && tree.len() == 2;
    if let Some(value) = tree.get_mut(&key) {
        *value = 8;
    }
    let is_written = has_at(alloc, tree, b"a/b", Some(8))? && writes_by_path(tree);
    let is_taken = tree.remove(&key) == Some(8) && tree.remove(&key) == None;
    Ok(before && is_written && is_taken && tree.len() == 1)
}

#[test]
fn equal_paths_are_one_entry(rt: HostRuntime) -> Result<(), Fail> {
    let alloc = rt.alloc();
    let mut tree = tree_of(alloc, &["a.b", "a//b"])?;
    assert!(rt; has_one_entry(alloc, &mut tree)? && !tree.is_empty());
    tree.clear();
    assert!(rt; tree.is_empty() && has_at(alloc, &tree, b"a.b", None)?);
    Ok(())
}

// Returns true if the tree has 3 at `a/b`, 2 at `c`, and no other entry.
fn has_both(alloc: Global, tree: &PathTree<u32>) -> Result<bool, AllocError> {
    let is_there = has_at(alloc, tree, b"a/b", Some(3))? && has_at(alloc, tree, b"c", Some(2))?;
    Ok(is_there && tree.len() == 2)
}

#[test]
fn the_last_of_equal_paths_stays(rt: HostRuntime) -> Result<(), Fail> {
    let files = [(Path::from_text("c"), 2), (Path::from_text("a//b"), 3)];
    let mut tree = tree_of(rt.alloc(), &["a/b"])?;
    tree.extend(files.iter().copied())?;
    tree.extend(std::iter::empty())?;
    assert!(rt; has_both(rt.alloc(), &tree)?);
    let tree = PathTree::from_iter(rt.alloc(), files.iter().chain(files.iter()).copied())?;
    assert!(rt; has_both(rt.alloc(), &tree)?);
    Ok(())
}

#[test]
fn keys_and_values_are_shown(rt: HostRuntime) -> Result<(), Fail> {
    let alloc = rt.alloc();
    let tree = tree_of(alloc, &["a.b", "a//b"])?;
    let shown = format!(in alloc; "{tree:?}")?;
    assert!(rt;
        shown.as_str() == "{[97, 0, 98, 0]: 2, [97, 47, 98, 0]: 1}",
        "{shown}"
    );
    Ok(())
}
