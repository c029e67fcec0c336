//! Allocations of trees of paths. The name of `LONG` bytes has a key that does not fit on the
//! stack.
use super::super::path;
use super::report;
use path_keys::PathKey;
use path_tree::{LookupError, MoveError, PathTree, SortedError};
use std::alloc::{AllocError, Global};
use std::test::Fail;
use unix_path::Path;

const LONG: usize = 600;

fn long_name(alloc: Global) -> Result<Vec<u8>, AllocError> {
    let mut name = Vec::new(alloc);
    name.resize(LONG, b'a')?;
    Ok(name)
}

// Returns a tree with 1 at the long name, and 2 at the empty path.
fn tree_with(alloc: Global, name: &[u8]) -> Result<PathTree<u32>, AllocError> {
    let mut tree = PathTree::new(alloc);
    tree.insert(Path::from_bytes(name), 1)?;
    tree.insert(path(""), 2)?;
    Ok(tree)
}

// Returns true if the tree still has the two entries of `tree_with`: 1 at `key`, and one more.
fn is_as_before(tree: &PathTree<u32>, key: &PathKey) -> bool {
    tree.len() == 2 && tree.get(key) == Some(&1)
}

#[test]
fn tree_path_inserted(rt: HostRuntime) -> Result<(), Fail> {
    let alloc = rt.alloc();
    let mut tree = PathTree::new(alloc);
    let key = PathKey::from_path(alloc, path("a/b"))?;
    match tree.insert(path("a//b"), 7u32) {
        Ok(before) => report(true, before.is_none() && tree.get(&key) == Some(&7)),
        Err(AllocError) => report(false, tree.is_empty() && tree.get(&key).is_none()),
    }
}

// Inserts the 65th path, for which the tree allocates a Bloom filter. If this allocation fails, the
// tree works without the filter.
#[test]
fn tree_path_marked(rt: HostRuntime) -> Result<(), Fail> {
    let alloc = rt.alloc();
    let mut tree = PathTree::new(alloc);
    for letter in b'@'..=b'\x7f' {
        tree.insert(Path::from_bytes([letter].as_slice()), u32::from(letter))?;
    }
    match tree.insert(path("a/b"), 7) {
        Ok(before) => {
            let is_nearest = match tree.longest_prefix(path("a/b/c"))? {
                Some((rest, value)) => rest == path("c") && *value == 7,
                None => false,
            };
            report(true, before.is_none() && tree.len() == 65 && is_nearest)
        }
        Err(AllocError) => report(false, tree.len() == 64),
    }
}

#[test]
fn tree_path_found(rt: HostRuntime) -> Result<(), Fail> {
    let name = long_name(rt.alloc())?;
    let tree = tree_with(rt.alloc(), &name)?;
    match tree.get_path(Path::from_bytes(&name)) {
        Ok(found) => report(true, found == Some(&1)),
        Err(AllocError) => report(false, true),
    }
}

#[test]
fn tree_path_contained(rt: HostRuntime) -> Result<(), Fail> {
    let name = long_name(rt.alloc())?;
    let tree = tree_with(rt.alloc(), &name)?;
    match tree.contains_path(Path::from_bytes(&name)) {
        Ok(found) => report(true, found),
        Err(AllocError) => report(false, true),
    }
}

#[test]
fn tree_path_removed(rt: HostRuntime) -> Result<(), Fail> {
    let name = long_name(rt.alloc())?;
    let mut tree = tree_with(rt.alloc(), &name)?;
    let key = PathKey::from_path(rt.alloc(), Path::from_bytes(&name))?;
    match tree.remove_path(Path::from_bytes(&name)) {
        Ok(found) => report(true, found == Some(1) && tree.len() == 1),
        Err(AllocError) => report(false, is_as_before(&tree, &key)),
    }
}

#[test]
fn tree_path_lent(rt: HostRuntime) -> Result<(), Fail> {
    let name = long_name(rt.alloc())?;
    let mut tree = tree_with(rt.alloc(), &name)?;
    match tree.get_mut_path(Path::from_bytes(&name)) {
        Ok(value) => report(true, *value == 1),
        Err(LookupError::Memory(AllocError)) => report(false, tree.len() == 2),
        Err(LookupError::Absent) => report(true, false),
    }
}

#[test]
fn tree_path_nearest(rt: HostRuntime) -> Result<(), Fail> {
    let name = long_name(rt.alloc())?;
    let tree = tree_with(rt.alloc(), &name)?;
    match tree.longest_prefix(Path::from_bytes(&name)) {
        Ok(Some((rest, value))) => report(true, rest == path("") && *value == 1),
        Ok(None) => report(true, false),
        Err(AllocError) => report(false, true),
    }
}

#[test]
fn tree_paths_under(rt: HostRuntime) -> Result<(), Fail> {
    let name = long_name(rt.alloc())?;
    let tree = tree_with(rt.alloc(), &name)?;
    let key = PathKey::from_path(rt.alloc(), Path::from_bytes(&name))?;
    match tree.under(&key) {
        Ok(found) => report(true, found.count() == 1),
        Err(AllocError) => report(false, is_as_before(&tree, &key)),
    }
}

// Returns true if the tree has the paths and values of `wanted`, and nothing else.
fn has_first(tree: &PathTree<u32>, wanted: &[(Path<'_>, u32)]) -> bool {
    for (path, value) in wanted {
        match tree.get_path(*path) {
            Ok(found) if found == Some(value) => {}
            _ => return false,
        }
    }
    tree.len() == wanted.len()
}

#[test]
fn tree_extended(rt: HostRuntime) -> Result<(), Fail> {
    let mut tree = PathTree::new(rt.alloc());
    let files = [(path("b"), 1), (path("a/b"), 2), (path("c"), 3)];
    match tree.extend(files.iter().copied()) {
        Ok(()) => report(true, has_first(&tree, &files)),
        Err(AllocError) => report(false, has_first(&tree, &files[..tree.len().min(2)])),
    }
}

#[test]
fn tree_of_many(rt: HostRuntime) -> Result<(), Fail> {
    let files = [(path("b"), 1), (path("a/b"), 2), (path("c"), 3)];
    match PathTree::from_iter(rt.alloc(), files.iter().copied()) {
        Ok(tree) => report(true, has_first(&tree, &files)),
        Err(AllocError) => report(false, true),
    }
}

#[test]
fn tree_of_sorted(rt: HostRuntime) -> Result<(), Fail> {
    let files = [(path("a/b"), 1), (path("b"), 2), (path("c"), 3)];
    match PathTree::from_sorted(rt.alloc(), files.iter().copied()) {
        Ok(tree) => report(true, has_first(&tree, &files)),
        Err(SortedError::Memory(AllocError)) => report(false, true),
        Err(SortedError::NotSorted) => report(true, false),
    }
}

#[test]
fn tree_paths_lacking(rt: HostRuntime) -> Result<(), Fail> {
    let files = [(path("b"), 1), (path("a/b"), 2), (path("c"), 3)];
    let tree = PathTree::from_iter(rt.alloc(), files.iter().copied())?;
    let other = PathTree::from_iter(rt.alloc(), files[..1].iter().copied())?;
    match tree.difference(&other) {
        Ok(found) => report(true, found.len() == 2),
        Err(AllocError) => report(false, has_first(&tree, &files)),
    }
}

#[test]
fn tree_paths_changed(rt: HostRuntime) -> Result<(), Fail> {
    let files = [(path("b"), 1), (path("a/b"), 2), (path("c"), 3)];
    let tree = PathTree::from_iter(rt.alloc(), files.iter().copied())?;
    let others = [(path("b"), 1), (path("a//b"), 5), (path("c"), 6)];
    let other = PathTree::from_iter(rt.alloc(), others.iter().copied())?;
    match tree.changed(&other) {
        Ok(found) => report(true, found.len() == 2),
        Err(AllocError) => report(false, has_first(&tree, &files)),
    }
}

// Moves a directory of sixteen files, whose new entries need more than one node of the tree.
#[test]
fn tree_moved(rt: HostRuntime) -> Result<(), Fail> {
    let alloc = rt.alloc();
    let mut tree = PathTree::new(alloc);
    for letter in b'a'..=b'p' {
        tree.insert(
            Path::from_bytes([b'd', b'/', letter].as_slice()),
            u32::from(letter),
        )?;
    }
    let from = PathKey::from_path(alloc, path("d"))?;
    let to = PathKey::from_path(alloc, path("e"))?;
    let key = PathKey::from_path(alloc, path("e/p"))?;
    match tree.move_under(&from, &to) {
        Ok(count) => report(true, count == 16 && tree.len() == 16 && tree.contains(&key)),
        Err(MoveError::Memory(AllocError)) => {
            report(false, tree.len() == 16 && tree.remove_under(&from) == 16)
        }
        Err(_) => report(true, false),
    }
}

#[test]
fn tree_children(rt: HostRuntime) -> Result<(), Fail> {
    let files = [(path("b"), 1), (path("a/b"), 2), (path("a/c"), 3)];
    let tree = PathTree::from_iter(rt.alloc(), files.iter().copied())?;
    match tree.children(&PathKey::new(rt.alloc())) {
        Ok(found) => report(true, found.len() == 2),
        Err(AllocError) => report(false, has_first(&tree, &files)),
    }
}
