//! Calls on trees that promise to need no memory.
use super::super::{exhaust, fails, path};
use path_keys::PathKey;
use path_tree::PathTree;
use std::alloc::AllocError;
use std::test::Fail;
use unix_path::Path;

// Returns true if `a/b` is found by `key` and by its path, has no children, and is the longest
// prefix of `a/b/c`, and if the path `name` is found.
fn is_found(tree: &PathTree<u8>, key: &PathKey, name: &[u8]) -> Result<bool, AllocError> {
    let by_path = tree.get_path(Path::from_bytes(name))? == Some(&1);
    let is_in = tree.contains(key) && tree.contains_path(path("a//b"))?;
    let nearest = match tree.longest_prefix(path("a/b/c"))? {
        Some((rest, value)) => rest == path("c") && *value == 2,
        None => false,
    };
    let is_childless = tree.children(key)?.is_empty();
    Ok(by_path && is_in && is_childless && nearest && tree.get(key) == Some(&2))
}

// Returns true if inserting a new path fails, and all entries are removed: one by its key, one by
// its path, and two under the base.
fn is_emptied(
    tree: &mut PathTree<u8>,
    key: &PathKey,
    name: &[u8],
    base: &PathKey,
) -> Result<bool, AllocError> {
    let is_refused = fails(tree.insert(path("c"), 3));
    let by_key = tree.remove(key) == Some(2);
    let by_path = tree.remove_path(Path::from_bytes(name))? == Some(1);
    let by_base = tree.remove_under(base) == 2;
    Ok(is_refused && by_key && by_path && by_base && tree.is_empty())
}

// Uses a path of 511 bytes, whose key of 512 bytes fits on the stack, so that look-ups promise to
// succeed.
#[test]
fn trees_are_asked_and_emptied_without_memory(rt: HostRuntime) -> Result<(), Fail> {
    let alloc = rt.alloc();
    let mut tree = PathTree::new(alloc);
    let mut name = Vec::new(alloc);
    name.resize(511, b'a')?;
    tree.insert(Path::from_bytes(&name), 1)?;
    tree.insert(path("a/b"), 2)?;
    tree.insert(path("x/y"), 3)?;
    tree.insert(path("x"), 4)?;
    let key = PathKey::from_path(alloc, path("a/./b"))?;
    let base = PathKey::from_path(alloc, path("x/"))?;
    let _exhausted = exhaust(alloc)?;
    let is_found = is_found(&tree, &key, &name);
    let is_emptied = is_emptied(&mut tree, &key, &name, &base);
    assert!(rt; is_found? && is_emptied?);
    Ok(())
}
