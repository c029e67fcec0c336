//! The nearest entries of many paths in a tree with a Bloom filter, compared with a search that
//! represents each path by a number.
use path_keys::PathKey;
use path_tree::PathTree;
use std::alloc::{AllocError, Global};
use std::test::Fail;
use unix_path::{Path, PathBuf};

// The number of files: enough that a Bloom filter is created, and rebuilt.
const FILES: u64 = 700;

// Returns the path of a number greater than 0: a root, and a name for each of its digits to the
// base 5. If the number is at least 5, the path's parent is the path of the number divided by 5,
// rounded down.
fn path_of_number(alloc: Global, number: u64) -> Result<PathBuf, AllocError> {
    let mut bytes = Vec::new(alloc);
    let mut left = number;
    for _ in 0..20 {
        if left > 0 {
            bytes.push(b'a' + (left % 5) as u8)?;
            bytes.push(b'/')?;
            left /= 5;
        }
    }
    bytes.reverse();
    Path::from_bytes(&bytes).to_path_buf(alloc)
}

// Returns true if the path of the number is in the tree, with the number as its value.
fn stands(number: u64) -> bool {
    number < FILES && number % 3 != 0 && number % 7 != 0
}

// Finds the nearest entry of the path of a number. Returns the number of the entry's path, or 0 if
// there is none, and the number of names after the entry's path.
fn nearest_number(number: u64) -> (u64, usize) {
    let mut near = number;
    let mut left = 0usize;
    for _ in 0..20 {
        if near > 0 && !stands(near) {
            near /= 5;
            left = left.wrapping_add(1);
        }
    }
    (near, left)
}

// Returns a tree of the paths of the numbers for which `stands` is true. The paths of some other
// numbers have been inserted and removed again.
fn filled(alloc: Global) -> Result<PathTree<u64>, AllocError> {
    let mut tree = PathTree::new(alloc);
    for number in 1..FILES {
        if number % 3 != 0 {
            tree.insert(path_of_number(alloc, number)?.as_path(), number)?;
        }
        if number % 7 == 0 {
            tree.remove(&PathKey::from_path(alloc, path_of_number(alloc, number)?.as_path())?);
        }
    }
    Ok(tree)
}

fn finds_nearest(alloc: Global, tree: &PathTree<u64>, number: u64) -> Result<bool, AllocError> {
    let path = path_of_number(alloc, number)?;
    let (near, names) = nearest_number(number);
    Ok(match tree.longest_prefix(path.as_path())? {
        Some((rest, value)) => *value == near && rest.components().count() == names,
        None => near == 0,
    })
}

#[test]
fn what_is_nearest_among_many(rt: HostRuntime) -> Result<(), Fail> {
    let tree = filled(rt.alloc())?;
    for number in 1..4000 {
        assert!(rt; finds_nearest(rt.alloc(), &tree, number)?, "{number}");
    }
    Ok(())
}
