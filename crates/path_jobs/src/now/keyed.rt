//! Fills a tree of files by the keys of their paths, looks the files up, and lists those below some
//! directories.
use crate::digest::Digest;
use crate::random::Random;
use crate::tree::{Tree, noise_of, shuffled};
use path_keys::PathKey;
use path_tree::PathTree;
use std::alloc::{AllocError, Global};
use unix_path::Path;
use unix_path::bytes::UnixStr;

// Returns the path of a file, in a buffer whose memory is reused.
fn path_in<'a>(
    buffer: &'a mut Vec<u8>,
    tree: Tree<'_>,
    number: u64,
    noise: u64,
) -> Result<Path<'a>, AllocError> {
    buffer.clear();
    tree.push(buffer, number, noise)?;
    Ok(Path::new(UnixStr::from_bytes(buffer)))
}

// Returns a tree of `count` files, inserted in an order that looks random.
fn filled(
    alloc: Global,
    tree: Tree<'_>,
    seed: u64,
    count: u64,
) -> Result<PathTree<u64>, AllocError> {
    let mut buffer = Vec::new(alloc);
    let mut files = PathTree::new(alloc);
    for place in 0..count {
        let number = shuffled(place, seed);
        files.insert(path_in(&mut buffer, tree, number, 0)?, number)?;
    }
    Ok(files)
}

// Looks up, for each file, another spelling of the file's path or, one time in three, a path in the
// same directory at which there is no file. Returns the sum of the values found.
fn look_up(
    alloc: Global,
    tree: Tree<'_>,
    files: &PathTree<u64>,
    seed: u64,
    count: u64,
) -> Result<u64, AllocError> {
    let mut buffer = Vec::new(alloc);
    let mut random = Random::new(seed);
    let mut sum = 0_u64;
    for place in 0..count {
        let word = random.next();
        let number = shuffled(place, seed) | u64::from(word % 3 == 0);
        let path = path_in(&mut buffer, tree, number, noise_of(word >> 8))?;
        if let Some(value) = files.get_path(path)? {
            sum = sum.wrapping_add(*value);
        }
    }
    Ok(sum)
}

// Removes every eighth file, in the order in which the files were inserted. Returns the sum of the
// values of the removed files.
fn remove(
    alloc: Global,
    tree: Tree<'_>,
    files: &mut PathTree<u64>,
    seed: u64,
    count: u64,
) -> Result<u64, AllocError> {
    let mut buffer = Vec::new(alloc);
    let mut sum = 0_u64;
    for place in 0..count / 8 {
        let path = path_in(&mut buffer, tree, shuffled(place << 3, seed), 0)?;
        if let Some(value) = files.remove_path(path)? {
            sum = sum.wrapping_add(value);
        }
    }
    Ok(sum)
}

// Adds to the digest the values of the files below some directories: below each directory of 8,192
// files, and below one in eight of the directories of 16 files.
fn list_below(
    alloc: Global,
    tree: Tree<'_>,
    files: &PathTree<u64>,
    count: u64,
    digest: &mut Digest,
) -> Result<(), AllocError> {
    let mut buffer = Vec::new(alloc);
    let mut folder = PathKey::new(alloc);
    for place in 0..count / 32 {
        let number = place.wrapping_mul(128) & 0xF_FFFF;
        if tree.is_in_large(number) && number & 8191 != 0 {
            continue;
        }
        let file = path_in(&mut buffer, tree, number, 0)?;
        folder.set(file.parent().unwrap_or(file))?;
        for (_, value) in files.under(&folder)? {
            digest.add(*value);
        }
    }
    Ok(())
}

// For each file, finds the entry whose path is the longest prefix of a path below the file: the
// entry of the file itself, unless it was removed. Returns a sum made from the entries found.
fn find_nearest(
    alloc: Global,
    tree: Tree<'_>,
    files: &PathTree<u64>,
    seed: u64,
    count: u64,
) -> Result<u64, AllocError> {
    let mut buffer = Vec::new(alloc);
    let mut sum = 0_u64;
    for place in 0..count {
        buffer.clear();
        tree.push(&mut buffer, shuffled(place, seed), 0)?;
        buffer.extend_from_slice(b"/src/lib.rs")?;
        let path = Path::new(UnixStr::from_bytes(&buffer));
        if let Some((rest, value)) = files.longest_prefix(path)? {
            sum = sum.wrapping_add(*value ^ rest.as_unix_str().len() as u64);
        }
    }
    Ok(sum)
}

// Fills a tree with `count` files, looks up each, lists some directories, removes some files, and
// finds the longest prefix of a path below each file. Returns the digest of all results.
pub(crate) fn run(alloc: Global, seed: u64, count: u64) -> Result<u64, AllocError> {
    let mut digest = Digest::new();
    let tree = Tree::new("/srv/volumes/store", seed);
    let mut files = filled(alloc, tree, seed, count)?;
    digest.add(look_up(alloc, tree, &files, seed, count)?);
    list_below(alloc, tree, &files, count, &mut digest)?;
    digest.add(remove(alloc, tree, &mut files, seed, count)?);
    digest.add(find_nearest(alloc, tree, &files, seed, count)?);
    for (_, value) in files.iter() {
        digest.add(*value);
    }
    Ok(digest.get())
}
