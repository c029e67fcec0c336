//! Fills a table of files in memory, looks the files up, and lists those below some directories.
use crate::digest::Digest;
use crate::random::Random;
use crate::tree::{Tree, noise_of, shuffled};
use path_table::PathTable;
use std::alloc::{AllocError, Global};
use std::collections::HashMap;
use unix_path::PathBuf;
use unix_path::bytes::UnixStr;

// Returns the owned path of a file, built in a buffer whose memory is reused.
fn path_of(
    alloc: Global,
    buffer: &mut Vec<u8>,
    tree: Tree<'_>,
    number: u64,
    noise: u64,
) -> Result<PathBuf, AllocError> {
    buffer.clear();
    tree.push(buffer, number, noise)?;
    PathBuf::from_unix_str(alloc, UnixStr::from_bytes(buffer))
}

// Returns a table of `count` files, inserted in an order that looks random.
fn filled(
    alloc: Global,
    tree: Tree<'_>,
    seed: u64,
    count: u64,
) -> Result<PathTable<u64>, AllocError> {
    let mut buffer = Vec::new(alloc);
    let mut table = PathTable::new(alloc);
    for place in 0..count {
        let number = shuffled(place, seed);
        table.insert(path_of(alloc, &mut buffer, tree, number, 0)?, number)?;
    }
    Ok(table)
}

// Looks up, for each file, another spelling of the file's path or, one time in three, a path in the
// same directory at which there is no file. Returns the sum of the values found.
fn look_up(
    alloc: Global,
    tree: Tree<'_>,
    table: &PathTable<u64>,
    seed: u64,
    count: u64,
) -> Result<u64, AllocError> {
    let mut buffer = Vec::new(alloc);
    let mut random = Random::new(seed);
    let mut sum = 0_u64;
    for place in 0..count {
        let word = random.next();
        let number = shuffled(place, seed) | u64::from(word % 3 == 0);
        let path = path_of(alloc, &mut buffer, tree, number, noise_of(word >> 8))?;
        if let Some(value) = table.get(&path) {
            sum = sum.wrapping_add(*value);
        }
    }
    Ok(sum)
}

// Removes every eighth file, in the order in which the files were inserted. Returns the sum of the
// values of the removed files.
fn remove(
    alloc: Global,
    tree: Tree<'_>,
    table: &mut PathTable<u64>,
    seed: u64,
    count: u64,
) -> Result<u64, AllocError> {
    let mut buffer = Vec::new(alloc);
    let mut sum = 0_u64;
    for place in 0..count / 8 {
        let path = path_of(alloc, &mut buffer, tree, shuffled(place << 3, seed), 0)?;
        if let Some(value) = table.remove(&path) {
            sum = sum.wrapping_add(value);
        }
    }
    Ok(sum)
}

// Adds to the digest the files below some directories: below each directory of 8,192 files, and
// below one in eight of the directories of 16 files.
fn list_below(
    alloc: Global,
    tree: Tree<'_>,
    table: &PathTable<u64>,
    count: u64,
    digest: &mut Digest,
) -> Result<(), AllocError> {
    let mut buffer = Vec::new(alloc);
    for place in 0..count / 32 {
        let number = place.wrapping_mul(128) & 0xF_FFFF;
        if tree.is_in_large(number) && number & 8191 != 0 {
            continue;
        }
        let mut folder = path_of(alloc, &mut buffer, tree, number, 0)?;
        folder.pop();
        for (path, value) in table.walk_under(&folder) {
            digest.add(*value ^ path.as_unix_str().len() as u64);
        }
    }
    Ok(())
}

// Looks up, in a hash map, for each file of the table, another spelling of the file's path or, one
// time in three, a path in the same directory at which there is no file. Returns the sum of the
// numbers found.
fn find_by_hash(
    alloc: Global,
    tree: Tree<'_>,
    table: &PathTable<u64>,
    random: &mut Random,
) -> Result<u64, AllocError> {
    let mut numbers: HashMap<PathBuf, u64> = HashMap::new(alloc);
    for (path, number) in table.iter() {
        numbers.insert(path.clone()?, *number)?;
    }
    let mut buffer = Vec::new(alloc);
    let mut sum = 0_u64;
    for (_, number) in table.iter() {
        let word = random.next();
        let asked = *number | u64::from(word % 3 == 0);
        let path = path_of(alloc, &mut buffer, tree, asked, noise_of(word >> 8))?;
        if let Some(found) = numbers.get(&path) {
            sum = sum.wrapping_add(*found);
        }
    }
    Ok(sum)
}

// Fills a table with `count` files, looks up each, lists some directories, removes some files, and
// looks up the other files in a hash map. Returns the digest of all results.
pub(crate) fn run(alloc: Global, seed: u64, count: u64) -> Result<u64, AllocError> {
    let mut digest = Digest::new();
    let mut random = Random::new(seed ^ 1 << 32);
    let tree = Tree::new("/srv/volumes/store", seed);
    let mut table = filled(alloc, tree, seed, count)?;
    digest.add(look_up(alloc, tree, &table, seed, count)?);
    list_below(alloc, tree, &table, count, &mut digest)?;
    digest.add(remove(alloc, tree, &mut table, seed, count)?);
    digest.add(find_by_hash(alloc, tree, &table, &mut random)?);
    for (path, value) in table.iter() {
        digest.add_path(path.as_path());
        digest.add(*value);
    }
    Ok(digest.get())
}
