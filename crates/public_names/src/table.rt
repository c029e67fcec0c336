//! The crate `path_table`.
use path_table::PathTable;
use std::alloc::{AllocError, Global};
use unix_path::{Path, PathBuf};

/// Calls the function that makes a table.
pub fn new(alloc: Global) -> PathTable<u32> {
    PathTable::new(alloc)
}

/// Calls the methods that change a table.
pub fn edits(it: &mut PathTable<u32>, path: PathBuf, other: &PathBuf) {
    let _: Result<Option<u32>, AllocError> = it.insert(path, 1);
    let _: Option<u32> = it.remove(other);
}

/// Calls the methods that change nothing.
pub fn queries<'a>(alloc: Global, it: &'a PathTable<u32>, path: &PathBuf) {
    let _: usize = it.len();
    let _: Option<&'a u32> = it.get(path);
    let _: Result<Vec<(Path<'a>, &'a u32)>, AllocError> = it.under(alloc, path);
}
