//! Calls on tables that promise to need no memory.
use super::super::{exhaust, fails};
use path_table::PathTable;
use std::alloc::{AllocError, Global};
use std::test::Fail;
use unix_path::PathBuf;

// Looks the path up and removes it, twice. Returns true if both calls find the value the first time
// and nothing the second time.
fn is_taken(table: &mut PathTable<u8>, path: &PathBuf, value: u8) -> bool {
    table.get(path) == Some(&value)
        && table.remove(path) == Some(value)
        && table.get(path).is_none()
        && table.remove(path).is_none()
}

// Replaces the value 1 at an equal path, and then removes the path. Returns true if both succeed
// and leave the table empty, and if `under` fails.
fn is_emptied(alloc: Global, table: &mut PathTable<u8>, path: &PathBuf, same: PathBuf) -> bool {
    let before = table.insert(same, 2).ok();
    before == Some(Some(1))
        && fails(table.under(alloc, path))
        && is_taken(table, path, 2)
        && table.len() == 0
}

fn has_none_under(alloc: Global, table: &PathTable<u8>, path: &PathBuf) -> bool {
    match table.under(alloc, path) {
        Ok(found) => found.len() == 0,
        Err(_) => false,
    }
}

// Returns true if inserting into an empty table fails, and leaves it empty.
fn stays_empty(alloc: Global, path: &PathBuf, other: PathBuf) -> bool {
    let mut empty = PathTable::new(alloc);
    let is_refused = fails(empty.insert(other, 3));
    is_refused
        && empty.len() == 0
        && has_none_under(alloc, &empty, path)
        && empty.remove(path).is_none()
}

// Replaces the value at an equal path. There is no memory for inserting a path that the table
// doesn't have.
#[test]
fn tables_are_read_and_emptied_without_memory(rt: HostRuntime) -> Result<(), Fail> {
    let alloc = rt.alloc();
    let mut table = PathTable::new(alloc);
    table.insert(PathBuf::from_text(alloc, "a/b")?, 1u8)?;
    let path = PathBuf::from_text(alloc, "a//b/.")?;
    let same = PathBuf::from_text(alloc, "a/./b")?;
    let other = PathBuf::from_text(alloc, "c")?;
    let _exhausted = exhaust(alloc)?;
    let is_emptied = is_emptied(alloc, &mut table, &path, same);
    let stays_empty = stays_empty(alloc, &path, other);
    assert!(rt; is_emptied && stays_empty);
    Ok(())
}

// Inserts a path for each value from 0 to 99, and appends the same paths to `paths` in order.
fn fill(
    alloc: Global,
    table: &mut PathTable<u8>,
    paths: &mut Vec<PathBuf>,
) -> Result<(), AllocError> {
    for value in 0..100u8 {
        let path = PathBuf::from(format!(in alloc; "{value}/{value}")?);
        table.insert(path.clone()?, value)?;
        paths.push(path)?;
    }
    Ok(())
}

// Removes the paths. Returns true if there were 100 paths, each had its index as its value, and the
// table is then empty.
fn are_taken(table: &mut PathTable<u8>, paths: &[PathBuf]) -> bool {
    let mut value = 0u8;
    for path in paths {
        if !is_taken(table, path, value) {
            return false;
        }
        value = value.saturating_add(1);
    }
    value == 100 && table.len() == 0
}

#[test]
fn a_large_table_is_emptied_without_memory(rt: HostRuntime) -> Result<(), Fail> {
    let alloc = rt.alloc();
    let mut table = PathTable::new(alloc);
    let mut paths = Vec::new(alloc);
    fill(alloc, &mut table, &mut paths)?;
    let _exhausted = exhaust(alloc)?;
    assert!(rt; are_taken(&mut table, paths.as_slice()));
    Ok(())
}
