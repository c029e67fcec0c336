//! Allocations of tables of paths.
use super::super::{holds, path};
use super::{buffer_with_room, report};
use path_table::PathTable;
use std::alloc::{AllocError, Global};
use std::test::Fail;
use unix_path::{Path, PathBuf};

// As many paths as fit into one node of the table.
const TEXTS: [&str; 15] = [
    "/", "a/b", "a/b/c", "a/b//d/.", "a/b/e", "a/b/f", "a/b/g", "a.b", "b", "c", "d", "e", "f",
    "g", "h",
];

// Returns a table of the first `count` paths of `TEXTS`, each with its index as the value.
fn table_of(alloc: Global, count: usize) -> Result<PathTable<usize>, AllocError> {
    let mut table = PathTable::new(alloc);
    for place in 0..count.min(TEXTS.len()) {
        table.insert(PathBuf::from_text(alloc, TEXTS[place])?, place)?;
    }
    Ok(table)
}

// Returns true if the table has each path of `TEXTS`, with its index as the value. `key` is a
// buffer with enough capacity for each of the paths.
fn has_each(table: &PathTable<usize>, key: &mut PathBuf) -> Result<bool, AllocError> {
    for place in 0..TEXTS.len() {
        key.clear();
        key.push(path(TEXTS[place]))?;
        if table.get(key) != Some(&place) {
            return Ok(false);
        }
    }
    Ok(true)
}

fn has_at(found: &[(Path<'_>, &usize)], place: usize, rest: &str, value: usize) -> bool {
    match found.get(place) {
        Some(entry) => entry.0 == path(rest) && *entry.1 == value,
        None => false,
    }
}

// Returns true if `found` has the six entries under `a/b`. Only the first, third and last are
// compared.
fn are_under(found: &[(Path<'_>, &usize)]) -> bool {
    found.len() == 6
        && has_at(found, 0, "", 1)
        && has_at(found, 2, "d", 3)
        && has_at(found, 5, "g", 6)
}

fn is_empty(alloc: Global, table: &PathTable<usize>, key: &PathBuf) -> Result<bool, AllocError> {
    let is_without = table.get(key).is_none() && table.len() == 0;
    Ok(is_without && table.under(alloc, key)?.is_empty())
}

#[test]
fn first_path_inserted(rt: HostRuntime) -> Result<(), Fail> {
    let alloc = rt.alloc();
    let mut table = PathTable::new(alloc);
    let key = PathBuf::from_text(alloc, "a//b")?;
    match table.insert(PathBuf::from_text(alloc, "a/b")?, 7usize) {
        Ok(before) => report(true, before.is_none() && table.get(&key) == Some(&7)),
        Err(AllocError) => report(false, is_empty(alloc, &table, &key)?),
    }
}

// Returns true if the table has 7 at `key`, and the paths of `TEXTS`, but nothing else.
fn has_one_more(table: &PathTable<usize>, key: &mut PathBuf) -> Result<bool, AllocError> {
    let is_in = table.get(key) == Some(&7) && table.len() == 16;
    Ok(is_in && has_each(table, key)?)
}

// Returns true if the table has only the paths of `TEXTS`, and not the path `key`.
fn is_as_before(
    alloc: Global,
    table: &PathTable<usize>,
    key: &mut PathBuf,
) -> Result<bool, AllocError> {
    let is_without = table.get(key).is_none() && table.len() == TEXTS.len();
    let base = PathBuf::from_text(alloc, "a/b")?;
    let is_under = are_under(table.under(alloc, &base)?.as_slice());
    Ok(is_without && is_under && has_each(table, key)?)
}

#[test]
fn path_inserted(rt: HostRuntime) -> Result<(), Fail> {
    let alloc = rt.alloc();
    let mut table = table_of(alloc, TEXTS.len())?;
    let mut key = buffer_with_room(alloc, "a/c")?;
    match table.insert(PathBuf::from_text(alloc, "a/c")?, 7) {
        Ok(before) => report(true, before.is_none() && has_one_more(&table, &mut key)?),
        Err(AllocError) => report(false, is_as_before(alloc, &table, &mut key)?),
    }
}

// Replaces the value of an equal path.
#[test]
fn equal_path_inserted(rt: HostRuntime) -> Result<(), Fail> {
    let alloc = rt.alloc();
    let mut table = table_of(alloc, 2)?;
    let key = PathBuf::from_text(alloc, "a/b")?;
    match table.insert(PathBuf::from_text(alloc, "a//b/.")?, 7) {
        Ok(before) => report(true, before == Some(1) && table.get(&key) == Some(&7)),
        Err(AllocError) => report(false, table.get(&key) == Some(&1)),
    }
}

#[test]
fn paths_under_a_base(rt: HostRuntime) -> Result<(), Fail> {
    let alloc = rt.alloc();
    let table = table_of(alloc, 7)?;
    let base = PathBuf::from_text(alloc, "a/b/")?;
    match table.under(alloc, &base) {
        Ok(found) => report(true, are_under(found.as_slice())),
        Err(AllocError) => report(false, table.len() == 7 && holds(&base, "a/b/")),
    }
}
