//! Tests of tables: methods that every map has, callers with contracts, and comparisons with a
//! list.
mod callers;
mod vs_list;

use path_table::PathTable;
use std::alloc::{AllocError, Global};
use std::test::Fail;
use unix_path::PathBuf;

fn table_from(alloc: Global, paths: &[&str]) -> Result<PathTable<u32>, AllocError> {
    let mut table = PathTable::new(alloc);
    let mut value = 0u32;
    for path in paths {
        value = value.wrapping_add(1);
        table.insert(PathBuf::from_text(alloc, path)?, value)?;
    }
    Ok(table)
}

fn contains(alloc: Global, table: &PathTable<u32>, path: &str) -> Result<bool, AllocError> {
    let path = PathBuf::from_text(alloc, path)?;
    Ok(table.contains(&path))
}

// Writes the value at the path, if the path is in the table.
fn write(
    alloc: Global,
    table: &mut PathTable<u32>,
    path: &str,
    value: u32,
) -> Result<(), AllocError> {
    let path = PathBuf::from_text(alloc, path)?;
    if let Some(old) = table.get_mut(&path) {
        *old = value;
    }
    Ok(())
}

// Returns true if `text` is the table's debug text.
fn has_debug_text(alloc: Global, table: &PathTable<u32>, text: &str) -> Result<bool, AllocError> {
    let shown = format!(in alloc; "{table:?}")?;
    Ok(shown.as_str() == text)
}

// Returns true if `want` are the table's values, in path order.
fn has_values(alloc: Global, table: &PathTable<u32>, want: &[u32]) -> Result<bool, AllocError> {
    let mut values = Vec::new(alloc);
    for (_, value) in table.iter() {
        values.push(*value)?;
    }
    Ok(values.as_slice() == want)
}

// Returns true if a table with 1 at `a.b` and 2 at `a//b` has these paths, has 7 at `a//b` once it
// is written at `a/b/`, and is empty once it is cleared.
fn behaves_as_map(alloc: Global, table: &mut PathTable<u32>) -> Result<bool, AllocError> {
    if !contains(alloc, table, "a/b/")? || contains(alloc, table, "a")? {
        return Ok(false);
    }
    write(alloc, table, "a/b/", 7)?;
    let is_written = has_debug_text(alloc, table, r#"{"a//b": 7, "a.b": 1}"#)?
        && has_values(alloc, table, [7, 1].as_slice())?
        && !table.is_empty();
    table.clear();
    Ok(is_written && table.is_empty())
}

#[test]
fn what_else_a_map_answers(rt: HostRuntime) -> Result<(), Fail> {
    let alloc = rt.alloc();
    let mut table = table_from(alloc, &["a.b", "a//b"])?;
    assert!(rt; behaves_as_map(alloc, &mut table)?);
    Ok(())
}
