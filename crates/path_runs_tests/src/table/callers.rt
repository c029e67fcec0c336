//! Callers of tables. The prover proves their contracts without help.
ghost use Rattle.std.specs.Prelude.{◌≡◌, IfOk, IsSome, length};
ghost use Rattle.std.specs.BTreeMap.{is_at};
ghost use Rattle.std.specs.Map.{set_value};
ghost use Rattle.unix_path.specs.Buffers.{path_bytes};
ghost use Rattle.unix_path.specs.Order.{values_cmp};
ghost use Rattle.unix_path.specs.Parts.{values, SameValues};
ghost use Rattle.path_runs.specs.Rows.{value_at};
ghost use Rattle.path_table.specs.Table.{entries_under, table_of};

use path_table::PathTable;
use std::alloc::{AllocError, Global};
use std::test::Fail;
use unix_path::PathBuf;

// Inserts the value at the first path, and looks it up at the second.
fn insert_then_get(
    table: &mut PathTable<u8>,
    path: PathBuf,
    other: &PathBuf,
    value: u8,
) -> Result<Option<u8>, AllocError>
    ensures { SameValues (path_bytes path) (path_bytes other.now)
        → IfOk result (λ found. found ≡ Some value) }
{
    table.insert(path, value)?;
    Ok(table.get(other).copied())
}

// Removes the path, and looks it up.
fn remove_then_get(table: &mut PathTable<u8>, path: &PathBuf) -> Option<u8>
    ensures { result ≡ None }
{
    table.remove(path);
    table.get(path).copied()
}

// Writes the value at the path, if the path is in the table.
fn write(table: &mut PathTable<u8>, path: &PathBuf, value: u8)
    ensures { IsSome (value_at (values (path_bytes path.now)) (table_of table.old))
        → table_of table.new ≡ set_value (is_at (values_cmp (values (path_bytes path.now))))
        (table_of table.old) value }
{
    if let Some(old) = table.get_mut(path) {
        *old = value;
    }
}

// Returns the number of files under the base.
fn count_under<V>(table: &PathTable<V>, base: &PathBuf) -> usize
    ensures { result
        ≡ length (entries_under (values (path_bytes base.now)) (table_of table.now)) }
{
    table.walk_under(base).count()
}

// Returns true if `path`, which is `a/b`, first has the value inserted at `a//b/`, then the value
// written at `path`, and no value once it is removed.
fn is_found(alloc: Global, table: &mut PathTable<u8>, path: &PathBuf) -> Result<bool, AllocError> {
    let found = insert_then_get(table, PathBuf::from_text(alloc, "a//b/")?, path, 7)?;
    write(table, path, 8);
    let written = table.get(path).copied();
    let count = count_under(table, &PathBuf::from_text(alloc, "a")?);
    let after_removal = remove_then_get(table, path);
    Ok(found == Some(7) && written == Some(8) && count == 1 && after_removal == None)
}

#[test]
fn what_was_inserted_is_found(rt: HostRuntime) -> Result<(), Fail> {
    let alloc = rt.alloc();
    let mut table = PathTable::new(alloc);
    let path = PathBuf::from_text(alloc, "a/b")?;
    assert!(rt; is_found(alloc, &mut table, &path)?);
    Ok(())
}
