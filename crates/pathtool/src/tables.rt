//! The answer of the command `under`, which puts paths into a table.
ghost use Rattle.std.specs.Prelude.{◌≡◌, ◌++◌, ◌∷◌, [], IfOk, OnOk, map, if◌then◌else◌};
ghost use Rattle.std.specs.BTreeMap.{insert_entry};
ghost use Rattle.unix_path.specs.Order.{values_cmp};
ghost use Rattle.unix_path.specs.Parts.{values};
ghost use Rattle.path_runs.specs.Spelling.{spelling_of};
ghost use Rattle.path_table.specs.Table.{table_of};
ghost use Rattle.pathtool.specs.Fields.{fields_of, tabs};
ghost use Rattle.pathtool.specs.ExtraFields.{extra_fields};
ghost use Rattle.pathtool.specs.Tables.{entries_with, under_answer};
ghost use Rattle.pathtool.specs.Steps.{tab};

use crate::fields::ExtraFields;
use crate::paths::push_canon;
use path_table::PathTable;
use std::alloc::{AllocError, Global};
use unix_path::Path;

// Inserts the path into the table, unless an equal path is in it.
fn insert_path(alloc: Global, table: &mut PathTable<()>, path: Path<'_>) -> Result<(), AllocError>
    ensures { OnOk result (table_of table.new
        ≡ insert_entry values_cmp (table_of table.old) (values path.entry.bytes.now) tt) }
{
    table.insert(path.to_path_buf(alloc)?, ())?;
    Ok(())
}

// Inserts each field into the table, as a path. The fields have tabs between them.
fn insert_paths(alloc: Global, table: &mut PathTable<()>, fields: &[u8]) -> Result<(), AllocError>
    ensures { OnOk result (table_of table.new
        ≡ entries_with (table_of table.old) (fields_of fields.now)) }
{
    for bytes in fields.split(|b| *b == b'\t') {
        insert_path(alloc, table, Path { bytes })?;
    }
    Ok(())
}

// Returns a table with each of the extra fields as a path.
fn table_from(alloc: Global, extra: ExtraFields<'_>) -> Result<PathTable<()>, AllocError>
    ensures { IfOk result (λ table. table_of table ≡ entries_with [] (extra_fields extra.entry)) }
{
    let mut table = PathTable::new(alloc);
    match extra {
        ExtraFields::None => {}
        ExtraFields::One(bytes) => insert_path(alloc, &mut table, Path { bytes })?,
        ExtraFields::Several(fields) => insert_paths(alloc, &mut table, fields)?,
    }
    Ok(table)
}

// Appends the canonical form of a path, with a tab before it unless it is the first.
fn push_canon_item(path: Path<'_>, is_first: bool, answer: &mut Vec<u8>) -> Result<(), AllocError>
    ensures { OnOk result (answer.new.items ≡ answer.old.items
        ++ (if is_first then spelling_of (values path.entry.bytes.now)
        else tab ∷ spelling_of (values path.entry.bytes.now))) }
{
    if !is_first {
        answer.push(b'\t')?;
    }
    push_canon(path, answer)
}

// Appends the canonical form of each path, with a tab between two of them.
fn push_all(paths: &[(Path<'_>, &())], answer: &mut Vec<u8>) -> Result<(), AllocError>
    ensures { OnOk result (answer.new.items ≡ answer.old.items
        ++ tabs (map (λ found. spelling_of (values found.0.bytes.now)) paths.now)) }
{
    let mut is_first = true;
    for (path, _) in paths {
        push_canon_item(*path, is_first, answer)?;
        is_first = false;
    }
    Ok(())
}

/// Appends a list to `answer`: for each path of the extra fields that starts with `base`, the rest
/// of the path after `base`.
///
/// The list is in the order of paths. Each item is in canonical form, and equal paths are listed
/// once. Also allocates for copies of `base` and of each path, for the table, for the list and for
/// each canonical form.
///
/// For the base `/a` and the fields `/a.b` and `/a/b` appends `b`.
pub fn push_under(
    base: Path<'_>,
    extra: ExtraFields<'_>,
    answer: &mut Vec<u8>,
) -> Result<(), AllocError>
    ensures { OnOk result (answer.new.items
        ≡ answer.old.items ++ under_answer base.entry.bytes.now (extra_fields extra.entry)) }
{
    let alloc = *answer.allocator();
    let base = base.to_path_buf(alloc)?;
    let table = table_from(alloc, extra)?;
    let found = table.under(alloc, &base)?;
    push_all(found.as_slice(), answer)
}
