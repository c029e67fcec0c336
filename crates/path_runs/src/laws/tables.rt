//! Laws of tables with paths as keys.
ghost use Rattle.unix_path.specs.Buffers.{path_bytes};
ghost use Rattle.path_runs.specs.TableLaws.{LookupByValues, InsertByValues, RemoveByValues};
ghost use Rattle.path_runs.specs.TableLaws.{view_bytes};

/// A lookup by a path finds the entry of an equal path.
///
/// The clauses are about a table's rows (`rows_of`): its entries, with each key replaced by the
/// key's components. In a clause, `is_at (values_cmp w)` is std's test for the row with the
/// components `w`.
///
/// With 1 at `a/b`, a lookup by `a//b/` finds 1.
#[tactic(auto, using(crate::proofs::lemmas::order::TableLemmas::lookup_by_values_cases))]
pub fn lookup_by_values<V>()
    ensures owned { LookupByValues path_bytes V }
    ensures view { LookupByValues view_bytes V }
{}

/// Inserting by a path replaces the value of the entry of an equal path, or adds an entry.
///
/// With 1 at `a/b`, inserting 2 at `a//b/` leaves one entry, `a/b` with 2.
#[tactic(auto, using(crate::proofs::lemmas::order::TableLemmas::insert_by_values_cases))]
pub fn insert_by_values<V>()
    ensures owned { InsertByValues path_bytes V }
    ensures view { InsertByValues view_bytes V }
{}

/// Removing by a path removes the entry of an equal path.
///
/// With only an entry at `a/b`, removing by `a//b/` leaves no entry.
#[tactic(auto, using(crate::proofs::lemmas::order::TableLemmas::remove_by_values_cases))]
pub fn remove_by_values<V>()
    ensures owned { RemoveByValues path_bytes V }
    ensures view { RemoveByValues view_bytes V }
{}
