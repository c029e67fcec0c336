//! The walk over the entries under a base.
ghost use Rattle.std.specs.Prelude.{◌≡◌};
ghost use Rattle.std.specs.List.Sorted.{IsStrictlySortedBy};
ghost use Rattle.std.proofs.Props.{props};
ghost use Rattle.unix_path.specs.Buffers.{path_bytes};
ghost use Rattle.unix_path.specs.Order.{values_cmp};
ghost use Rattle.unix_path.specs.Parts.{values};
ghost use Rattle.path_table.specs.Table.{NoneBefore, paths_of};

use super::PathTable;
use path_runs::laws;
use std::alloc::{AllocError, Global};
use std::collections::btree_map::Range;
use std::iter::FusedIterator;
use unix_path::{Path, PathBuf};

/// A walk over the entries under a base, in path order. It yields the rest of each path after the
/// base, and the value.
///
/// Once it has returned `None`, it always returns `None`.
///
/// If a table has 1 at `a//b/c` and 2 at `a.b`, the walk under `a` yields only `b/c` with 1.
#[must_use]
#[derive(Drop)]
pub struct Under<'a, 'b, V> {
    inner: Range<'a, PathBuf, V>,
    base: Path<'b>,
    ghost ordered: { IsStrictlySortedBy values_cmp (paths_of inner) } by { Prim.hlevel props },
    ghost none_before: { NoneBefore (values base.bytes.now)
        (paths_of inner) } by { Prim.hlevel props },
}

impl<V> PathTable<V> {
    ghost use Rattle.std.specs.Prelude.{◌<◌, ◌^◌, [], IfOk, IsOk, length, map};
    ghost use Rattle.std.specs.Iterator.Runs.{EveryRun, ItemsMapTo};
    ghost use Rattle.std.specs.Borrow.{Bor};
    ghost use Rattle.unix_path.specs.declared.path.Path.{Path};
    ghost use Rattle.path_table.specs.Table.{item_rest, item_row, entries_of, entries_under};
    ghost use Rattle.path_table.specs.Table.{rests_under, table_of};
    ghost use Rattle.path_table.specs.Under.{YieldsUnder, remaining_rests, remaining_rows};

    /// Returns a walk over the entries under `base`, in path order. It yields the rest of each path
    /// after `base`, and the value.
    ///
    /// A path is under `base` if its first components are the components of `base`: `a.b` isn't
    /// under `a`. An entry at `base` itself comes first, with the empty path. The rest has the
    /// bytes of the path as it was inserted. The walk starts at `base` and ends before the first
    /// path that doesn't start with `base`.
    ///
    /// No `..` is resolved: `/dest/../etc` is under `/dest`, with the rest `../etc`. To keep a path
    /// below a directory, use `Request::beneath` and `Root::join` of the crate `path_within`, or
    /// its `join_within`.
    ///
    /// If a table has 1 at `a//b/c` and 2 at `a/b/d`, the walk under `a/b` yields `c` with 1, and
    /// then `d` with 2.
    pub fn walk_under<'a, 'b>(&'a self, base: &'b PathBuf) -> Under<'a, 'b, V>
        ensures all_rows { remaining_rows result
            ≡ entries_under (values (path_bytes base.now)) (table_of self.entry.now) }
        ensures rests { remaining_rests result
            ≡ rests_under (path_bytes base.now) (entries_of self.entry.now) }
        ensures runs { EveryRun {A = Path × Bor V} YieldsUnder
            (λ run. ItemsMapTo run item_row (remaining_rows run.from)) }
        ensures runs_rests { EveryRun {A = Path × Bor V} YieldsUnder
            (λ run. ItemsMapTo run item_rest (remaining_rests run.from)) }
        ensures fits { length (remaining_rows result) < 2 ^ 63 }
    {
        laws::base_before_under();
        Under {
            inner: self.inner.range(base..),
            base: base.as_path(),
        }
    }

    /// Returns a list of the items that `walk_under` yields: for each entry under `base`, in path
    /// order, the rest of its path after `base`, and the value.
    ///
    /// No `..` is resolved: `/dest/../etc` is under `/dest`, with the rest `../etc`. To keep a path
    /// below a directory, use `Request::beneath` and `Root::join` of the crate `path_within`, or
    /// its `join_within`.
    ///
    /// Allocates as the list grows. If an allocation fails, the call fails and the list is dropped.
    /// If no entry is under `base`, nothing is allocated and the call succeeds.
    ///
    /// If a table has 1 at `a//b/c` and 2 at `a/b/d`, the list for `a/b` has `c` with 1 and `d`
    /// with 2.
    pub fn under<'a>(
        &'a self,
        alloc: Global,
        base: &PathBuf,
    ) -> Result<Vec<(Path<'a>, &'a V)>, AllocError>
        ensures rows { IfOk result (λ found. map item_row found.items
            ≡ entries_under (values (path_bytes base.now)) (table_of self.entry.now)) }
        ensures rests { IfOk result (λ found. map item_rest found.items
            ≡ rests_under (path_bytes base.now) (entries_of self.entry.now)) }
        ensures succeeds { entries_under (values (path_bytes base.now))
            (table_of self.entry.now) ≡ [] → IsOk result }
    {
        let mut found = Vec::new(alloc);
        for item in self.walk_under(base) {
            found.push(item)?;
        }
        Ok(found)
    }
}

impl<'a, 'b, V> Iterator for Under<'a, 'b, V> {
    ghost use Rattle.std.specs.Iterator.{item_count};
    ghost use Rattle.path_table.specs.Under.{YieldsUnder, remaining_rows};

    type Item = (Path<'a>, &'a V);

    ghost next_gives = { YieldsUnder };

    ghost remaining = { item_count remaining_rows };

    fn next(&mut self) -> Option<(Path<'a>, &'a V)> {
        laws::descendants_contiguous();
        laws::rest_reads_again();
        let (path, value) = self.inner.next()?;
        match path.as_path().strip_prefix(self.base) {
            Ok(rest) => Some((rest, value)),
            Err(_) => None,
        }
    }
}

impl<V> FusedIterator for Under<'_, '_, V> {}
