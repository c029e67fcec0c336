//! Look-ups by a borrowed path, in a map and in a sorted list.
ghost use Rattle.std.specs.Prelude.{◌≡◌, length};
ghost use Rattle.std.specs.BTreeMap.{is_at};
ghost use Rattle.std.specs.List.Sorted.{IsBinarySearchResult, IsSearchInRange};
ghost use Rattle.std.specs.Map.{lookup};
ghost use Rattle.std.specs.Option.{option_copied};
ghost use Rattle.unix_path.specs.Buffers.{path_bytes};
ghost use Rattle.unix_path.specs.Order.{values_cmp};
ghost use Rattle.unix_path.specs.Parts.{values};
ghost use Rattle.path_runs.specs.TableLaws.{rows_of, view_bytes};

use path_runs::laws;
use std::collections::BTreeMap;
use unix_path::{Path, PathBuf};

/// Returns the value at the key that is equal to `path`, or `None` if there is no such key. The
/// keys of the map are borrowed paths.
///
/// With 1 at `a/b`, the value at `a//b/` is 1.
pub fn value_at<'m, 'a, V>(files: &'m BTreeMap<Path<'a>, V>, path: Path<'a>) -> Option<&'m V>
    ensures { option_copied result ≡ lookup (is_at (values_cmp (values path.entry.bytes.now)))
        (rows_of view_bytes files.entry.now.entries) }
{
    laws::lookup_by_values::<V>();
    files.get(&path)
}

/// Finds an entry whose path is equal to `path`, in a list that is sorted by path. Returns the
/// index of the entry, or as an error the index at which `path` can be inserted.
///
/// The search is a `slice::binary_search_by`.
///
/// Among `a`, `a/b` and `b` it returns `Ok(1)` for `a//b`, and `Err(2)` for `a/c`.
pub fn search_by_path<V>(files: &[(PathBuf, V)], path: Path<'_>) -> Result<usize, usize>
    ensures search_result { IsBinarySearchResult
        (λ file. values_cmp (values (path_bytes file.0)) (values path.entry.bytes.now))
        files.now result }
    ensures in_range { IsSearchInRange result (length files.now) }
{
    files.binary_search_by(|file| file.0.as_path().cmp(&path))
}
