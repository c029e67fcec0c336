//! Laws of what `sort` and `uniq` write.
ghost use Rattle.std.specs.Prelude.{◌≡◌, ◌++◌, ◌∷◌, [], ℕ, true, false, List, AllPairs};
ghost use Rattle.std.specs.Prelude.{if◌then◌else◌};
ghost use Rattle.std.specs.List.{list_any};
ghost use Rattle.std.specs.List.Sorted.{IsPermutation, IsSortedBy, IsStableBy};
ghost use Rattle.upath_commands.specs.Sorting.{comes_before, firsts_of, same_path, sorted_by};
ghost use Rattle.upath_commands.specs.Sorting.{sorted_of};

use crate::command::Options;

/// What `sort` writes without options is in path order (`ordered`), consists of the paths that were
/// read (`same`), and leaves equal paths in their order (`stable`).
///
/// `b`, `a//b` and `a/b` become `a//b`, `a/b` and `b`.
pub fn sort_orders()
    ensures ordered { (paths : List (List ℕ))
        → IsSortedBy comes_before (sorted_by comes_before paths) }
    ensures same { (paths : List (List ℕ)) → IsPermutation paths (sorted_by comes_before paths) }
    ensures stable { (paths : List (List ℕ))
        → IsStableBy comes_before paths (sorted_by comes_before paths) }
{}

/// `uniq` keeps a path if and only if it equals no path before it (`next`). So it keeps each path
/// once (`once`).
///
/// Of `a//b`, `c` and `a/b` it keeps `a//b` and `c`.
pub fn uniq_keeps_firsts()
    ensures next { (paths : List (List ℕ)) (path : List ℕ) → firsts_of (paths ++ path ∷ [])
        ≡ (if list_any (λ other. same_path other path) paths then firsts_of paths
        else firsts_of paths ++ path ∷ []) }
    ensures once { (paths : List (List ℕ))
        → AllPairs (λ path other. same_path path other ≡ false) (firsts_of paths) }
{}

/// `sort -u` prints what `sort` prints of the paths that `uniq` keeps: of equal paths the first.
///
/// `b`, `a//b` and `a/b` become `a//b` and `b`.
pub fn sort_unique_keeps_firsts()
    ensures { (all unique : Options) (paths : List (List ℕ))
        → all.unique ≡ false → unique.unique ≡ true → unique.reversed ≡ all.reversed
        → sorted_of unique paths ≡ sorted_of all (firsts_of paths) }
{}
