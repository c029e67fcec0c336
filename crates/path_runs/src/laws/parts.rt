//! Laws of a path's components, and of the rest of a path after some components are taken.
ghost use Rattle.std.specs.Prelude.{◌≡◌, ◌≤◌, ℕ, List, [], length, map};
ghost use Rattle.std.specs.List.{sum_by};
ghost use Rattle.unix_path.specs.Parts.{values, value_bytes};
ghost use Rattle.path_runs.specs.PartLaws.{NoPartNoByte, RestHasValues, RestOfRest};

/// A path has no component if and only if it has no byte.
///
/// Every path that isn't empty has a component: its root, a `.`, a `..` or a name.
///
/// The empty path has no component, `/` has the root, and `.` has `.`.
pub fn no_part_no_byte()
    ensures iff { NoPartNoByte }
    ensures empty { values [] ≡ [] }
{}

/// A path has at most as many components as bytes, and the components together have at most as many
/// bytes as the path.
///
/// A count of the components, or a sum of their lengths, therefore fits any integer type that the
/// path's length fits.
///
/// `/a//bc` has 6 bytes, and three components of 1, 1 and 2 bytes.
pub fn parts_fit()
    ensures count { (s : List ℕ) → length (values s) ≤ length s }
    ensures bytes { (s : List ℕ) → sum_by (λ v. length (value_bytes v)) (values s) ≤ length s }
    ensures items { (s : List ℕ) → sum_by length (map value_bytes (values s)) ≤ length s }
{}

/// The rest of a path, without some leading and trailing components, has the remaining components.
///
/// Taking more components from the rest leaves the same bytes as taking all of them from the path
/// at once.
///
/// `/a/./b//c` without one leading and one trailing component is `a/./b`, with the components `a`
/// and `b`. `a/./b` without one leading component is `b`, and so is `/a/./b//c` without two leading
/// components and one trailing.
pub fn rest_reads_again()
    ensures values { RestHasValues }
    ensures rest { RestOfRest }
{}
