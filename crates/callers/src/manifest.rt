//! Manifests: sorted paths in canonical form, each of them once.
ghost use Rattle.std.specs.Prelude.{◌≡◌, ◌||◌, IfOk, OnOk};
ghost use Rattle.std.specs.BTreeSet.{contains, IsOrdered};
ghost use Rattle.std.specs.List.{All, list_any};
ghost use Rattle.unix_path.specs.declared.buf.PathBuf.{PathBuf};
ghost use Rattle.callers.specs.Manifest.{paths_cmp, is_same, IsCanonical, IsNormalised};

use path_runs::canonical::canonical;
use path_runs::laws;
use std::alloc::{AllocError, Global};
use std::collections::BTreeSet;
use unix_path::{Path, PathBuf};

// Adds the canonical form of a path to the set.
#[inline]
fn add(alloc: Global, set: &mut BTreeSet<PathBuf>, path: Path<'_>) -> Result<(), AllocError>
    ensures ordered { OnOk result (IsOrdered paths_cmp set.new) }
    ensures canonical { OnOk result
        (All IsCanonical set.old.keys → All IsCanonical set.new.keys) }
    ensures same { OnOk result ((p : PathBuf) → contains paths_cmp set.new p
        ≡ (contains paths_cmp set.old p || is_same p path.entry)) }
{
    laws::canonical_form();
    set.insert(canonical(alloc, path)?)?;
    Ok(())
}

// Returns the set of the paths in canonical form, adding them from the first to the last.
fn collect_forward(alloc: Global, paths: &[Path<'_>]) -> Result<BTreeSet<PathBuf>, AllocError>
    ensures { IfOk result (IsNormalised paths.now) }
{
    let mut set = BTreeSet::new(alloc);
    for path in paths {
        add(alloc, &mut set, *path)?;
    }
    Ok(set)
}

// Returns the set of the paths in canonical form, adding them from the last to the first.
fn collect_backward(alloc: Global, paths: &[Path<'_>]) -> Result<BTreeSet<PathBuf>, AllocError>
    ensures { IfOk result (IsNormalised paths.now) }
{
    let mut set = BTreeSet::new(alloc);
    for path in paths.iter().rev() {
        add(alloc, &mut set, *path)?;
    }
    Ok(set)
}

/// Returns the set of the canonical forms of `paths`.
///
/// The set is sorted, and has each path once. It contains a path if and only if the path is equal
/// to one of `paths`. Allocates for each path and its entry in the set. If an allocation fails, it
/// fails and drops the set.
///
/// For `b`, `a//b/.`, `a/b` and `./a` it is `./a`, `a/b` and `b`.
pub fn normalise(alloc: Global, paths: &[Path<'_>]) -> Result<BTreeSet<PathBuf>, AllocError>
    ensures ordered { IfOk result (IsOrdered paths_cmp) }
    ensures canonical { IfOk result (λ set. All IsCanonical set.keys) }
    ensures same { IfOk result (λ set. (p : PathBuf) →
        contains paths_cmp set p ≡ list_any (is_same p) paths.now) }
{
    // A search in a node of the set begins at the node's first path, so it ends soonest for a path
    // that sorts before all others. A sorted list is therefore added from its last path to its
    // first.
    if paths.first() < paths.last() {
        collect_backward(alloc, paths)
    } else {
        collect_forward(alloc, paths)
    }
}
