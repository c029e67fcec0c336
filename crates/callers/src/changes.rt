//! The changes from one manifest to another.
ghost use Rattle.std.specs.Prelude.{◌≡◌, IfOk, map};
ghost use Rattle.std.specs.Map.Iter.{deref_pair};
ghost use Rattle.path_tree.specs.Changed.{borrowed_both, entries_changed};
ghost use Rattle.path_tree.specs.Difference.{entries_lacking};
ghost use Rattle.path_tree.specs.Tree.{entries_of};

use path_tree::PathTree;
use std::alloc::AllocError;

/// The files that are new, gone or different in the later of two manifests. A file is identified by
/// the key of its path, and each list is in path order.
#[derive(Drop)]
pub struct Changes<'a, 'b, V> {
    /// The files that only the later manifest has.
    pub new: Vec<(&'a [u8], &'a V)>,
    /// The files that only the earlier manifest has.
    pub gone: Vec<(&'b [u8], &'b V)>,
    /// The files that both manifests have, but with different values. The later value comes first,
    /// and then the earlier one.
    pub different: Vec<(&'a [u8], &'a V, &'b V)>,
}

/// Returns the files that only the manifest `after` has, the files that only `before` has, and the
/// files that both have with different values.
///
/// Files are the same if their paths are equal, as `a/b` and `a//b` are. Allocates as the lists
/// grow, and nothing if there is no change. Fails if an allocation fails.
///
/// From 1 at `a` and 2 at `b` to 3 at `a` and 4 at `c`, `c` is new, `b` is gone and `a` is
/// different.
pub fn changes_from<'a, 'b, V: PartialEq>(
    before: &'b PathTree<V>,
    after: &'a PathTree<V>,
) -> Result<Changes<'a, 'b, V>, AllocError>
    ensures new { IfOk result (λ changes. map deref_pair changes.new.items
        ≡ entries_lacking (entries_of before.entry.now) (entries_of after.entry.now)) }
    ensures gone { IfOk result (λ changes. map deref_pair changes.gone.items
        ≡ entries_lacking (entries_of after.entry.now) (entries_of before.entry.now)) }
    ensures different { IfOk result (λ changes. map borrowed_both changes.different.items
        ≡ entries_changed V.eq (entries_of before.entry.now) (entries_of after.entry.now)) }
{
    Ok(Changes {
        new: after.difference(before)?,
        gone: before.difference(after)?,
        different: after.changed(before)?,
    })
}
