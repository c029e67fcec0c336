//! Laws of trees: facts about the definitions, each available to a proof that calls it.
ghost use Rattle.std.specs.List.{All};
ghost use Rattle.std.specs.List.Sorted.{IsStrictlySortedBy};
ghost use Rattle.std.specs.Map.{keys_of};
ghost use Rattle.path_keys.specs.Keys.{IsKey};
ghost use Rattle.path_keys.specs.Ranges.{bytes_cmp};
ghost use Rattle.path_tree.specs.Laws.{ChildHasOneMore};
ghost use Rattle.path_tree.specs.Tree.{entries_of};

use crate::tree::PathTree;

/// If a path has more components than a base that it starts with, the child of the base's key with
/// which its key starts is the key of the base and the next component.
///
/// So the keys that `children` returns are the keys of paths with one component more than the base.
///
/// The child of 61 00 with which 61 00 62 00 63 00 starts is 61 00 62 00.
pub fn child_has_one_more()
    ensures { ChildHasOneMore }
{}

/// The keys of a tree are keys of paths, in strictly increasing order of their bytes, which is path
/// order.
///
/// So `path_of` can read each key of a tree back, and no two keys of a tree are equal.
///
/// With 1 at `a//b` and 2 at `a.b`, the keys are 61 00 62 00 and 61 2F 62 00.
pub fn tree_has_keys<V>(tree: &PathTree<V>)
    ensures keys { All IsKey (keys_of (entries_of tree.now)) }
    ensures ordered { IsStrictlySortedBy bytes_cmp (keys_of (entries_of tree.now)) }
{
    tree.show_entries();
}
