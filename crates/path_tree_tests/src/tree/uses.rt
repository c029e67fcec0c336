//! Functions that call trees and whose contracts are proved without a line of proof.
ghost use Rattle.std.specs.Prelude.{◌≡◌, IfOk};
ghost use Rattle.unix_path.specs.Parts.{SameValues};

use path_tree::PathTree;
use std::alloc::AllocError;
use std::test::Fail;
use unix_path::Path;

// Inserts the value at the first path, and looks it up at the second.
fn insert_then_get(
    tree: &mut PathTree<u8>,
    path: Path<'_>,
    other: Path<'_>,
    value: u8,
) -> Result<Option<u8>, AllocError>
    ensures { SameValues path.entry.bytes.now other.entry.bytes.now
        → IfOk result (λ found. found ≡ Some value) }
{
    tree.insert(path, value)?;
    Ok(tree.get_path(other)?.copied())
}

// Removes the path, and looks it up.
fn remove_then_get(tree: &mut PathTree<u8>, path: Path<'_>) -> Result<Option<u8>, AllocError>
    ensures { IfOk result (λ found. found ≡ None) }
{
    tree.remove_path(path)?;
    Ok(tree.get_path(path)?.copied())
}

#[test]
fn what_was_inserted_is_found(rt: HostRuntime) -> Result<(), Fail> {
    let mut tree = PathTree::new(rt.alloc());
    let path = Path::from_text("a//b/");
    let other = Path::from_text("a/b");
    assert!(rt; insert_then_get(&mut tree, path, other, 7)? == Some(7));
    assert!(rt; remove_then_get(&mut tree, path)? == None);
    Ok(())
}
