//! What a caller can prove about ancestors, and how a walk over them ends.
ghost use Rattle.std.specs.Prelude.{◌≡◌, IfOk, map};
ghost use Rattle.unix_path.specs.Ancestors.{remaining_ancestors};

use super::answers::assert_each;
use super::views::path;
use std::alloc::{AllocError, Global};
use unix_bytes::bytes::UnixStr;
use unix_path::laws::walks_in_order;
use unix_path::{Ancestors, Path};

// Returns the list of the ancestors that the walk has still to yield. The contract is what a caller
// can prove about this list.
fn list_ancestors(alloc: Global, walk: Ancestors<'_>) -> Result<Vec<Path<'_>>, AllocError>
    ensures { IfOk result (λ list.
        map (λ path. path.bytes.now) list.items ≡ remaining_ancestors walk.entry) }
{
    walks_in_order();
    walk.collect(alloc)
}

// Returns true if the call returned three paths, the second of which is `/foo`: these are the
// ancestors of `/foo/bar`.
fn is_list(given: Result<Vec<Path<'_>>, AllocError>) -> bool {
    match given {
        Ok(list) => list.len() == 3 && list[1].as_unix_str() == UnixStr::new("/foo"),
        Err(AllocError) => false,
    }
}

#[test]
fn ancestors_are_collected(rt: HostRuntime) {
    let walk = path("/foo/bar").ancestors();
    assert!(rt; is_list(list_ancestors(rt.alloc(), walk)));
}

#[test]
fn ended_ancestors_stay_ended(rt: HostRuntime) {
    let mut walk = path("/").ancestors();
    let answers = [
        walk.next().is_some(),
        walk.next().is_none(),
        walk.next().is_none(),
    ];
    assert_each(&rt, &answers);
}
