//! Tests of path_runs: walks, laws, edits, canonical forms, pairs of paths, and lossy texts.
ghost use Rattle.std.specs.Prelude.{◌≡◌, is_some};
ghost use Rattle.unix_path.specs.Names.{name_of};
ghost use Rattle.unix_path.specs.Views.{value_of};

mod callers;
mod chains;
mod collected;
mod edit_lists;
mod edits;
mod facts;
mod fits;
mod loops;
mod pairs;
mod texts;

use std::alloc::AllocError;
use unix_path::Component;

// Returns true if the component is a name.
fn is_name(part: Component<'_>) -> bool
    ensures { result ≡ is_some (name_of (value_of part.entry)) }
{
    matches!(part, Component::Normal(_))
}

// Returns true if the list was created without an error and is `want`.
fn is_list<T: PartialEq + Drop>(list: Result<Vec<T>, AllocError>, want: &[T]) -> bool {
    match list {
        Ok(list) => list.as_slice() == want,
        Err(_) => false,
    }
}
