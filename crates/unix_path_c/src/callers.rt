//! Functions that call the exported functions. They show that the contracts of the exported
//! functions suffice to prove callers. Nothing calls them.
ghost use Rattle.std.specs.Prelude.{◌≡◌, [], ◌∷◌, ◌++◌, IsTrue, option_map};
ghost use Rattle.unix_path.specs.Names.{file_name_of};
ghost use Rattle.unix_path.specs.Parts.{values};
ghost use Rattle.unix_path_c.specs.Spans.{span_bytes};
ghost use Rattle.unix_path_c.specs.Walks.{part_value};

use crate::spans::{Span, unix_path_file_name};
use crate::walks::{
    Part, Walk, unix_path_as_path, unix_path_components, unix_path_next, unix_path_next_back,
};

// Returns the file name as a slice of the path.
fn read_file_name(path: &[u8]) -> Option<&[u8]>
    ensures { option_map (λ name. name.now) result ≡ file_name_of (values path.now) }
{
    let mut span = Span {
        start: 0,
        length: 0,
    };
    if !unix_path_file_name(path, &mut span) {
        return None;
    }
    Some(&path[span.start..span.start + span.length])
}

// Finds the first and the last component of a path, and the span of the components between them.
// Returns false if the path has fewer than two components.
fn find_first_and_last(path: &[u8], first: &mut Part, between: &mut Span, last: &mut Part) -> bool
    ensures { IsTrue result → values path.now ≡ part_value path.now first.new
        ∷ (values (span_bytes path.now between.new) ++ part_value path.now last.new ∷ []) }
{
    let mut walk = Walk { front: 0, back: 0 };
    unix_path_components(path, &mut walk);
    if !unix_path_next(path, &mut walk, first) {
        return false;
    }
    if !unix_path_next_back(path, &mut walk, last) {
        return false;
    }
    unix_path_as_path(path, &walk, between);
    true
}
