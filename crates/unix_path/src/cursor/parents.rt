//! The walk over a path and its ancestors.
ghost use Rattle.std.specs.Prelude.{◌≡◌, Some};

use crate::path::Path;
use std::iter::FusedIterator;

/// A walk over a path, its parent, the parent's parent, and so on. Each is a prefix of the one
/// before, in the same memory.
///
/// Copying a walk copies no bytes, and the copy advances independently. A walk that has ended
/// yields nothing more.
///
/// For `/foo` it yields `/foo` and `/`.
#[must_use]
#[derive(Clone, Copy, Debug)]
pub struct Ancestors<'a> {
    next: Option<Path<'a>>,
}

impl<'a> Ancestors<'a> {
    ghost use Rattle.unix_path.specs.Parents.{ancestors_of};
    ghost use Rattle.unix_path.specs.Ancestors.{coming_ancestor, remaining_ancestors};

    // Returns the walk that begins with `path`.
    #[inline]
    pub(crate) fn new(path: Path<'a>) -> Ancestors<'a>
        ensures pending { remaining_ancestors result ≡ ancestors_of path.entry.bytes.now }
        ensures first { coming_ancestor result ≡ Some path.entry }
    {
        Ancestors { next: Some(path) }
    }
}

impl<'a> Iterator for Ancestors<'a> {
    ghost use Rattle.std.specs.Iterator.{item_count};
    ghost use Rattle.unix_path.specs.Ancestors.{GivesAncestor, remaining_ancestors};

    type Item = Path<'a>;

    ghost next_gives = { GivesAncestor };

    ghost remaining = { item_count remaining_ancestors };

    #[inline]
    fn next(&mut self) -> Option<Path<'a>> {
        let Some(path) = self.next else {
            return None;
        };
        self.next = path.parent();
        Some(path)
    }
}

impl FusedIterator for Ancestors<'_> {}
