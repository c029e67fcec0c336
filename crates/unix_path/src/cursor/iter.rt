//! The walk that yields components as byte strings.
ghost use Rattle.std.specs.Prelude.{◌≡◌};
ghost use Rattle.unix_path.specs.Slices.{LiesIn, memory_offset};

use crate::cursor::{Component, Components};
use crate::path::Path;
use std::fmt;
use std::iter::FusedIterator;
use unix_bytes::bytes::UnixStr;

/// A walk that yields each component of a path as a byte string, from both ends.
///
/// Copying a walk copies no bytes, and the copy advances independently. A walk that has ended
/// yields nothing more at either end.
///
/// For `///foo///bar` it yields `/`, `foo` and `bar`.
#[must_use]
#[derive(Clone, Copy)]
pub struct Iter<'a> {
    components: Components<'a>,
}

impl<'a> Iter<'a> {
    ghost use Rattle.unix_path.specs.Cursor.{cursor_rest, cursor_source, cursor_start};
    ghost use Rattle.unix_path.specs.Cursor.{iter_cursor};

    // Returns the walk that yields the components that remain in `components`, as byte strings.
    #[inline]
    pub(crate) fn new(components: Components<'a>) -> Iter<'a>
        ensures { iter_cursor result ≡ components.entry }
    {
        Iter { components }
    }

    /// Returns the bytes that remain, as `Components::as_path` does.
    ///
    /// For `/tmp//foo/` after one `next` it is `tmp//foo`.
    #[must_use]
    #[inline]
    pub fn as_path(&self) -> Path<'a>
        ensures bytes { result.bytes.now ≡ cursor_rest (iter_cursor self.now) }
        ensures place { LiesIn result.bytes (cursor_source (iter_cursor self.now)) }
        ensures start { memory_offset result.bytes ≡ cursor_start (iter_cursor self.now) }
    {
        self.components.as_path()
    }
}

impl<'a> Iterator for Iter<'a> {
    ghost use Rattle.std.specs.Iterator.{item_count};
    ghost use Rattle.unix_path.specs.Cursor.{iter_bytes, GivesFirstName};

    type Item = UnixStr<'a>;

    ghost next_gives = { GivesFirstName };

    ghost remaining = { item_count iter_bytes };

    #[inline]
    fn next(&mut self) -> Option<UnixStr<'a>> {
        self.components.next().map(Component::as_unix_str)
    }
}

impl<'a> DoubleEndedIterator for Iter<'a> {
    ghost use Rattle.unix_path.specs.Cursor.{GivesLastName};

    ghost next_back_gives = { GivesLastName };

    #[inline]
    fn next_back(&mut self) -> Option<UnixStr<'a>> {
        self.components.next_back().map(Component::as_unix_str)
    }
}

impl FusedIterator for Iter<'_> {}

// A walk whose debug form lists the bytes of each remaining component.
#[derive(Clone, Copy)]
struct BytesList<'a>(Iter<'a>);

impl fmt::Debug for BytesList<'_> {
    fn fmt<W: fmt::Write>(&self, f: &mut fmt::Formatter<W>) -> fmt::Result {
        f.debug_list().entries(self.0).finish()
    }
}

/// Writes the bytes of each component that remains: `Iter(["/", "tmp"])` for `/tmp`.
impl fmt::Debug for Iter<'_> {
    fn fmt<W: fmt::Write>(&self, f: &mut fmt::Formatter<W>) -> fmt::Result {
        f.debug_tuple("Iter").field(&BytesList(*self)).finish()
    }
}
