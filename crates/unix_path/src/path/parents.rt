//! The parent of a path, and its ancestors.
ghost use Rattle.std.specs.Prelude.{◌≡◌, ◌<◌, ◌≤◌, ◌^◌, length, take, option_map, IfSome, Some};
ghost use Rattle.unix_path.specs.Parents.{parent_of, ancestors_of};
ghost use Rattle.unix_path.specs.Slices.{LiesIn, memory_offset};

use crate::cursor::{Ancestors, Component, Components};
use crate::path::Path;

impl<'a> Path<'a> {
    ghost use Rattle.unix_path.specs.Ancestors.{coming_ancestor, remaining_ancestors};

    /// Returns the path without its last component, or `None` if the path is empty or its last
    /// component is the root.
    ///
    /// The result is a prefix of this path's bytes, in the same memory. The parent of a single name
    /// is the empty path, which has no parent.
    ///
    /// The parent of `/tmp//foo/.` is `/tmp`.
    #[must_use]
    #[inline]
    pub fn parent(&self) -> Option<Path<'a>>
        ensures value { option_map (λ path. path.bytes.now) result ≡ parent_of self.now.bytes.now }
        ensures place { IfSome result (λ path. LiesIn path.bytes self.now.bytes) }
        ensures start { IfSome result (λ path.
            memory_offset path.bytes ≡ memory_offset self.now.bytes) }
    {
        match self.parent_len() {
            Some(len) => Some(Path {
                bytes: &self.bytes[..len],
            }),
            None => None,
        }
    }

    // Returns the length of the parent, or `None` if there is no parent. Not inlined, so that
    // `parent` and `pop`, which call it, stay small.
    #[inline(never)]
    #[tactic(auto, using(crate::proofs::lemmas::walks::ComponentLemmas::parents))]
    pub(crate) fn parent_len(&self) -> Option<usize>
        ensures value { option_map (λ len. take len self.now.bytes.now) result
            ≡ parent_of self.now.bytes.now }
        ensures in_range { IfSome result (λ len. len ≤ length self.now.bytes.now) }
    {
        let Some(last) = Components::last_part(self.bytes) else {
            return None;
        };
        match last.part {
            Component::RootDir => None,
            _ => Some(last.before),
        }
    }

    /// Returns a walk over the path itself, its parent, the parent's parent, and so on.
    ///
    /// For `../a` it yields `../a`, `..` and the empty path.
    #[inline]
    pub fn ancestors(&self) -> Ancestors<'a>
        ensures pending { remaining_ancestors result ≡ ancestors_of self.now.bytes.now }
        ensures len { length (remaining_ancestors result) < 2 ^ 64 }
        ensures first { coming_ancestor result ≡ Some self.now }
    {
        Ancestors::new(*self)
    }
}
