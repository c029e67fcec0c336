//! Joins of many paths, one after the other.
ghost use Rattle.std.specs.Prelude.{ℕ, ◌-◌, ◌≤◌, List, [], length, IfOk, OnOk, OnErr, IsOk};
ghost use Rattle.std.specs.Iterator.{IsFinite};
ghost use Rattle.unix_path.specs.Buffers.{path_bytes, capacity, JoinsAll};
ghost use Rattle.unix_path.specs.Buffers.{JoinsBeginning};
ghost use Rattle.unix_path.specs.Buffers.{ItemsFit, JoinsFit};

use crate::buf::PathBuf;
use crate::path::Path;
use std::alloc::{AllocError, Global};

impl PathBuf {
    /// Returns the empty path with each of `items` pushed onto it, one after the other.
    ///
    /// The caller has to prove that `next` may be called on `items`, and that `items` is finite.
    /// Allocates as the path grows, and fails if an allocation fails. If there are no items, or if
    /// all are empty, it does not allocate, and succeeds.
    ///
    /// For `/`, `feel` and `the.force` it is `/feel/the.force`.
    pub fn from_iter<'a, I: Iterator<Item = Path<'a>>>(
        alloc: Global,
        items: I,
    ) -> Result<PathBuf, AllocError>
        requires can { I.can_next items }
        requires ends { IsFinite (I.remaining items) }
        ensures ok { IfOk result (λ p. JoinsAll I.next_gives items [] (path_bytes p)) }
        ensures err { OnErr result
            ((bytes : List ℕ) × JoinsBeginning I.next_gives items [] bytes 0) }
        ensures succeeds { JoinsFit I.next_gives items [] 0 → IsOk result }
    {
        let mut path = PathBuf::new(alloc);
        path.extend(items)?;
        Ok(path)
    }

    /// Pushes each of `items`, one after the other.
    ///
    /// The caller has to prove that `next` may be called on `items`, and that `items` is finite.
    /// Allocates as the path grows. If an allocation fails, the paths pushed before stay joined.
    ///
    /// It does not allocate, and succeeds, if the path is never longer than the capacity, not even
    /// between two pushes. This holds if there are no items, or if the lengths of the items, plus
    /// one byte for each item, add up to at most the spare capacity.
    ///
    /// `a`, extended by `b`, `/c` and `d`, is `/c/d`.
    #[tactic(auto, using(crate::proofs::lemmas::edits::SeparatorLemmas::joins_snoc))]
    pub fn extend<'a, I: Iterator<Item = Path<'a>>>(&mut self, items: I) -> Result<(), AllocError>
        requires can { I.can_next items }
        requires ends { IsFinite (I.remaining items) }
        ensures ok { OnOk result
            (JoinsAll I.next_gives items (path_bytes self.old) (path_bytes self.new)) }
        ensures err { OnErr result (JoinsBeginning I.next_gives items
            (path_bytes self.old) (path_bytes self.new) (capacity self.old)) }
        ensures succeeds { JoinsFit I.next_gives items (path_bytes self.old) (capacity self.old)
            → IsOk result }
        ensures succeeds_in_spare_capacity { ItemsFit I.next_gives items
            (capacity self.old - length (path_bytes self.old)) → IsOk result }
        ensures capacity { capacity self.old ≤ capacity self.new }
    {
        for item in items {
            self.push(item)?;
        }
        Ok(())
    }
}
