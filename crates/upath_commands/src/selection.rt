//! Which paths are answered.
ghost use Rattle.std.specs.Prelude.{◌≡◌, ◌++◌, ◌∷◌, ℕ, List, IfOk, OnOk};
ghost use Rattle.upath_commands.specs.Selections.{is_taken, selected, taken};
ghost use Rattle.upath_commands.specs.Sorting.{firsts_if};

use path_table::PathTable;
use std::alloc::{AllocError, Global};
use unix_path::Path;

/// Which paths are answered.
///
/// `Selection::new(alloc, true)` takes `a/b`, and then neither `a//b` nor `a/b`.
#[derive(Drop)]
pub enum Selection {
    /// All of them.
    All,
    /// The first of equal ones. The table has those that came.
    Firsts(PathTable<()>),
}

impl Selection {
    /// Creates a selection of the first of equal paths, or of all paths.
    ///
    /// `Selection::new(alloc, false)` takes `a` twice.
    #[tactic(auto, using(crate::proofs::lemmas::SelectionLemmas::selected_firsts))]
    pub fn new(alloc: Global, firsts: bool) -> Selection
        ensures { (paths : List (List ℕ)) → selected result paths ≡ firsts_if firsts paths }
    {
        if firsts {
            Selection::Firsts(PathTable::new(alloc))
        } else {
            Selection::All
        }
    }

    /// Returns true if the path is answered.
    ///
    /// Allocates for a copy of the path if only the first of equal paths is answered. Fails if an
    /// allocation fails.
    ///
    /// If only the first of equal paths is answered, it is true for `a/b` and then false for
    /// `a//b`.
    pub fn take(&mut self, alloc: Global, path: Path<'_>) -> Result<bool, AllocError>
        ensures taken { IfOk result (λ is. is ≡ is_taken self.old path.entry.bytes.now) }
        ensures rest { OnOk result ((paths : List (List ℕ))
            → selected self.old (path.entry.bytes.now ∷ paths)
            ≡ taken self.old path.entry.bytes.now ++ selected self.new paths) }
    {
        match self {
            Selection::All => Ok(true),
            Selection::Firsts(table) => {
                let old = table.insert(path.to_path_buf(alloc)?, ())?;
                Ok(old.is_none())
            }
        }
    }
}
