//! Laws of the canonical form.
ghost use Rattle.path_runs.specs.SpellingLaws.{SpellingReadsBack, SpellingIsShortest};
ghost use Rattle.path_runs.specs.SpellingLaws.{SpellingDeterminesValues, JoinsAreSpelling};
ghost use Rattle.path_runs.specs.Spelling.{spelling_of};
ghost use Rattle.std.specs.Prelude.{◌≤◌, ℕ, List, length};
ghost use Rattle.unix_path.specs.Parts.{values};

/// The canonical form of a path has the same components, and every other path that has them is
/// longer.
///
/// Two paths are therefore equal if and only if their canonical forms are the same bytes.
///
/// For `.//a/./b/` it is `./a/b`, and no other path of 5 bytes or fewer is equal to it.
#[tactic(auto, using(crate::proofs::lemmas::spelling::LeanLemmas::canonical_form_cases))]
pub fn canonical_form()
    ensures reads_back { SpellingReadsBack }
    ensures shortest { SpellingIsShortest }
    ensures determines { SpellingDeterminesValues }
{}

/// The canonical form of a path has at most as many bytes as the path.
///
/// A caller can size a buffer by this.
///
/// `.//a/./b/` has 9 bytes, and its canonical form `./a/b` has 5.
#[tactic(auto, using(crate::proofs::lemmas::spelling::LeanLemmas::canonical_is_short_cases))]
pub fn canonical_is_short()
    ensures { (s : List ℕ) → length (spelling_of (values s)) ≤ length s }
{}

/// The components of a path, joined one after the other, are the canonical form of the path.
///
/// This holds byte for byte. It also holds for the rest of a walk, since that is a path too.
///
/// The components of `.//a/./b/` are `.`, `a` and `b`; joined one after the other they are `./a/b`.
pub fn spelling_joined()
    ensures { JoinsAreSpelling }
{}
