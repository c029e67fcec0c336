//! Laws of joins.
ghost use Rattle.path_runs.specs.JoinLaws.{JoinsAssociate, EmptyJoinIsPath, JoinEmptyKeepsValues};
ghost use Rattle.path_runs.specs.JoinLaws.{JoinAddsValues, SlashAddsValues, StripThenJoin};
ghost use Rattle.path_runs.specs.JoinLaws.{values_added};
ghost use Rattle.std.specs.Prelude.{◌≡◌, ◌++◌, ℕ, List, false};
ghost use Rattle.unix_path.specs.Joins.{join_of};
ghost use Rattle.unix_path.specs.Prefixes.{IsPrefixOf};
ghost use Rattle.unix_path.specs.Parts.{is_rooted, values};

/// Joins are associative, byte for byte, and the empty path joined with any path is that path.
///
/// A path joined with the empty path keeps its components, but may get a trailing slash.
///
/// `a` joined with `b` and then with `c/` is `a/b/c/`, and so is `a` joined with `b/c/`.
#[tactic(auto, using(crate::proofs::lemmas::joins::LeadLemmas::join_associative_cases))]
pub fn join_associative()
    ensures bytes { JoinsAssociate }
    ensures empty_first { EmptyJoinIsPath }
    ensures empty_second { JoinEmptyKeepsValues }
{}

/// A join has the components of the first path, followed by the components of the second.
///
/// This holds if the first path isn't empty and the second is rootless. A leading `.` of the second
/// is lost. If a path ends in a slash, bytes appended to it also add their components, without a
/// leading root or `.`.
///
/// `/a` joined with `./b` has the components of `/a` and then `b`, and so has `/a/` followed by
/// `/b`.
pub fn join_values()
    ensures join { JoinAddsValues }
    ensures slash { SlashAddsValues }
{}

/// A join with a rootless path starts with the path that it was joined to.
///
/// This holds even if the first path is empty. The components of the second path follow those of
/// the first, without a leading `.` unless the first path is empty.
///
/// `/srv` joined with `./a` is `/srv/./a`, which starts with `/srv`.
pub fn join_starts_with()
    ensures begins { (a b : List ℕ) → is_rooted b ≡ false
        → IsPrefixOf (values a) (values (join_of a b)) }
    ensures values { (a b : List ℕ) → is_rooted b ≡ false
        → values (join_of a b) ≡ values a ++ values_added a b }
{}

/// If a path starts with a base, the base joined with the rest after it is equal to the path.
///
/// The bytes may change. The components don't.
///
/// `/a//b` stripped of `/a` is `b`, and `/a` joined with `b` has the components of `/a//b`.
pub fn strip_then_join()
    ensures { StripThenJoin }
{}
