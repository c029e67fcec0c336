//! Laws of requests that are joined to roots.
ghost use Rattle.path_within.specs.BelowLaws.{BelowHasNames, BelowResolves, BelowSlash, BelowAgain};
ghost use Rattle.path_within.specs.BelowLaws.{BelowHasPrefix, BelowAddsNames, BelowStripped};
ghost use Rattle.path_within.specs.BelowLaws.{BelowWithin, DownIsJoined, DownIsJoinedHere};

/// A request represents only names. If its path does not escape, these names are what the path
/// resolves to.
///
/// Leading slashes of the path do not change the names. Used as a request again, the names
/// represent the same names.
///
/// `/a/../../b` represents `b`, and so do `a/../../b` and `b`.
#[tactic(auto, using(crate::proofs::lemmas::below::NamesBelowLemmas::requests_are_names_cases))]
pub fn requests_are_names()
    ensures names { BelowHasNames }
    ensures resolved { BelowResolves }
    ensures slash { BelowSlash }
    ensures again { BelowAgain }
{}

/// The join of a root and a request is below the root, whatever the root is.
///
/// The join's bytes begin with the root's bytes. Its components are the root's own components and
/// then the request's names. Without the root, the join has only the request's names. If the root
/// is resolved and the request does not escape, the join is the resolved join of both. Purely
/// lexical: symbolic links are not followed.
///
/// Below `/srv/..` the request `a/../b` is `/srv/../b`, which is `/srv/..` and then `b`.
pub fn joins_stay_below()
    ensures begins { BelowHasPrefix }
    ensures values { BelowAddsNames }
    ensures stripped { BelowStripped }
    ensures within { BelowWithin }
{}

/// A path that goes down from a root is equal to the join of the root and the rest of the path.
///
/// A path goes down from a root if it starts with the root's components, and the rest has neither a
/// root nor a `..`. If the root is empty, the path and the join are equal except for a leading `.`
/// of the path.
///
/// `/srv//www/./a` goes down from `/srv/www`, and equals the join with `a`, which is `/srv/www/a`.
pub fn contained_is_joined()
    ensures joined { DownIsJoined }
    ensures here { DownIsJoinedHere }
{}
