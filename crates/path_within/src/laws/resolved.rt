//! Laws of paths that are resolved lexically.
ghost use Rattle.std.specs.Prelude.{◌≡◌, ℕ, List};
ghost use Rattle.unix_path.specs.Parts.{SameValues};
ghost use Rattle.path_within.specs.Resolved.{resolved_bytes_of, resolved_of};
ghost use Rattle.path_within.specs.ResolvedLaws.{ResolvedIsNormal, ResolvedReadsBack};
ghost use Rattle.path_within.specs.ResolvedLaws.{OnlyOneResolves, Resolves};
ghost use Rattle.path_within.specs.ResolvedLaws.{ResolvedAgain, ResolvedOfJoin};
ghost use Rattle.path_within.specs.ResolvedLaws.{ResolvedIsShort, ResolvedJoinIsShort};

/// A resolved path has no `.`, no `..` after a name or the root, and a root only as its first
/// component.
///
/// Parsed as a path, its bytes have the resolved components. Resolving it again changes no byte.
///
/// `a/../..//b/.` resolves to `../b`, which has the components `..` and `b` and resolves to itself.
#[tactic(auto, using(crate::proofs::lemmas::stack::ResolveLemmas::resolved_is_normal_cases))]
pub fn resolved_is_normal()
    ensures normal { ResolvedIsNormal }
    ensures values { ResolvedReadsBack }
    ensures again { ResolvedAgain }
{}

/// Resolving follows four rules: a name and the `..` after it cancel, each `.` drops out, a `..`
/// after a leading root drops out, and what is normal stays. On the components of paths no other
/// function follows them.
///
/// Components are normal if none is `.`, no `..` follows a name or the root, and only the first may
/// be a root. By the rules `a/./../../b` is `a/../../b`, that is `../b`, which is normal.
#[tactic(auto, using(crate::proofs::lemmas::stack::CancelLemmas::rules_of_resolving))]
pub fn resolved_by_rules()
    ensures rules { Resolves resolved_of }
    ensures only { OnlyOneResolves }
{}

/// Equal paths resolve to the same bytes.
///
/// `a//../b` and `a/.././b/` both resolve to `b`.
pub fn resolved_congruent()
    ensures { (s t : List ℕ) → SameValues s t → resolved_bytes_of s ≡ resolved_bytes_of t }
{}

/// Resolving the first path of a join beforehand does not change what the join resolves to.
///
/// A `..` of the second path may drop names of the first. The law does not say that the second path
/// may be resolved beforehand.
///
/// `a/./b` joined with `../c` resolves to `a/c`, and so does `a/b` joined with `../c`.
pub fn resolved_of_join()
    ensures { ResolvedOfJoin }
{}

/// A resolved path is no longer than the path, and a resolved join is at most 1 byte longer than
/// both paths together.
///
/// A caller can size a buffer by this law.
///
/// `/srv/./www` has 10 bytes and resolves to `/srv/www`, of 8 bytes. Joined with `a` it resolves to
/// `/srv/www/a`.
pub fn resolved_is_short()
    ensures path { ResolvedIsShort }
    ensures join { ResolvedJoinIsShort }
{}
