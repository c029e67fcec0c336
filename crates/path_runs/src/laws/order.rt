//! Laws of the order.
ghost use Rattle.std.specs.Prelude.{◌≡◌, ◌↔◌, List};
ghost use Rattle.std.specs.Cmp.{IsTotalOrder};
ghost use Rattle.std.specs.declared.cmp.Ordering.TheVariants.{Equal};
ghost use Rattle.unix_path.specs.Parts.{Value};
ghost use Rattle.unix_path.specs.Order.{values_cmp};
ghost use Rattle.path_runs.specs.OrderLaws.{OrderAfterCommonDir, OrderAfterSlash, PrefixBothWays};
ghost use Rattle.path_runs.specs.OrderLaws.{DescendantsContiguous, BaseBeforeUnder};
ghost use Rattle.path_runs.specs.OrderLaws.{OneOrder, BeforeIsTransitive};

/// The order of lists of components is total, and two lists compare as equal only if they are the
/// same.
///
/// For two lists, one and only one of these holds: they are equal, the first is less, or the second
/// is less (`one`). Being less is transitive (`transitive`).
///
/// `a` is less than `a/b`, and `a/b` is less than `b`; so `a` is less than `b`.
pub fn order_total()
    ensures total { IsTotalOrder values_cmp }
    ensures equal { (v w : List Value) → (values_cmp v w ≡ Equal) ↔ (v ≡ w) }
    ensures one { OneOrder }
    ensures transitive { BeforeIsTransitive }
{}

/// Two lists of components that are prefixes of each other are equal.
///
/// Two paths that each start with the other are therefore equal.
///
/// `a/./b` starts with `a//b`, and `a//b` starts with `a/./b`; they are equal.
#[tactic(auto, using(crate::proofs::lemmas::order::OrderLemmas::begins_both_ways))]
pub fn prefix_both_ways()
    ensures { PrefixBothWays }
{}

/// If two lists of components start with a third, so does every list between them in the order.
///
/// In the order of paths, the paths that start with a base are therefore adjacent.
///
/// Every path between `a/b` and `a/b/c/d` in the order starts with `a/b`.
pub fn descendants_contiguous()
    ensures { DescendantsContiguous }
{}

/// A list of components is less than or equal to each list that starts with it.
///
/// In the order of paths, a base therefore comes before every path that starts with it, except
/// those that equal it.
///
/// `a/b` is less than `a/b/c`, which starts with it.
#[tactic(auto, using(crate::proofs::lemmas::order::IntervalLemmas::base_not_greater))]
pub fn base_before_under()
    ensures { BaseBeforeUnder }
{}

/// Two paths that begin with the same bytes and then a slash are ordered by what follows that
/// slash, without a root or a leading `.`.
///
/// If `common_dir` returns n for two paths, and n isn't 0, the paths are therefore ordered by the
/// components after their first n bytes, without a root or a leading `.`.
///
/// `x/./b` and `x//a` are ordered as `b` and `a` are.
pub fn order_after_prefix()
    ensures slash { OrderAfterSlash }
    ensures common_dir { OrderAfterCommonDir }
{}
