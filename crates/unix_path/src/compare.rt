//! The order of two paths, and their equality.
ghost use Rattle.std.specs.Prelude.{◌≡◌};
ghost use Rattle.std.specs.Ordering.{is_eq};
ghost use Rattle.unix_path.specs.Parts.{values};
ghost use Rattle.unix_path.specs.Order.{values_cmp};

use crate::pair::{Comparison, Difference, Pair, rest_len};
use crate::suffixes::shared_last_len;
use std::cmp::Ordering;
use unix_bytes::internal::common_len;

// Returns the order of two paths by their components.
#[tactic(auto, using(crate::proofs::lemmas::order::AfterCutLemmas::comparisons))]
pub(crate) fn compare(a: &[u8], b: &[u8]) -> Ordering
    ensures { result ≡ values_cmp (values a.now) (values b.now) }
{
    let pair = Pair {
        first: a,
        second: b,
        common: common_len(a, b),
    };
    if pair.common == a.len() && pair.common == b.len() {
        return Ordering::Equal;
    }
    match pair.first_difference() {
        Difference::Decided(order) => order,
        Difference::FirstComponents => pair.first_components_order(),
        Difference::CutBefore(first, second) if first.is_empty() => 0.cmp(&rest_len(second)),
        Difference::CutBefore(first, second) if second.is_empty() => rest_len(first).cmp(&0),
        Difference::CutBefore(first, second) => Comparison::order_after_cut(first, second),
    }
}

// Returns true if and only if two paths have the same components. Most paths that differ do so in
// their last components, so these are compared first. Paths with the same length and last byte are
// an exception, because they often have the same bytes.
pub(crate) fn is_same(a: &[u8], b: &[u8]) -> bool
    ensures { result ≡ is_eq (values_cmp (values a.now) (values b.now)) }
{
    if (a.len() != b.len() || a.last() != b.last()) && shared_last_len(a, b).is_none() {
        return false;
    }
    compare(a, b).is_eq()
}
