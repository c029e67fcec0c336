//! Equality and order of walks, by the components that remain.
ghost use Rattle.std.specs.Prelude.{◌≡◌, ◌↔◌, IsTrue, Some};
ghost use Rattle.std.specs.Ordering.{is_eq};
ghost use Rattle.std.specs.Cmp;
ghost use Rattle.std.specs.Cmp.{eq_by_cmp_equiv, partial_order_from_total};
ghost use Rattle.std.specs.Cmp.Rules.{comparing};
ghost use Rattle.std.proofs.Common.{rules};
ghost use Rattle.unix_path.specs.Cursor.{cursor_values};
ghost use Rattle.unix_path.specs.Order.{values_cmp};
ghost use Rattle.unix_path.specs.OrderLaws.{values_cmp-total};

use crate::compare::{compare, is_same};
use crate::cursor::Components;
use std::cmp::Ordering;

/// Two walks are equal if and only if the same components remain in both: the walks over `a//b` and
/// `a/b` are equal.
impl PartialEq for Components<'_> {
    ghost eq = { λ x y. is_eq (values_cmp (cursor_values x) (cursor_values y)) };

    ghost laws = { Cmp.partial_equiv_from_equiv
        (eq_by_cmp_equiv (Cmp.on_total cursor_values values_cmp-total)) };

    fn eq(&self, other: &Self) -> bool
        ensures value { result
            ≡ is_eq (values_cmp (cursor_values self.now) (cursor_values other.now)) }
        ensures same { IsTrue result ↔ (cursor_values self.now ≡ cursor_values other.now) }
    {
        is_same(self.as_path().bytes, other.as_path().bytes)
    }
}

impl Eq for Components<'_> {
    ghost laws = { eq_by_cmp_equiv (Cmp.on_total cursor_values values_cmp-total) };
}

impl PartialOrd for Components<'_> {
    ghost partial_cmp = { λ x y. Some (values_cmp (cursor_values x) (cursor_values y)) };

    ghost laws = { partial_order_from_total (Cmp.on_total cursor_values values_cmp-total) };

    fn partial_cmp(&self, other: &Self) -> Option<Ordering> {
        Some(self.cmp(other))
    }
}

/// Walks are ordered by their first remaining components that differ, in the order of `Component`.
/// If none differ, the walk with fewer remaining components comes first.
///
/// The walk over `a/b` comes before the walk over `a.b`, since the name `a` comes before `a.b`.
impl Ord for Components<'_> {
    ghost cmp = { λ x y. values_cmp (cursor_values x) (cursor_values y) };

    ghost total = { Cmp.on_total cursor_values values_cmp-total };

    ghost matches_partial_cmp = { Prim.search (comparing, rules) };

    ghost matches_eq = { Prim.search (comparing, rules) };

    fn cmp(&self, other: &Self) -> Ordering {
        compare(self.as_path().bytes, other.as_path().bytes)
    }
}
