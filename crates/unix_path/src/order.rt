//! Equality, order and hash of paths, by their components.
ghost use Rattle.std.specs.Prelude.{◌≡◌, ◌↔◌, IsTrue, Some, fold};
ghost use Rattle.std.specs.Ordering.{is_eq};
ghost use Rattle.std.specs.Cmp;
ghost use Rattle.std.specs.Cmp.{eq_by_cmp_equiv, partial_order_from_total};
ghost use Rattle.std.specs.Cmp.Rules.{comparing};
ghost use Rattle.std.proofs.Common.{rules, ap};
ghost use Rattle.unix_path.specs.Parts.{values, SameValues};
ghost use Rattle.unix_path.specs.Cursor.{cursor_values};
ghost use Rattle.unix_path.specs.Order.{values_cmp};
ghost use Rattle.unix_path.specs.OrderLaws.{values_cmp-total, is_eq-values_cmp};
ghost use Rattle.unix_path.specs.Hashed.{hash_input_of};

use crate::compare::{compare, is_same};
use crate::cursor::Components;
use crate::path::Path;
use std::cmp::Ordering;
use std::hash::{Hash, Hasher};

// Feeds a hasher the components that remain in a walk, one after the other.
fn feed_parts<H: Hasher>(parts: Components<'_>, state: &mut H)
    ensures { state.new ≡ fold H.write state.old (hash_input_of (cursor_values parts.entry)) }
{
    for part in parts {
        part.hash(state);
    }
}

/// Two paths are equal if and only if their components are: `a//b` equals `a/b/.`, and `./a`
/// doesn't equal `a`.
impl PartialEq for Path<'_> {
    ghost eq = { λ x y. is_eq (values_cmp (values x.bytes.now) (values y.bytes.now)) };

    ghost laws = { Cmp.partial_equiv_from_equiv
        (eq_by_cmp_equiv (Cmp.on_total (λ path. values path.bytes.now) values_cmp-total)) };

    fn eq(&self, other: &Self) -> bool
        ensures value { result
            ≡ is_eq (values_cmp (values self.now.bytes.now) (values other.now.bytes.now)) }
        ensures same { IsTrue result ↔ SameValues self.now.bytes.now other.now.bytes.now }
    {
        is_same(self.bytes, other.bytes)
    }
}

impl Eq for Path<'_> {
    ghost laws = { eq_by_cmp_equiv
        (Cmp.on_total (λ path. values path.bytes.now) values_cmp-total) };
}

impl PartialOrd for Path<'_> {
    ghost partial_cmp = { λ x y. Some (values_cmp (values x.bytes.now) (values y.bytes.now)) };

    ghost laws = { partial_order_from_total
        (Cmp.on_total (λ path. values path.bytes.now) values_cmp-total) };

    fn partial_cmp(&self, other: &Self) -> Option<Ordering> {
        Some(self.cmp(other))
    }
}

/// Paths are ordered by their components: `a/b` comes before `a.b`, and `./a` before `a`.
impl Ord for Path<'_> {
    ghost cmp = { λ x y. values_cmp (values x.bytes.now) (values y.bytes.now) };

    ghost total = { Cmp.on_total (λ path. values path.bytes.now) values_cmp-total };

    ghost matches_partial_cmp = { Prim.search (comparing, rules) };

    ghost matches_eq = { Prim.search (comparing, rules) };

    fn cmp(&self, other: &Self) -> Ordering {
        compare(self.bytes, other.bytes)
    }
}

/// Feeds a hasher the components one after the other, each as `Component` does. So `a//b` feeds the
/// same bytes as `a/b`.
///
/// Different tuples of paths can feed the same bytes, for example (`a`, `b/c`) and (`a/b`, `c`). A
/// type that hashes several paths should therefore feed the hasher something between them that the
/// input of no component begins with, such as a slash and a NUL.
impl Hash for Path<'_> {
    ghost hash_input = { λ path. hash_input_of (values path.bytes.now) };

    ghost respects_eq = { λ x y e. ap hash_input_of (is_eq-values_cmp _ _ e) };

    fn hash<H: Hasher>(&self, state: &mut H) {
        feed_parts(self.components(), state);
    }
}
