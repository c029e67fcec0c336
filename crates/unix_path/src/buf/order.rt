//! Equality, order and hash of owned paths, which are the same as for `Path`.
ghost use Rattle.std.specs.Prelude.{◌≡◌, ◌↔◌, IsTrue, Some};
ghost use Rattle.std.specs.Ordering.{is_eq};
ghost use Rattle.std.specs.Cmp;
ghost use Rattle.std.specs.Cmp.{eq_by_cmp_equiv, partial_order_from_total};
ghost use Rattle.std.specs.Cmp.Rules.{comparing};
ghost use Rattle.std.proofs.Common.{rules, ap};
ghost use Rattle.unix_path.specs.Parts.{values, SameValues};
ghost use Rattle.unix_path.specs.Order.{values_cmp};
ghost use Rattle.unix_path.specs.OrderLaws.{values_cmp-total, is_eq-values_cmp};
ghost use Rattle.unix_path.specs.Hashed.{hash_input_of};
ghost use Rattle.unix_path.specs.Buffers.{path_bytes};

use crate::buf::PathBuf;
use std::cmp::Ordering;
use std::hash::{Hash, Hasher};

/// Two owned paths are equal if and only if their components are, as for `Path`: `a//b` equals
/// `a/b`.
impl PartialEq for PathBuf {
    ghost eq = { λ x y. is_eq (values_cmp (values (path_bytes x)) (values (path_bytes y))) };

    ghost laws = { Cmp.partial_equiv_from_equiv
        (eq_by_cmp_equiv (Cmp.on_total (λ path. values (path_bytes path)) values_cmp-total)) };

    fn eq(&self, other: &Self) -> bool
        ensures value { result
            ≡ is_eq (values_cmp (values (path_bytes self.now)) (values (path_bytes other.now))) }
        ensures same { IsTrue result ↔ SameValues (path_bytes self.now) (path_bytes other.now) }
    {
        self.as_path() == other.as_path()
    }
}

impl Eq for PathBuf {
    ghost laws = { eq_by_cmp_equiv
        (Cmp.on_total (λ path. values (path_bytes path)) values_cmp-total) };
}

impl PartialOrd for PathBuf {
    ghost partial_cmp = { λ x y. Some
        (values_cmp (values (path_bytes x)) (values (path_bytes y))) };

    ghost laws = { partial_order_from_total
        (Cmp.on_total (λ path. values (path_bytes path)) values_cmp-total) };

    fn partial_cmp(&self, other: &Self) -> Option<Ordering> {
        Some(self.cmp(other))
    }
}

/// Owned paths are ordered by their components, as for `Path`: `a/b` comes before `a.b`.
impl Ord for PathBuf {
    ghost cmp = { λ x y. values_cmp (values (path_bytes x)) (values (path_bytes y)) };

    ghost total = { Cmp.on_total (λ path. values (path_bytes path)) values_cmp-total };

    ghost matches_partial_cmp = { Prim.search (comparing, rules) };

    ghost matches_eq = { Prim.search (comparing, rules) };

    fn cmp(&self, other: &Self) -> Ordering {
        self.as_path().cmp(&other.as_path())
    }
}

/// Hashes the path like `as_path`: `a//b` and `a/b` have the same hash. A type that hashes several
/// paths should feed the hasher something between them, as explained for `Path`.
impl Hash for PathBuf {
    ghost hash_input = { λ path. hash_input_of (values (path_bytes path)) };

    ghost respects_eq = { λ x y e. ap hash_input_of (is_eq-values_cmp _ _ e) };

    fn hash<H: Hasher>(&self, state: &mut H) {
        self.as_path().hash(state);
    }
}
