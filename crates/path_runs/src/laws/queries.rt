//! Laws of queries of a path.
ghost use Rattle.std.specs.Prelude.{List, map, option_map, ℕ};
ghost use Rattle.unix_path.specs.Edits.{with_extension_of, with_name_of};
ghost use Rattle.unix_path.specs.Extensions.{added_extension_of};
ghost use Rattle.unix_path.specs.Hashed.{hash_input_of};
ghost use Rattle.unix_path.specs.Joins.{join_of};
ghost use Rattle.unix_path.specs.Parents.{ancestors_of, parent_of};
ghost use Rattle.unix_path.specs.Names.{extension_of, file_name_of, file_prefix_of, stem_of};
ghost use Rattle.unix_path.specs.Prefixes.{stripped_of, IsPrefixOf, IsSuffixOf};
ghost use Rattle.unix_path.specs.Order.{values_cmp};
ghost use Rattle.unix_path.specs.Parts.{is_rooted, value_bytes, values, SameValues};
ghost use Rattle.unix_path.specs.Rest.{rest};
ghost use Rattle.path_runs.specs.QueryLaws.{NameFromStem, FileNameFromStem};
ghost use Rattle.path_runs.specs.QueryLaws.{ParentIsBefore, ParentJoinsName};
ghost use Rattle.path_runs.specs.QueryLaws.{AncestorsEnd, AncestorsStep, AncestorsArePrefixes};
ghost use Rattle.path_runs.specs.EqualPathLaws.{SameOnEqual, SameOnEqualPairs, HoldsOnEqualPairs};

/// A file name is its stem, a dot and its extension, or only its stem if it has no extension.
///
/// This holds for every name, and for the file name of every path that has a stem.
///
/// `a.tar.gz` is `a.tar`, a dot and `gz`; `.gz` is its own stem.
#[tactic(auto, using(crate::proofs::lemmas::names::StemNameLemmas::name_rejoined_cases))]
pub fn name_rejoined()
    ensures name { NameFromStem }
    ensures file_name { FileNameFromStem }
{}

/// A path's parent is less than the path, and joined with the file name it is equal to the path.
///
/// The parent is less whenever there is one. The join requires that the path also has a file name,
/// and may have other bytes than the path.
///
/// The parent of `/a//b` is `/a`, which is less; joined with `b` it is `/a/b`.
pub fn parent_before()
    ensures order { ParentIsBefore }
    ensures join { ParentJoinsName }
{}

/// A path's ancestors are the path itself and the ancestors of its parent.
///
/// A path without a parent is its only ancestor. Each ancestor is a prefix of the path's bytes.
///
/// The ancestors of `/a//b/` are `/a//b/`, `/a` and `/`.
#[tactic(auto, using(crate::proofs::lemmas::order::AncestorPrefixLemmas::ancestors_step_cases))]
pub fn ancestors_step()
    ensures end { AncestorsEnd }
    ensures step { AncestorsStep }
    ensures prefixes { AncestorsArePrefixes }
{}

/// For equal paths, each query about components has equal results: the same value, or equal paths
/// if the result is a path.
///
/// If the query has a second path, such as a base or a path to compare with, that path may be
/// replaced by an equal one. The law does not cover queries for the bytes themselves, nor
/// `common_dir`, which counts bytes.
///
/// `//a//b` and `/a/b` have the file name `b`, and the equal parents `//a` and `/a`. But the
/// `common_dir` of `a//b` and `a//c` is 3, and the `common_dir` of the equal `a/b` and `a/c` is 2.
pub fn queries_congruent()
    ensures has_root { SameOnEqual is_rooted }
    ensures file_name { SameOnEqual (λ s. file_name_of (values s)) }
    ensures file_stem { SameOnEqual (λ s. stem_of (values s)) }
    ensures extension { SameOnEqual (λ s. extension_of (values s)) }
    ensures file_prefix { SameOnEqual (λ s. file_prefix_of (values s)) }
    ensures items { SameOnEqual (λ s. map value_bytes (values s)) }
    ensures starts_with { HoldsOnEqualPairs (λ s base. IsPrefixOf (values base) (values s)) }
    ensures ends_with { HoldsOnEqualPairs (λ s child. IsSuffixOf (values child) (values s)) }
    ensures equality { HoldsOnEqualPairs SameValues }
    ensures order { SameOnEqualPairs (λ s u. values_cmp (values s) (values u)) }
    ensures hash { SameOnEqual (λ s. hash_input_of (values s)) }
    ensures parent { SameOnEqual (λ s. option_map values (parent_of s)) }
    ensures ancestors { SameOnEqual (λ s. map values (ancestors_of s)) }
    ensures rest { (k m : ℕ) → SameOnEqual (λ s. values (rest s k m)) }
    ensures strip_prefix { SameOnEqualPairs (λ s base. values (stripped_of s base)) }
    ensures join { SameOnEqualPairs (λ s u. values (join_of s u)) }
    ensures with_file_name { (name : List ℕ) → SameOnEqual (λ s. values (with_name_of s name)) }
    ensures with_extension { (extension : List ℕ)
        → SameOnEqual (λ s. values (with_extension_of s extension)) }
    ensures with_added_extension { (extension : List ℕ)
        → SameOnEqual (λ s. values (added_extension_of s extension)) }
{}
