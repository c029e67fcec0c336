//! Comparison of two paths, by the first byte in which they differ.
ghost use Rattle.std.specs.Prelude.{◌≡◌, ◌≢◌, ◌↔◌, ◌+◌, ◌<◌, ◌≤◌, ℕ, List, [], length};
ghost use Rattle.std.specs.Prelude.{IsTrue, IsSome, IfSome, nat_eq, slice_get};
ghost use Rattle.std.specs.Ordering.{nat_cmp};
ghost use Rattle.std.proofs.Props.{props};
ghost use Rattle.unix_path.specs.CommonDir.{inner_values};
ghost use Rattle.std.specs.Option.{option_map_or};
ghost use Rattle.unix_path.specs.Order.{rank, values_cmp};
ghost use Rattle.unix_path.specs.Parts.{dot, values};
ghost use Rattle.unix_path.specs.Slices.{IsTail};
ghost use Rattle.unix_path.specs.Prefixes.{IsPrefixOf};
ghost use Rattle.unix_path.specs.Scan.{is_filler};
ghost use Rattle.unix_path.specs.Steps.{is_piece_start, piece_rank, DiffersAtStart};
ghost use Rattle.std.specs.List.{common_prefix_len};
ghost use Rattle.unix_path.specs.Steps.{SharesPrefix};

use crate::filler::{after_filler, is_filler};
use crate::first_component::starts_with_parent_dir;
use std::cmp::Ordering;
use unix_bytes::internal::{common_len, common_len_expect_short};

// How the first of two paths relates to the second.
#[derive(Clone, Copy)]
pub(crate) enum Comparison<'a> {
    // The first path doesn't start with the second, and the paths are in this order.
    Differs(Ordering),
    // The first path starts with the second. The slice is the rest of the first path after the
    // components of the second, without leading filler.
    StartsWith(&'a [u8]),
}

// What the first bytes that differ in two paths show.
#[derive(Clone, Copy)]
pub(crate) enum Difference<'a, 'b> {
    // These bytes lie in two components that differ, and determine the order of the paths.
    Decided(Ordering),
    // The first components of the two paths differ, or one path has no components. The differing
    // bytes determine the order only if both components are names.
    FirstComponents,
    // Both paths can be cut just before these bytes, or before a dot that precedes them. The slices
    // are the rests of the first and the second path after the cut.
    CutBefore(&'a [u8], &'b [u8]),
}

// Two paths, and the length in bytes of their longest common prefix.
#[derive(Clone, Copy)]
pub(crate) struct Pair<'a, 'b> {
    pub(crate) first: &'a [u8],
    pub(crate) second: &'b [u8],
    pub(crate) common: usize,
    ghost alike: { common
        ≡ common_prefix_len nat_eq first.now second.now } by { Prim.hlevel props },
}

// Returns the number of bytes after the leading filler of `bytes`, which is the rest of a path
// after a cut. The result is 0 if and only if no component follows the cut. Not inlined, like
// `order_after_cut` and `rest_after_cut`, so that their callers stay small.
#[inline(never)]
pub(crate) fn rest_len(bytes: &[u8]) -> usize
    ensures after { nat_cmp result 0 ≡ values_cmp (inner_values bytes.now) [] }
    ensures before { nat_cmp 0 result ≡ values_cmp [] (inner_values bytes.now) }
{
    after_filler(bytes).len()
}

// Returns the byte at `at`, plus 1. Returns 0 if a slash or the end of `bytes` is at `at`, so that
// a piece ends there.
#[inline]
fn piece_rank(bytes: &[u8], at: usize) -> u16
    ensures { result ≡ piece_rank bytes.now at }
{
    if at < bytes.len() && bytes[at] != b'/' {
        1 + u16::from(bytes[at])
    } else {
        0
    }
}

// Returns true only if there is a byte at `at` and it is neither a slash nor a dot. A piece with
// such a byte is a name.
#[inline(always)]
fn is_in_name(bytes: &[u8], at: usize) -> bool
    ensures no_end { IsTrue result → piece_rank bytes.now at ≢ 0 }
    ensures no_dot { IsTrue result → piece_rank bytes.now at ≢ 1 + dot }
{
    at < bytes.len() && bytes[at] != b'/' && bytes[at] != b'.'
}

// Returns true if and only if a piece begins at `at`: if `at` is 0, or the byte before `at` is a
// slash.
#[inline]
pub(crate) fn is_piece_start(bytes: &[u8], at: usize) -> bool
    requires { at ≤ length bytes.now }
    ensures { result ≡ is_piece_start bytes.now at }
{
    at == 0 || bytes[at - 1] == b'/'
}

// Returns 1 plus the position of the first component's kind in the order of kinds: 1 for the root,
// 2 for `.`, 3 for `..`, and 4 for a name. Returns 0 if `path` has no component. The first three
// bytes determine the kind.
#[inline]
#[tactic(auto, using(crate::proofs::lemmas::order::KindLemmas::first_rank_of))]
fn first_rank(path: &[u8]) -> u8
    ensures { result ≡ option_map_or (λ v. 1 + rank v) (slice_get (values path.now) 0) 0 }
{
    if path.is_empty() {
        0
    } else if path[0] == b'/' {
        1
    } else if is_filler(path, 0) {
        2
    } else if starts_with_parent_dir(path) {
        3
    } else {
        4
    }
}

// Let `n` be the index of the first difference. The two pieces around it have the same bytes before
// `n`.
//
// If there are at least two such bytes, or one that isn't a dot, or if both pieces have a byte
// other than a dot at `n`, then both pieces are names, or one is the `..` that ends at `n`. The
// bytes at `n` determine the order, where the end of a piece is less than any byte.
//
// Otherwise both pieces begin or end at `n`, and both paths are cut at `n`; or both pieces begin
// with a dot just before `n`, and both paths are cut before this dot. The bytes before the cut are
// the same and have the same components, and filler after the cut is dropped. If only one path has
// a component after the cut, that path is the greater one. If neither has, the paths are equal.
// Otherwise the rests are compared in the same way, until a cut would be at their beginning. In
// this case the first components of the rests differ: either they are of different kinds, which
// three bytes determine, or they are names, whose order the bytes at `n` determine. No component is
// compared twice, since each cut leaves fewer bytes.
impl<'a, 'b> Pair<'a, 'b> {
    ghost use Rattle.unix_path.specs.Pairs.{DifferenceShows};

    // Returns what the first difference of the two paths shows.
    #[inline(always)]
    pub(crate) fn first_difference(self) -> Difference<'a, 'b>
        ensures { DifferenceShows self.entry.first self.entry.second.now self.entry.common result }
    {
        let (first, second, common) = (self.first, self.second, self.common);
        // Most differences lie in two names. This test finds them before a rank is computed.
        if is_in_name(first, common) && is_in_name(second, common) {
            let order = piece_rank(first, common).cmp(&piece_rank(second, common));
            return Difference::Decided(order);
        }
        let (x, y) = (piece_rank(first, common), piece_rank(second, common));
        let cut_index = if x == y || is_piece_start(first, common) {
            common
        } else if first[common - 1] == b'.' && is_piece_start(first, common - 1) {
            common - 1
        } else {
            return Difference::Decided(x.cmp(&y));
        };
        if cut_index == 0 {
            return Difference::FirstComponents;
        }
        Difference::CutBefore(&first[cut_index..], &second[cut_index..])
    }

    // Returns the rest of `first` after `second`, or `None` if `first` doesn't start with `second`,
    // which must not be empty. The rest may begin with filler.
    #[inline(always)]
    pub(crate) fn rest_bytes(first: &'a [u8], second: &'b [u8]) -> Option<&'a [u8]>
        requires { 0 < length second.now }
        ensures begins { IsSome result ↔ IsPrefixOf (values second.now) (values first.now) }
        ensures rest_bytes { IfSome result
            (λ rest_bytes. SharesPrefix first.now second.now rest_bytes.now []) }
        ensures tail { IfSome result (λ rest_bytes. IsTail rest_bytes first.entry) }
    {
        let (common, len) = (common_len(first, second), second.len());
        if len <= common && (piece_rank(first, len) == 0 || is_piece_start(first, len)) {
            return Some(&first[len..]);
        }
        let pair = Pair {
            first,
            second,
            common,
        };
        match pair.first_difference() {
            Difference::CutBefore(first, second) => Comparison::rest_after_cut(first, second),
            _ => None,
        }
    }

    // Returns the order of the two paths, whose first components must differ unless at least one
    // path is empty.
    #[inline]
    #[tactic(auto, using(crate::proofs::lemmas::order::PairLemmas::first_orders))]
    pub(crate) fn first_components_order(self) -> Ordering
        requires { DiffersAtStart self.first.now self.second.now self.common }
        ensures { result ≡ values_cmp (values self.entry.first.now)
            (values self.entry.second.now) }
    {
        let by_kind = first_rank(self.first).cmp(&first_rank(self.second));
        if by_kind.is_ne() {
            return by_kind;
        }
        piece_rank(self.first, self.common).cmp(&piece_rank(self.second, self.common))
    }
}

impl<'a> Comparison<'a> {
    ghost use Rattle.unix_path.specs.Pairs.{Compared, IsRest};

    // Compares two paths that have the same bytes up to a cut (see `Difference::CutBefore`). `a`
    // and `b` are their rests after the cut.
    #[inline(always)]
    fn compare_after_cut(a: &'a [u8], b: &[u8]) -> Comparison<'a>
        ensures { Compared a.entry b.now result }
    {
        let mut rests = (a, b);
        loop {
            let (first, second) = (after_filler(rests.0), after_filler(rests.1));
            if second.is_empty() {
                return Comparison::StartsWith(first);
            }
            let common = common_len_expect_short(first, second);
            let pair = Pair {
                first,
                second,
                common,
            };
            match pair.first_difference() {
                Difference::Decided(order) => return Comparison::Differs(order),
                Difference::FirstComponents if first.is_empty() => return Comparison::Differs(
                    Ordering::Less,
                ),
                Difference::FirstComponents => return Comparison::Differs(
                    pair.first_components_order(),
                ),
                Difference::CutBefore(first, second) => rests = (first, second),
            }
        }
    }

    // Returns the order of two paths that have the same bytes up to a cut. `a` and `b` are their
    // rests after the cut.
    #[inline(never)]
    pub(crate) fn order_after_cut(a: &[u8], b: &[u8]) -> Ordering
        ensures { (s t : List ℕ) → SharesPrefix s t a.now b.now
            → result ≡ values_cmp (values s) (values t) }
    {
        match Comparison::compare_after_cut(a, b) {
            Comparison::Differs(order) => order,
            Comparison::StartsWith(rest_bytes) => rest_bytes.len().cmp(&0),
        }
    }

    // Returns the rest of the first path after the second, or `None` if the first doesn't start
    // with the second. The two paths have the same bytes up to a cut. `a` and `b` are their rests
    // after the cut.
    #[inline(never)]
    fn rest_after_cut(a: &'a [u8], b: &[u8]) -> Option<&'a [u8]>
        ensures begins { (s t : List ℕ) → SharesPrefix s t a.now b.now
            → IsSome result ↔ IsPrefixOf (values t) (values s) }
        ensures rest_bytes { IfSome result (λ rest_bytes. IsRest a.entry b.now rest_bytes) }
    {
        match Comparison::compare_after_cut(a, b) {
            Comparison::StartsWith(rest_bytes) => Some(rest_bytes),
            _ => None,
        }
    }
}
