//! The order of byte strings.
ghost use Rattle.std.specs.Prelude.{◌≡◌};
ghost use Rattle.std.specs.Cmp.Lexicographic.{slice_cmp};
ghost use Rattle.std.specs.Ordering.{nat_cmp};

use crate::search::common_len;
use std::cmp::Ordering;

/// Returns the order of two byte strings. The first bytes that differ determine it, and a proper
/// prefix is less than the longer string. `Ord` of byte slices has the same order, but in Rattle it
/// compares one byte at a time. This function compares up to 64 bytes at a time.
///
/// `compare_bytes(b"a/b", b"a.b")` is `Ordering::Greater`.
#[must_use]
#[inline]
#[tactic(auto, using(crate::proofs::lemmas::vectors::CompareLemmas::first_differences))]
pub fn compare_bytes(a: &[u8], b: &[u8]) -> Ordering
    ensures { result ≡ slice_cmp nat_cmp a.now b.now }
{
    let common = common_len(a, b);
    if common < a.len() && common < b.len() {
        a[common].cmp(&b[common])
    } else {
        a.len().cmp(&b.len())
    }
}
