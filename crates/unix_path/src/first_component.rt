//! The first component of bytes that begin with no filler: a `..` or a name, and its length.
//!
//! This module is for code that works on the single bytes of a path. Other code uses `Path` and
//! `Components`.
ghost use Rattle.std.specs.Prelude.{◌≡◌, ◌<◌, ◌≤◌, ◌∷◌, true, false, length, take, drop};
ghost use Rattle.unix_path.specs.Parts.{inner_parts, parts, Normal, ParentDir};
ghost use Rattle.unix_path.specs.Scan.{starts_with_parent_dir, is_filler};

use crate::filler::filler_len;
use unix_bytes::internal::find_byte;

/// Returns true if and only if the first piece is `..`.
///
/// It is true for `../a`, and false for `..a`.
#[inline]
pub fn starts_with_parent_dir(bytes: &[u8]) -> bool
    requires { 0 < length bytes.now }
    ensures { result ≡ starts_with_parent_dir bytes.now }
{
    bytes[0] == b'.'
        && bytes.len() > 1
        && bytes[1] == b'.'
        && (bytes.len() == 2 || bytes[2] == b'/')
}

/// Returns the length of the first component, which must be `..`, plus the length of the filler
/// after it.
///
/// In `.././a` it is 5.
#[inline(always)]
#[tactic(auto, using(crate::proofs::lemmas::steps::LeadLemmas::first_steps))]
pub fn parent_dir_step(bytes: &[u8]) -> usize
    requires { starts_with_parent_dir bytes.now ≡ true }
    ensures in_range { result ≤ length bytes.now }
    ensures parts { parts bytes.now ≡ record { start = 0; end = 2; value = ParentDir }
        ∷ inner_parts result (drop result bytes.now) }
    ensures not_filler { result < length bytes.now → is_filler bytes.now result ≡ false }
{
    2 + filler_len(&bytes[2..])
}

/// Returns the length of the first component, which must be a name, and the index where the filler
/// after it ends.
///
/// In `a/./b` they are 1 and 4.
#[inline(always)]
#[tactic(auto, using(crate::proofs::lemmas::steps::LeadLemmas::first_steps))]
pub fn name_step(bytes: &[u8]) -> (usize, usize)
    requires some { 0 < length bytes.now }
    requires not_filler { is_filler bytes.now 0 ≡ false }
    requires no_parent { starts_with_parent_dir bytes.now ≡ false }
    ensures in_order { result.0 ≤ result.1 }
    ensures in_range { result.1 ≤ length bytes.now }
    ensures parts { parts bytes.now
        ≡ record { start = 0; end = result.0; value = Normal (take result.0 bytes.now) }
        ∷ inner_parts result.1 (drop result.1 bytes.now) }
    ensures not_filler { result.1 < length bytes.now → is_filler bytes.now result.1 ≡ false }
{
    let end = find_byte(bytes, b'/');
    let step = end + filler_len(&bytes[end..]);
    (end, step)
}
