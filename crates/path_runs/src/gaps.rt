//! Finds the gaps of a path. A gap is a slash that is followed by an empty piece or the piece `.`;
//! the canonical form leaves both out.
ghost use Rattle.std.specs.Prelude.{◌≡◌, ℕ, ◌+◌, ◌<◌, ◌≤◌, length, drop, true, false};
ghost use Rattle.std.specs.Prelude.{slice_index};
ghost use Rattle.unix_path.specs.Parts.{slash};
ghost use Rattle.unix_path.specs.Scan.{is_filler};
ghost use Rattle.path_runs.specs.Gaps.{is_gap, slashed_parts, IsPartStart};

use std::simd::prelude::*;
use unix_path::internal::is_filler;

// Returns true if the byte at `at` is a slash, and the piece after it is empty or `.`.
#[inline]
fn is_gap(bytes: &[u8], at: usize) -> bool
    requires { at < length bytes.now }
    ensures { result ≡ is_gap bytes.now at }
{
    bytes[at] == b'/' && (at + 1 == bytes.len() || is_filler(bytes, at + 1))
}

// Searches the 16 bytes from index `at` on for the first byte at which a gap begins. Returns the
// number of bytes from `at` up to that byte, exclusive, or 16 if a gap begins at none of the 16.
#[inline]
fn gapless_simd16(bytes: &[u8], at: usize) -> usize
    requires { at + 18 ≤ length bytes.now }
    ensures in_range { result ≤ 16 }
    ensures none_before { ((i : ℕ) → i < at → is_gap bytes.now i ≡ false)
        → (i : ℕ) → i < at + result → is_gap bytes.now i ≡ false }
{
    let slash = u8x16::splat(b'/');
    let here = u8x16::from_slice(&bytes[at..]);
    let next = u8x16::from_slice(&bytes[at + 1..]);
    let after = u8x16::from_slice(&bytes[at + 2..]);
    let is_dot = next.simd_eq(u8x16::splat(b'.')) & after.simd_eq(slash);
    let gaps = (here.simd_eq(slash) & (next.simd_eq(slash) | is_dot)).to_bitmask();
    if gaps == 0 {
        16
    } else {
        gaps.trailing_zeros() as usize
    }
}

// Returns the length of a prefix in which no gap begins: the index of the first gap, or
// `bytes.len() - 2` if no gap begins before that index. Returns 0 if there are fewer than 18 bytes.
#[inline]
fn gapless_len(bytes: &[u8]) -> usize
    ensures in_range { result ≤ length bytes.now }
    ensures none_before { (i : ℕ) → i < result → is_gap bytes.now i ≡ false }
{
    if bytes.len() < 18 {
        return 0;
    }
    let last = bytes.len() - 18;
    let mut at = 0;
    while at < last {
        let len = gapless_simd16(bytes, at);
        if len < 16 {
            return at + len;
        }
        at += 16;
    }
    last + gapless_simd16(bytes, last)
}

// Returns the index of the first gap, or `bytes.len()` if there is none. Searches 16 bytes at a
// time, and the last two bytes one by one. Fewer than 18 bytes are all searched one by one.
#[inline]
pub(crate) fn first_gap(bytes: &[u8]) -> usize
    ensures in_range { result ≤ length bytes.now }
    ensures gap { result < length bytes.now → is_gap bytes.now result ≡ true }
    ensures none_before { (i : ℕ) → i < result → is_gap bytes.now i ≡ false }
{
    let mut at = gapless_len(bytes);
    while at < bytes.len() && !is_gap(bytes, at) {
        at += 1;
    }
    at
}

// Returns the index of the first component after the gap at index `gap`, or `bytes.len()` if no
// component follows.
#[inline]
pub(crate) fn after_gap(bytes: &[u8], gap: usize) -> usize
    requires in_range { gap ≤ length bytes.now }
    requires gap { gap < length bytes.now → slice_index bytes.now gap ≡ slash }
    ensures forward { gap ≤ result }
    ensures in_range { result ≤ length bytes.now }
    ensures part { result < length bytes.now → IsPartStart bytes.now result }
    ensures same { slashed_parts (drop gap bytes.now) ≡ slashed_parts (drop result bytes.now) }
{
    let mut at = gap;
    while at < bytes.len() && is_filler(bytes, at) {
        at += 1;
    }
    at
}
