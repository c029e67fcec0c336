//! Counts leading ASCII bytes, reading 64, 16 or 8 bytes at once.
ghost use Rattle.std.specs.Prelude.{◌≡◌, ◌+◌, ◌<◌, ◌≤◌, IsTrue, length, drop, take, slice_index};
ghost use Rattle.std.specs.Str.{IsAscii};
ghost use Rattle.unix_bytes.specs.Lanes.{non_ascii_mask};

use crate::windows::lanes_ge;
use std::simd::{u8x8, u8x16, u8x64};

// Returns a mask of the 16 bytes from `at` on, whose lowest bit is for the first byte. A bit is set
// if and only if its byte is not ASCII.
#[inline(always)]
pub(crate) fn non_ascii_bits(source: &[u8], at: usize) -> u64
    requires { at + 16 ≤ length source.now }
    ensures { result ≡ non_ascii_mask (take 16 (drop at source.now)) }
{
    lanes_ge(u8x16::from_slice(&source[at..]), 0x80)
}

// Returns true only if the 64 bytes from `at` on are ASCII.
#[inline(always)]
pub(crate) fn is_ascii_simd64(source: &[u8], at: usize) -> bool
    requires { at + 64 ≤ length source.now }
    ensures { IsTrue result → IsAscii (take 64 (drop at source.now)) }
{
    let block = u8x64::from_slice(&source[at..]);
    block.simd_ge(u8x64::splat(0x80)).to_bitmask() == 0
}

// Returns the length of an ASCII prefix of `source`, a multiple of 64. Reads blocks of 64 bytes.
fn ascii_blocks_len(source: &[u8]) -> usize
    ensures bound { result ≤ length source.now }
    ensures ascii { IsAscii (take result source.now) }
{
    let mut at = 0;
    while 64 <= source.len() - at && is_ascii_simd64(source, at) {
        at += 64;
    }
    at
}

// Returns the length of an ASCII prefix of `source`, which must have at least 16 bytes. Reads
// blocks of 64 bytes, and then 16 bytes at a time. The last 16 bytes are read at once, even if some
// of them were read before.
fn ascii_len(source: &[u8]) -> usize
    requires { 16 ≤ length source.now }
    ensures bound { result ≤ length source.now }
    ensures ascii { IsAscii (take result source.now) }
    ensures some { slice_index source.now 0 < 128 → 0 < result }
{
    let last = source.len() - 16;
    let mut at = ascii_blocks_len(source);
    while at < last {
        let non_ascii = non_ascii_bits(source, at);
        if non_ascii != 0 {
            return at + non_ascii.trailing_zeros() as usize;
        }
        at += 16;
    }
    let non_ascii = non_ascii_bits(source, last);
    if non_ascii == 0 {
        return source.len();
    }
    last + non_ascii.trailing_zeros() as usize
}

// Returns the length of the longest ASCII prefix of `source`, reading one byte at a time.
#[tactic(auto, using(crate::proofs::lemmas::vectors::LaneLemmas::one_more_ascii))]
fn ascii_len_scalar(source: &[u8]) -> usize
    ensures bound { result ≤ length source.now }
    ensures ascii { IsAscii (take result source.now) }
    ensures some { 0 < length source.now → slice_index source.now 0 < 128 → 0 < result }
{
    for (index, byte) in source.iter().enumerate() {
        if 0x80 <= *byte {
            return index;
        }
    }
    source.len()
}

// Returns true only if the 8 bytes from `at` on are ASCII.
#[inline(always)]
fn is_ascii_simd8(source: &[u8], at: usize) -> bool
    requires { at + 8 ≤ length source.now }
    ensures { IsTrue result → IsAscii (take 8 (drop at source.now)) }
{
    let eight = u8x8::from_slice(&source[at..]);
    eight.simd_ge(u8x8::splat(0x80)).to_bitmask() == 0
}

// Returns true only if `source`, which must have 8 to 16 bytes, is ASCII. Reads the first 8 bytes
// and the last 8, which may overlap.
#[inline(always)]
fn is_short_ascii(source: &[u8]) -> bool
    requires min { 8 ≤ length source.now }
    requires max { length source.now ≤ 16 }
    ensures { IsTrue result → IsAscii source.now }
{
    is_ascii_simd8(source, 0) && is_ascii_simd8(source, source.len() - 8)
}

// Returns the length of an ASCII prefix of `source`, at least 1. The first byte must be ASCII.
// Returns 1 if there are fewer than 8 bytes, or if the second byte is not ASCII.
#[inline(always)]
pub(crate) fn ascii_prefix_len(source: &[u8]) -> usize
    requires some { 0 < length source.now }
    requires first_is_ascii { slice_index source.now 0 < 0x80 }
    ensures bound { result ≤ length source.now }
    ensures ascii { IsAscii (take result source.now) }
    ensures some { 0 < result }
{
    let len = source.len();
    if len < 8 || 0x80 <= source[1] {
        1
    } else if 16 <= len {
        ascii_len(source)
    } else if is_short_ascii(source) {
        len
    } else {
        ascii_len_scalar(source)
    }
}

// Returns the index of the first byte that is not ASCII among the first 16 bytes, or 16 if all 16
// are ASCII.
#[inline(always)]
pub(crate) fn ascii_len_simd16(source: &[u8]) -> usize
    requires { 16 ≤ length source.now }
    ensures bound { result ≤ 16 }
    ensures ascii { IsAscii (take result source.now) }
    ensures non_ascii { result < 16 → 0x80 ≤ slice_index source.now result }
{
    let non_ascii = non_ascii_bits(source, 0);
    if non_ascii == 0 {
        return 16;
    }
    non_ascii.trailing_zeros() as usize
}
