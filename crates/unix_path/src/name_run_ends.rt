//! Where a run of names ends, in a path or in a key.
//!
//! The separator is the byte between two pieces, and the dot is the byte of which `.` and `..`
//! consist. In a key of `path_keys` both are other bytes than in a path. A run of names ends at the
//! first separator after which no name starts: the next piece is empty, a dot, or two dots. An end
//! candidate is a separator before another separator, before a dot, or at the end of the bytes.
//! Only an end candidate can end a run.
//!
//! This module is for code that works on the single bytes of a path or a key.
ghost use Rattle.std.specs.Prelude.{◌≡◌, ℕ, ◌+◌, ◌<◌, ◌≤◌, ◌==◌, false, length, slice_index_or};
ghost use Rattle.std.specs.Prelude.{IsTrue, ◌↔◌};
ghost use Rattle.unix_path.specs.NameRunEnds.{is_end_candidate_of, ends_name_run_of};
ghost use Rattle.unix_path.specs.NameRunEnds.{no_name_starts_at, IsNameRunEnd};
ghost use Rattle.unix_path.specs.NameRunEnds.{BothLackBits, IsRoughEndCandidate};

use std::simd::prelude::*;

// Returns true if and only if the byte at `at` is the separator, or `at` is past the last byte.
#[inline(always)]
fn piece_ends_at(bytes: &[u8], at: usize, separator: u8) -> bool
    ensures { result ≡ (slice_index_or bytes.now at separator == separator) }
{
    at >= bytes.len() || bytes[at] == separator
}

/// Returns true if and only if no name starts at `at`: the piece there is empty, a dot, or two
/// dots.
///
/// For `a/../b`, a slash and a dot it is true at 2, and false at 5.
#[inline(always)]
pub fn no_name_starts_at(bytes: &[u8], at: usize, separator: u8, dot: u8) -> bool
    ensures { result ≡ no_name_starts_at separator dot bytes.now at }
{
    piece_ends_at(bytes, at, separator)
        || (bytes[at] == dot
            && (piece_ends_at(bytes, at + 1, separator)
                || (bytes[at + 1] == dot && piece_ends_at(bytes, at + 2, separator))))
}

// Returns true if and only if the byte at `at` is the separator, and no name starts after it.
#[inline(always)]
fn ends_name_run(bytes: &[u8], at: usize, separator: u8, dot: u8) -> bool
    requires { at < length bytes.now }
    ensures { result ≡ ends_name_run_of separator dot bytes.now at }
{
    bytes[at] == separator && no_name_starts_at(bytes, at + 1, separator, dot)
}

/// Returns true if one of the 16 bytes that start at `at` is a separator, and the byte after it is
/// from 00 to 0F or from 20 to 2F (hexadecimal).
///
/// Names seldom start with these bytes, which have to include the separator and the dot. If the
/// result is false, none of the 16 bytes is an end candidate. With a slash and a dot it is false
/// for `0123456789abc/ef/` at 0, and true for `0123456789abc/.f/`.
#[inline(always)]
pub fn may_end_name_run_simd16(bytes: &[u8], at: usize, separator: u8, dot: u8) -> bool
    requires readable { at + 17 ≤ length bytes.now }
    requires apart { BothLackBits separator dot }
    ensures none { result ≡ false → (i : ℕ) → at ≤ i → i < at + 16
        → is_end_candidate_of separator dot bytes.now i ≡ false }
    ensures found { IsTrue result
        → (i : ℕ) × (at ≤ i) × (i < at + 16) × IsRoughEndCandidate separator bytes.now i }
{
    let here = u8x16::from_slice(&bytes[at..]) ^ u8x16::splat(separator);
    let next = u8x16::from_slice(&bytes[at + 1..]) & u8x16::splat(0xD0);
    // A lane is 0 if its byte is the separator, and the byte after it has none of the bits of 0xD0.
    (here | next).simd_eq(u8x16::splat(0)).to_bitmask() != 0
}

// Does the same as `may_end_name_run_simd16`, for 32 bytes. Always reads both halves, so that one
// branch is enough.
#[inline(always)]
fn may_end_name_run_simd32(bytes: &[u8], at: usize, separator: u8, dot: u8) -> bool
    requires readable { at + 33 ≤ length bytes.now }
    requires apart { BothLackBits separator dot }
    ensures { result ≡ false → (i : ℕ) → at ≤ i → i < at + 32
        → is_end_candidate_of separator dot bytes.now i ≡ false }
{
    let first = may_end_name_run_simd16(bytes, at, separator, dot);
    let second = may_end_name_run_simd16(bytes, at + 16, separator, dot);
    first | second
}

// Returns true only if none of the bytes, except possibly the last, is an end candidate. Reads the
// last bytes first, since most paths that escape do so near their end.
#[inline(always)]
fn has_no_end_candidate_over_32(bytes: &[u8], separator: u8, dot: u8) -> bool
    requires apart { BothLackBits separator dot }
    requires long { 33 ≤ length bytes.now }
    ensures { IsTrue result → (i : ℕ) → i + 1 < length bytes.now
        → is_end_candidate_of separator dot bytes.now i ≡ false }
{
    let last = bytes.len() - 33;
    if may_end_name_run_simd32(bytes, last, separator, dot) {
        return false;
    }
    let mut at = 0;
    while at < last {
        if may_end_name_run_simd32(bytes, at, separator, dot) {
            return false;
        }
        at += 32;
    }
    true
}

// Returns true only if none of the bytes is an end candidate. Returns false for fewer than 17
// bytes, and may return false for more bytes without an end candidate.
#[inline(always)]
fn has_no_end_candidate(bytes: &[u8], separator: u8, dot: u8) -> bool
    requires { BothLackBits separator dot }
    ensures { IsTrue result → (i : ℕ) → i < length bytes.now
        → is_end_candidate_of separator dot bytes.now i ≡ false }
{
    let len = bytes.len();
    if len < 17 || bytes[len - 1] == separator {
        return false;
    }
    if len < 33 {
        return !may_end_name_run_simd16(bytes, 0, separator, dot)
            && !may_end_name_run_simd16(bytes, len - 17, separator, dot);
    }
    has_no_end_candidate_over_32(bytes, separator, dot)
}

// Returns how many of the 8 bytes that start at `at` come before the first end candidate among
// them, or 8 if there is none.
#[inline(always)]
fn end_candidate_simd8(bytes: &[u8], at: usize, separator: u8, dot: u8) -> usize
    requires { at + 9 ≤ length bytes.now }
    ensures in_range { result ≤ 8 }
    ensures none_before { (i : ℕ) → at ≤ i → i < at + result
        → is_end_candidate_of separator dot bytes.now i ≡ false }
{
    let separators = u8x8::splat(separator);
    let here = u8x8::from_slice(&bytes[at..]);
    let next = u8x8::from_slice(&bytes[at + 1..]);
    let is_next = next.simd_eq(separators) | next.simd_eq(u8x8::splat(dot));
    let end_candidates = (here.simd_eq(separators) & is_next).to_bitmask();
    if end_candidates == 0 {
        8
    } else {
        end_candidates.trailing_zeros() as usize
    }
}

// Returns how many of the 16 bytes that start at `at` come before the first byte that ends a run of
// names, or 16 if none does.
#[inline(always)]
fn name_run_end_simd16(bytes: &[u8], at: usize, separator: u8, dot: u8) -> usize
    requires { at + 19 ≤ length bytes.now }
    ensures in_range { result ≤ 16 }
    ensures none_before { (i : ℕ) → at ≤ i → i < at + result
        → ends_name_run_of separator dot bytes.now i ≡ false }
{
    let separators = u8x16::splat(separator);
    let dots = u8x16::splat(dot);
    let here = u8x16::from_slice(&bytes[at..]);
    let first = u8x16::from_slice(&bytes[at + 1..]);
    let second = u8x16::from_slice(&bytes[at + 2..]);
    let third = u8x16::from_slice(&bytes[at + 3..]);
    let is_two = second.simd_eq(dots) & third.simd_eq(separators);
    let is_dot_piece = first.simd_eq(dots) & (second.simd_eq(separators) | is_two);
    let name_run_ends = (here.simd_eq(separators)
        & (first.simd_eq(separators) | is_dot_piece)).to_bitmask();
    if name_run_ends == 0 {
        16
    } else {
        name_run_ends.trailing_zeros() as usize
    }
}

// Does the same as `name_run_end_min`, for fewer than 19 bytes. Returns 0 for fewer than 9 bytes.
#[inline(always)]
fn name_run_end_min_under_19(bytes: &[u8], separator: u8, dot: u8) -> usize
    requires { length bytes.now < 19 }
    ensures in_range { result ≤ length bytes.now }
    ensures none_before { (i : ℕ) → i < result → ends_name_run_of separator dot bytes.now i
        ≡ false }
{
    if bytes.len() < 9 {
        return 0;
    }
    let len = end_candidate_simd8(bytes, 0, separator, dot);
    if len < 8 {
        return len;
    }
    let from = if bytes.len() < 17 { bytes.len() - 9 } else { 8 };
    from + end_candidate_simd8(bytes, from, separator, dot)
}

// Tests the blocks of 16 bytes at `start`, `start + 16`, and so on, whose index is less than
// `last`. Returns the index of the first block that may contain an end candidate. If there is none,
// returns the first index that isn't less than `last`.
#[inline(always)]
fn end_candidate_block(bytes: &[u8], start: usize, last: usize, separator: u8, dot: u8) -> usize
    requires apart { BothLackBits separator dot }
    requires readable { last + 17 ≤ length bytes.now }
    requires in_order { start < last + 16 }
    ensures forward { start ≤ result }
    ensures in_range { result < last + 16 }
    ensures none_before { (i : ℕ) → start ≤ i → i < result
        → is_end_candidate_of separator dot bytes.now i ≡ false }
{
    let mut at = start;
    while at < last && !may_end_name_run_simd16(bytes, at, separator, dot) {
        at += 16;
    }
    at
}

// Returns an index that is near the end of the first run of names. No run ends before this index.
#[inline(always)]
fn name_run_end_min(bytes: &[u8], separator: u8, dot: u8) -> usize
    requires { BothLackBits separator dot }
    ensures in_range { result ≤ length bytes.now }
    ensures none_before { (i : ℕ) → i < result → ends_name_run_of separator dot bytes.now i
        ≡ false }
{
    if bytes.len() < 19 {
        return name_run_end_min_under_19(bytes, separator, dot);
    }
    let last = bytes.len() - 19;
    let mut at = 0;
    while at < last {
        at = end_candidate_block(bytes, at, last, separator, dot);
        if at < last {
            let len = name_run_end_simd16(bytes, at, separator, dot);
            if len < 16 {
                return at + len;
            }
            at += 16;
        }
    }
    let from = at.min(last + 2);
    if !may_end_name_run_simd16(bytes, from, separator, dot) {
        return from + 16;
    }
    last + name_run_end_simd16(bytes, last, separator, dot)
}

// Does the same as `name_run_end_min`, but faster if a run of names ends within the first 16 bytes.
#[inline(always)]
fn name_run_end_min_expect_short(bytes: &[u8], separator: u8, dot: u8) -> usize
    requires { BothLackBits separator dot }
    ensures in_range { result ≤ length bytes.now }
    ensures none_before { (i : ℕ) → i < result → ends_name_run_of separator dot bytes.now i
        ≡ false }
{
    if bytes.len() < 19 {
        return name_run_end_min_under_19(bytes, separator, dot);
    }
    let len = name_run_end_simd16(bytes, 0, separator, dot);
    if len < 16 {
        return len;
    }
    16 + name_run_end_min(&bytes[16..], separator, dot)
}

/// Returns the index of the separator that ends the first run of names, or the length if none does.
///
/// Reads 16 bytes at a time, and then byte by byte from the index where that search ends. For
/// `a/b/../c`, a slash and a dot it is 3.
#[inline(always)]
pub fn name_run_end(bytes: &[u8], separator: u8, dot: u8) -> usize
    requires { BothLackBits separator dot }
    ensures { IsNameRunEnd separator dot bytes.now result }
{
    let mut at = name_run_end_min(bytes, separator, dot);
    while at < bytes.len() && !ends_name_run(bytes, at, separator, dot) {
        at += 1;
    }
    at
}

/// Does the same as `name_run_end`, but faster if the run ends within the first 16 bytes.
///
/// For `a//b`, a slash and a dot it is 1.
#[inline(always)]
pub fn name_run_end_expect_short(bytes: &[u8], separator: u8, dot: u8) -> usize
    requires { BothLackBits separator dot }
    ensures { IsNameRunEnd separator dot bytes.now result }
{
    let mut at = name_run_end_min_expect_short(bytes, separator, dot);
    while at < bytes.len() && !ends_name_run(bytes, at, separator, dot) {
        at += 1;
    }
    at
}

/// Returns true if and only if none of the bytes ends a run of names, that is, if `name_run_end`
/// returns the length.
///
/// Fast if none of the bytes is an end candidate. With a slash and a dot it is true for `a/.b/c`,
/// and false for `a/../b`.
#[inline(always)]
pub fn has_no_name_run_end(bytes: &[u8], separator: u8, dot: u8) -> bool
    requires { BothLackBits separator dot }
    ensures { IsTrue result ↔ ((i : ℕ) → i < length bytes.now
        → ends_name_run_of separator dot bytes.now i ≡ false) }
{
    has_no_end_candidate(bytes, separator, dot)
        || name_run_end(bytes, separator, dot) == bytes.len()
}
