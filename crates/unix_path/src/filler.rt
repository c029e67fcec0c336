//! Filler: the slashes of a path, and its `.` pieces, that belong to no component.
//!
//! This module is for code that works on the single bytes of a path. Other code uses `Path` and
//! `Components`.
ghost use Rattle.std.specs.Prelude.{◌≡◌, ℕ, ◌+◌, ◌-◌, ◌<◌, ◌≤◌, true, false, length, drop, take};
ghost use Rattle.std.specs.Prelude.{IsTrue};
ghost use Rattle.unix_path.specs.CommonDir.{inner_values};
ghost use Rattle.unix_path.specs.Parts.{inner_parts, parts};
ghost use Rattle.unix_path.specs.Slices.{IsTail};
ghost use Rattle.unix_path.specs.Scan.{is_filler, is_trailing};

use std::simd::prelude::*;

/// Returns true if and only if the byte at `at` is a slash, or a `.` before a slash or the end.
///
/// As the first byte of a path, such a byte is the root or a leading `.`. Elsewhere, the slash is
/// filler, and the `.` is filler if it directly follows a slash; otherwise it ends a name or a
/// `..`. In `a/./b` the result is true at 1, 2 and 3.
#[inline]
pub fn is_filler(bytes: &[u8], at: usize) -> bool
    requires { at < length bytes.now }
    ensures { result ≡ is_filler bytes.now at }
{
    bytes[at] == b'/' || (bytes[at] == b'.' && (at + 1 == bytes.len() || bytes[at + 1] == b'/'))
}

/// Returns true if and only if the byte at `at` is not the first byte, and is a slash, or a `.`
/// directly after a slash.
///
/// Such a byte is filler if all bytes after it are also such bytes. In `/a/.` the result is true at
/// 2 and 3.
#[inline]
pub fn is_trailing(bytes: &[u8], at: usize) -> bool
    requires { at < length bytes.now }
    ensures { result ≡ is_trailing bytes.now at }
{
    0 < at && (bytes[at] == b'/' || (bytes[at] == b'.' && bytes[at - 1] == b'/'))
}

/// Returns how many bytes of filler `bytes` begins with, if it follows a slash or a component.
///
/// Reads byte by byte, since filler is usually short. For `/./a` it is 3, and for `.a` it is 0.
#[inline]
#[tactic(auto, using(crate::proofs::lemmas::filler::FillerLemmas::inner_parts_filler_at))]
pub fn filler_len(bytes: &[u8]) -> usize
    ensures in_range { result ≤ length bytes.now }
    ensures filler { (at : ℕ) →
        inner_parts at bytes.now ≡ inner_parts (at + result) (drop result bytes.now) }
    ensures not_filler { result < length bytes.now → is_filler bytes.now result ≡ false }
{
    let mut len = 0;
    while len < bytes.len() && is_filler(bytes, len) {
        len += 1;
    }
    len
}

// Returns true if each of the 16 bytes that start at `at` is a slash, or a `.` before a slash.
#[inline]
fn is_filler_simd16(path: &[u8], at: usize) -> bool
    requires { at + 16 < length path.now }
    ensures { IsTrue result → ((k : ℕ) → at ≤ k → k < at + 16 → is_filler path.now k ≡ true) }
{
    let slash = u8x16::splat(b'/');
    let here = u8x16::from_slice(&path[at..]);
    let next = u8x16::from_slice(&path[at + 1..]);
    let is_no_dot = here.simd_ne(u8x16::splat(b'.'));
    let other = here.simd_ne(slash) & (is_no_dot | next.simd_ne(slash));
    other.to_bitmask() == 0
}

// Skips blocks of 16 bytes that are all filler, starting at `start`. Returns the index where it
// stops: at a block with a byte that isn't filler, or where at most 16 bytes remain.
#[inline]
#[tactic(auto, using(crate::proofs::lemmas::filler::FillerBlockLemmas::inner_parts_filler_block))]
fn filler_blocks_end(path: &[u8], start: usize) -> usize
    requires { start ≤ length path.now }
    ensures forward { start ≤ result }
    ensures in_range { result ≤ length path.now }
    ensures filler { (at : ℕ) → inner_parts (at + start) (drop start path.now)
        ≡ inner_parts (at + result) (drop result path.now) }
{
    let mut len = start;
    while path.len() - len > 16 && is_filler_simd16(path, len) {
        len += 16;
    }
    len
}

// Skips the filler at `start`, and returns the index where it ends. Reads blocks of 16 bytes. Cold
// and not inlined, so that callers keep their registers for short filler, which is the usual case.
#[cold]
#[inline(never)]
#[tactic(auto, using(crate::proofs::lemmas::filler::FillerLemmas::inner_parts_filler_at))]
fn filler_end_from(path: &[u8], start: usize) -> usize
    requires { start ≤ length path.now }
    ensures in_range { result ≤ length path.now }
    ensures filler { (at : ℕ) → inner_parts (at + start) (drop start path.now)
        ≡ inner_parts (at + result) (drop result path.now) }
    ensures not_filler { result < length path.now → is_filler path.now result ≡ false }
{
    let mut len = filler_blocks_end(path, start);
    while len < path.len() && is_filler(path, len) {
        len += 1;
    }
    len
}

// Returns how many bytes of filler at `i` to skip at once: 1 for a slash, 2 for a `.` and the slash
// after it, and 1 for a `.` at the end. Returns 0 if a component begins at `i`.
#[inline]
#[tactic(auto, using(crate::proofs::lemmas::filler::FillerLemmas::filler_steps))]
fn filler_step(path: &[u8], i: usize) -> usize
    requires { i < length path.now }
    ensures in_range { i + result ≤ length path.now }
    ensures filler { (at : ℕ) → inner_parts (at + i) (drop i path.now)
        ≡ inner_parts (at + (i + result)) (drop (i + result) path.now) }
    ensures not_filler { result ≡ 0 → is_filler path.now i ≡ false }
{
    if path[i] == b'/' {
        return 1;
    }
    if path[i] != b'.' {
        return 0;
    }
    if i + 1 == path.len() {
        return 1;
    }
    if path[i + 1] == b'/' { 2 } else { 0 }
}

// Does the same as `filler_len`, for filler that may be long: after four or five bytes, reads
// blocks of 16 bytes. `filler_len` is faster for short filler, such as between two components.
#[inline]
fn long_filler_len(path: &[u8]) -> usize
    ensures in_range { result ≤ length path.now }
    ensures filler { (at : ℕ) →
        inner_parts at path.now ≡ inner_parts (at + result) (drop result path.now) }
    ensures not_filler { result < length path.now → is_filler path.now result ≡ false }
{
    let mut len = 0;
    while len < path.len() {
        let step = filler_step(path, len);
        if step == 0 {
            return len;
        }
        len += step;
        if len > 3 {
            return filler_end_from(path, len);
        }
    }
    len
}

/// Returns the given bytes, which follow a slash or a component, without the filler at their
/// beginning.
///
/// Reads long filler 16 bytes at a time. For `/./a` it is `a`.
#[inline]
#[tactic(auto, using(crate::proofs::lemmas::parts::PlaceLemmas::inner_components))]
pub fn after_filler(bytes: &[u8]) -> &[u8]
    ensures same { inner_values bytes.now ≡ inner_values result.now }
    ensures not_filler { is_filler result.now 0 ≡ false }
    ensures filler { (at : ℕ) → inner_parts at bytes.now
        ≡ inner_parts (at + (length bytes.now - length result.now)) result.now }
    ensures tail { IsTail result bytes.entry }
{
    &bytes[long_filler_len(bytes)..]
}

// Returns true if each of the 16 bytes that start at `at` is a slash, or a `.` directly after a
// slash. `at` must not be 0.
#[inline]
fn is_trailing_simd16(path: &[u8], at: usize) -> bool
    requires after { 0 < at }
    requires in_range { at + 16 ≤ length path.now }
    ensures { IsTrue result → ((k : ℕ) → at ≤ k → k < at + 16 → is_trailing path.now k ≡ true) }
{
    let slash = u8x16::splat(b'/');
    let here = u8x16::from_slice(&path[at..]);
    let before = u8x16::from_slice(&path[at - 1..]);
    let is_no_dot = here.simd_ne(u8x16::splat(b'.'));
    let other = here.simd_ne(slash) & (is_no_dot | before.simd_ne(slash));
    other.to_bitmask() == 0
}

// Drops blocks of 16 bytes from the end of the first `len` bytes, as long as the last block is all
// filler and begins after index `min` and after the first byte. Returns how many bytes remain.
#[inline(never)]
#[tactic(auto, using(crate::proofs::lemmas::filler::TrailingBlockLemmas::parts_trailing_block))]
fn trimmed_blocks_len(path: &[u8], min: usize, len: usize) -> usize
    requires in_order { min ≤ len }
    requires in_range { len ≤ length path.now }
    ensures forward { min ≤ result }
    ensures in_range { result ≤ len }
    ensures same { parts (take result path.now) ≡ parts (take len path.now) }
{
    let mut end = len;
    while end - min > 16 && is_trailing_simd16(path, end - 16) {
        end -= 16;
    }
    end
}

/// Returns the index where the last component among the first `len` bytes ends, or 0 if there is
/// none; `min` if that index is less than `min`, which is at most `len`.
///
/// Does not read the bytes before index `min - 1`. If at least eight bytes of filler follow the
/// component, which is rare, reads blocks of 16 bytes. For `/a/./` it is 2 with 0 as `min`, and 3
/// with 3.
#[inline]
pub fn trimmed_len(path: &[u8], min: usize, len: usize) -> usize
    requires in_order { min ≤ len }
    requires in_range { len ≤ length path.now }
    ensures forward { min ≤ result }
    ensures in_range { result ≤ len }
    ensures same { parts (take result path.now) ≡ parts (take len path.now) }
    ensures ends { min < result → is_trailing path.now (result - 1) ≡ false }
{
    let mut end = len;
    while end > min && is_trailing(path, end - 1) {
        end -= 1;
        if len - end == 8 {
            end = trimmed_blocks_len(path, min, end);
        }
    }
    end
}
