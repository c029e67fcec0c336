//! Finds the first and the last index of a byte, and the common prefix of two byte strings.
ghost use Rattle.std.specs.Prelude.{◌≡◌, ℕ, ◌+◌, ◌-◌, ◌<◌, ◌≤◌, ◌==◌, false, length, take, drop};
ghost use Rattle.std.specs.Prelude.{slice_index, nat_eq, min, IsTrue, ◌||◌, true};
ghost use Rattle.std.specs.List.{position_or_len, common_prefix_len};
ghost use Rattle.unix_bytes.specs.Lanes.{hit_mask};

use std::simd::prelude::*;

// Returns a mask of the 16 bytes from `at` on, whose lowest bit is for the first byte. A bit is set
// if and only if its byte equals `byte`.
#[inline]
fn hits(bytes: &[u8], at: usize, byte: u8) -> u64
    requires { at + 16 ≤ length bytes.now }
    ensures { result ≡ hit_mask byte (take 16 (drop at bytes.now)) }
{
    u8x16::from_slice(&bytes[at..])
        .simd_eq(u8x16::splat(byte))
        .to_bitmask()
}

// Returns the index of the first `byte`, or the length of `bytes` if there is none. Compares one
// byte at a time.
#[inline]
fn find_byte_scalar(bytes: &[u8], byte: u8) -> usize
    ensures value { result ≡ position_or_len (λ b. b == byte) bytes.now }
    ensures in_range { result ≤ length bytes.now }
{
    for (index, b) in bytes.iter().enumerate() {
        if *b == byte {
            return index;
        }
    }
    bytes.len()
}

// Returns the index of the first `byte` among the 16 bytes from `at` on, relative to `at`, or 16 if
// there is none.
#[inline]
fn find_byte_simd16(bytes: &[u8], at: usize, byte: u8) -> usize
    requires { at + 16 ≤ length bytes.now }
    ensures value { result ≡ position_or_len (λ b. b == byte) (take 16 (drop at bytes.now)) }
    ensures in_range { result ≤ 16 }
{
    let hits = hits(bytes, at, byte);
    if hits == 0 {
        16
    } else {
        hits.trailing_zeros() as usize
    }
}

/// Returns the index of the first `byte`, or the length of `bytes` if there is none. Similar to
/// `memchr` of the crate `memchr`.
///
/// `find_byte(b"a:b:c", b':')` is 1.
#[must_use]
#[inline]
pub fn find_byte(bytes: &[u8], byte: u8) -> usize
    ensures value { result ≡ position_or_len (λ b. b == byte) bytes.now }
    ensures in_range { result ≤ length bytes.now }
{
    if bytes.len() < 16 {
        return find_byte_scalar(bytes, byte);
    }
    let last = bytes.len() - 16;
    let mut at = 0;
    while at < last {
        let index = find_byte_simd16(bytes, at, byte);
        if index < 16 {
            return at + index;
        }
        at += 16;
    }
    last + find_byte_simd16(bytes, last, byte)
}

// Returns the index just after the last `byte` among the first `len` bytes, or 0 if there is none.
#[inline]
fn after_last_scalar(bytes: &[u8], len: usize, byte: u8) -> usize
    requires { len ≤ length bytes.now }
    ensures in_range { result ≤ len }
    ensures after { 0 < result → slice_index bytes.now (result - 1) ≡ byte }
    ensures none_after { (k : ℕ) → result ≤ k → k < len →
        (slice_index bytes.now k == byte) ≡ false }
{
    let mut past = len;
    while past > 0 && bytes[past - 1] != byte {
        past -= 1;
    }
    past
}

// Returns the index just after the last `byte` among the 16 bytes from `at` on, relative to `at`,
// or 0 if there is none.
#[inline]
fn after_last_simd16(bytes: &[u8], at: usize, byte: u8) -> usize
    requires { at + 16 ≤ length bytes.now }
    ensures in_range { result ≤ 16 }
    ensures after { 0 < result → slice_index bytes.now (at + result - 1) ≡ byte }
    ensures none_after { (k : ℕ) → at + result ≤ k → k < at + 16 →
        (slice_index bytes.now k == byte) ≡ false }
{
    64 - hits(bytes, at, byte).leading_zeros() as usize
}

/// Returns the index just after the last `byte`, or 0 if there is none. This is one more than the
/// index that `memrchr` of the crate `memchr` returns.
///
/// `after_last(b"a:b:c", b':')` is 4.
#[must_use]
#[inline]
pub fn after_last(bytes: &[u8], byte: u8) -> usize
    ensures in_range { result ≤ length bytes.now }
    ensures after { 0 < result → slice_index bytes.now (result - 1) ≡ byte }
    ensures none_after { position_or_len (λ b. b == byte) (drop result bytes.now)
        ≡ length (drop result bytes.now) }
{
    let mut end = bytes.len();
    while end >= 16 {
        let past = after_last_simd16(bytes, end - 16, byte);
        if past > 0 {
            return end - 16 + past;
        }
        end -= 16;
    }
    after_last_scalar(bytes, end, byte)
}

// Returns the index just after the last byte that is `first` or `second`, among the first `len`
// bytes, or 0 if there is none.
#[inline]
fn after_last_of_two_scalar(bytes: &[u8], len: usize, first: u8, second: u8) -> usize
    requires { len ≤ length bytes.now }
    ensures in_range { result ≤ len }
    ensures after { 0 < result → (slice_index bytes.now (result - 1) == first
        || slice_index bytes.now (result - 1) == second) ≡ true }
    ensures none_after { (k : ℕ) → result ≤ k → k < len →
        (slice_index bytes.now k == first || slice_index bytes.now k == second) ≡ false }
{
    let mut past = len;
    while past > 0 {
        if bytes[past - 1] == first || bytes[past - 1] == second {
            return past;
        }
        past -= 1;
    }
    past
}

// Returns the index, relative to `at`, just after the last byte that is `first` or `second` among
// the 16 bytes from `at` on, or 0 if there is none.
#[inline]
fn after_last_of_two_simd16(bytes: &[u8], at: usize, first: u8, second: u8) -> usize
    requires { at + 16 ≤ length bytes.now }
    ensures in_range { result ≤ 16 }
    ensures after { 0 < result → (slice_index bytes.now (at + result - 1) == first
        || slice_index bytes.now (at + result - 1) == second) ≡ true }
    ensures none_after { (k : ℕ) → at + result ≤ k → k < at + 16 →
        (slice_index bytes.now k == first || slice_index bytes.now k == second) ≡ false }
{
    let past_first = after_last_simd16(bytes, at, first);
    let past_second = after_last_simd16(bytes, at, second);
    if past_first < past_second {
        past_second
    } else {
        past_first
    }
}

/// Returns the index just after the last byte that is `first` or `second`, or 0 if there is none.
/// This is one more than the index that `memrchr2` of the crate `memchr` returns.
///
/// `after_last_of_two(b"a:b;c", b':', b';')` is 4.
#[must_use]
#[inline]
pub fn after_last_of_two(bytes: &[u8], first: u8, second: u8) -> usize
    ensures in_range { result ≤ length bytes.now }
    ensures after { 0 < result → (slice_index bytes.now (result - 1) == first
        || slice_index bytes.now (result - 1) == second) ≡ true }
    ensures none_after { (k : ℕ) → result ≤ k → k < length bytes.now →
        (slice_index bytes.now k == first || slice_index bytes.now k == second) ≡ false }
{
    let mut end = bytes.len();
    while end >= 16 {
        let past = after_last_of_two_simd16(bytes, end - 16, first, second);
        if past > 0 {
            return end - 16 + past;
        }
        end -= 16;
    }
    after_last_of_two_scalar(bytes, end, first, second)
}

// Returns the length of the longest common prefix of `a` and `b`, comparing one byte at a time.
// `shorter_len` must be the length of the shorter byte string.
#[inline]
fn common_len_scalar(a: &[u8], b: &[u8], shorter_len: usize) -> usize
    requires { shorter_len ≡ min (length a.now) (length b.now) }
    ensures value { result ≡ common_prefix_len nat_eq a.now b.now }
    ensures in_range { result ≤ shorter_len }
{
    let mut len = 0;
    while len < shorter_len && a[len] == b[len] {
        len += 1;
    }
    len
}

// Compares the 16 bytes of `a` and of `b` from `at` on. Returns how many bytes come before the
// first difference, or 16 if there is none.
#[inline]
fn common_len_simd16(a: &[u8], b: &[u8], at: usize) -> usize
    requires in_first { at + 16 ≤ length a.now }
    requires in_second { at + 16 ≤ length b.now }
    ensures in_range { result ≤ 16 }
    ensures same { (k : ℕ) → at ≤ k → k < at + result →
        slice_index a.now k ≡ slice_index b.now k }
    ensures differs { result < 16 →
        (slice_index a.now (at + result) == slice_index b.now (at + result)) ≡ false }
{
    let other = u8x16::from_slice(&a[at..])
        .simd_ne(u8x16::from_slice(&b[at..]))
        .to_bitmask();
    if other == 0 {
        16
    } else {
        other.trailing_zeros() as usize
    }
}

// Compares the 8 bytes of `a` and of `b` from `at` on. Returns how many bytes come before the first
// difference, or 8 if there is none.
#[inline]
fn common_len_simd8(a: &[u8], b: &[u8], at: usize) -> usize
    requires in_first { at + 8 ≤ length a.now }
    requires in_second { at + 8 ≤ length b.now }
    ensures in_range { result ≤ 8 }
    ensures same { (k : ℕ) → at ≤ k → k < at + result →
        slice_index a.now k ≡ slice_index b.now k }
    ensures differs { result < 8 →
        (slice_index a.now (at + result) == slice_index b.now (at + result)) ≡ false }
{
    let other = u8x8::from_slice(&a[at..])
        .simd_ne(u8x8::from_slice(&b[at..]))
        .to_bitmask();
    if other == 0 {
        8
    } else {
        other.trailing_zeros() as usize
    }
}

// Returns the length of the longest common prefix of `a` and `b`. `shorter_len` must be the length
// of the shorter byte string, and less than 16. If `shorter_len` is at least 8, compares the first
// 8 bytes at once, and then the 8 bytes before index `shorter_len`.
#[inline]
fn common_len_under_16(a: &[u8], b: &[u8], shorter_len: usize) -> usize
    requires lesser { shorter_len ≡ min (length a.now) (length b.now) }
    requires len_bound { shorter_len < 16 }
    ensures value { result ≡ common_prefix_len nat_eq a.now b.now }
    ensures in_range { result ≤ shorter_len }
{
    if shorter_len < 8 {
        return common_len_scalar(a, b, shorter_len);
    }
    let first = common_len_simd8(a, b, 0);
    if first < 8 {
        return first;
    }
    let last = shorter_len - 8;
    last + common_len_simd8(a, b, last)
}

// Returns true only if the 64 bytes from `at` on are the same in `a` and `b`.
#[inline(always)]
fn is_common_simd64(a: &[u8], b: &[u8], at: usize) -> bool
    requires in_first { at + 64 ≤ length a.now }
    requires in_second { at + 64 ≤ length b.now }
    ensures { IsTrue result → ((k : ℕ) → at ≤ k → k < at + 64 →
        slice_index a.now k ≡ slice_index b.now k) }
{
    let other = u8x64::from_slice(&a[at..]).simd_ne(u8x64::from_slice(&b[at..]));
    other.to_bitmask() == 0
}

// Returns the length of a common prefix of `a` and `b`, which is a multiple of 64. Compares blocks
// of 64 bytes. `shorter_len` must be the length of the shorter byte string.
#[inline]
fn common_blocks_len(a: &[u8], b: &[u8], shorter_len: usize) -> usize
    requires { shorter_len ≡ min (length a.now) (length b.now) }
    ensures in_range { result ≤ shorter_len }
    ensures same { (k : ℕ) → k < result → slice_index a.now k ≡ slice_index b.now k }
{
    let mut len = 0;
    while 64 <= shorter_len - len && is_common_simd64(a, b, len) {
        len += 64;
    }
    len
}

/// Returns the length of the longest common prefix of `a` and `b`.
///
/// `common_len(b"a/b", b"a/c")` is 2.
#[must_use]
#[inline]
pub fn common_len(a: &[u8], b: &[u8]) -> usize
    ensures value { result ≡ common_prefix_len nat_eq a.now b.now }
    ensures in_first { result ≤ length a.now }
    ensures in_second { result ≤ length b.now }
{
    let shorter_len = a.len().min(b.len());
    if shorter_len < 16 {
        return common_len_under_16(a, b, shorter_len);
    }
    let last = shorter_len - 16;
    let mut len = common_blocks_len(a, b, shorter_len);
    while len < last {
        let common = common_len_simd16(a, b, len);
        if common < 16 {
            return len + common;
        }
        len += 16;
    }
    last + common_len_simd16(a, b, last)
}

/// Returns the same as `common_len`, and is faster if the first difference is within the first 16
/// bytes.
///
/// `common_len_expect_short(b"a/b", b"a/c")` is 2.
#[must_use]
#[inline]
pub fn common_len_expect_short(a: &[u8], b: &[u8]) -> usize
    ensures value { result ≡ common_prefix_len nat_eq a.now b.now }
    ensures in_first { result ≤ length a.now }
    ensures in_second { result ≤ length b.now }
{
    let shorter_len = a.len().min(b.len());
    if shorter_len < 16 {
        return common_len_under_16(a, b, shorter_len);
    }
    let first = common_len_simd16(a, b, 0);
    if first < 16 {
        return first;
    }
    common_len(a, b)
}
