//! Checks 16 bytes at once: whether each byte may follow the three bytes before it in UTF-8.
ghost use Rattle.std.specs.Prelude.{◌≡◌, ◌≤◌, ◌<◌, ◌==◌, IsTrue, length, map, nat_le};
ghost use Rattle.std.specs.Prelude.{if◌then◌else◌, take, drop, slice_index};
ghost use Rattle.std.specs.Simd.Lanes.{mask_l, zip2};
ghost use Rattle.unix_bytes.specs.Utf8.{IsText};
ghost use Rattle.unix_bytes.specs.Windows.{min_second, max_second, unfinished_len, IsFinished};
ghost use Rattle.unix_bytes.specs.Windows.{AllAtLeast, AllContinue, FitsWindow};

use std::simd::u8x16;

// Returns, for each byte, 255 if the byte is at least `min`, and otherwise the byte of `other` in
// the same lane.
#[inline(always)]
fn select_ge(bytes: u8x16, min: u8, other: u8x16) -> u8x16
    ensures { result ≡ zip2 (λ b o. if nat_le min b then 255 else o) bytes other }
{
    bytes
        .simd_ge(u8x16::splat(min))
        .select(u8x16::splat(0xFF), other)
}

// Returns, for each byte, `bound` if the byte equals `value`, and otherwise the byte of `other` in
// the same lane.
#[inline(always)]
fn select_eq(bytes: u8x16, value: u8, bound: u8, other: u8x16) -> u8x16
    ensures { result ≡ zip2 (λ b o. if b == value then bound else o) bytes other }
{
    bytes
        .simd_eq(u8x16::splat(value))
        .select(u8x16::splat(bound), other)
}

// Returns, for each byte, a lower bound of the byte after it in UTF-8: A0 after E0, 90 after F0,
// and otherwise 0.
#[inline(always)]
fn min_after(bytes: u8x16) -> u8x16
    ensures { result ≡ map min_second bytes }
{
    let four = select_eq(bytes, 0xF0, 0x90, u8x16::splat(0));
    select_eq(bytes, 0xE0, 0xA0, four)
}

// Returns, for each byte, an upper bound of the byte after it in UTF-8: 9F after ED, 8F after F4,
// and otherwise F4.
#[inline(always)]
fn max_after(bytes: u8x16) -> u8x16
    ensures { result ≡ map max_second bytes }
{
    let four = select_eq(bytes, 0xF4, 0x8F, u8x16::splat(0xF4));
    select_eq(bytes, 0xED, 0x9F, four)
}

// Returns a mask of `bytes`, whose lowest bit is for the first byte. A bit is set if and only if
// its byte is at least `min`.
#[inline(always)]
pub(crate) fn lanes_ge(bytes: u8x16, min: u8) -> u64
    ensures bits { result ≡ mask_l (map (nat_le min) bytes) }
    ensures bound { result < 0x10000 }
{
    bytes.simd_ge(u8x16::splat(min)).to_bitmask()
}

// Returns true only if each of `bytes` is at least the bound in the same lane.
#[inline(always)]
#[tactic(auto, using(crate::proofs::lemmas::vectors::MaskLemmas::none_below))]
fn all_lanes_ge(bytes: u8x16, bounds: u8x16) -> bool
    ensures { IsTrue result → AllAtLeast bytes bounds }
{
    bytes.simd_lt(bounds).to_bitmask() == 0
}

// Returns true only if each byte of `bytes` that comes after an unfinished sequence is a tail byte,
// and each other byte of `bytes` is ASCII or at least C2. In each lane, `first`, `second` and
// `third` have the three bytes that come before the byte of `bytes`.
#[inline(always)]
fn all_continue(first: u8x16, second: u8x16, third: u8x16, bytes: u8x16) -> bool
    ensures { IsTrue result → AllContinue first second third bytes }
{
    let short = select_ge(third, 0xC0, u8x16::splat(0));
    let unfinished = select_ge(first, 0xF0, select_ge(second, 0xE0, short));
    let begin = lanes_ge(bytes, 0xC0);
    lanes_ge(unfinished, 0x80) + begin == lanes_ge(bytes, 0x80) && begin == lanes_ge(bytes, 0xC2)
}

// Returns true only if each of the 16 bytes of `window` from index 3 on may follow the three bytes
// before it in UTF-8.
#[inline(always)]
fn fits(window: &[u8]) -> bool
    requires { 19 ≤ length window.now }
    ensures { IsTrue result → FitsWindow window.now }
{
    let first = u8x16::from_slice(window);
    let second = u8x16::from_slice(&window[1..]);
    let third = u8x16::from_slice(&window[2..]);
    let bytes = u8x16::from_slice(&window[3..]);
    all_continue(first, second, third, bytes)
        && all_lanes_ge(bytes, min_after(third))
        && all_lanes_ge(max_after(third), bytes)
}

// Returns how many of the first 19 bytes of `window` belong to a sequence that is unfinished after
// them: 0 to 3.
#[inline(always)]
fn unfinished_len(window: &[u8]) -> usize
    requires { 19 ≤ length window.now }
    ensures value { let last = slice_index window.now in
        result ≡ unfinished_len (last 16) (last 17) (last 18) }
    ensures bound { result ≤ 3 }
{
    if 0xC0 <= window[18] {
        1
    } else if 0xE0 <= window[17] {
        2
    } else if 0xF0 <= window[16] {
        3
    } else {
        0
    }
}

// Returns the length of a valid prefix of the 16 bytes of `window` from index 3 on, or 0 if one of
// the 16 may not follow the three bytes before it. The first three bytes must leave no sequence
// unfinished.
#[inline(always)]
#[tactic(auto, using(crate::proofs::lemmas::text::WindowLemmas::window_text))]
pub(crate) fn window_len(window: &[u8]) -> usize
    requires some { 19 ≤ length window.now }
    requires finished { let first = slice_index window.now in
        IsFinished (first 0) (first 1) (first 2) }
    ensures bound { result ≤ 16 }
    ensures text { IsText (take result (drop 3 window.now)) }
{
    if fits(window) {
        16 - unfinished_len(window)
    } else {
        0
    }
}
