//! Finds the lengths of the longest prefix that is valid UTF-8, and of the invalid front after it.
ghost use Rattle.std.specs.Prelude.{◌≡◌, ◌<◌, ◌≤◌, length, drop, take, slice_index};
ghost use Rattle.unix_bytes.specs.Utf8.{IsText};
ghost use Rattle.unix_bytes.specs.Lossy.{is_text};
ghost use Rattle.unix_bytes.specs.Steps.{longest_len, broken_len};

use crate::utf8::ascii::{ascii_len_simd16, ascii_prefix_len, non_ascii_bits};
use crate::utf8::classes::{is_lead_of_four, is_lead_of_two, is_tail};
use crate::utf8::fronts::{begins_four, may_begin, non_ascii_front};
use crate::windows::window_len;

// Returns the length of the longest prefix that is valid UTF-8, and the length of the invalid front
// after it, or 0 if there is none. If there are at least 16 bytes, and `may_begin` is false at the
// first byte that is not ASCII among the first 16, the scan ends at that byte.
#[inline(always)]
#[tactic(auto, using(crate::proofs::lemmas::prefixes::TextPrefixLemmas::no_or_ascii_text))]
pub(crate) fn scan_text(source: &[u8]) -> (usize, usize)
    ensures text { result.0 ≡ longest_len is_text source.now }
    ensures broken { result.1 ≡ broken_len (drop result.0 source.now) }
{
    if source.len() < 16 {
        return scan(source, 0);
    }
    let at = ascii_len_simd16(source);
    if at == 16 {
        return scan(source, 0);
    }
    scan_from_non_ascii(source, at)
}

// Returns the length of the longest prefix that is valid UTF-8, and the length of the invalid front
// after it, or 0 if there is none. The bytes before `at` must be valid UTF-8, and the byte at `at`
// must not be ASCII.
#[inline(always)]
fn scan_from_non_ascii(source: &[u8], at: usize) -> (usize, usize)
    requires some { at < length source.now }
    requires non_ascii { 0x80 ≤ slice_index source.now at }
    requires so_far { IsText (take at source.now) }
    ensures text { result.0 ≡ longest_len is_text source.now }
    ensures broken { result.1 ≡ broken_len (drop result.0 source.now) }
{
    if may_begin(&source[at..]) {
        return scan(source, at);
    }
    (at, 1)
}

// Returns the length of the longest prefix that is valid UTF-8, and the length of the invalid front
// after it, or 0 if there is none. The bytes before `from` must be valid UTF-8.
#[inline(always)]
pub(crate) fn scan(source: &[u8], from: usize) -> (usize, usize)
    requires bound { from ≤ length source.now }
    requires so_far { IsText (take from source.now) }
    ensures text { result.0 ≡ longest_len is_text source.now }
    ensures broken { result.1 ≡ broken_len (drop result.0 source.now) }
{
    if source.len() - from < 32 {
        scan_by_sequence(source, from)
    } else {
        scan_by_window(source, from)
    }
}

// Returns the length of the longest prefix that is valid UTF-8, and the length of the invalid front
// after it, or 0 if there is none. The bytes before `from` must be valid UTF-8. Reads one sequence
// or one run of sequences at a time, which is faster for few bytes.
#[inline(never)]
fn scan_by_sequence(source: &[u8], from: usize) -> (usize, usize)
    requires bound { from ≤ length source.now }
    requires so_far { IsText (take from source.now) }
    ensures text { result.0 ≡ longest_len is_text source.now }
    ensures broken { result.1 ≡ broken_len (drop result.0 source.now) }
{
    let mut rest = &source[from..];
    while !rest.is_empty() {
        if rest[0] < 0x80 {
            rest = &rest[ascii_prefix_len(rest)..];
            continue;
        }
        match non_ascii_front(rest) {
            Ok(2) => {
                rest = &rest[2..];
                rest = &rest[two_byte_prefix_len(rest)..];
            }
            Ok(4) => {
                rest = &rest[4..];
                rest = &rest[four_byte_prefix_len(rest)..];
            }
            Ok(size) => rest = &rest[size..],
            Err(size) => return (source.len() - rest.len(), size),
        }
    }
    (source.len(), 0)
}

// Returns the length of the run of two-byte sequences at the beginning of `source`, or 0.
#[inline(always)]
#[tactic(auto, using(crate::proofs::lemmas::prefixes::TextPrefixLemmas::pair_at))]
fn two_byte_prefix_len(source: &[u8]) -> usize
    ensures bound { result ≤ length source.now }
    ensures text { IsText (take result source.now) }
{
    let mut at = 0;
    while 2 <= source.len() - at && is_lead_of_two(source[at]) && is_tail(source[at + 1]) {
        at += 2;
    }
    at
}

// Returns the length of the run of four-byte sequences at the beginning of `source`, or 0.
#[inline(always)]
fn four_byte_prefix_len(source: &[u8]) -> usize
    ensures bound { result ≤ length source.now }
    ensures text { IsText (take result source.now) }
{
    let mut rest = source;
    while !rest.is_empty() && is_lead_of_four(rest[0]) && begins_four(rest) {
        rest = &rest[4..];
    }
    source.len() - rest.len()
}

// Returns the length of the longest prefix that is valid UTF-8, and the length of the invalid front
// after it, or 0 if there is none. The bytes before `from` must be valid UTF-8. After each sequence
// that is not ASCII, tries to read windows of 16 bytes (`text_end`), which is faster for many
// bytes.
#[inline(never)]
fn scan_by_window(source: &[u8], from: usize) -> (usize, usize)
    requires bound { from ≤ length source.now }
    requires so_far { IsText (take from source.now) }
    ensures text { result.0 ≡ longest_len is_text source.now }
    ensures broken { result.1 ≡ broken_len (drop result.0 source.now) }
{
    let mut at = from;
    while at < source.len() {
        if source[at] < 0x80 {
            at += ascii_prefix_len(&source[at..]);
            continue;
        }
        match non_ascii_front(&source[at..]) {
            Ok(size) => at = text_end(source, at + size),
            Err(size) => return (at, size),
        }
    }
    (at, 0)
}

// Returns an index, at least `from`, before which all bytes are valid UTF-8. The bytes before
// `from` must be valid UTF-8. Reads one window of 16 bytes at a time. Stops where fewer than 16
// bytes remain, at a window of only ASCII, and at a window with a byte that may not follow the
// three bytes before it. Returns `from` at once if `from` is less than 3.
#[inline(always)]
fn text_end(source: &[u8], from: usize) -> usize
    requires bound { from ≤ length source.now }
    requires so_far { IsText (take from source.now) }
    ensures more { from ≤ result }
    ensures bound { result ≤ length source.now }
    ensures text { IsText (take result source.now) }
{
    if from < 3 {
        return from;
    }
    let mut at = from;
    while 16 <= source.len() - at && non_ascii_bits(source, at) != 0 {
        let size = window_len(&source[at - 3..]);
        if size == 0 {
            return at;
        }
        at += size;
    }
    at
}
