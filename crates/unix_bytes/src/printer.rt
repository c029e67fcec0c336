//! Writes lossy forms into a buffer, one front or 16 bytes of ASCII at a time.
ghost use Rattle.std.specs.Prelude.{◌≡◌, ℕ, ◌+◌, ◌≤◌, ◌<◌, ◌++◌, [], length, take, slice_index};
ghost use Rattle.unix_bytes.specs.Lossy.{replacement};
ghost use Rattle.unix_bytes.specs.Printer.{Shows};

use crate::buffers::write_at;
use crate::utf8::ascii::{ascii_len_simd16, is_ascii_simd64};
use crate::utf8::fronts::{may_begin, non_ascii_front};
use std::simd::Simd;

// The size of the buffers for lossy forms, in bytes.
pub(crate) const BUFFER_LEN: usize = 256;

// Copies the first N bytes of `source` into `out` at index `at`, with one load and one store.
// `source` must have at least N bytes, and so must `out` from `at` on.
#[inline(always)]
#[tactic(auto, using(crate::proofs::lemmas::prefixes::PrinterLemmas::copied))]
fn copy_first<const N: usize>(out: &mut [u8], at: usize, source: &[u8])
    requires fits_out { at + N ≤ length out.old }
    requires some { N ≤ length source.now }
    ensures len { length out.new ≡ length out.old }
    ensures bytes { (k : ℕ) → k ≤ N
        → take (at + k) out.new ≡ take at out.old ++ take k source.now }
{
    Simd::<u8, N>::from_slice(source).copy_to_slice(&mut out[at..]);
}

// Writes U+FFFD into `out` at index `at`. Returns the index just after the character, which has
// three bytes.
#[inline(always)]
#[tactic(auto, using(crate::proofs::lemmas::prefixes::PrinterLemmas::take_written))]
fn show_replacement(out: &mut [u8], at: usize) -> usize
    requires { at + 3 ≤ length out.old }
    ensures len { length out.new ≡ length out.old }
    ensures end { result ≡ at + 3 }
    ensures bytes { take result out.new ≡ take at out.old ++ replacement }
{
    write_at(out, at, "\u{FFFD}".as_bytes());
    at + 3
}

// Writes the lossy form of the first front of `source` into `out` at index `at`. `source` must have
// at least four bytes, and so must `out` from `at` on. The first byte of `source` must not be
// ASCII. Returns how many bytes were read, and the index in `out` just after the bytes written.
#[inline(always)]
#[tactic(auto, using(crate::proofs::lemmas::prefixes::PrinterLemmas::front_bounds))]
fn show_front(source: &[u8], out: &mut [u8], at: usize) -> (usize, usize)
    requires some { 4 ≤ length source.now }
    requires non_ascii { 0x80 ≤ slice_index source.now 0 }
    requires fits_out { at + 4 ≤ length out.old }
    ensures len { length out.new ≡ length out.old }
    ensures read { result.0 ≤ length source.now }
    ensures end { result.1 ≤ length out.new }
    ensures lossy { Shows source.now (take at out.old) result.0 (take result.1 out.new) }
{
    match non_ascii_front(source) {
        Ok(size) => {
            copy_first::<4>(out, at, source);
            (size, at + size)
        }
        Err(size) => (size, show_replacement(out, at)),
    }
}

// Writes the lossy form of a prefix of `source` into `out` at index `at`. `source` must have at
// least 20 bytes, and so must `out` from `at` on. If the first 16 bytes are ASCII, they are the
// prefix; otherwise the prefix ends with the first front that is not ASCII. Returns how many bytes
// were read, and the index in `out` just after the bytes written.
//
// Reads nothing if the first 64 bytes are ASCII, or if `may_begin` is true and the eighth byte is
// not ASCII. Then a long run of valid UTF-8 seems to begin, which the caller reads faster all at
// once.
#[inline(always)]
fn show_block(source: &[u8], out: &mut [u8], at: usize) -> (usize, usize)
    requires some { 20 ≤ length source.now }
    requires fits_out { at + 20 ≤ length out.old }
    ensures len { length out.new ≡ length out.old }
    ensures read { result.0 ≤ length source.now }
    ensures end { result.1 ≤ length out.new }
    ensures lossy { Shows source.now (take at out.old) result.0 (take result.1 out.new) }
{
    if 0x80 <= source[0] {
        if !may_begin(source) {
            return (1, show_replacement(out, at));
        }
        if 0x80 <= source[7] {
            return (0, at);
        }
        return show_front(source, out, at);
    }
    let ascii = ascii_len_simd16(source);
    if ascii == 16 && 64 <= source.len() && is_ascii_simd64(source, 0) {
        return (0, at);
    }
    copy_first::<16>(out, at, source);
    if ascii == 16 {
        return (16, at + 16);
    }
    let (size, end) = show_front(&source[ascii..], out, at + ascii);
    (ascii + size, end)
}

// Writes the lossy form of the first front of `source` into `out` at index `at`. `source` may have
// fewer than four bytes, and its first byte must not be ASCII. `out` must have at least four bytes
// from `at` on. Returns how many bytes were read, and the index in `out` just after the bytes
// written.
#[inline(never)]
#[tactic(auto, using(crate::proofs::lemmas::prefixes::PrinterLemmas::front_bounds))]
fn show_last_front(source: &[u8], out: &mut [u8], at: usize) -> (usize, usize)
    requires some { 0 < length source.now }
    requires non_ascii { 0x80 ≤ slice_index source.now 0 }
    requires fits_out { at + 4 ≤ length out.old }
    ensures len { length out.new ≡ length out.old }
    ensures read { result.0 ≤ length source.now }
    ensures end { result.1 ≤ length out.new }
    ensures lossy { Shows source.now (take at out.old) result.0 (take result.1 out.new) }
{
    match non_ascii_front(source) {
        Ok(size) => {
            write_at(out, at, &source[..size]);
            (size, at + size)
        }
        Err(size) => (size, show_replacement(out, at)),
    }
}

// Writes the lossy form of the first front of `source`, which must not be empty, into `out` at
// index `at`. `out` must have at least four bytes from `at` on. Returns how many bytes were read,
// and the index in `out` just after the bytes written.
#[inline(always)]
fn show_one_front(source: &[u8], out: &mut [u8], at: usize) -> (usize, usize)
    requires some { 0 < length source.now }
    requires fits_out { at + 4 ≤ length out.old }
    ensures len { length out.new ≡ length out.old }
    ensures read { result.0 ≤ length source.now }
    ensures end { result.1 ≤ length out.new }
    ensures lossy { Shows source.now (take at out.old) result.0 (take result.1 out.new) }
{
    if source[0] < 0x80 {
        out[at] = source[0];
        return (1, at + 1);
    }
    show_last_front(source, out, at)
}

// Writes the lossy form of a prefix of `source` into `out`. Returns how many bytes were read, and
// how many were written. Stops where fewer than 20 bytes of `out` remain, or where a long run of
// valid UTF-8 seems to begin.
pub(crate) fn show_first(source: &[u8], out: &mut [u8]) -> (usize, usize)
    ensures len { length out.new ≡ length out.old }
    ensures read { result.0 ≤ length source.now }
    ensures end { result.1 ≤ length out.new }
    ensures lossy { Shows source.now [] result.0 (take result.1 out.new) }
{
    let mut read = 0;
    let mut end = 0;
    while read < source.len() && 20 <= out.len() - end {
        let rest = &source[read..];
        let (size, next) = if rest.len() < 20 {
            show_one_front(rest, out, end)
        } else {
            show_block(rest, out, end)
        };
        read += size;
        end = next;
        if size == 0 {
            return (read, end);
        }
    }
    (read, end)
}
