//! Validates UTF-8: finds the longest valid prefix of bytes, and the invalid front after it.
ghost use Rattle.std.specs.Prelude.{◌≡◌, ◌↔◌, IsSome, IfSome};
ghost use Rattle.unix_bytes.specs.Utf8.{IsText};
ghost use Rattle.unix_bytes.specs.Steps.{Splits};

use crate::utf8::scans::{scan, scan_text};
use std::str;

pub(crate) mod ascii;
mod classes;
pub(crate) mod fronts;
mod scans;

// Returns the bytes as a `str`, or `None` if they are not valid UTF-8.
#[tactic(auto, using(crate::proofs::lemmas::prefixes::TextPrefixLemmas::text_ends))]
pub(crate) fn to_text(bytes: &[u8]) -> Option<&str>
    ensures value { IsSome result ↔ IsText bytes.now }
    ensures bytes { IfSome result (λ text. text.now ≡ bytes.now) }
{
    let (text, _) = scan(bytes, 0);
    if text < bytes.len() {
        return None;
    }
    // All bytes are valid UTF-8.
    Some(unsafe { str::from_utf8_unchecked(bytes) })
}

// Returns the longest prefix that is valid UTF-8, the invalid front after it (empty if all bytes
// are valid), and the rest.
#[inline(always)]
#[tactic(auto, using(crate::proofs::lemmas::prefixes::TextPrefixLemmas::prefix_bounds))]
pub(crate) fn split_text(source: &[u8]) -> (&str, &[u8], &[u8])
    ensures { Splits source.now result.0.now result.1.now result.2.now }
{
    let (text, size) = scan_text(source);
    let (prefix, after) = source.split_at(text);
    let (broken, rest) = after.split_at(size);
    // This prefix is valid UTF-8.
    (unsafe { str::from_utf8_unchecked(prefix) }, broken, rest)
}
