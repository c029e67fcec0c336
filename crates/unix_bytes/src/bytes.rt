//! Borrowed byte strings, as Unix uses them for paths and names.
ghost use Rattle.std.specs.Prelude.{◌≡◌, ◌↔◌, ◌++◌, ◌≤◌, [], length, take, IsTrue, IfOk, IsOk};
ghost use Rattle.std.specs.Prelude.{OnOk, IsSome, IfSome, Some};
ghost use Rattle.std.specs.Cmp.{on_po, on_total};
ghost use Rattle.std.specs.Cmp.Lexicographic.{slice_cmp, texts_po, texts_ties, nat_list_cmp_total};
ghost use Rattle.std.specs.Ordering.{nat_cmp};
ghost use Rattle.std.proofs.Common.{refl};
ghost use Rattle.std.specs.String.{string_bytes};
ghost use Rattle.unix_bytes.specs.Utf8.{IsText};
ghost use Rattle.unix_bytes.specs.Lossy.{lossy_of};
ghost use Rattle.unix_bytes.specs.Chunks.{replacement_for};

use crate::lossy::Utf8Lossy;
use crate::order::compare_bytes;
use crate::printer::{BUFFER_LEN, show_first};
use crate::utf8::{split_text, to_text};
use std::alloc::{AllocError, Global};
use std::cmp::Ordering;
use std::fmt;
use std::hash::{Hash, Hasher};

mod owned;
mod text;

pub use owned::UnixString;
pub use text::LossyText;

/// A borrowed byte string: a path or a name on Unix, in any encoding.
///
/// It may contain any byte, including NUL. Comparison is byte by byte, and a proper prefix is less
/// than the longer string. `Copy` copies the view, not the bytes. Corresponds to Rust's `OsStr` on
/// Unix, and to `UnixStr` of the crate `unix_str`.
#[derive(Clone, Copy, PartialEq, Eq)]
pub struct UnixStr<'a> {
    /// The bytes.
    pub bytes: &'a [u8],
}

impl<'a> UnixStr<'a> {
    ghost use Rattle.unix_bytes.specs.Text.{text_bytes, IsBorrowed};

    /// Returns a view of the bytes of `text`, which are valid UTF-8.
    ///
    /// `UnixStr::new("tmp")` has the 3 bytes of `tmp`.
    #[inline]
    pub fn new(text: &'a str) -> UnixStr<'a>
        ensures { result.bytes.now ≡ text.now }
    {
        UnixStr {
            bytes: text.as_bytes(),
        }
    }

    /// Returns a view of these bytes, which need not be valid UTF-8. The view keeps this slice,
    /// without copying it.
    ///
    /// `UnixStr::from_bytes(b"\xff")` has the 1 byte FF.
    #[inline]
    pub fn from_bytes(bytes: &'a [u8]) -> UnixStr<'a>
        ensures bytes { result.bytes.now ≡ bytes.now }
        ensures place { result.bytes ≡ bytes.entry }
    {
        UnixStr { bytes }
    }

    /// Returns the slice of bytes that the view keeps, without copying it.
    ///
    /// `UnixStr::new("tmp").as_bytes()` is `b"tmp"`.
    #[inline]
    pub fn as_bytes(self) -> &'a [u8]
        ensures bytes { result.now ≡ self.entry.bytes.now }
        ensures place { result ≡ self.entry.bytes }
    {
        self.bytes
    }

    /// Returns the number of bytes.
    ///
    /// `UnixStr::new("tmp").len()` is 3.
    #[inline]
    pub fn len(self) -> usize
        ensures { result ≡ length self.entry.bytes.now }
    {
        self.bytes.len()
    }

    /// Returns true if and only if there are no bytes.
    ///
    /// `UnixStr::new("").is_empty()` is true.
    #[inline]
    pub fn is_empty(self) -> bool
        ensures { IsTrue result ↔ (self.entry.bytes.now ≡ []) }
    {
        self.bytes.is_empty()
    }

    /// Returns the bytes as a `str`, or `None` if they are not valid UTF-8 (RFC 3629, section 4).
    ///
    /// `UnixStr::from_bytes(b"a\xFF").to_str()` is `None`.
    #[inline]
    pub fn to_str(self) -> Option<&'a str>
        ensures value { IsSome result ↔ IsText self.entry.bytes.now }
        ensures bytes { IfSome result (λ text. text.now ≡ self.entry.bytes.now) }
    {
        to_text(self.bytes)
    }

    /// Returns the lossy form of the bytes.
    ///
    /// If the bytes are valid UTF-8, the result borrows them: nothing is allocated, and the call
    /// succeeds. Otherwise the result is a new `String`, and the call fails if an allocation fails.
    ///
    /// For the bytes 61 FF the result is `a` and U+FFFD.
    pub fn to_string_lossy(self, alloc: Global) -> Result<LossyText<'a>, AllocError>
        ensures value { IfOk result (λ text. text_bytes text ≡ lossy_of self.entry.bytes.now) }
        ensures borrowed { IfOk result (λ text. IsBorrowed text ↔ IsText self.entry.bytes.now) }
        ensures succeeds { IsText self.entry.bytes.now → IsOk result }
    {
        let (text, broken, rest) = split_text(self.bytes);
        if broken.is_empty() {
            return Ok(LossyText::Borrowed(text));
        }
        let lossy = lossy_string(alloc, text, broken, rest)?;
        Ok(LossyText::Owned(lossy))
    }
}

/// Returns the order that `cmp` returns, and never `None`.
impl PartialOrd for UnixStr<'_> {
    ghost partial_cmp = { λ x y. Some (slice_cmp nat_cmp x.bytes.now y.bytes.now) };

    ghost laws = { on_po (λ x. x.bytes.now) texts_po };

    fn partial_cmp(&self, other: &Self) -> Option<Ordering> {
        Some(self.cmp(other))
    }
}

/// Compares byte by byte. A proper prefix is less than the longer string.
impl Ord for UnixStr<'_> {
    ghost cmp = { λ x y. slice_cmp nat_cmp x.bytes.now y.bytes.now };

    ghost total = { on_total (λ x. x.bytes.now) nat_list_cmp_total };

    ghost matches_partial_cmp = { λ x y. refl };

    ghost matches_eq = { λ x y. texts_ties x.bytes.now y.bytes.now };

    fn cmp(&self, other: &Self) -> Ordering {
        compare_bytes(self.bytes, other.bytes)
    }
}

/// Feeds the hasher the length, and then all bytes in one write. If several byte strings are hashed
/// together, the length shows where each of them ends. One write is fast for many bytes. The format
/// is specific to this crate.
impl Hash for UnixStr<'_> {
    ghost use Rattle.unix_bytes.specs.Hashed.{name_input};
    ghost use Rattle.std.specs.Cmp.Lexicographic.{bytes_decides};
    ghost use Rattle.std.proofs.Common.{ap};

    ghost hash_input = { λ s. name_input s.bytes.now };

    ghost respects_eq = { λ x y e. ap name_input ((bytes_decides x.bytes.now y.bytes.now).0 e) };

    fn hash<H: Hasher>(&self, state: &mut H) {
        state.write_usize(self.bytes.len());
        state.write(self.bytes);
    }
}

/// Writes the lossy form of the bytes as the debug form of a `str`: in quotes, with escapes. For
/// valid UTF-8, the lossy form is the bytes themselves. Fails only if the writer fails. The format
/// is specific to this crate.
impl fmt::Debug for UnixStr<'_> {
    fn fmt<W: fmt::Write>(&self, f: &mut fmt::Formatter<W>) -> fmt::Result {
        fmt::Debug::fmt(&Utf8Lossy::from_bytes(self.bytes), f)
    }
}

// Returns `text`, then U+FFFD if `broken` is not empty, then the lossy form of `rest`. If
// `show_first` reads all of `rest`, the string is allocated once and never grows.
fn lossy_string(alloc: Global, text: &str, broken: &[u8], rest: &[u8]) -> Result<String, AllocError>
    ensures { let whole = (text.now ++ replacement_for broken.now) ++ lossy_of rest.now in
        IfOk result (λ lossy. string_bytes lossy ≡ whole) }
{
    let mut buffer = [0; BUFFER_LEN];
    let (read, written) = show_first(rest, &mut buffer);
    let unread = &rest[read..];
    let capacity = text.len().saturating_add(unread.len());
    let mut bytes = Vec::with_capacity(alloc, capacity.saturating_add(written + 3))?;
    bytes.extend_from_slice(text.as_bytes())?;
    push_broken(&mut bytes, broken)?;
    bytes.extend_from_slice(&buffer[..written])?;
    push_lossy(&mut bytes, unread, &mut buffer)?;
    // All bytes pushed are valid UTF-8.
    Ok(unsafe { String::from_utf8_unchecked(bytes) })
}

// Appends the lossy form of `source`. Each round appends the lossy form of the next chunk, and then
// the bytes that `show_first` writes to `buffer`, until all of `source` is read.
fn push_lossy(bytes: &mut Vec<u8>, source: &[u8], buffer: &mut [u8]) -> Result<(), AllocError>
    ensures { OnOk result (bytes.new.items ≡ bytes.old.items ++ lossy_of source.now) }
{
    let mut unread = source;
    while !unread.is_empty() {
        let (text, broken, rest) = split_text(unread);
        push_prefix(bytes, unread, text.len())?;
        push_broken(bytes, broken)?;
        let (read, written) = show_first(rest, buffer);
        bytes.extend_from_slice(&buffer[..written])?;
        unread = &rest[read..];
    }
    Ok(())
}

// Appends the first `len` bytes of `source`. If `len` is at most 16 and `source` has 16 bytes or
// more, appends 16 bytes at once and then truncates.
#[inline(always)]
#[tactic(auto, using(crate::proofs::lemmas::prefixes::PushLemmas::first_of_sixteen))]
fn push_prefix(bytes: &mut Vec<u8>, source: &[u8], len: usize) -> Result<(), AllocError>
    requires { len ≤ length source.now }
    ensures { OnOk result (bytes.new.items ≡ bytes.old.items ++ take len source.now) }
{
    if len == 0 {
        return Ok(());
    }
    if 16 < len || source.len() < 16 {
        return bytes.extend_from_slice(&source[..len]);
    }
    let wanted = bytes.len() + len;
    bytes.extend_from_slice(&source[..16])?;
    bytes.truncate(wanted);
    Ok(())
}

// Appends U+FFFD if `broken` is not empty.
#[inline(always)]
fn push_broken(bytes: &mut Vec<u8>, broken: &[u8]) -> Result<(), AllocError>
    ensures { OnOk result (bytes.new.items ≡ bytes.old.items ++ replacement_for broken.now) }
{
    if broken.is_empty() {
        return Ok(());
    }
    bytes.extend_from_slice("\u{FFFD}".as_bytes())
}
