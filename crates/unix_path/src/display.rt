//! Conversion of paths to strings: exact for valid UTF-8, and lossy for all paths.
ghost use Rattle.std.specs.Prelude.{◌≡◌, ◌↔◌, IsOk, IsSome, IfOk, IfSome, Some, if◌then◌else◌};
ghost use Rattle.std.specs.Fmt.{padded};
ghost use Rattle.unix_bytes.specs.Utf8.{IsText};
ghost use Rattle.unix_bytes.specs.Lossy.{is_text, lossy_of};
ghost use Rattle.unix_bytes.specs.Text.{text_bytes, IsBorrowed};

use crate::path::Path;
use std::alloc::{AllocError, Global};
use std::fmt;
use unix_bytes::bytes::{LossyText, UnixStr};
use unix_bytes::lossy::Utf8Lossy;

/// A view of bytes that is printed as lossy text.
///
/// The bytes of `tmp` are printed as `tmp`.
#[derive(Clone, Copy)]
pub struct Display<'a> {
    /// The bytes that are printed.
    pub bytes: &'a [u8],
}

impl<'a> Display<'a> {
    /// Returns a view that prints these bytes.
    ///
    /// `Display::from_bytes(b"a\xff")` is printed as `a` and U+FFFD.
    #[inline]
    pub fn from_bytes(bytes: &'a [u8]) -> Display<'a>
        ensures { result.bytes.now ≡ bytes.now }
    {
        Display { bytes }
    }
}

/// Writes the lossy text: valid UTF-8 unchanged (RFC 3629 section 4), and one U+FFFD for each group
/// of invalid bytes. Such a group is the longest valid beginning of a UTF-8 sequence that is cut
/// off, or else a single byte.
///
/// Valid UTF-8 is formatted like a `str` (width, precision, fill and alignment). Other bytes are
/// printed without padding or truncation. Fails only if the writer does.
///
/// The bytes 61 FF are printed as `a` and U+FFFD.
impl fmt::Display for Display<'_> {
    ghost output = { λ d. Some (lossy_of d.bytes.now) };

    ghost styled_output = { λ d spec.
        let s = d.bytes.now in
        Some (if is_text s then padded spec s else lossy_of s) };

    fn fmt<W: fmt::Write>(&self, f: &mut fmt::Formatter<W>) -> fmt::Result {
        fmt::Display::fmt(&Utf8Lossy::from_bytes(self.bytes), f)
    }
}

/// Writes the debug form of the lossy text: for `tmp` it is `"tmp"`.
impl fmt::Debug for Display<'_> {
    fn fmt<W: fmt::Write>(&self, f: &mut fmt::Formatter<W>) -> fmt::Result {
        fmt::Debug::fmt(&UnixStr::from_bytes(self.bytes), f)
    }
}

impl<'a> Path<'a> {
    /// Returns the path as a `str` if its bytes are valid UTF-8 (RFC 3629 section 4), and `None`
    /// otherwise.
    ///
    /// For `/tmp` it is `/tmp`, and for the bytes 61 FF it is `None`.
    #[must_use]
    #[inline]
    pub fn to_str(&self) -> Option<&'a str>
        ensures value { IsSome result ↔ IsText self.now.bytes.now }
        ensures bytes { IfSome result (λ text. text.now ≡ self.now.bytes.now) }
    {
        self.as_unix_str().to_str()
    }

    /// Returns the path as lossy text, with U+FFFD for invalid bytes, as `Display` prints it.
    ///
    /// If the bytes are valid UTF-8, the text is borrowed and nothing is allocated. Otherwise it
    /// allocates, and fails if an allocation fails.
    ///
    /// For the bytes 61 FF it is `a` and U+FFFD.
    #[must_use]
    pub fn to_string_lossy(&self, alloc: Global) -> Result<LossyText<'a>, AllocError>
        ensures value { IfOk result (λ text. text_bytes text ≡ lossy_of self.now.bytes.now) }
        ensures borrowed { IfOk result (λ text. IsBorrowed text ↔ IsText self.now.bytes.now) }
        ensures succeeds { IsText self.now.bytes.now → IsOk result }
    {
        self.as_unix_str().to_string_lossy(alloc)
    }

    /// Returns a view that prints the path as lossy text.
    ///
    /// For `/tmp` it prints `/tmp`.
    #[must_use]
    #[inline]
    pub fn display(&self) -> Display<'a>
        ensures { result.bytes.now ≡ self.now.bytes.now }
    {
        Display::from_bytes(self.bytes)
    }
}
