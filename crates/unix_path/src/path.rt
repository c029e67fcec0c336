//! The borrowed path, `Path`.
//!
//! Its other methods are grouped by subject:
//! - `path/parents.rt`: `parent` and `ancestors`;
//! - `path/file_name.rt`: `file_name`, `file_stem`, `extension` and `file_prefix`;
//! - `path/prefix.rt`: `strip_prefix`, `starts_with` and `ends_with`;
//! - `path/common_dir.rt`: `common_dir`;
//! - `display.rt`: `to_str`, `to_string_lossy` and `display`;
//! - `buf/conversions.rt`: `to_path_buf`;
//! - `buf/edits.rt`: `join` and `with_file_name`;
//! - `buf/extensions.rt`: `with_extension` and `with_added_extension`.
//!
//! `order.rt` defines the equality, order and hash of a `Path`. `json.rt`, `kept/boxed.rt`,
//! `kept/rc.rt` and `kept/cow.rt` contain the functions that convert a `Path`.
ghost use Rattle.std.specs.Prelude.{◌≡◌, ◌↔◌, ◌<◌, ◌^◌, not, [], ◌∷◌, length, map};
ghost use Rattle.std.specs.Prelude.{IsTrue, IsFalse};
ghost use Rattle.unix_path.specs.Parts.{RootDir, slash, values, value_bytes, is_rooted};
ghost use Rattle.unix_path.specs.Rest.{rest};
ghost use Rattle.unix_path.specs.Cursor.{cursor_rest, cursor_source, cursor_start, cursor_values};
ghost use Rattle.unix_path.specs.Cursor.{iter_cursor, iter_bytes};
ghost use Rattle.unix_path.specs.Prefixes.{IsPrefixOf};
ghost use Rattle.unix_path.specs.Slices.{LiesIn, memory_offset};

mod common_dir;
mod file_name;
mod parents;
mod prefix;

use crate::cursor::{Components, Iter};
pub use prefix::StripPrefixError;
use std::fmt;
use unix_bytes::bytes::UnixStr;

/// A borrowed path: bytes that slashes separate into components.
///
/// Any byte string is a path, including the empty one, and a `Path` keeps all of its bytes. Slashes
/// and `.` pieces that are not components are filler. Copying a `Path` copies the view, not the
/// bytes. The type corresponds to Rust's `&Path`.
///
/// `///foo///bar` has three components: the root, `foo` and `bar`.
#[derive(Clone, Copy)]
pub struct Path<'a> {
    /// The path's bytes.
    pub bytes: &'a [u8],
}

/// The separator of components, `/`.
pub const MAIN_SEPARATOR: char = '/';

const _: () = prove!(MAIN_SEPARATOR == '/');

/// Returns true if and only if the character is `/`, the separator of components.
///
/// `is_separator('/')` is true, and `is_separator('\\')` is false.
#[must_use]
#[inline]
pub fn is_separator(c: char) -> bool
    ensures { IsTrue result ↔ (c ≡ slash) }
{
    c == MAIN_SEPARATOR
}

impl<'a> Path<'a> {
    /// Returns the path with these bytes, in the same memory.
    ///
    /// `Path::new(UnixStr::new("/tmp"))` is the path `/tmp`.
    #[inline]
    pub fn new(text: UnixStr<'a>) -> Path<'a>
        ensures bytes { result.bytes.now ≡ text.entry.bytes.now }
        ensures place { result.bytes ≡ text.entry.bytes }
    {
        Path { bytes: text.bytes }
    }

    /// Returns this slice as a path, without copying it. The slice may contain any bytes.
    ///
    /// `Path::from_bytes(b"/tmp")` is the path `/tmp`.
    #[inline]
    pub fn from_bytes(bytes: &'a [u8]) -> Path<'a>
        ensures bytes { result.bytes.now ≡ bytes.now }
        ensures place { result.bytes ≡ bytes.entry }
    {
        Path { bytes }
    }

    /// Returns the path with the bytes of `text`, which are UTF-8. Like Rust's `Path::new` of a
    /// `&str`.
    ///
    /// `Path::from_text("/tmp")` is the path `/tmp`.
    #[inline]
    pub fn from_text(text: &'a str) -> Path<'a>
        ensures { result.bytes.now ≡ text.now }
    {
        Path {
            bytes: text.as_bytes(),
        }
    }

    /// Returns all bytes of the path, in the same memory. Like Rust's `Path::as_os_str`.
    ///
    /// For the path `a//b/` it is `a//b/`.
    #[must_use]
    #[inline]
    pub fn as_unix_str(&self) -> UnixStr<'a>
        ensures bytes { result.bytes.now ≡ self.now.bytes.now }
        ensures place { result.bytes ≡ self.now.bytes }
    {
        UnixStr { bytes: self.bytes }
    }

    /// Returns true if and only if the path starts with the root.
    ///
    /// `/tmp` is absolute, and `tmp` isn't.
    #[must_use]
    #[inline]
    pub fn is_absolute(&self) -> bool
        ensures value { result ≡ is_rooted self.now.bytes.now }
        ensures root { IsTrue result ↔ IsPrefixOf (RootDir ∷ []) (values self.now.bytes.now) }
    {
        self.has_root()
    }

    /// Returns true if and only if the path does not start with the root.
    ///
    /// `./tmp` is relative, and so is the empty path.
    #[must_use]
    #[inline]
    pub fn is_relative(&self) -> bool
        ensures value { result ≡ not (is_rooted self.now.bytes.now) }
        ensures root { IsFalse result ↔ IsPrefixOf (RootDir ∷ []) (values self.now.bytes.now) }
    {
        !self.is_absolute()
    }

    /// Returns true if and only if the path starts with the root, that is, if its first byte is
    /// `/`.
    ///
    /// `//tmp` has a root, and `tmp/` has none.
    #[must_use]
    #[inline]
    pub fn has_root(&self) -> bool
        ensures value { result ≡ is_rooted self.now.bytes.now }
        ensures root { IsTrue result ↔ IsPrefixOf (RootDir ∷ []) (values self.now.bytes.now) }
    {
        !self.bytes.is_empty() && self.bytes[0] == b'/'
    }

    /// Returns a walk over the components, from both ends.
    ///
    /// For `///foo///bar` it yields the root, `foo` and `bar`.
    #[inline]
    pub fn components(&self) -> Components<'a>
        ensures rest { cursor_rest result ≡ rest self.now.bytes.now 0 0 }
        ensures place { LiesIn (cursor_source result) self.now.bytes }
        ensures start { cursor_start result ≡ memory_offset self.now.bytes }
        ensures values { cursor_values result ≡ values self.now.bytes.now }
        ensures len { length (cursor_values result) < 2 ^ 64 }
    {
        Components::new(self.bytes)
    }

    /// Returns a walk over the bytes of each component, from both ends.
    ///
    /// For `///foo///bar` it yields `/`, `foo` and `bar`.
    #[inline]
    pub fn iter(&self) -> Iter<'a>
        ensures rest { cursor_rest (iter_cursor result) ≡ rest self.now.bytes.now 0 0 }
        ensures place { LiesIn (cursor_source (iter_cursor result)) self.now.bytes }
        ensures start { cursor_start (iter_cursor result) ≡ memory_offset self.now.bytes }
        ensures bytes { iter_bytes result ≡ map value_bytes (values self.now.bytes.now) }
        ensures len { length (iter_bytes result) < 2 ^ 64 }
    {
        Iter::new(self.components())
    }
}

/// Converts the path into the walk that `iter` returns. Like Rust's `IntoIterator` of `&Path`.
///
/// For `///foo///bar` it yields `/`, `foo` and `bar`.
impl<'a> IntoIterator for Path<'a> {
    type Item = UnixStr<'a>;

    type IntoIter = Iter<'a>;

    ghost into_iter_gives = { λ path walk.
        (cursor_rest (iter_cursor walk) ≡ rest path.bytes.now 0 0)
        × (iter_bytes walk ≡ map value_bytes (values path.bytes.now))
        × (length (iter_bytes walk) < 2 ^ 64) };

    #[inline]
    fn into_iter(self) -> Iter<'a> {
        self.iter()
    }
}

/// Writes the debug form of `as_unix_str`: for `/tmp` it is `"/tmp"`.
impl fmt::Debug for Path<'_> {
    fn fmt<W: fmt::Write>(&self, f: &mut fmt::Formatter<W>) -> fmt::Result {
        fmt::Debug::fmt(&self.as_unix_str(), f)
    }
}
