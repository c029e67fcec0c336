//! Conversions between owned paths, bytes and strings.
ghost use Rattle.std.specs.Prelude.{◌≡◌, [], IfOk, IsOk, string_bytes};
ghost use Rattle.std.specs.String.{string_capacity};
ghost use Rattle.unix_bytes.specs.Owned.{owned_bytes, owned_capacity};
ghost use Rattle.unix_path.specs.Buffers.{path_bytes, capacity};

use crate::buf::PathBuf;
use crate::path::Path;
use std::alloc::{AllocError, Global};
use unix_bytes::bytes::{UnixStr, UnixString};

impl PathBuf {
    /// Returns the path with a copy of these bytes.
    ///
    /// Allocates once, and fails if the allocation fails. If there are no bytes, it does not
    /// allocate, and succeeds. Like Rust's `From<&OsStr>` of `PathBuf`.
    ///
    /// For `tmp/` it is the path `tmp/`.
    pub fn from_unix_str(alloc: Global, text: UnixStr<'_>) -> Result<PathBuf, AllocError>
        ensures bytes { IfOk result (λ p. path_bytes p ≡ text.entry.bytes.now) }
        ensures succeeds { text.entry.bytes.now ≡ [] → IsOk result }
    {
        let inner = text.to_unix_string(alloc)?;
        Ok(PathBuf { inner })
    }

    /// Returns the path with a copy of the bytes of `text`, which are UTF-8.
    ///
    /// Allocates once, and fails if the allocation fails. If there are no bytes, it does not
    /// allocate, and succeeds. Like Rust's `From<&str>` of `PathBuf`.
    ///
    /// `PathBuf::from_text(alloc, "/tmp")?` is the path `/tmp`.
    pub fn from_text(alloc: Global, text: &str) -> Result<PathBuf, AllocError>
        ensures bytes { IfOk result (λ p. path_bytes p ≡ text.now) }
        ensures succeeds { text.now ≡ [] → IsOk result }
    {
        PathBuf::from_unix_str(alloc, UnixStr::new(text))
    }

    /// Returns the path's bytes, in the same memory and with the same capacity. Like Rust's
    /// `PathBuf::into_os_string`.
    ///
    /// For the path `foo/` it is `foo/`.
    #[must_use]
    #[inline]
    pub fn into_unix_string(self) -> UnixString
        ensures bytes { owned_bytes result ≡ path_bytes self }
        ensures capacity { owned_capacity result ≡ capacity self }
    {
        self.inner
    }
}

impl<'a> Path<'a> {
    /// Returns a copy of the path that owns its bytes.
    ///
    /// Allocates once, and fails if the allocation fails. If the path is empty, it does not
    /// allocate, and succeeds.
    ///
    /// For `foo/` it is another `foo/`.
    #[must_use]
    pub fn to_path_buf(&self, alloc: Global) -> Result<PathBuf, AllocError>
        ensures bytes { IfOk result (λ p. path_bytes p ≡ self.now.bytes.now) }
        ensures succeeds { self.now.bytes.now ≡ [] → IsOk result }
    {
        PathBuf::from_unix_str(alloc, self.as_unix_str())
    }
}

/// Converts the bytes into a path, in the same memory and with the same capacity. Like Rust's
/// `From<OsString>` of `PathBuf`.
///
/// For `foo/` it is the path `foo/`.
impl From<UnixString> for PathBuf {
    ghost from_gives = { λ text p.
        (path_bytes p ≡ owned_bytes text) × (capacity p ≡ owned_capacity text) };

    #[inline]
    fn from(text: UnixString) -> PathBuf {
        PathBuf { inner: text }
    }
}

/// Converts the string into the path with the same bytes, in the same memory and with the same
/// capacity.
///
/// For the string `/tmp/` it is the path `/tmp/`.
impl From<String> for PathBuf {
    ghost from_gives = { λ text p.
        (path_bytes p ≡ string_bytes text) × (capacity p ≡ string_capacity text) };

    #[inline]
    fn from(text: String) -> PathBuf {
        PathBuf {
            inner: UnixString::from(text),
        }
    }
}

/// Converts the path into its bytes, as `into_unix_string` does. Like Rust's `From<PathBuf>` of
/// `OsString`.
///
/// For the path `foo/` it is `foo/`.
impl From<PathBuf> for UnixString {
    ghost from_gives = { λ p text.
        (owned_bytes text ≡ path_bytes p) × (owned_capacity text ≡ capacity p) };

    #[inline]
    fn from(path: PathBuf) -> UnixString {
        path.into_unix_string()
    }
}
