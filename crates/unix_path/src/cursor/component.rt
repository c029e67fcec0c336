//! The components that a walk yields.
ghost use Rattle.std.specs.Prelude.{◌≡◌, ◌↔◌, IsTrue};
ghost use Rattle.unix_path.specs.Parts.{value_bytes};
ghost use Rattle.unix_path.specs.Views.{value_of};

use crate::path::Path;
use unix_bytes::bytes::UnixStr;

/// One component of a path.
///
/// Two components are equal if and only if they are of the same kind and, if they are names, have
/// the same bytes. `RootDir` sorts first, then `CurDir`, then `ParentDir`, then the names by their
/// bytes. A hasher is fed the component's bytes, a slash, and zeros up to a multiple of eight
/// bytes. Rust's `Component` also has `Prefix`.
///
/// The components of `foo/../bar` are `Normal` of `foo`, `ParentDir`, and `Normal` of `bar`.
#[derive(Clone, Copy, Debug, PartialEq, Eq, PartialOrd, Ord)]
pub enum Component<'a> {
    /// The root at the start of a path, such as `/tmp`.
    RootDir,
    /// A `.` at the start of a path, such as `./tmp`. Any later `.` is filler.
    CurDir,
    /// A `..`, which is kept unresolved.
    ParentDir,
    /// A name, such as `tmp` in `/tmp`.
    Normal(UnixStr<'a>),
}

impl<'a> Component<'a> {
    /// Returns the component's bytes: `/`, `.`, `..` or the name. Like Rust's
    /// `Component::as_os_str`.
    ///
    /// For `Component::ParentDir` it is `..`.
    #[must_use]
    #[inline]
    pub fn as_unix_str(self) -> UnixStr<'a>
        ensures { result.bytes.now ≡ value_bytes (value_of self.entry) }
    {
        match self {
            Component::RootDir => UnixStr { bytes: b"/" },
            Component::CurDir => UnixStr { bytes: b"." },
            Component::ParentDir => UnixStr { bytes: b".." },
            Component::Normal(name) => name,
        }
    }

    /// Returns the component's bytes as a path. Like `AsRef<Path>` of Rust's `Component`.
    ///
    /// For `Component::RootDir` it is the path `/`.
    #[inline]
    pub fn as_path(self) -> Path<'a>
        ensures { result.bytes.now ≡ value_bytes (value_of self.entry) }
    {
        Path::new(self.as_unix_str())
    }

    // Compares two components like `==`, with a contract about their values.
    #[inline]
    pub(crate) fn has_same_value(self, other: Component<'_>) -> bool
        ensures { IsTrue result ↔ (value_of self.entry ≡ value_of other.entry) }
    {
        self == other
    }
}
