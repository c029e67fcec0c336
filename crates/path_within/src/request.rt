//! Requests: paths from outside, checked once.
ghost use Rattle.std.specs.Prelude.{◌≡◌, ◌↔◌, ◌≤◌, true, false, not, []};
ghost use Rattle.std.specs.Prelude.{length, option_map, IfOk, IsErrOf, IsTrue, Some};
ghost use Rattle.std.specs.List.{position_or_len};
ghost use Rattle.std.specs.Fmt.{padded};
ghost use Rattle.unix_path.specs.Names.{file_name_of};
ghost use Rattle.unix_path.specs.Parts.{is_rooted, is_slash, values};
ghost use Rattle.unix_path.specs.Prefixes.{IsPrefixOf};
ghost use Rattle.unix_path.specs.Slices.{LiesIn};
ghost use Rattle.path_runs.specs.Buffer.{buffer_after};
ghost use Rattle.path_within.specs.Escapes.{Escapes};
ghost use Rattle.path_within.specs.NamePieces.{is_names_only};
ghost use Rattle.path_within.specs.Resolved.{resolved_of};
ghost use Rattle.path_within.specs.Below.{names_below, has_nul, after_leading_slashes};
ghost use Rattle.path_within.specs.Below.{ends_in_slash};
ghost use Rattle.path_within.specs.Below.{below_of, IsBelow};

use crate::backward::{LastResolved, Pieces};
use crate::check::{check_escape, has_nul};
use crate::names_only::is_names_only;
use crate::write::{Layout, Names};
use std::error::Error;
use std::fmt;
use unix_bytes::bytes::UnixStr;
use unix_path::Path;

/// The reason why a path from outside is refused.
///
/// Displaying it pads the text like any string.
#[derive(Clone, Copy, Debug, PartialEq, Eq)]
pub enum RequestError {
    /// The path has a root. It is printed as `path has a root`.
    Rooted,
    /// The path has no root, and a `..` leads above the directory that the path is joined to. It is
    /// printed as `path leaves its root`.
    Escapes,
    /// The path has a NUL byte. `Request::beneath` tests for the other two errors first. It is
    /// printed as `path has a NUL byte`.
    Nul,
}

/// Writes the text of the variant, padded and truncated like a `str`.
///
/// `RequestError::Rooted` is printed as `path has a root`.
impl fmt::Display for RequestError {
    ghost use Rattle.path_within.specs.Errors.{request_error_text};

    ghost output = { λ error. Some (request_error_text error) };

    ghost styled_output = { λ error spec. Some (padded spec (request_error_text error)) };

    fn fmt<W: fmt::Write>(&self, f: &mut fmt::Formatter<W>) -> fmt::Result {
        f.pad(match self {
            RequestError::Rooted => "path has a root",
            RequestError::Escapes => "path leaves its root",
            RequestError::Nul => "path has a NUL byte",
        })
    }
}

impl Error for RequestError {}

// Returns the number of leading slashes.
#[inline]
fn leading_slash_count(bytes: &[u8]) -> usize
    ensures value { result ≡ position_or_len (λ b. not (is_slash b)) bytes.now }
    ensures in_range { result ≤ length bytes.now }
{
    for (index, byte) in bytes.iter().enumerate() {
        if *byte != b'/' {
            return index;
        }
    }
    bytes.len()
}

/// A path from outside that was checked. It represents a list of names, which are safe to append to
/// any root directory.
///
/// The names are those of the path, resolved lexically: each `..` drops the name before it, if
/// there is one. Symbolic links are not followed. A request borrows the path; copying a request
/// copies no bytes.
///
/// `a/../b` represents the name `b`, and `a/..` no name.
#[derive(Clone, Copy)]
pub struct Request<'a> {
    path: Path<'a>,
    // If true, the bytes are names with single slashes between them, so a join copies the path as a
    // whole, without parsing it. If false, nothing is known of the bytes.
    is_verbatim: bool,
    ghost rootless: { is_rooted path.bytes.now ≡ false },
    ghost no_nul: { has_nul path.bytes.now ≡ false },
    ghost names_verbatim: { IsTrue is_verbatim → is_names_only path.bytes.now ≡ true },
}

impl<'a> Request<'a> {
    ghost use Rattle.path_within.specs.Layouts.{names_in};
    ghost use Rattle.path_within.specs.Requests.{request_bytes, request_names, request_slice};

    // Wraps a path that the caller has checked. The path has no root and no NUL. If `is_verbatim`
    // is true, the path is one of names only.
    #[inline]
    pub(crate) fn from_checked(path: Path<'a>, is_verbatim: bool) -> Request<'a>
        requires rootless { is_rooted path.bytes.now ≡ false }
        requires no_nul { has_nul path.bytes.now ≡ false }
        requires names_verbatim { IsTrue is_verbatim → is_names_only path.bytes.now ≡ true }
        ensures bytes { request_bytes result ≡ path.entry.bytes.now }
        ensures place { request_slice result ≡ path.entry.bytes }
    {
        Request { path, is_verbatim }
    }

    /// Checks a path from outside that must stay beneath the root to which it will be joined.
    ///
    /// The request represents the names that remain of the path after it is resolved. The path is
    /// refused with the first error that applies: `Rooted` if it has a root, `Escapes` if some
    /// prefix of its components has more `..` than names, `Nul` if it has a NUL byte. Go's
    /// `filepath.IsLocal` is the same test, except that it refuses the empty path and accepts a
    /// NUL.
    ///
    /// `a//../b` becomes a request that represents `b`. `/a`, `a/../..` and `a\0.png` are refused.
    #[inline]
    #[tactic(auto, using(crate::proofs::lemmas::below::NamesBelowLemmas::request_beneath_cases))]
    pub fn beneath(path: Path<'a>) -> Result<Request<'a>, RequestError>
        ensures rooted { IsErrOf result RequestError.Rooted
            ↔ (is_rooted path.entry.bytes.now ≡ true) }
        ensures escapes { IsErrOf result RequestError.Escapes
            ↔ ((is_rooted path.entry.bytes.now ≡ false)
            × Escapes (values path.entry.bytes.now)) }
        ensures nul { IsErrOf result RequestError.Nul
            ↔ ((Escapes (values path.entry.bytes.now) → ⊥)
            × (has_nul path.entry.bytes.now ≡ true)) }
        ensures bytes { IfOk result (λ r. request_bytes r ≡ path.entry.bytes.now) }
        ensures place { IfOk result (λ r. LiesIn (request_slice r) path.entry.bytes) }
        ensures names { IfOk result (λ r.
            request_names r ≡ resolved_of (values path.entry.bytes.now)) }
    {
        // Only the first byte is read, so that a path with a root is refused at once.
        if path.has_root() {
            return Err(RequestError::Rooted);
        }
        let check = check_escape(path);
        if check.is_refused() {
            return Err(RequestError::Escapes);
        }
        if has_nul(path.bytes) {
            return Err(RequestError::Nul);
        }
        Ok(Request {
            path,
            is_verbatim: check.is_names_only(),
        })
    }

    /// Checks a path from outside that is read as in a chroot: leading slashes are dropped, and a
    /// `..` at the top stays at the top. It is for the paths of URLs, and for other requests that
    /// are read as in a chroot; for entries of archives use `beneath`. Percent-encoding is not
    /// decoded.
    ///
    /// The error is `Nul` if and only if the path has a NUL byte; there is no other error. The
    /// names are those of Go's `path.Clean` for `/` followed by the path.
    ///
    /// `//a/../../b` becomes a request that represents `b`, and `/` becomes a request that
    /// represents no name.
    #[tactic(auto, using(crate::proofs::lemmas::below::NamesBelowLemmas::request_in_root_cases))]
    pub fn in_root(path: Path<'a>) -> Result<Request<'a>, RequestError>
        ensures rooted { IsErrOf result RequestError.Rooted → ⊥ }
        ensures escapes { IsErrOf result RequestError.Escapes → ⊥ }
        ensures nul { IsErrOf result RequestError.Nul ↔ (has_nul path.entry.bytes.now ≡ true) }
        ensures bytes { IfOk result
            (λ r. request_bytes r ≡ after_leading_slashes path.entry.bytes.now) }
        ensures place { IfOk result (λ r. LiesIn (request_slice r) path.entry.bytes) }
        ensures names { IfOk result (λ r.
            request_names r ≡ names_below (values path.entry.bytes.now)) }
    {
        if has_nul(path.bytes) {
            return Err(RequestError::Nul);
        }
        let rest = Path::from_bytes(&path.bytes[leading_slash_count(path.bytes)..]);
        Ok(Request {
            path: rest,
            is_verbatim: is_names_only(rest),
        })
    }

    /// Returns the path of the request, unresolved. If `in_root` returned the request, the path has
    /// lost its leading slashes, and it may escape: join the request, never this path.
    ///
    /// For the request of `a/../b/` it is `a/../b/`.
    #[must_use]
    #[inline]
    pub fn as_path(&self) -> Path<'a>
        ensures bytes { result.bytes.now ≡ request_bytes self.now }
        ensures place { LiesIn result.bytes (request_slice self.now) }
        ensures rootless { is_rooted result.bytes.now ≡ false }
        ensures no_nul { has_nul result.bytes.now ≡ false }
    {
        self.path
    }

    // Returns true only if the bytes are names with single slashes between them.
    #[inline]
    pub(crate) fn is_verbatim(&self) -> bool
        ensures { IsTrue result → is_names_only (request_bytes self.now) ≡ true }
    {
        self.is_verbatim
    }

    // Returns the names that the request represents.
    #[inline]
    fn names(self) -> Names<'a>
        ensures { names_in result ≡ request_names self.entry }
    {
        Layout::names_of(self.path, self.is_verbatim)
    }

    /// Joins the request to a root, and writes the join to the beginning of `out`. Returns the
    /// length of the join.
    ///
    /// `Root::join` returns the same join for a root created by `Root::verbatim`. The root's bytes
    /// come first, unchanged; to join to a resolved root, resolve the root once beforehand. The
    /// names follow, with a `/` between two names, and a `/` before the first name unless the root
    /// is empty or ends in `/`. If the join fits, the rest of `out` is unchanged. If the join is
    /// longer than `out`, nothing is written, and its length is still returned.
    ///
    /// Below `/srv/www` the request `a/../b/` is `/srv/www/b`, of 10 bytes.
    pub fn write_below(self, root: Path<'_>, out: &mut [u8]) -> usize
        ensures out { out.new
            ≡ buffer_after (below_of root.entry.bytes.now (request_names self.entry)) out.old }
        ensures length { result
            ≡ length (below_of root.entry.bytes.now (request_names self.entry)) }
        ensures begins { IsPrefixOf root.entry.bytes.now
            (below_of root.entry.bytes.now (request_names self.entry)) }
        ensures below { IsBelow root.entry.bytes.now
            (below_of root.entry.bytes.now (request_names self.entry)) }
    {
        self.names().write_join(root.bytes, out)
    }

    /// Returns the last of the request's names, or `None` if it has none.
    ///
    /// For the request of `a/b/..` it is `a`, while `Path::file_name`, which does not resolve,
    /// returns `None`.
    #[must_use]
    pub fn file_name(&self) -> Option<UnixStr<'a>>
        ensures { option_map (λ name. name.bytes.now) result
            ≡ file_name_of (request_names self.now) }
    {
        match Pieces::new(self.path).next_back_resolved() {
            LastResolved::Name(name) => Some(name),
            LastResolved::ParentDirs(_) => None,
        }
    }

    /// Returns true if the request has no names, so that a join with it is the root itself.
    ///
    /// It is true for the requests of `a/..` and the empty path, and false for the request of
    /// `.foo`.
    #[must_use]
    pub fn is_root(&self) -> bool
        ensures { IsTrue result ↔ (request_names self.now ≡ []) }
    {
        request_is_root(self.path)
    }

    /// Returns true if the path's last component is a name, and a slash or a `/.` follows it. The
    /// path is not resolved for this.
    ///
    /// A system call then requires the name to be a directory. A join drops the slash or `/.`.
    ///
    /// It is true for the requests of `a/` and `a/.`, and false for the requests of `a` and `a/..`.
    #[must_use]
    pub fn ends_in_slash(&self) -> bool
        ensures { result ≡ ends_in_slash (request_bytes self.now) }
    {
        ends_in_slash(self.path)
    }
}

/// Writes the debug form of `as_path`. For the request of `a/b` it is `"a/b"`.
impl fmt::Debug for Request<'_> {
    fn fmt<W: fmt::Write>(&self, f: &mut fmt::Formatter<W>) -> fmt::Result {
        fmt::Debug::fmt(&self.as_path(), f)
    }
}

/// Returns true if no name remains of the path after it is resolved as in a chroot. If
/// `Request::in_root` accepts such a path, a join with the request is the root itself.
/// `Request::beneath` may refuse such a path. Does not test for NUL bytes.
///
/// It is true for `a/..`, `/`, `..` and the empty path, and false for `.foo` and `a/../b`.
#[must_use]
pub fn request_is_root(path: Path<'_>) -> bool
    ensures { IsTrue result ↔ (names_below (values path.entry.bytes.now) ≡ []) }
{
    matches!(
        Pieces::new(path).next_back_resolved(),
        LastResolved::ParentDirs(_)
    )
}

/// Returns true if the path's last component is a name, and a slash or a `/.` follows it.
///
/// A system call then requires the name to be a directory. It is not a test for directories: it is
/// true for `a/` and `a/.`, and false for `a`, `a/..`, `.` and `/`.
#[must_use]
pub fn ends_in_slash(path: Path<'_>) -> bool
    ensures { result ≡ ends_in_slash path.entry.bytes.now }
{
    let end = path.components().as_path().as_unix_str().len();
    path.file_name().is_some() && end < path.as_unix_str().len()
}
