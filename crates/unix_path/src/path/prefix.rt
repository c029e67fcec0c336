//! Prefixes and suffixes of a path, compared by components.
ghost use Rattle.std.specs.Prelude.{◌≡◌, ◌↔◌, length, IsTrue, IsOk, IfOk, Some, codes};
ghost use Rattle.std.specs.Fmt.{padded};
ghost use Rattle.unix_path.specs.Prefixes.{IsPrefixOf, IsSuffixOf, stripped_of};
ghost use Rattle.unix_path.specs.Parts.{values};
ghost use Rattle.unix_path.specs.Rest.{rest};
ghost use Rattle.unix_path.specs.Slices.{EndsAt, LiesIn};

use crate::filler::{after_filler, trimmed_len};
use crate::pair::Pair;
use crate::path::Path;
use crate::suffixes::{ends_with_parts, shared_last_len};
use std::error::Error;
use std::fmt;

/// The error of `Path::strip_prefix`: the path does not start with the base.
///
/// It is printed as `prefix not found`, formatted like a `str` (width, precision, fill and
/// alignment).
///
/// `strip_prefix` of `foo/bar` with the base `foo/baz` returns it.
#[derive(Clone, Copy, Debug, PartialEq, Eq)]
pub struct StripPrefixError(());

/// Writes `prefix not found`, formatted like a `str` (width, precision, fill and alignment).
impl fmt::Display for StripPrefixError {
    ghost output = { λ _. Some (codes "prefix not found") };

    ghost styled_output = { λ _ spec. Some (padded spec (codes "prefix not found")) };

    fn fmt<W: fmt::Write>(&self, f: &mut fmt::Formatter<W>) -> fmt::Result {
        f.pad("prefix not found")
    }
}

impl Error for StripPrefixError {}

impl<'a> Path<'a> {
    /// Returns the rest of this path after `base`, as a slice of this path's bytes, in the same
    /// memory. Fails if and only if `starts_with` is false.
    ///
    /// Only whole components count: `foo/bar` has no prefix `foo/ba`. The slice ends where this
    /// path's last component ends, even if it is empty because all components match. In Rust an
    /// empty result may lie after that end.
    ///
    /// The result may escape: for `/dest/../etc` and the base `/dest` it is `../etc`. To keep a
    /// path below a directory, use `Request::beneath` and `Root::join` of the crate `path_within`
    /// (C: `unix_path_join_beneath`), or its `join_within`.
    ///
    /// For `/a//b/` and the base `/a` it is `b`.
    // Always inlined, so that the call from C is one function, although other crates call this too.
    #[inline(always)]
    #[tactic(auto, using(crate::proofs::lemmas::order::StripLemmas::stripped))]
    pub fn strip_prefix(&self, base: Path<'_>) -> Result<Path<'a>, StripPrefixError>
        ensures ok { IsOk result
            ↔ IsPrefixOf (values base.entry.bytes.now) (values self.now.bytes.now) }
        ensures value { IfOk result (λ rest_bytes.
            rest_bytes.bytes.now ≡ stripped_of self.now.bytes.now base.entry.bytes.now) }
        ensures place { IfOk result (λ rest_bytes. LiesIn rest_bytes.bytes self.now.bytes) }
        ensures end { IfOk result (λ rest_bytes.
            EndsAt rest_bytes.bytes self.now.bytes (length (rest self.now.bytes.now 0 0))) }
    {
        // Drops trailing filler first, so that the result ends where the last component does.
        let path = &self.bytes[..trimmed_len(self.bytes, 0, self.bytes.len())];
        if base.bytes.is_empty() {
            return Ok(Path { bytes: path });
        }
        match Pair::rest_bytes(path, base.bytes) {
            Some(rest_bytes) => Ok(Path {
                bytes: after_filler(rest_bytes),
            }),
            None => Err(StripPrefixError(())),
        }
    }

    /// Returns true if and only if this path's components start with `base`'s components. Every
    /// path starts with the empty path.
    ///
    /// A path that starts with a directory may still leave it: no `..` is resolved, and
    /// `/dest/../etc` starts with `/dest`. To keep a path below a directory, use `Request::beneath`
    /// and `Root::join` of the crate `path_within` (C: `unix_path_join_beneath`), or its
    /// `join_within`.
    ///
    /// `/etc/passwd` starts with `/etc/`, and not with `/e`.
    // Always inlined, for the same reason as `strip_prefix`.
    #[must_use]
    #[inline(always)]
    #[tactic(auto, using(crate::proofs::lemmas::order::StripLemmas::empty_begins))]
    pub fn starts_with(&self, base: Path<'_>) -> bool
        ensures { IsTrue result
            ↔ IsPrefixOf (values base.entry.bytes.now) (values self.now.bytes.now) }
    {
        base.bytes.is_empty() || Pair::rest_bytes(self.bytes, base.bytes).is_some()
    }

    /// Returns true if and only if this path's components end with `child`'s components.
    ///
    /// `a/b` ends with `b`, and with neither `./b` nor `/b`.
    #[must_use]
    #[inline]
    pub fn ends_with(&self, child: Path<'_>) -> bool
        ensures { IsTrue result
            ↔ IsSuffixOf (values child.entry.bytes.now) (values self.now.bytes.now) }
    {
        match shared_last_len(self.bytes, child.bytes) {
            Some(shared) => ends_with_parts(
                &self.bytes[..self.bytes.len() - shared],
                &child.bytes[..child.bytes.len() - shared],
            ),
            None => false,
        }
    }
}
