//! Edits of owned paths, and edited copies of paths. `buf/extensions.rt` contains the edits of an
//! extension.
ghost use Rattle.std.specs.Prelude.{◌≡◌, ◌+◌, ◌^◌, ◌<◌, ◌≤◌, ◌++◌, length, take};
ghost use Rattle.std.specs.Prelude.{false, [], IfOk, OnOk, OnErr, IsOk, is_some};
ghost use Rattle.unix_bytes.specs.Owned.{owned_bytes, owned_capacity};
ghost use Rattle.unix_path.specs.Buffers.{path_bytes, capacity};
ghost use Rattle.unix_path.specs.Edits.{popped_of, with_name_of};
ghost use Rattle.unix_path.specs.Joins.{needs_no_separator, join_of};
ghost use Rattle.unix_path.specs.Parents.{parent_of};
ghost use Rattle.unix_path.specs.Parts.{is_rooted};
ghost use Rattle.std.specs.Option.{option_to_list};

use crate::buf::PathBuf;
use crate::path::Path;
use crate::path_end::needs_no_separator;
use std::alloc::{AllocError, Global};
use unix_bytes::bytes::{UnixStr, UnixString};

// Returns the byte that a join of `path`, which has no root, to `base` puts between them, or `None`
// if it puts none there.
#[inline]
#[tactic(auto, using(crate::proofs::lemmas::edits::JoinLemmas::rootless_joins))]
fn join_separator(base: &[u8], path: Path<'_>) -> Option<u8>
    requires { is_rooted path.bytes.now ≡ false }
    ensures { join_of base.now path.entry.bytes.now
        ≡ (base.now ++ option_to_list result) ++ path.entry.bytes.now }
{
    if needs_no_separator(base) {
        return None;
    }
    Some(b'/')
}

// Returns how many bytes of `base` a join keeps, and the byte that the join puts between them and
// `path`, if any.
#[inline]
#[tactic(auto, using(crate::proofs::lemmas::edits::SeparatorLemmas::join_cases))]
fn join_cut(base: &[u8], path: Path<'_>) -> (usize, Option<u8>)
    ensures in_range { result.0 ≤ length base.now }
    ensures value { join_of base.now path.entry.bytes.now
        ≡ (take result.0 base.now ++ option_to_list result.1) ++ path.entry.bytes.now }
{
    if path.has_root() {
        return (0, None);
    }
    (base.len(), join_separator(base, path))
}

// Returns the sum of `keep`, the length of `separator` (0 or 1) and the length of `more`.
#[inline]
pub(super) fn total_len(keep: usize, separator: Option<u8>, more: &[u8]) -> usize
    requires { keep < 2 ^ 63 }
    ensures { result ≡ keep + length (option_to_list separator) + length more.now }
{
    match separator {
        Some(_) => keep + 1 + more.len(),
        None => keep + more.len(),
    }
}

// Appends to `text` the byte `separator`, if there is one, and then `more`.
#[inline]
fn push_with_separator(
    text: &mut UnixString,
    separator: Option<u8>,
    more: &[u8],
) -> Result<(), AllocError>
    ensures ok { OnOk result
        (owned_bytes text.new ≡ (owned_bytes text.old ++ option_to_list separator) ++ more.now) }
    ensures succeeds { length ((owned_bytes text.old ++ option_to_list separator) ++ more.now)
        ≤ owned_capacity text.old → IsOk result }
    ensures capacity { owned_capacity text.old ≤ owned_capacity text.new }
{
    if let Some(byte) = separator {
        text.push(UnixStr::from_bytes(&[byte]))?;
    }
    text.push(UnixStr::from_bytes(more))
}

// Returns the path that consists of `base`, the byte `separator` if there is one, and `more`.
// Allocates once, or not at all if the result is empty.
pub(super) fn concat_with_separator(
    alloc: Global,
    base: &[u8],
    separator: Option<u8>,
    more: &[u8],
) -> Result<PathBuf, AllocError>
    ensures bytes { IfOk result
        (λ p. path_bytes p ≡ (base.now ++ option_to_list separator) ++ more.now) }
    ensures succeeds { (base.now ++ option_to_list separator) ++ more.now ≡ [] → IsOk result }
{
    let mut inner = UnixString::with_capacity(alloc, total_len(base.len(), separator, more))?;
    inner.push(UnixStr::from_bytes(base))?;
    push_with_separator(&mut inner, separator, more)?;
    Ok(PathBuf { inner })
}

impl PathBuf {
    /// Joins `path` to this path, in place.
    ///
    /// If `path` begins with `/`, it replaces all bytes of this path. Otherwise it is appended,
    /// after a `/` unless this path is empty or ends in `/`.
    ///
    /// Allocates only if the join is longer than the capacity, and then once. If the allocation
    /// fails, the bytes are unchanged.
    ///
    /// `/foo/bar` after a push of `./baz` is `/foo/bar/./baz`, and `foo` after a push of the empty
    /// path is `foo/`.
    #[inline(always)]
    #[tactic(auto, using(crate::proofs::lemmas::edits::JoinLemmas::push_cases))]
    pub fn push(&mut self, path: Path<'_>) -> Result<(), AllocError>
        ensures ok { OnOk result
            (path_bytes self.new ≡ join_of (path_bytes self.old) path.entry.bytes.now) }
        ensures err { OnErr result (path_bytes self.new ≡ path_bytes self.old) }
        ensures succeeds { length (join_of (path_bytes self.old) path.entry.bytes.now)
            ≤ capacity self.old → IsOk result }
        ensures capacity { capacity self.old ≤ capacity self.new }
    {
        if path.has_root() {
            return self.replace(path);
        }
        if needs_no_separator(self.as_path().bytes) {
            return self.inner.push(path.as_unix_str());
        }
        // Reserves capacity for the slash and the path first, so that a failed allocation leaves
        // the bytes unchanged.
        self.inner.reserve(1 + path.bytes.len())?;
        self.inner.push(UnixStr::from_bytes(b"/"))?;
        self.inner.push(path.as_unix_str())
    }

    // Replaces all bytes of this path by the bytes of `path`. Not inlined, so that `push`, which is
    // always inlined, stays small.
    #[inline(never)]
    fn replace(&mut self, path: Path<'_>) -> Result<(), AllocError>
        ensures ok { OnOk result (path_bytes self.new ≡ path.entry.bytes.now) }
        ensures err { OnErr result (path_bytes self.new ≡ path_bytes self.old) }
        ensures succeeds { length path.entry.bytes.now ≤ capacity self.old → IsOk result }
        ensures capacity { capacity self.old ≤ capacity self.new }
    {
        self.replace_end(0, None, path.bytes)
    }

    /// Shortens the path to its parent and returns true. If there is no parent, leaves the bytes
    /// unchanged and returns false.
    ///
    /// The filler before and after the last component is removed with it.
    ///
    /// `foo//bar/.` after `pop` is `foo`.
    #[tactic(auto, using(crate::proofs::lemmas::edits::EditLemmas::pop_cases))]
    pub fn pop(&mut self) -> bool
        ensures value { result ≡ is_some (parent_of (path_bytes self.old)) }
        ensures bytes { path_bytes self.new ≡ popped_of (path_bytes self.old) }
        ensures capacity { capacity self.new ≡ capacity self.old }
    {
        let Some(len) = self.as_path().parent_len() else {
            return false;
        };
        self.inner.truncate(len);
        true
    }

    /// Removes the file name if there is one, as `pop` does, and then pushes the new name.
    ///
    /// The name isn't checked: a name that begins with `/` replaces all bytes, and the name `..` is
    /// pushed like any other. Allocates only if the result is longer than the capacity, and then
    /// once. If the allocation fails, the bytes are unchanged.
    ///
    /// `foo/.` with the file name `bar` is `bar`, and `foo/..` with the file name `bar` is
    /// `foo/../bar`.
    #[tactic(auto, using(crate::proofs::lemmas::edits::SeparatorLemmas::beginnings))]
    pub fn set_file_name(&mut self, name: UnixStr<'_>) -> Result<(), AllocError>
        ensures ok { OnOk result
            (path_bytes self.new ≡ with_name_of (path_bytes self.old) name.entry.bytes.now) }
        ensures err { OnErr result (path_bytes self.new ≡ path_bytes self.old) }
        ensures succeeds { length (with_name_of (path_bytes self.old) name.entry.bytes.now)
            ≤ capacity self.old → IsOk result }
        ensures capacity { capacity self.old ≤ capacity self.new }
    {
        let (keep, separator) = join_cut(self.as_path().before_name().bytes, Path::new(name));
        self.replace_end(keep, separator, name.bytes)
    }

    /// Replaces everything after the first `keep` bytes by the byte `separator`, if there is one,
    /// and `more`.
    ///
    /// The new bytes aren't checked. `stem_end` and `name_end` return how many bytes an edit of the
    /// extension keeps. Allocates only if the result is longer than the capacity, and then once. If
    /// the allocation fails, the bytes are unchanged.
    ///
    /// `a/b.rs` with its end after 3 bytes replaced by a dot and `txt` is `a/b.txt`.
    #[inline]
    pub fn replace_end(
        &mut self,
        keep: usize,
        separator: Option<u8>,
        more: &[u8],
    ) -> Result<(), AllocError>
        requires { keep ≤ length (path_bytes self.old) }
        ensures ok { OnOk result
            (path_bytes self.new ≡ (take keep (path_bytes self.old) ++ option_to_list separator)
            ++ more.now) }
        ensures err { OnErr result (path_bytes self.new ≡ path_bytes self.old) }
        ensures succeeds { length
            ((take keep (path_bytes self.old) ++ option_to_list separator) ++ more.now)
            ≤ capacity self.old → IsOk result }
        ensures capacity { capacity self.old ≤ capacity self.new }
    {
        let len = self.inner.as_unix_str().len();
        let growth = total_len(keep, separator, more).saturating_sub(len);
        self.inner.reserve(growth)?;
        self.inner.truncate(keep);
        push_with_separator(&mut self.inner, separator, more)
    }
}

impl<'a> Path<'a> {
    /// Returns a copy of the path, with `path` pushed onto it.
    ///
    /// Allocates once, and fails if the allocation fails. If the result is empty, it does not
    /// allocate, and succeeds.
    ///
    /// `/etc` joined with `passwd` is `/etc/passwd`, and `a` with the empty path is `a/`.
    #[must_use]
    pub fn join(&self, alloc: Global, path: Path<'_>) -> Result<PathBuf, AllocError>
        ensures bytes { IfOk result
            (λ p. path_bytes p ≡ join_of self.now.bytes.now path.entry.bytes.now) }
        ensures succeeds { join_of self.now.bytes.now path.entry.bytes.now ≡ [] → IsOk result }
    {
        let (keep, separator) = join_cut(self.bytes, path);
        concat_with_separator(alloc, &self.bytes[..keep], separator, path.bytes)
    }

    /// Returns a copy of the path, with its file name set as by `PathBuf::set_file_name`.
    ///
    /// Allocates once, and fails if the allocation fails. If the result is empty, it does not
    /// allocate, and succeeds.
    ///
    /// `/tmp/foo.txt` with the file name `bar.txt` is `/tmp/bar.txt`.
    #[must_use]
    pub fn with_file_name(&self, alloc: Global, name: UnixStr<'_>) -> Result<PathBuf, AllocError>
        ensures bytes { IfOk result
            (λ p. path_bytes p ≡ with_name_of self.now.bytes.now name.entry.bytes.now) }
        ensures succeeds { with_name_of self.now.bytes.now name.entry.bytes.now ≡ [] → IsOk result }
    {
        self.before_name().join(alloc, Path::new(name))
    }
}
