//! The canonical form of a path: the shortest path that is equal to it.
ghost use Rattle.std.specs.Prelude.{◌≡◌, ◌<◌, ◌≤◌, ◌++◌, ◌↔◌, true, [], length, drop};
ghost use Rattle.std.specs.Prelude.{IfOk, OnOk, IsOk, IsTrue};
ghost use Rattle.unix_bytes.specs.Owned.{owned_bytes};
ghost use Rattle.unix_path.specs.Buffers.{path_bytes};
ghost use Rattle.unix_path.specs.Cursor.{cursor_values};
ghost use Rattle.unix_path.specs.Parts.{values, SameValues};
ghost use Rattle.unix_path.specs.Rest.{rest};
ghost use Rattle.unix_path.specs.Scan.{EndsInPart};
ghost use Rattle.path_runs.specs.Gaps.{is_gap, slashed_parts};
ghost use Rattle.path_runs.specs.Spelling.{spelling_of};

mod to_buffer;

use crate::gaps::{after_gap, first_gap};
use std::alloc::{AllocError, Global};
use to_buffer::gapless_run_at;
pub use to_buffer::write_canonical;
use unix_bytes::bytes::{UnixStr, UnixString};
use unix_path::{Components, Path, PathBuf};

// Returns the path's bytes without the filler after its last component.
#[inline]
#[tactic(auto, using(crate::proofs::lemmas::gaps::GapSpellingLemmas::trimmed_cases))]
fn trimmed(path: Path<'_>) -> &[u8]
    ensures rest { result.now ≡ rest path.entry.bytes.now 0 0 }
    ensures same { SameValues result.now path.entry.bytes.now }
    ensures ends { EndsInPart result.now }
    ensures empty { path.entry.bytes.now ≡ [] → result.now ≡ [] }
{
    path.components().as_path().as_unix_str().as_bytes()
}

// Appends the components after the gap at index `gap`, each with a slash before it. A gap is a
// slash that is followed by an empty piece or `.`. The bytes between two gaps already have this
// form, so they are copied at once.
fn push_parts(buffer: &mut UnixString, bytes: &[u8], gap: usize) -> Result<(), AllocError>
    requires in_range { gap ≤ length bytes.now }
    requires gap { gap < length bytes.now → is_gap bytes.now gap ≡ true }
    ensures { OnOk result
        (owned_bytes buffer.new ≡ owned_bytes buffer.old ++ slashed_parts (drop gap bytes.now)) }
{
    let mut start = after_gap(bytes, gap);
    while start < bytes.len() {
        let run = gapless_run_at(bytes, start);
        buffer.push(UnixStr::from_bytes(run))?;
        start = after_gap(bytes, start - 1 + run.len());
    }
    Ok(())
}

/// Returns the canonical form of a path: its components, joined one after the other.
///
/// Every other path that is equal to this one is longer. The empty path is its own canonical form.
/// `collected` returns the same bytes for a fresh walk over the path. Allocates once, as many bytes
/// as the path has without trailing filler, and fails if the allocation fails. For the empty path
/// does not allocate, and succeeds. Works like collecting a `Components` of Rust's std into a
/// `PathBuf`.
///
/// For `.//a/./b/` it is `./a/b`.
pub fn canonical(alloc: Global, path: Path<'_>) -> Result<PathBuf, AllocError>
    ensures bytes { IfOk result (λ p. path_bytes p ≡ spelling_of (values path.entry.bytes.now)) }
    ensures succeeds { path.entry.bytes.now ≡ [] → IsOk result }
{
    let bytes = trimmed(path);
    let gap = first_gap(bytes);
    // Bytes without a gap are their own canonical form, and so is a single byte such as the root.
    if bytes.len() < 2 || gap == bytes.len() {
        return Path::from_bytes(bytes).to_path_buf(alloc);
    }
    let mut spelling = UnixString::with_capacity(alloc, bytes.len())?;
    spelling.push(UnixStr::from_bytes(&bytes[..gap]))?;
    push_parts(&mut spelling, bytes, gap)?;
    Ok(PathBuf::from(spelling))
}

/// Joins the components that a walk has not taken, one after the other, and returns the path.
///
/// The result is the canonical form of these components. It doesn't matter in which order the walk
/// took components from the two ends. For a fresh walk `canonical` returns the same bytes in less
/// time. Allocates as the path grows, and fails if an allocation fails. If no component remains,
/// does not allocate, and succeeds. Works like collecting a `Components` of Rust's std into a
/// `PathBuf`.
///
/// After one `next_back` of `.//a/./b/` it is `./a`.
pub fn collected(alloc: Global, components: Components<'_>) -> Result<PathBuf, AllocError>
    ensures bytes { IfOk result (λ p. path_bytes p ≡ spelling_of (cursor_values components.entry)) }
    ensures succeeds { cursor_values components.entry ≡ [] → IsOk result }
{
    PathBuf::from_iter(alloc, components.map(|part| part.as_path()))
}

/// Returns true if and only if the path is in canonical form, so that `canonical` would return the
/// same bytes.
///
/// It is true for `./a/b` and the empty path, and false for `a//b`, `a/./b` and `a/`.
#[must_use]
#[tactic(auto, using(crate::proofs::lemmas::gaps::GaplessLemmas::is_canonical_cases))]
pub fn is_canonical(path: Path<'_>) -> bool
    ensures { IsTrue result
        ↔ (path.entry.bytes.now ≡ spelling_of (values path.entry.bytes.now)) }
{
    let bytes = trimmed(path);
    if bytes.len() < path.as_unix_str().len() {
        return false;
    }
    bytes.len() < 2 || first_gap(bytes) == bytes.len()
}
