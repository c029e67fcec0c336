//! Paths resolved lexically: each `..` drops the name before it.
ghost use Rattle.std.specs.Prelude.{◌≡◌, [], length, IfOk, IsOk};
ghost use Rattle.unix_path.specs.Buffers.{path_bytes};
ghost use Rattle.unix_path.specs.Parts.{values};
ghost use Rattle.path_runs.specs.Buffer.{buffer_after};
ghost use Rattle.path_within.specs.Resolved.{resolved_bytes_of};

use crate::normal::is_known_resolved;
use crate::write::Layout;
use std::alloc::{AllocError, Global};
use unix_bytes::internal::write_at;
use unix_path::{Path, PathBuf};

// Returns the path resolved lexically. Not inlined, so that its callers, whose paths are mostly
// resolved already, stay small.
#[inline(never)]
#[tactic(auto, using(crate::proofs::lemmas::names_only::NamesOnlyLemmas::resolved_empty))]
fn resolve_to_path_buf(alloc: Global, path: Path<'_>) -> Result<PathBuf, AllocError>
    ensures bytes { IfOk result (λ p. path_bytes p ≡ resolved_bytes_of path.entry.bytes.now) }
    ensures succeeds { resolved_bytes_of path.entry.bytes.now ≡ [] → IsOk result }
{
    Layout::of(path).to_path_buf(alloc)
}

/// Returns the path resolved lexically, in canonical form: each `..` drops the name before it.
///
/// Each `.` is dropped too, and so is each `..` directly after the root. If the path has no root, a
/// `..` that finds no name to drop stays, at the beginning of the result. An empty result means the
/// current directory. Go's `path.Clean` then returns `.`, and otherwise the same result.
///
/// Purely lexical: if a component before a `..` may be a symbolic link, only the system knows where
/// that `..` leads. The result is allocated once, and fails if the allocation fails. An empty one
/// allocates nothing, and succeeds.
///
/// `a/../..//b/.` resolves to `../b`, `/../a` to `/a`, and `a/..` to the empty path.
#[tactic(auto, using(crate::proofs::lemmas::names_only::NamesOnlyLemmas::resolved_empty))]
pub fn resolved(alloc: Global, path: Path<'_>) -> Result<PathBuf, AllocError>
    ensures bytes { IfOk result (λ p. path_bytes p ≡ resolved_bytes_of path.entry.bytes.now) }
    ensures succeeds { resolved_bytes_of path.entry.bytes.now ≡ [] → IsOk result }
{
    if is_known_resolved(path) {
        return path.to_path_buf(alloc);
    }
    resolve_to_path_buf(alloc, path)
}

/// Resolves the path lexically, and writes the result to the beginning of `out`. Returns the length
/// of the result.
///
/// The result is the path that `resolved` returns, which is never longer than `path`. If it fits,
/// the rest of `out` is unchanged. If it is longer than `out`, nothing is written, but its length
/// is still returned.
///
/// `a/../..//b/.` resolves to `../b`, of 4 bytes.
#[tactic(auto, using(crate::proofs::lemmas::below::BoundLemmas::write_resolved_cases))]
pub fn write_resolved(path: Path<'_>, out: &mut [u8]) -> usize
    ensures out { out.new ≡ buffer_after (resolved_bytes_of path.entry.bytes.now) out.old }
    ensures length { result ≡ length (resolved_bytes_of path.entry.bytes.now) }
{
    if !is_known_resolved(path) {
        return Layout::of(path).write(out);
    }
    let bytes = path.bytes;
    if bytes.len() <= out.len() {
        write_at(out, 0, bytes);
    }
    bytes.len()
}
