//! Writes the canonical form of a path to the caller's buffer, and tests whether a path is
//! canonical.
ghost use Rattle.std.specs.Prelude.{◌≡◌, ◌↔◌, ◌≤◌, length, IsTrue};
ghost use Rattle.unix_path.specs.Parts.{values};
ghost use Rattle.path_runs.specs.Buffer.{buffer_after};
ghost use Rattle.path_runs.specs.Spelling.{spelling_of};

use path_runs::canonical::{is_canonical, write_canonical};
use unix_path::Path;

/// Writes the canonical form of a path to `out` if it fits, and returns its length.
///
/// The canonical form has the path's components with single slashes between them, and no slash
/// after the root. It is the one shortest path that is equal to this path, and empty for the empty
/// path. In Rust's std it is a `Components` that is collected into a `PathBuf`.
///
/// For `.//a/./b/` it is `./a/b`, of 5 bytes.
#[tactic(auto, using(crate::proofs::lemmas::buffers::BoundLemmas::bounds))]
#[unsafe(no_mangle)]
pub extern "C" fn unix_path_canonical(path: &[u8], out: &mut [u8]) -> usize
    ensures out { out.new ≡ buffer_after (spelling_of (values path.now)) out.old }
    ensures length { result ≡ length (spelling_of (values path.now)) }
    ensures len_bound { result ≤ length path.now }
{
    write_canonical(Path { bytes: path }, out)
}

/// Returns true if and only if the path is canonical, so that `unix_path_canonical` writes the same
/// bytes.
///
/// For `./a/b` and the empty path it is true, and for `a//b`, `a/./b` and `a/` it is false.
#[unsafe(no_mangle)]
pub extern "C" fn unix_path_is_canonical(path: &[u8]) -> bool
    ensures { IsTrue result ↔ (path.now ≡ spelling_of (values path.now)) }
{
    is_canonical(Path::from_bytes(path))
}
