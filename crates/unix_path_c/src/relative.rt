//! The relative path from one path to another, written to the caller's buffer.
ghost use Rattle.std.specs.Prelude.{◌≡◌, ◌↔◌, ◌⊎◌, ◌≤◌, ◌+◌, ◌*◌, length, option_map, IfSome};
ghost use Rattle.std.specs.Prelude.{Some, None};
ghost use Rattle.unix_path.specs.Parts.{values};
ghost use Rattle.path_runs.specs.Buffer.{buffer_after};
ghost use Rattle.path_runs.specs.Spelling.{spelling_of};
ghost use Rattle.path_within.specs.RelativePaths.{relative_path_of};
ghost use Rattle.unix_path_c.specs.ErrorCodes.{IsLength};

use crate::error_codes::{NO_RELATIVE_PATH, TOO_LONG};
use crate::output::len_or_too_long;
use path_within::relative::write_relative_path;
use unix_path::Path;

/// Writes the relative path from one path to another to `out` if it fits, and returns its length.
///
/// Both paths are resolved, and the components that both then start with are left out. The relative
/// path is a `..` for each name in the rest of `from`, followed by the rest of `to`. Its length is
/// at most `3 * (from.len() + 1) / 2 + to.len()`.
///
/// Returns `UNIX_PATH_NO_RELATIVE_PATH` if and only if one path has a root and the other has none,
/// or the rest of `from` has a `..`. Then no path without a root leads from `from` to `to`. Returns
/// `UNIX_PATH_TOO_LONG` if the relative path has more than `PTRDIFF_MAX` bytes, which no buffer
/// has.
///
/// Purely lexical: if a component may be a symbolic link, only the system knows where `..` leads. A
/// result of no bytes represents the current directory. Python's `PurePath.relative_to` with
/// `walk_up` does the same without resolving.
///
/// From `/a/b/c` to `/a/d` it is `../../d`; from `../x` to `y` there is none.
#[unsafe(no_mangle)]
pub extern "C" fn unix_path_relative_path(from: &[u8], to: &[u8], out: &mut [u8]) -> usize
    ensures answers { IsLength result ⊎ ((result ≡ NO_RELATIVE_PATH) ⊎ (result ≡ TOO_LONG)) }
    ensures no_relative_path { (result ≡ NO_RELATIVE_PATH)
        ↔ (relative_path_of (values from.now) (values to.now) ≡ None) }
    ensures too_long { result ≡ TOO_LONG
        → IfSome (relative_path_of (values from.now) (values to.now))
        (λ steps. TOO_LONG ≤ length (spelling_of steps)) }
    ensures length { IsLength result → Some result ≡ option_map
        (λ steps. length (spelling_of steps)) (relative_path_of (values from.now) (values to.now)) }
    ensures len_bound { IsLength result → 2 * result ≤ 3 * (length from.now + 1)
        + 2 * length to.now }
    ensures out { IsLength result → IfSome (relative_path_of (values from.now) (values to.now))
        (λ steps. out.new ≡ buffer_after (spelling_of steps) out.old) }
    ensures no_relative_path_unchanged { result ≡ NO_RELATIVE_PATH → out.new ≡ out.old }
    ensures too_long_unchanged { result ≡ TOO_LONG → out.new ≡ out.old }
{
    match write_relative_path(Path { bytes: from }, Path { bytes: to }, out) {
        Some(len) => len_or_too_long(len),
        None => NO_RELATIVE_PATH,
    }
}
