//! Cutting a file name at its first dot.
ghost use Rattle.std.specs.Prelude.{◌≡◌};
ghost use Rattle.unix_path.specs.Names.{name_prefix};

use unix_bytes::internal::find_byte;

// Returns a file name up to its first dot, ignoring a leading dot, or the whole name if it has no
// other dot.
#[inline]
pub(crate) fn name_prefix(name: &[u8]) -> &[u8]
    ensures { result.now ≡ name_prefix name.now }
{
    let first = name.len().min(1);
    &name[..first + find_byte(&name[first..], b'.')]
}
