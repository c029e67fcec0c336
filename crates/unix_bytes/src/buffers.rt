//! Writing bytes into a buffer.
ghost use Rattle.std.specs.Prelude.{◌≡◌, ◌+◌, ◌≤◌, ◌++◌, length, take, drop};

/// Copies `bytes` into `out` at index `at`. It must fit: `at + bytes.len()` is at most `out.len()`.
///
/// If `out` is `a/..`, `at` is 2 and `bytes` is `bc`, `out` becomes `a/bc`.
#[inline]
pub fn write_at(out: &mut [u8], at: usize, bytes: &[u8])
    requires { at + length bytes.now ≤ length out.old }
    ensures { out.new ≡ (take at out.old ++ bytes.now) ++ drop (at + length bytes.now) out.old }
{
    out[at..at + bytes.len()].copy_from_slice(bytes);
}
