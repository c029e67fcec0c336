//! A fast step over the last component in the rest of a walk. It applies if neither the last byte
//! nor the byte before the last slash is a slash or a dot. Then the last component is a name.
ghost use Rattle.std.specs.Prelude.{◌≡◌, ◌≤◌, ◌<◌, ◌==◌, false, [], ◌∷◌, ◌++◌, length, take, drop};
ghost use Rattle.std.specs.Prelude.{IfSome, IsTrue};
ghost use Rattle.unix_path.specs.Parts.{dot, slash, values, Normal};
ghost use Rattle.unix_path.specs.Rest.{rest};
ghost use Rattle.unix_path.specs.Scan.{EndsInPart};

use unix_bytes::internal::after_last;

// Returns true if the byte is neither a slash nor a dot.
#[inline]
fn is_ordinary(byte: u8) -> bool
    ensures no_slash { IsTrue result → (byte == slash) ≡ false }
    ensures no_dot { IsTrue result → (byte == dot) ≡ false }
{
    byte != b'/' && byte != b'.'
}

// Returns two indices: the end of the rest before the last component, and the beginning of the last
// component, which is a name. Returns `None` if the last byte, or the byte before the last slash,
// is a slash or a dot.
#[inline(always)]
pub(crate) fn last_name(bytes: &[u8]) -> Option<(usize, usize)>
    requires { 0 < length bytes.now }
    ensures ends { IfSome result (λ _. EndsInPart bytes.now) }
    ensures in_order { IfSome result (λ name. name.0 ≤ name.1) }
    ensures in_range { IfSome result (λ name. name.1 ≤ length bytes.now) }
    ensures values { IfSome result (λ name. values bytes.now
        ≡ values (take name.0 bytes.now) ++ Normal (drop name.1 bytes.now) ∷ []) }
    ensures rest { IfSome result (λ name. rest bytes.now 0 1 ≡ take name.0 bytes.now) }
{
    if !is_ordinary(bytes[bytes.len() - 1]) {
        return None;
    }
    let start = after_last(bytes, b'/');
    if start < 2 {
        return Some((start, start));
    }
    if is_ordinary(bytes[start - 2]) {
        return Some((start - 1, start));
    }
    None
}
