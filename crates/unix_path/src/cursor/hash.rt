//! The hash of a component.
ghost use Rattle.std.specs.Prelude.{◌≡◌, ◌<◌, ◌++◌, length, take, fold};
ghost use Rattle.std.specs.Hash.{le_bytes};
ghost use Rattle.std.proofs.Common.{rules};
ghost use Rattle.unix_path.specs.Hashed.{terminator, in_eights, value_input};
ghost use Rattle.unix_path.specs.Views.{value_of};

use crate::cursor::Component;
use std::hash::{Hash, Hasher};

// Returns the number whose eight bytes, in little-endian order, are `rest`, a slash, and zeros.
#[inline]
fn padded_tail(rest: &[u8]) -> u64
    requires { length rest.now < 8 }
    ensures { le_bytes 8 result ≡ take 8 (rest.now ++ terminator) }
{
    match rest {
        [] => u64::from_le_bytes([b'/', 0, 0, 0, 0, 0, 0, 0]),
        [a] => u64::from_le_bytes([*a, b'/', 0, 0, 0, 0, 0, 0]),
        [a, b] => u64::from_le_bytes([*a, *b, b'/', 0, 0, 0, 0, 0]),
        [a, b, c] => u64::from_le_bytes([*a, *b, *c, b'/', 0, 0, 0, 0]),
        [a, b, c, d] => u64::from_le_bytes([*a, *b, *c, *d, b'/', 0, 0, 0]),
        [a, b, c, d, e] => u64::from_le_bytes([*a, *b, *c, *d, *e, b'/', 0, 0]),
        [a, b, c, d, e, f] => u64::from_le_bytes([*a, *b, *c, *d, *e, *f, b'/', 0]),
        [a, b, c, d, e, f, g] => u64::from_le_bytes([*a, *b, *c, *d, *e, *f, *g, b'/']),
        _ => unreachable!(),
    }
}

// Feeds a hasher `bytes`, a slash, and zeros up to a multiple of eight bytes, in writes of eight
// bytes.
#[inline]
fn feed_bytes<H: Hasher>(bytes: &[u8], state: &mut H)
    ensures { state.new ≡ fold H.write state.old (in_eights (bytes.now ++ terminator)) }
{
    let mut rest = bytes;
    while rest.len() >= 8 {
        state.write(&rest[..8]);
        rest = &rest[8..];
    }
    state.write_u64(padded_tail(rest));
}

/// Feeds a hasher the bytes of `as_unix_str`, a slash, and zeros up to a multiple of eight bytes,
/// in writes of eight bytes.
///
/// A hasher can therefore read whole words. No name in a path contains a slash, so the slash shows
/// where a component ends. The format is this crate's own.
///
/// For `Component::ParentDir` it is `../` and five zeros.
impl Hash for Component<'_> {
    ghost hash_input = { λ part. value_input (value_of part) };

    ghost respects_eq = { Prim.search rules };

    #[inline]
    fn hash<H: Hasher>(&self, state: &mut H) {
        feed_bytes(self.as_unix_str().bytes, state);
    }
}
