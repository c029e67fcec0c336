//! Changes the bytes of names from those in a path to those in a key, and back.
ghost use Rattle.std.specs.Prelude.{◌≡◌, ◌+◌, ◌≤◌, length, map, take, drop};
ghost use Rattle.std.specs.Simd.Lanes.{put_chunk};
ghost use Rattle.path_runs.specs.Overlay.{overlay};
ghost use Rattle.path_keys.specs.NameBytes.{coded, decoded, recoded};

use std::simd::prelude::*;

// A change of bytes: `separator` becomes `new_separator`, and of the other bytes those less than
// `below` are raised by `shift`, modulo 256.
#[derive(Clone, Copy)]
struct Recoding {
    separator: u8,
    new_separator: u8,
    below: u8,
    shift: u8,
}

// From a path to a key: a slash becomes the end mark, and lesser bytes are raised by one.
const TO_KEY: Recoding = Recoding {
    separator: b'/',
    new_separator: 0,
    below: b'/',
    shift: 1,
};

// From a key to a path: an end mark becomes a slash, and other bytes less than 30 are lowered by
// one.
const TO_PATH: Recoding = Recoding {
    separator: 0,
    new_separator: b'/',
    below: b'0',
    shift: 255,
};

// Overwrites the bytes of `out` from `at` on with the bytes that `names` have in a key. These are
// names of a path, separated by single slashes. Each slash becomes an end mark.
#[inline(always)]
pub(crate) fn names_to_key(out: &mut [u8], at: usize, names: &[u8])
    requires { at + length names.now ≤ length out.old }
    ensures { out.new ≡ overlay at (map coded names.now) out.old }
{
    recode(TO_KEY, out, at, names);
}

// Overwrites the bytes of `out` from `at` on with the bytes that `names` have in a path. These are
// names of a key, separated by end marks. Each end mark becomes a slash.
#[inline(always)]
pub(crate) fn names_to_path(out: &mut [u8], at: usize, names: &[u8])
    requires { at + length names.now ≤ length out.old }
    ensures { out.new ≡ overlay at (map decoded names.now) out.old }
{
    recode(TO_PATH, out, at, names);
}

// Overwrites the bytes of `out` from `at` on with `bytes`, each changed by `how`. Works in chunks
// of 16 bytes; the last chunk may overlap the chunk before it. Fewer than 16 bytes are changed one
// by one.
#[inline(always)]
fn recode(how: Recoding, out: &mut [u8], at: usize, bytes: &[u8])
    requires { at + length bytes.now ≤ length out.old }
    ensures { out.new ≡ overlay at (map (recoded how) bytes.now) out.old }
{
    if bytes.len() < 16 {
        recode_few(how, out, at, bytes);
        return;
    }
    let last = bytes.len() - 16;
    let mut from = 0;
    while from < last {
        recode_lanes(how, out, at + from, bytes, from);
        from += 16;
    }
    recode_lanes(how, out, at + last, bytes, last);
}

// Overwrites 16 bytes of `out` from `to` on with the 16 bytes of `bytes` from `from` on, each
// changed by `how`.
#[inline(always)]
fn recode_lanes(how: Recoding, out: &mut [u8], to: usize, bytes: &[u8], from: usize)
    requires fits { to + 16 ≤ length out.old }
    requires some { from + 16 ≤ length bytes.now }
    ensures { out.new ≡ put_chunk to out.old (map (recoded how) (take 16 (drop from bytes.now))) }
{
    let chunk = u8x16::from_slice(&bytes[from..]);
    let is_below = chunk.simd_lt(u8x16::splat(how.below));
    let shifted = is_below.select(chunk + u8x16::splat(how.shift), chunk);
    chunk
        .simd_eq(u8x16::splat(how.separator))
        .select(u8x16::splat(how.new_separator), shifted)
        .copy_to_slice(&mut out[to..]);
}

// Does the same as `recode`, byte by byte.
#[inline(always)]
fn recode_few(how: Recoding, out: &mut [u8], at: usize, bytes: &[u8])
    requires { at + length bytes.now ≤ length out.old }
    ensures { out.new ≡ overlay at (map (recoded how) bytes.now) out.old }
{
    for (i, b) in bytes.iter().enumerate() {
        out[at + i] = recode_byte(how, *b);
    }
}

// Returns the byte b, changed by `how`.
#[inline(always)]
fn recode_byte(how: Recoding, b: u8) -> u8
    ensures { result ≡ recoded how b }
{
    if b == how.separator {
        return how.new_separator;
    }
    if b < how.below {
        b.wrapping_add(how.shift)
    } else {
        b
    }
}
