//! Helpers of the calls that write a result to `out`.
ghost use Rattle.std.specs.Prelude.{◌≡◌, ◌≤◌, ◌+◌, length};
ghost use Rattle.std.specs.Option.{option_to_list};
ghost use Rattle.path_runs.specs.Overlay.{overlay};
ghost use Rattle.unix_path_c.specs.SaturatedSize.{buffer_size};

use crate::error_codes::TOO_LONG;
use unix_bytes::internal::write_at;

// Returns the length, or `TOO_LONG` if the length is greater than that of any buffer.
#[inline]
pub(crate) fn len_or_too_long(len: usize) -> usize
    ensures { result ≡ buffer_size len }
{
    if len < TOO_LONG { len } else { TOO_LONG }
}

// Writes the separator at index `at` if there is one.
#[inline]
pub(crate) fn write_separator(out: &mut [u8], at: usize, separator: Option<u8>)
    requires { at + length (option_to_list separator) ≤ length out.old }
    ensures { out.new ≡ overlay at (option_to_list separator) out.old }
{
    if let Some(byte) = separator {
        out[at] = byte;
    }
}

// Returns the length of the separator: 1, or 0 if there is none.
#[inline]
pub(crate) fn separator_len(separator: Option<u8>) -> usize
    ensures { result ≡ length (option_to_list separator) }
{
    match separator {
        Some(_) => 1,
        None => 0,
    }
}

// Writes `first` and then `second` over the bytes of `out` from index `at` on. Returns the index
// just after the last byte written.
#[inline]
pub(crate) fn write_both(out: &mut [u8], at: usize, first: &[u8], second: &[u8]) -> usize
    requires { at + length first.now + length second.now ≤ length out.old }
    ensures out { let middle = at + length first.now in
        out.new ≡ overlay middle second.now (overlay at first.now out.old) }
    ensures end { result ≡ at + length first.now + length second.now }
{
    let middle = at + first.len();
    write_at(out, at, first);
    write_at(out, middle, second);
    middle + second.len()
}
