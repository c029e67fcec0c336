//! The lossy string of a path, written to the caller's buffer.
ghost use Rattle.std.specs.Prelude.{◌≡◌, ◌↔◌, ◌⊎◌, ◌≤◌, ◌*◌, length};
ghost use Rattle.unix_bytes.specs.Chunks.{replacement_for};
ghost use Rattle.unix_bytes.specs.Lossy.{lossy_of};
ghost use Rattle.unix_path_c.specs.ErrorCodes.{IsLength};
ghost use Rattle.unix_path_c.specs.SaturatedSize.{saturated_size};
ghost use Rattle.path_runs.specs.Buffer.{buffer_after};

use crate::error_codes::TOO_LONG;
use crate::output::{len_or_too_long, write_both};
use unix_bytes::lossy::Utf8Lossy;

// Returns the replacement for the invalid bytes of a chunk: U+FFFD, or no bytes if there are none.
#[inline]
fn replacement_for(broken: &[u8]) -> &'static [u8]
    ensures { result.now ≡ replacement_for broken.now }
{
    if broken.is_empty() {
        return b"";
    }
    b"\xEF\xBF\xBD"
}

// Returns the length of the lossy string, or `usize::MAX` if the length is greater than that.
#[inline]
fn lossy_len(path: &[u8]) -> usize
    ensures { result ≡ saturated_size (length (lossy_of path.now)) }
{
    let mut len = 0_usize;
    for chunk in Utf8Lossy::from_bytes(path).chunks() {
        let shown = replacement_for(chunk.broken);
        len = len
            .saturating_add(chunk.valid.len())
            .saturating_add(shown.len());
    }
    len
}

// Writes the lossy string to the beginning of the buffer, into which it fits.
#[inline]
fn write_lossy(path: &[u8], out: &mut [u8])
    requires { length (lossy_of path.now) ≤ length out.old }
    ensures { out.new ≡ buffer_after (lossy_of path.now) out.old }
{
    let mut at = 0_usize;
    for chunk in Utf8Lossy::from_bytes(path).chunks() {
        let shown = replacement_for(chunk.broken);
        at = write_both(out, at, chunk.valid.as_bytes(), shown);
    }
}

/// Writes the lossy string of a path to `out` if it fits, and returns its length.
///
/// The lossy string is the path itself if the path is valid UTF-8 (RFC 3629, section 4). Otherwise
/// one U+FFFD, of 3 bytes, replaces the invalid bytes of each chunk (see `unix_path_next_chunk`).
/// The length is at most `3 * path.len()`.
///
/// Returns `UNIX_PATH_TOO_LONG` if and only if the lossy string has more than `PTRDIFF_MAX` bytes,
/// which no buffer has. Only a path with more than `PTRDIFF_MAX / 3` bytes can have such a lossy
/// string.
///
/// For the bytes 61 FF it is `a` and U+FFFD, of 4 bytes.
#[tactic(auto, using(crate::proofs::lemmas::buffers::BoundLemmas::bounds))]
#[unsafe(no_mangle)]
pub extern "C" fn unix_path_to_string_lossy(path: &[u8], out: &mut [u8]) -> usize
    ensures answers { IsLength result ⊎ (result ≡ TOO_LONG) }
    ensures too_long { (result ≡ TOO_LONG) ↔ (TOO_LONG ≤ length (lossy_of path.now)) }
    ensures length { IsLength result → result ≡ length (lossy_of path.now) }
    ensures len_bound { IsLength result → result ≤ 3 * length path.now }
    ensures out { out.new ≡ buffer_after (lossy_of path.now) out.old }
    ensures too_long_unchanged { result ≡ TOO_LONG → out.new ≡ out.old }
{
    let len = lossy_len(path);
    if len <= out.len() {
        write_lossy(path, out);
    }
    len_or_too_long(len)
}
