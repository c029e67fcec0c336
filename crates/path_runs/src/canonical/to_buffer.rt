//! The canonical form, written to the caller's buffer.
ghost use Rattle.std.specs.Prelude.{◌≡◌, ◌+◌, ◌-◌, ◌<◌, ◌≤◌, ◌++◌, true, length, take, drop};
ghost use Rattle.std.specs.Prelude.{slice_index};
ghost use Rattle.unix_path.specs.Parts.{slash, values};
ghost use Rattle.unix_path.specs.Scan.{EndsInPart};
ghost use Rattle.path_runs.specs.Buffer.{buffer_after};
ghost use Rattle.path_runs.specs.Gaps.{is_gap, slashed_parts, IsPartStart};
ghost use Rattle.path_runs.specs.Overlay.{overlay};
ghost use Rattle.path_runs.specs.Spelling.{spelling_of};

use crate::canonical::trimmed;
use crate::gaps::{after_gap, first_gap};
use unix_bytes::internal::write_at;
use unix_path::Path;

// Returns the length of a prefix that the path shares with its canonical form: the bytes before the
// first gap, or all bytes if the path has at most one byte or no gap. The path has to be empty or
// end in a component.
#[inline]
fn canonical_prefix_len(bytes: &[u8]) -> usize
    requires { EndsInPart bytes.now }
    ensures in_range { result ≤ length bytes.now }
    ensures gap { result < length bytes.now → is_gap bytes.now result ≡ true }
    ensures fits { result + length (slashed_parts (drop result bytes.now)) ≤ length bytes.now }
    ensures spelling { spelling_of (values bytes.now)
        ≡ take result bytes.now ++ slashed_parts (drop result bytes.now) }
{
    // A single byte is its own canonical form, even if it is the root.
    if bytes.len() < 2 {
        return bytes.len();
    }
    first_gap(bytes)
}

// Returns the gapless run at `start`, the index of a component: the bytes from the slash before
// this component up to the next gap, exclusive, or up to the end. The canonical form contains the
// run unchanged.
#[inline]
pub(super) fn gapless_run_at(bytes: &[u8], start: usize) -> &[u8]
    requires in_range { start < length bytes.now }
    requires part { IsPartStart bytes.now start }
    ensures more { 1 < length result.now }
    ensures in_range { start - 1 + length result.now ≤ length bytes.now }
    ensures gap { start - 1 + length result.now < length bytes.now
        → slice_index bytes.now (start - 1 + length result.now) ≡ slash }
    ensures same { slashed_parts (drop start bytes.now)
        ≡ result.now ++ slashed_parts (drop (start - 1 + length result.now) bytes.now) }
{
    let len = first_gap(&bytes[start..]);
    &bytes[start - 1..start + len]
}

// Returns the total length of the components after the gap at index `gap`, with a slash before
// each.
#[inline]
#[tactic(auto, using(crate::proofs::lemmas::gaps::GaplessLemmas::parts_len_cases))]
fn parts_len(bytes: &[u8], gap: usize) -> usize
    requires in_range { gap ≤ length bytes.now }
    requires gap { gap < length bytes.now → is_gap bytes.now gap ≡ true }
    ensures { result ≡ length (slashed_parts (drop gap bytes.now)) }
{
    let mut len = 0;
    let mut start = after_gap(bytes, gap);
    while start < bytes.len() {
        let run = gapless_run_at(bytes, start);
        len += run.len();
        start = after_gap(bytes, start - 1 + run.len());
    }
    len
}

// Writes the bytes before the gap at index `gap` to the beginning of `out`, and then the components
// after the gap, each with a slash before it. Returns the number of bytes written.
#[inline]
fn write_gapless_runs(bytes: &[u8], gap: usize, out: &mut [u8]) -> usize
    requires in_range { gap ≤ length bytes.now }
    requires gap { gap < length bytes.now → is_gap bytes.now gap ≡ true }
    requires room { gap + length (slashed_parts (drop gap bytes.now)) ≤ length out.old }
    ensures out { let whole = take gap bytes.now ++ slashed_parts (drop gap bytes.now) in
        out.new ≡ buffer_after whole out.old }
    ensures len { result ≡ length (take gap bytes.now ++ slashed_parts (drop gap bytes.now)) }
{
    write_at(out, 0, &bytes[..gap]);
    let mut at = gap;
    let mut start = after_gap(bytes, gap);
    while start < bytes.len() {
        let run = gapless_run_at(bytes, start);
        write_at(out, at, run);
        at += run.len();
        start = after_gap(bytes, start - 1 + run.len());
    }
    at
}

/// Writes the canonical form of a path to the beginning of `out`, and returns its length.
///
/// The canonical form is what `canonical` returns, and is never longer than the path. The bytes of
/// `out` after it are unchanged. If `out` is too short for the canonical form, nothing is written,
/// and the length returned is greater than the length of `out`.
///
/// For `.//a/./b/` it is `./a/b`, of 5 bytes.
pub fn write_canonical(path: Path<'_>, out: &mut [u8]) -> usize
    ensures out { out.new ≡ buffer_after (spelling_of (values path.entry.bytes.now)) out.old }
    ensures length { result ≡ length (spelling_of (values path.entry.bytes.now)) }
{
    let bytes = trimmed(path);
    let gap = canonical_prefix_len(bytes);
    // The canonical form is never longer than `bytes`. So if `bytes` would fit into `out`, the
    // length of the canonical form needn't be computed first.
    if bytes.len() > out.len() {
        let len = gap + parts_len(bytes, gap);
        if len > out.len() {
            return len;
        }
    }
    write_gapless_runs(bytes, gap, out)
}
