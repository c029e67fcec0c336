//! Joins, and copies of a path with another file name or extension.
ghost use Rattle.std.specs.Prelude.{◌≡◌, ◌↔◌, ◌⊎◌, ◌≤◌, ◌+◌, true, false, length};
ghost use Rattle.unix_path.specs.Edits.{with_extension_of, with_name_of};
ghost use Rattle.unix_path.specs.Extensions.{added_extension_of, has_slash};
ghost use Rattle.unix_path.specs.Joins.{join_of};
ghost use Rattle.std.specs.Option.{option_to_list};
ghost use Rattle.unix_path_c.specs.Layout.{layout_bytes};
ghost use Rattle.unix_path_c.specs.ErrorCodes.{IsLength};
ghost use Rattle.path_runs.specs.Buffer.{buffer_after};

use crate::error_codes::{SEPARATOR, TOO_LONG};
use crate::output::{len_or_too_long, separator_len, write_separator};
use unix_bytes::internal::write_at;
use unix_path::Path;
use unix_path::internal::{dot_before, has_slash, needs_no_separator};

// The bytes of a result: a beginning, then the separator, one byte, if there is one, and then an
// end.
#[derive(Clone, Copy)]
struct Layout<'a> {
    beginning: &'a [u8],
    separator: Option<u8>,
    end: &'a [u8],
}

impl Layout<'_> {
    // Returns the length of the beginning, the separator and the end together.
    #[inline]
    fn total_len(&self) -> usize
        ensures total { result ≡ length (layout_bytes self.now) }
        ensures sum { result ≡ length self.now.beginning.now
            + length (option_to_list self.now.separator) + length self.now.end.now }
    {
        self.beginning.len() + separator_len(self.separator) + self.end.len()
    }

    // Writes the beginning, the separator and the end to `out` if all of them fit. Returns their
    // length either way.
    #[inline]
    fn write(&self, out: &mut [u8]) -> usize
        ensures out { out.new ≡ buffer_after (layout_bytes self.now) out.old }
        ensures length { result ≡ length (layout_bytes self.now) }
    {
        let total = self.total_len();
        if total > out.len() {
            return total;
        }
        write_at(out, 0, self.beginning);
        write_separator(out, self.beginning.len(), self.separator);
        write_at(out, total - self.end.len(), self.end);
        total
    }
}

// Returns the layout of the join of two paths.
#[inline]
fn join_layout<'a>(base: Path<'a>, path: Path<'a>) -> Layout<'a>
    ensures { layout_bytes result ≡ join_of base.entry.bytes.now path.entry.bytes.now }
{
    let end = path.bytes;
    if path.has_root() {
        return Layout {
            beginning: &[],
            separator: None,
            end,
        };
    }
    let beginning = base.bytes;
    if needs_no_separator(beginning) {
        return Layout {
            beginning,
            separator: None,
            end,
        };
    }
    Layout {
        beginning,
        separator: Some(b'/'),
        end,
    }
}

// Returns the layout of an unchanged path.
#[inline]
fn unchanged_layout<'a>(path: Path<'a>) -> Layout<'a>
    ensures { layout_bytes result ≡ path.entry.bytes.now }
{
    Layout {
        beginning: path.bytes,
        separator: None,
        end: &[],
    }
}

// Returns the layout of the path with `extension` instead of its own extension.
#[inline]
fn extension_layout<'a>(path: Path<'a>, extension: &'a [u8]) -> Layout<'a>
    ensures { layout_bytes result ≡ with_extension_of path.entry.bytes.now extension.now }
{
    let Some(end) = path.stem_end() else {
        return unchanged_layout(path);
    };
    Layout {
        beginning: &path.bytes[..end],
        separator: dot_before(extension),
        end: extension,
    }
}

// Returns the layout of the path with `extension` added to its file name.
#[inline]
#[tactic(auto, using(unix_path::proofs::lemmas::names::NameEndLemmas::added_cases))]
fn added_extension_layout<'a>(path: Path<'a>, extension: &'a [u8]) -> Layout<'a>
    ensures { layout_bytes result ≡ added_extension_of path.entry.bytes.now extension.now }
{
    if extension.is_empty() {
        return unchanged_layout(path);
    }
    let Some(end) = path.name_end() else {
        return unchanged_layout(path);
    };
    Layout {
        beginning: &path.bytes[..end],
        separator: Some(b'.'),
        end: extension,
    }
}

/// Writes the join of two paths to `out` if it fits, and returns its length.
///
/// The join is `path` itself if `path` begins with `/`. Otherwise the join is `base`, a `/` unless
/// `base` is empty or ends in one, and `path`. The length is at most `base.len() + 1 + path.len()`.
///
/// `/etc` joined with `passwd` is `/etc/passwd`, of 11 bytes, and `a` with the empty path is `a/`.
#[tactic(auto, using(crate::proofs::lemmas::buffers::BoundLemmas::bounds))]
#[unsafe(no_mangle)]
pub extern "C" fn unix_path_join(base: &[u8], path: &[u8], out: &mut [u8]) -> usize
    ensures out { out.new ≡ buffer_after (join_of base.now path.now) out.old }
    ensures length { result ≡ length (join_of base.now path.now) }
    ensures len_bound { result ≤ length base.now + 1 + length path.now }
{
    join_layout(Path { bytes: base }, Path { bytes: path }).write(out)
}

/// Writes the path with another file name to `out` if it fits, and returns its length.
///
/// The name is joined to the path without its file name, or to the whole path if it has no file
/// name. The name may be any bytes: a name that begins with `/` replaces the whole path, and a name
/// `..` is not resolved. The length is at most `path.len() + 1 + name.len()`.
///
/// `/tmp/foo.txt` with the file name `bar.txt` is `/tmp/bar.txt`, of 12 bytes, and `foo/..` with
/// `bar` is `foo/../bar`.
#[tactic(auto, using(crate::proofs::lemmas::buffers::BoundLemmas::bounds))]
#[unsafe(no_mangle)]
pub extern "C" fn unix_path_with_file_name(path: &[u8], name: &[u8], out: &mut [u8]) -> usize
    ensures out { out.new ≡ buffer_after (with_name_of path.now name.now) out.old }
    ensures length { result ≡ length (with_name_of path.now name.now) }
    ensures len_bound { result ≤ length path.now + 1 + length name.now }
{
    let path = Path { bytes: path };
    join_layout(path.before_name(), Path { bytes: name }).write(out)
}

/// Writes the path with another extension to `out` if it fits, and returns its length.
///
/// The bytes after the stem of the file name are replaced by a dot and the extension, or dropped if
/// the extension is empty. A path without a file name is unchanged.
///
/// Returns at most `path.len() + 1 + extension.len()`, or an error code: `UNIX_PATH_SEPARATOR` if
/// and only if the extension has a `/`, or `UNIX_PATH_TOO_LONG` if the result has more than
/// `PTRDIFF_MAX` bytes, which no buffer has. Rust's `Path::with_extension` panics for a separator,
/// and returns `..` for `..a` whatever the extension is.
///
/// `foo.rs/.` with the extension `txt` is `foo.txt`, of 7 bytes, and `..` stays `..`.
#[tactic(auto, using(crate::proofs::lemmas::buffers::BoundLemmas::bounds))]
#[unsafe(no_mangle)]
pub extern "C" fn unix_path_with_extension(path: &[u8], extension: &[u8], out: &mut [u8]) -> usize
    ensures answers { IsLength result ⊎ ((result ≡ SEPARATOR) ⊎ (result ≡ TOO_LONG)) }
    ensures separator { (result ≡ SEPARATOR) ↔ (has_slash extension.now ≡ true) }
    ensures too_long { result ≡ TOO_LONG
        → TOO_LONG ≤ length (with_extension_of path.now extension.now) }
    ensures length { IsLength result → result ≡ length (with_extension_of path.now extension.now) }
    ensures len_bound { IsLength result → result ≤ length path.now + 1 + length extension.now }
    ensures out { has_slash extension.now ≡ false
        → out.new ≡ buffer_after (with_extension_of path.now extension.now) out.old }
    ensures unchanged { has_slash extension.now ≡ true → out.new ≡ out.old }
{
    if has_slash(extension) {
        return SEPARATOR;
    }
    len_or_too_long(extension_layout(Path { bytes: path }, extension).write(out))
}

/// Writes the path with an extension added to `out` if it fits, and returns its length.
///
/// The bytes after the file name are replaced by a dot and the extension. A path without a file
/// name is unchanged, and so is every path if the extension is empty.
///
/// Returns at most `path.len() + 1 + extension.len()`, or an error code: `UNIX_PATH_SEPARATOR` if
/// and only if the extension has a `/`, or `UNIX_PATH_TOO_LONG` if the result has more than
/// `PTRDIFF_MAX` bytes, which no buffer has. Rust's `Path::with_added_extension` panics for a
/// separator.
///
/// `foo.tar/.` with the extension `gz` added is `foo.tar.gz`, of 10 bytes, and `..` stays `..`.
#[tactic(auto, using(crate::proofs::lemmas::buffers::BoundLemmas::bounds))]
#[unsafe(no_mangle)]
pub extern "C" fn unix_path_with_added_extension(
    path: &[u8],
    extension: &[u8],
    out: &mut [u8],
) -> usize
    ensures answers { IsLength result ⊎ ((result ≡ SEPARATOR) ⊎ (result ≡ TOO_LONG)) }
    ensures separator { (result ≡ SEPARATOR) ↔ (has_slash extension.now ≡ true) }
    ensures too_long { result ≡ TOO_LONG
        → TOO_LONG ≤ length (added_extension_of path.now extension.now) }
    ensures length { IsLength result → result ≡ length (added_extension_of path.now extension.now) }
    ensures len_bound { IsLength result → result ≤ length path.now + 1 + length extension.now }
    ensures out { has_slash extension.now ≡ false
        → out.new ≡ buffer_after (added_extension_of path.now extension.now) out.old }
    ensures unchanged { has_slash extension.now ≡ true → out.new ≡ out.old }
{
    if has_slash(extension) {
        return SEPARATOR;
    }
    len_or_too_long(added_extension_layout(Path { bytes: path }, extension).write(out))
}
