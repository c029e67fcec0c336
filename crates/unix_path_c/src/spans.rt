//! The spans of a path's parent, file name, stem, extension and file prefix, and of the rest of a
//! path after a base.
ghost use Rattle.std.specs.Prelude.{◌≡◌, ◌↔◌, ◌+◌, ◌-◌, ◌≤◌, IsTrue, IfSome, Some, is_some};
ghost use Rattle.std.specs.Prelude.{length, option_map};
ghost use Rattle.std.specs.Bool.{OnTrue, OnFalse};
ghost use Rattle.unix_path.specs.Parts.{values};
ghost use Rattle.unix_path.specs.Parents.{parent_of};
ghost use Rattle.unix_path.specs.Names.{file_name_of, stem_of, extension_of, file_prefix_of};
ghost use Rattle.unix_path.specs.Extensions.{name_end_of};
ghost use Rattle.unix_path.specs.Prefixes.{IsPrefixOf, stripped_of};
ghost use Rattle.unix_path_c.specs.Spans.{span_end, span_bytes, name_start_of, last_end_of};

use unix_path::Path;
use unix_path::internal::stem_end;

/// A run of bytes in a path: `length` bytes from index `start` on.
///
/// Rust's methods return slices instead. The span of `tmp` in `/tmp//foo/` starts at 1 and has 3
/// bytes.
#[derive(Clone, Copy)]
#[repr(C)]
pub struct Span {
    /// The index of the first byte.
    pub start: usize,
    /// The number of bytes.
    pub length: usize,
}

// Returns the span of `bytes`, which end at index `end` of the path.
#[inline]
fn span_ending_at(end: usize, bytes: &[u8]) -> Span
    requires { length bytes.now ≤ end }
    ensures { result ≡ record { start = end - length bytes.now; length = length bytes.now } }
{
    Span {
        start: end - bytes.len(),
        length: bytes.len(),
    }
}

// Returns the index just after the last component, or 0 if there is none.
#[inline]
pub(crate) fn last_end(path: Path<'_>) -> usize
    ensures { result ≡ last_end_of path.entry.bytes.now }
{
    path.components().as_path().bytes.len()
}

// Returns the span of the file name, or `None` if there is none.
#[inline]
fn name_span(path: Path<'_>) -> Option<Span>
    ensures bytes { option_map (span_bytes path.entry.bytes.now) result
        ≡ file_name_of (values path.entry.bytes.now) }
    ensures start { option_map (λ span. span.start) result ≡ name_start_of path.entry.bytes.now }
    ensures end { option_map span_end result ≡ name_end_of path.entry.bytes.now }
    ensures inside { IfSome result (λ span. span_end span ≤ length path.entry.bytes.now) }
{
    let Some(name) = path.file_name() else {
        return None;
    };
    Some(span_ending_at(last_end(path), name.bytes))
}

/// Writes the span of the parent, which is the path without its last component, to `span`. Returns
/// false if there is no component or the last is the root.
///
/// The parent is a prefix of the path. The parent of a single name is empty.
///
/// The parent of `/tmp//foo/.` starts at 0 and has 4 bytes: `/tmp`.
#[unsafe(no_mangle)]
pub extern "C" fn unix_path_parent(path: &[u8], span: &mut Span) -> bool
    ensures value { result ≡ is_some (parent_of path.now) }
    ensures unchanged { OnFalse result (span.new ≡ span.old) }
    ensures bytes { OnTrue result (Some (span_bytes path.now span.new) ≡ parent_of path.now) }
    ensures start { OnTrue result (span.new.start ≡ 0) }
    ensures inside { OnTrue result (span_end span.new ≤ length path.now) }
{
    let Some(parent) = (Path { bytes: path }).parent() else {
        return false;
    };
    *span = Span {
        start: 0,
        length: parent.bytes.len(),
    };
    true
}

/// Writes the span of the last component to `span` if it is a name. Returns false if there is no
/// component or the last is the root, `.` or `..`.
///
/// The file name of `a//foo.txt/.` starts at 3 and has 7 bytes: `foo.txt`.
#[unsafe(no_mangle)]
pub extern "C" fn unix_path_file_name(path: &[u8], span: &mut Span) -> bool
    ensures value { result ≡ is_some (file_name_of (values path.now)) }
    ensures unchanged { OnFalse result (span.new ≡ span.old) }
    ensures bytes { OnTrue result
        (Some (span_bytes path.now span.new) ≡ file_name_of (values path.now)) }
    ensures start { OnTrue result (Some span.new.start ≡ name_start_of path.now) }
    ensures inside { OnTrue result (span_end span.new ≤ length path.now) }
{
    let Some(name) = name_span(Path { bytes: path }) else {
        return false;
    };
    *span = name;
    true
}

/// Writes the span of the file stem to `span`. Returns false if there is no file name.
///
/// The stem is the file name up to its last dot. If there is no dot, or if the last dot is the file
/// name's first byte, the stem is the whole file name. It starts where the file name starts.
///
/// The stem of `a/foo.tar.gz` starts at 2 and has 7 bytes: `foo.tar`.
#[unsafe(no_mangle)]
pub extern "C" fn unix_path_file_stem(path: &[u8], span: &mut Span) -> bool
    ensures value { result ≡ is_some (stem_of (values path.now)) }
    ensures unchanged { OnFalse result (span.new ≡ span.old) }
    ensures bytes { OnTrue result
        (Some (span_bytes path.now span.new) ≡ stem_of (values path.now)) }
    ensures start { OnTrue result (Some span.new.start ≡ name_start_of path.now) }
    ensures inside { OnTrue result (span_end span.new ≤ length path.now) }
{
    let path = Path { bytes: path };
    let Some(name) = name_span(path) else {
        return false;
    };
    let bytes = &path.bytes[name.start..name.start + name.length];
    *span = Span {
        start: name.start,
        length: stem_end(bytes, 0),
    };
    true
}

/// Writes the span of the extension to `span`: the file name's bytes after its last dot. Returns
/// false if there is no file name or no dot, or if the last dot is the file name's first byte.
///
/// The extension ends where the file name ends. The extension of `foo.` is empty.
///
/// The extension of `a/foo.tar.gz` starts at 10 and has 2 bytes: `gz`.
#[unsafe(no_mangle)]
pub extern "C" fn unix_path_extension(path: &[u8], span: &mut Span) -> bool
    ensures value { result ≡ is_some (extension_of (values path.now)) }
    ensures unchanged { OnFalse result (span.new ≡ span.old) }
    ensures bytes { OnTrue result
        (Some (span_bytes path.now span.new) ≡ extension_of (values path.now)) }
    ensures end { OnTrue result (Some (span_end span.new) ≡ name_end_of path.now) }
    ensures inside { OnTrue result (span_end span.new ≤ length path.now) }
{
    let path = Path { bytes: path };
    let Some(end) = path.name_end() else {
        return false;
    };
    let Some(extension) = path.extension() else {
        return false;
    };
    *span = span_ending_at(end, extension.bytes);
    true
}

/// Writes the span of the file prefix to `span`. Returns false if there is no file name.
///
/// The file prefix is the file name up to the first dot after its first byte. If there is no such
/// dot, the file prefix is the whole file name. It starts where the file name starts.
///
/// The file prefix of `a/foo.tar.gz` starts at 2 and has 3 bytes: `foo`.
#[unsafe(no_mangle)]
pub extern "C" fn unix_path_file_prefix(path: &[u8], span: &mut Span) -> bool
    ensures value { result ≡ is_some (file_prefix_of (values path.now)) }
    ensures unchanged { OnFalse result (span.new ≡ span.old) }
    ensures bytes { OnTrue result
        (Some (span_bytes path.now span.new) ≡ file_prefix_of (values path.now)) }
    ensures start { OnTrue result (Some span.new.start ≡ name_start_of path.now) }
    ensures inside { OnTrue result (span_end span.new ≤ length path.now) }
{
    let path = Path { bytes: path };
    let Some(name) = name_span(path) else {
        return false;
    };
    let Some(prefix) = path.file_prefix() else {
        return false;
    };
    *span = Span {
        start: name.start,
        length: prefix.bytes.len(),
    };
    true
}

/// Writes the span of the rest of the path after `base` to `span`. Returns false if the path does
/// not start with the components of `base`.
///
/// Only whole components match: `foo/bar` does not start with `foo/ba`. The span ends where the
/// path's last component ends. If no component follows the base, the span is empty. The empty slice
/// that Rust's `Path::strip_prefix` then returns may start later: for `a/b/` and the base `a/b` the
/// slice starts at 4, and the span at 3.
///
/// The rest may escape: for `/dest/../etc` and the base `/dest` it is `../etc`. To keep a path
/// below a directory, use `unix_path_join_beneath`.
///
/// For `/a//b/` and the base `/a` the span starts at 4 and has 1 byte: `b`.
#[unsafe(no_mangle)]
pub extern "C" fn unix_path_strip_prefix(path: &[u8], base: &[u8], span: &mut Span) -> bool
    ensures value { IsTrue result ↔ IsPrefixOf (values base.now) (values path.now) }
    ensures unchanged { OnFalse result (span.new ≡ span.old) }
    ensures bytes { OnTrue result
        (span_bytes path.now span.new ≡ stripped_of path.now base.now) }
    ensures end { OnTrue result (span_end span.new ≡ last_end_of path.now) }
    ensures inside { OnTrue result (span_end span.new ≤ length path.now) }
{
    let path = Path { bytes: path };
    let Ok(rest) = path.strip_prefix(Path { bytes: base }) else {
        return false;
    };
    *span = span_ending_at(last_end(path), rest.bytes);
    true
}
