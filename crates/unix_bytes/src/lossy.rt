//! Bytes that may be invalid UTF-8, shown with U+FFFD for each invalid front.
ghost use Rattle.std.specs.Prelude.{◌≡◌, ◌↔◌, ◌<◌, ◌^◌, ℕ, ◌∷◌, List, [], Some, length};
ghost use Rattle.std.specs.Prelude.{if◌then◌else◌};
ghost use Rattle.std.specs.Fmt.{WritesOnOk, WritesStyledOnOk, padded};
ghost use Rattle.std.specs.Str.{IsUtf8};
ghost use Rattle.std.specs.Iterator.{YieldsFirstBy, item_count};
ghost use Rattle.std.specs.Iterator.Runs.{EveryRun, ItemsMapTo};
ghost use Rattle.unix_bytes.specs.Utf8.{IsSequence, BeginsSequence};
ghost use Rattle.unix_bytes.specs.Lossy.{is_text, lossy_of};
ghost use Rattle.unix_bytes.specs.Chunks.{chunks_of, chunk_of, remaining_chunks, shown_chunk};

use crate::printer::{BUFFER_LEN, show_first};
use crate::utf8::split_text;
use std::iter::FusedIterator;
use std::{fmt, str};

/// Returns the length of the sequences that begin with `b`: 1 to 4, or 0 if no sequence begins with
/// it.
///
/// The lengths are from the table of RFC 3629, section 4.
///
/// `utf8_char_width(0xE2)` is 3.
#[inline]
#[tactic(auto, using(crate::proofs::lemmas::sequences::WidthLemmas::widths))]
pub fn utf8_char_width(b: u8) -> usize
    ensures value { (u : List ℕ) → IsSequence (b ∷ u) → length (b ∷ u) ≡ result }
    ensures none { (result ≡ 0) ↔ ¬ (BeginsSequence (b ∷ [])) }
{
    match b {
        0x00..=0x7F => 1,
        0xC2..=0xDF => 2,
        0xE0..=0xEF => 3,
        0xF0..=0xF4 => 4,
        _ => 0,
    }
}

/// A view that shows bytes as a string, whether they are valid UTF-8 or not.
///
/// Its `Display` writes the lossy form and allocates nothing, while Rust's
/// `String::from_utf8_lossy` may allocate. `Copy` copies the view, not the bytes.
#[derive(Clone, Copy)]
pub struct Utf8Lossy<'a> {
    /// The bytes.
    pub bytes: &'a [u8],
}

impl<'a> Utf8Lossy<'a> {
    /// Returns a view of these bytes, which need not be valid UTF-8.
    ///
    /// `Utf8Lossy::from_bytes(b"a\xFF")` is displayed as `a` and U+FFFD.
    #[inline]
    pub fn from_bytes(bytes: &'a [u8]) -> Utf8Lossy<'a>
        ensures { result.bytes.now ≡ bytes.now }
    {
        Utf8Lossy { bytes }
    }

    /// Returns an iterator over the chunks of the bytes. Corresponds to Rust's
    /// `<[u8]>::utf8_chunks`.
    ///
    /// A chunk is the longest prefix of the remaining bytes that is valid UTF-8, and the invalid
    /// front after it, if there is one. The empty byte string has no chunks. The iterator does not
    /// allocate.
    ///
    /// For the bytes 61 FF 62 there are two chunks: `a` with FF, and `b` without an invalid front.
    #[inline]
    pub fn chunks(&self) -> Utf8LossyChunksIter<'a>
        ensures pending { remaining_chunks result ≡ chunks_of self.now.bytes.now }
        ensures len { length (remaining_chunks result) < 2 ^ 64 }

        // Calls of `next` return the remaining chunks, in order.
        ensures runs { EveryRun (YieldsFirstBy chunk_of remaining_chunks)
            (λ p. ItemsMapTo p chunk_of (remaining_chunks p.from)) }
    {
        let source = self.bytes;
        Utf8LossyChunksIter { source }
    }
}

/// A run of valid UTF-8, and the invalid front after it, if there is one.
///
/// Corresponds to Rust's `Utf8Chunk`.
#[derive(Clone, Copy, Debug, PartialEq, Eq)]
pub struct Utf8LossyChunk<'a> {
    /// The valid UTF-8. Empty if the chunk begins with its invalid front.
    pub valid: &'a str,
    /// The invalid front: a proper prefix of a sequence, or one byte that begins no sequence. It
    /// has at most 3 bytes, and can be empty only in the last chunk.
    pub broken: &'a [u8],
}

/// An iterator over the chunks of a byte string, in order.
///
/// Corresponds to Rust's `Utf8Chunks`.
#[derive(Clone, Copy, Debug)]
pub struct Utf8LossyChunksIter<'a> {
    source: &'a [u8],
}

// Returns the first chunk of `source`, which must not be empty, and the bytes after this chunk.
#[inline]
fn split_chunk(source: &[u8]) -> (Utf8LossyChunk<'_>, &[u8])
    requires { 0 < length source.now }
    ensures { chunks_of source.now ≡ chunk_of result.0 ∷ chunks_of result.1.now }
{
    let (valid, broken, rest) = split_text(source);
    (Utf8LossyChunk { valid, broken }, rest)
}

impl<'a> Iterator for Utf8LossyChunksIter<'a> {
    type Item = Utf8LossyChunk<'a>;

    ghost next_gives = { YieldsFirstBy chunk_of remaining_chunks };

    ghost remaining = { item_count remaining_chunks };

    #[inline]
    #[tactic(auto, using(crate::proofs::lemmas::chunks::ChunkLemmas::no_chunks))]
    fn next(&mut self) -> Option<Utf8LossyChunk<'a>> {
        if self.source.is_empty() {
            return None;
        }
        let (chunk, rest) = split_chunk(self.source);
        self.source = rest;
        Some(chunk)
    }
}

impl FusedIterator for Utf8LossyChunksIter<'_> {}

// Writes the chunk's valid UTF-8, and then U+FFFD if the chunk has an invalid front.
fn write_chunk<W: fmt::Write>(chunk: Utf8LossyChunk<'_>, f: &mut fmt::Formatter<W>) -> fmt::Result
    ensures writes { WritesOnOk W.write_str_gives f.old result
        (shown_chunk (chunk_of chunk.entry)) f.new }
    ensures styled { WritesStyledOnOk W.write_str_gives f.old result
        (shown_chunk (chunk_of chunk.entry)) f.new }
{
    f.write_str(chunk.valid)?;
    if chunk.broken.is_empty() {
        return Ok(());
    }
    f.write_str("\u{FFFD}")
}

// Writes the bytes, which must be valid UTF-8.
#[inline(always)]
fn write_text<W: fmt::Write>(bytes: &[u8], f: &mut fmt::Formatter<W>) -> fmt::Result
    requires { IsUtf8 bytes.now }
    ensures writes { WritesOnOk W.write_str_gives f.old result bytes.now f.new }
    ensures styled { WritesStyledOnOk W.write_str_gives f.old result bytes.now f.new }
{
    f.write_str(unsafe { str::from_utf8_unchecked(bytes) })
}

// Writes the lossy form of `source`, one buffer at a time.
#[inline]
fn write_lossy<W: fmt::Write>(source: &[u8], f: &mut fmt::Formatter<W>) -> fmt::Result
    ensures writes { WritesOnOk W.write_str_gives f.old result (lossy_of source.now) f.new }
    ensures styled { WritesStyledOnOk W.write_str_gives f.old result (lossy_of source.now) f.new }
{
    let mut buffer = [0; BUFFER_LEN];
    let mut pending = source;
    while !pending.is_empty() {
        let (read, written) = show_first(pending, &mut buffer);
        write_text(&buffer[..written], f)?;
        let after = &pending[read..];
        if after.is_empty() {
            return Ok(());
        }
        let (valid, broken, rest) = split_text(after);
        write_chunk(Utf8LossyChunk { valid, broken }, f)?;
        pending = rest;
    }
    Ok(())
}

/// Writes the lossy form: the sequences unchanged, and U+FFFD for each invalid front.
///
/// If the bytes are valid UTF-8, width, precision, fill and alignment apply as to a `str`.
/// Otherwise they are ignored. Fails only if the writer fails.
impl fmt::Display for Utf8Lossy<'_> {
    ghost output = { λ d. Some (lossy_of d.bytes.now) };

    ghost styled_output = { λ d spec.
        let s = d.bytes.now in
        Some (if is_text s then padded spec s else lossy_of s) };

    fn fmt<W: fmt::Write>(&self, f: &mut fmt::Formatter<W>) -> fmt::Result {
        let (valid, broken, rest) = split_text(self.bytes);
        if broken.is_empty() {
            return f.pad(valid);
        }
        // If the valid prefix is short, it is read again, so that it is written together with the
        // rest.
        if valid.len() < BUFFER_LEN / 4 {
            return write_lossy(self.bytes, f);
        }
        write_chunk(Utf8LossyChunk { valid, broken }, f)?;
        write_lossy(rest, f)
    }
}

/// Writes the lossy form as the debug form of a `str`: in quotes, with escapes. Fails only if the
/// writer fails. The format is specific to this crate.
impl fmt::Debug for Utf8Lossy<'_> {
    fn fmt<W: fmt::Write>(&self, f: &mut fmt::Formatter<W>) -> fmt::Result {
        f.write_char('"')?;
        for chunk in self.chunks() {
            write_escaped_chunk(chunk, f)?;
        }
        f.write_char('"')
    }
}

// Writes the chunk's valid UTF-8 with the escapes of the debug form, and then U+FFFD if the chunk
// has an invalid front.
fn write_escaped_chunk<W: fmt::Write>(
    chunk: Utf8LossyChunk<'_>,
    f: &mut fmt::Formatter<W>,
) -> fmt::Result {
    write_escaped(chunk.valid, f)?;
    if chunk.broken.is_empty() {
        return Ok(());
    }
    f.write_char(char::REPLACEMENT_CHARACTER)
}

// Writes the string with the escapes of its debug form, without the quotes.
fn write_escaped<W: fmt::Write>(text: &str, f: &mut fmt::Formatter<W>) -> fmt::Result {
    text.chars().try_for_each(|c| write_escaped_char(c, f))
}

// Writes the character as in the debug form of a `str`, which leaves `'` unescaped.
fn write_escaped_char<W: fmt::Write>(c: char, f: &mut fmt::Formatter<W>) -> fmt::Result {
    if c == '\'' {
        return f.write_char(c);
    }
    fmt::Display::fmt(&c.escape_debug(), f)
}
