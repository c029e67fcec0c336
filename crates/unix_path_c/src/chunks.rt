//! The chunks of a path, one at a time: runs of valid UTF-8, each with the invalid bytes after it.
//! The caller keeps the index of the next chunk.
ghost use Rattle.std.specs.Prelude.{◌≡◌, ◌↔◌, ◌≤◌, [], ◌∷◌, length, IsFalse, IsTrue};
ghost use Rattle.unix_path_c.specs.Chunks.{chunk_end, chunk_in, remaining_chunks};

use unix_bytes::lossy::Utf8Lossy;

/// A chunk of a path: valid UTF-8 and the invalid bytes after it. It is like Rust's `Utf8Chunk`.
///
/// The first chunk of the bytes 61 FF 62 starts at 0, and has 1 valid byte and 1 invalid byte.
#[derive(Clone, Copy)]
#[repr(C)]
pub struct Chunk {
    /// The index at which the valid UTF-8 begins.
    pub start: usize,
    /// The number of bytes of valid UTF-8. It is 0 if the chunk begins with invalid bytes.
    pub valid_length: usize,
    /// The number of invalid bytes after the valid ones, at most 3: an incomplete UTF-8 sequence,
    /// or a single byte that begins no UTF-8 sequence. It can be 0 only in the last chunk.
    pub broken_length: usize,
}

/// Writes the next chunk of the path to `chunk`, and advances `next`. Returns false if no chunk
/// remains.
///
/// A chunk is the longest run of valid UTF-8 at index `next`, and the invalid bytes after it, which
/// the lossy string replaces with one U+FFFD. `next` is the index at which the next chunk begins: 0
/// for the first chunk, and the path's length once no chunk remains. No chunk remains either if
/// `next` is greater than the path's length. The call is like the `next` of Rust's
/// `<[u8]>::utf8_chunks`.
///
/// The chunks of the bytes 61 FF 62 are `a` with the invalid byte FF, and `b` with none.
#[unsafe(no_mangle)]
pub extern "C" fn unix_path_next_chunk(path: &[u8], next: &mut usize, chunk: &mut Chunk) -> bool
    ensures ended { IsFalse result ↔ (remaining_chunks path.now next.old ≡ []) }
    ensures next_unchanged { IsFalse result → next.new ≡ next.old }
    ensures chunk_unchanged { IsFalse result → chunk.new ≡ chunk.old }
    ensures chunks { IsTrue result → remaining_chunks path.now next.old
        ≡ chunk_in path.now chunk.new ∷ remaining_chunks path.now next.new }
    ensures start { IsTrue result → chunk.new.start ≡ next.old }
    ensures end { IsTrue result → chunk_end chunk.new ≡ next.new }
    ensures inside { IsTrue result → next.new ≤ length path.now }
{
    let start = *next;
    if start > path.len() {
        return false;
    }
    let Some(first) = Utf8Lossy::from_bytes(&path[start..]).chunks().next() else {
        return false;
    };
    *chunk = Chunk {
        start,
        valid_length: first.valid.len(),
        broken_length: first.broken.len(),
    };
    *next = start + first.valid.len() + first.broken.len();
    true
}
