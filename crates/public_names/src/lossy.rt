//! The module `lossy`, and `Display`.
use unix_path::Display;
use unix_path::lossy::{Utf8Lossy, Utf8LossyChunk, Utf8LossyChunksIter, utf8_char_width};

/// Calls the functions of `lossy`.
pub fn lossy<'a>(bytes: &'a [u8], first: u8) -> Utf8LossyChunksIter<'a> {
    let _: usize = utf8_char_width(first);
    let it: Utf8Lossy<'a> = Utf8Lossy::from_bytes(bytes);
    let _: Display<'a> = Display::from_bytes(bytes);
    it.chunks()
}

/// Names the fields of a chunk.
pub fn chunk<'a>(it: &mut Utf8LossyChunksIter<'a>) -> Option<(&'a str, &'a [u8])> {
    let Utf8LossyChunk { valid, broken } = it.next()?;
    Some((valid, broken))
}
