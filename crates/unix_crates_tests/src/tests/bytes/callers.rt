//! What a caller can prove about iterator chains over chunks.
ghost use Rattle.std.specs.Prelude.{◌≡◌, ◌↔◌, ◌-◌, IfOk, IfSome, IsTrue, drop, length, map};
ghost use Rattle.std.specs.Prelude.{option_map, slice_get};
ghost use Rattle.std.specs.List.{All};
ghost use Rattle.unix_bytes.specs.Chunks.{chunk_of, chunks_of};

use std::alloc::{AllocError, Global};
use unix_bytes::lossy::{Utf8Lossy, Utf8LossyChunk};

fn count(bytes: &[u8]) -> usize
    ensures { result ≡ length (chunks_of bytes.now) }
{
    Utf8Lossy::from_bytes(bytes).chunks().count()
}

fn nth_with_number<'a>(bytes: &'a [u8], n: usize) -> Option<(usize, Utf8LossyChunk<'a>)>
    ensures number { IfSome result (λ x. x.0 ≡ n) }
    ensures chunk { option_map (λ x. chunk_of x.1) result ≡ slice_get (chunks_of bytes.now) n }
{
    Utf8Lossy::from_bytes(bytes).chunks().enumerate().nth(n)
}

fn last<'a>(bytes: &'a [u8]) -> Option<Utf8LossyChunk<'a>>
    ensures { let all = chunks_of bytes.now in
        option_map chunk_of result ≡ slice_get all (length all - 1) }
{
    Utf8Lossy::from_bytes(bytes).chunks().last()
}

fn all_but_first<'a>(alloc: Global, bytes: &'a [u8]) -> Result<Vec<Utf8LossyChunk<'a>>, AllocError>
    ensures { IfOk result (λ list. map chunk_of list.items ≡ drop 1 (chunks_of bytes.now)) }
{
    Utf8Lossy::from_bytes(bytes).chunks().skip(1).collect(alloc)
}

fn is_unbroken(bytes: &[u8]) -> bool
    ensures { IsTrue result ↔ All (λ chunk. length chunk.broken ≡ 0) (chunks_of bytes.now) }
{
    Utf8Lossy::from_bytes(bytes)
        .chunks()
        .all(|chunk| chunk.broken.is_empty())
}

// Returns true if the call returned a list of this length.
fn has_len(given: Result<Vec<Utf8LossyChunk<'_>>, AllocError>, len: usize) -> bool {
    match given {
        Ok(list) => list.len() == len,
        Err(AllocError) => false,
    }
}

#[test]
fn chains_over_chunks(rt: HostRuntime) {
    let bytes: &[u8] = b"a\xFFb\xE2\x82c";
    let end = Utf8LossyChunk {
        valid: "c",
        broken: b"",
    };
    assert!(rt; count(bytes) == 3 && count(b"") == 0);
    assert!(rt; nth_with_number(bytes, 2) == Some((2, end)));
    assert!(rt; last(bytes) == Some(end));
    assert!(rt; has_len(all_but_first(rt.alloc(), bytes), 2));
    assert!(rt; is_unbroken(b"ab") && !is_unbroken(bytes));
}
