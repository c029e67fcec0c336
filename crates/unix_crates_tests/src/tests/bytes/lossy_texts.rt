//! Tests of lossy texts, borrowed and owned.
use super::super::texts::{assert_text, is_debug_text, is_text};
use std::alloc::{AllocError, Global};
use std::cmp::Ordering;
use std::hash::{DefaultHasher, Hash, Hasher};
use std::test::Fail;
use unix_bytes::bytes::{LossyText, UnixStr};

// Returns true if a borrowed and an owned text are equal, and feed a hasher the same input.
fn are_alike<'a>(borrowed: &LossyText<'a>, owned: &LossyText<'a>) -> bool {
    borrowed == owned
        && borrowed.cmp(owned) == Ordering::Equal
        && borrowed.partial_cmp(owned) == Some(Ordering::Equal)
        && hash_of(borrowed) == hash_of(owned)
        && matches!(borrowed, LossyText::Borrowed(_))
        && matches!(owned, LossyText::Owned(_))
}

// Returns true if the lossy text of the bytes 61 FF is printed correctly: plain, padded, cut and in
// its debug form.
fn is_printed(alloc: Global, text: &LossyText<'_>) -> bool {
    is_text(format!(in alloc; "{text}"), "a\u{FFFD}")
        && is_text(format!(in alloc; "{text:>4}"), "  a\u{FFFD}")
        && is_text(format!(in alloc; "{text:*<4.1}"), "a***")
        && is_debug_text(alloc, text, "\"a\u{FFFD}\"")
}

// Compares a borrowed and an owned text of the same bytes: they are equal, feed a hasher the same
// input and print the same text.
#[test]
fn borrowed_and_owned_are_alike(rt: HostRuntime) -> Result<(), Fail> {
    let alloc = rt.alloc();
    let borrowed = UnixStr::new("a\u{FFFD}").to_string_lossy(alloc)?;
    let owned = UnixStr::from_bytes(b"a\xFF").to_string_lossy(alloc)?;
    assert!(rt;
        are_alike(&borrowed, &owned) && is_printed(alloc, &borrowed) && is_printed(alloc, &owned)
    );
    Ok(())
}

// Compares lossy texts: they are ordered by their bytes, and a proper prefix is less.
#[test]
fn texts_in_order(rt: HostRuntime) {
    let rows: [&[u8]; 5] = [b"", b"a", b"a\0", b"b", b"\xFF"];
    for (i, first) in rows.iter().enumerate() {
        for (j, second) in rows.iter().enumerate() {
            let answer = are_ordered(rt.alloc(), first, second, i.cmp(&j));
            assert!(rt; matches!(answer, Ok(true)), "{i} {j}");
        }
    }
}

// Returns true if the lossy texts of `first` and `second` compare as `order` says.
fn are_ordered(
    alloc: Global,
    first: &[u8],
    second: &[u8],
    order: Ordering,
) -> Result<bool, AllocError> {
    let x = UnixStr::from_bytes(first).to_string_lossy(alloc)?;
    let y = UnixStr::from_bytes(second).to_string_lossy(alloc)?;
    Ok(x.cmp(&y) == order && (x == y) == order.is_eq() && (x < y) == order.is_lt())
}

// Returns the lossy text of the bytes as a `String`.
fn owned_text(alloc: Global, bytes: &[u8]) -> Result<String, AllocError> {
    UnixStr::from_bytes(bytes)
        .to_string_lossy(alloc)?
        .into_owned(alloc)
}

#[test]
fn texts_into_owned(rt: HostRuntime) {
    let alloc = rt.alloc();
    assert_text(&rt, owned_text(alloc, b"ab"), "ab");
    assert_text(&rt, owned_text(alloc, b"a\xFF"), "a\u{FFFD}");
    assert_text(&rt, owned_text(alloc, b""), "");
}

fn hash_of(text: &LossyText<'_>) -> u64 {
    let mut state = DefaultHasher::new();
    text.hash(&mut state);
    state.finish()
}
