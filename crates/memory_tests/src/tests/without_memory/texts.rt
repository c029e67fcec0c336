//! Calls on byte strings and lossy texts that promise to need no memory.
use super::super::exhaust;
use super::{debug_has, display_has, hash_same};
use std::alloc::Global;
use std::test::Fail;
use unix_bytes::bytes::{LossyText, UnixStr, UnixString};
use unix_bytes::internal::{
    after_last, after_last_of_two, common_len, common_len_expect_short, find_byte, write_at,
};
use unix_bytes::lossy::{Utf8Lossy, utf8_char_width};

fn is_view() -> bool {
    let foo = UnixStr::new("foo");
    foo == UnixStr::from_bytes(b"foo")
        && foo.as_bytes() == b"foo".as_slice()
        && foo.len() == 3
        && !foo.is_empty()
        && foo.to_str() == Some("foo")
        && foo < UnixStr::new("goo")
}

fn is_printed() -> bool {
    debug_has(&UnixStr::from_bytes(b"a\xff"), 6)
        && display_has(&Utf8Lossy::from_bytes(b"a\xff"), 4)
        && debug_has(&Utf8Lossy::from_bytes(b"a\xff"), 6)
}

fn has_chunks() -> bool {
    let mut chunks = Utf8Lossy::from_bytes(b"a\xffb").chunks();
    let is_first = chunks.next().is_some_and(|chunk| chunk.valid == "a");
    is_first && chunks.next().is_some() && chunks.next().is_none()
}

fn is_placed() -> bool {
    let mut out = [b'.'; 4];
    write_at(&mut out, 1, b"ab");
    out == *b".ab."
}

fn is_found() -> bool {
    utf8_char_width(b'a') == 1
        && find_byte(b"a/b", b'/') == 1
        && after_last(b"a/b", b'/') == 2
        && after_last_of_two(b"a/b", b'.', b'/') == 2
        && common_len(b"ab", b"ac") == 1
        && common_len_expect_short(b"ab", b"ac") == 1
}

// Returns true if an owned text has these bytes and becomes a `String` without a copy.
fn is_owned(alloc: Global, lossy: LossyText<'_>) -> bool {
    let is_read = lossy.as_str() == "a\u{fffd}"
        && lossy == LossyText::Borrowed("a\u{fffd}")
        && lossy > LossyText::Borrowed("a")
        && display_has(&lossy, 4)
        && debug_has(&lossy, 6)
        && hash_same(&lossy, &LossyText::Borrowed("a\u{fffd}"));
    is_read && lossy.into_owned(alloc).is_ok()
}

fn copies_nothing(alloc: Global) -> bool {
    let empty = UnixString::new(alloc);
    empty.clone().is_ok()
        && UnixStr::new("").to_unix_string(alloc).is_ok()
        && LossyText::Borrowed("").into_owned(alloc).is_ok()
}

// Returns true if a string without spare capacity keeps its capacity.
fn stays_full(mut full: UnixString) -> bool {
    full.shrink_to_fit().is_ok()
        && full.shrink_to(0).is_ok()
        && debug_has(&full, 5)
        && hash_same(&full, &UnixStr::new("foo"))
}

#[test]
fn texts_need_no_memory(rt: HostRuntime) -> Result<(), Fail> {
    let alloc = rt.alloc();
    let lossy = UnixStr::from_bytes(b"a\xff").to_string_lossy(alloc)?;
    let full = UnixStr::new("foo").to_unix_string(alloc)?;
    let _exhausted = exhaust(alloc)?;
    assert!(rt; is_view());
    assert!(rt; is_printed());
    assert!(rt; has_chunks());
    assert!(rt; is_found());
    assert!(rt; is_placed());
    assert!(rt; is_owned(alloc, lossy));
    assert!(rt; copies_nothing(alloc));
    assert!(rt; stays_full(full));
    Ok(())
}
