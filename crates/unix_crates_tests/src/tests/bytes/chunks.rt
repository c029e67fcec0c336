//! Tests of the widths of UTF-8 sequences, and of walks over chunks.
use unix_bytes::lossy::{Utf8Lossy, utf8_char_width};

#[test]
fn widths_by_first_byte(rt: HostRuntime) {
    let ranges: [(u8, u8, usize); 6] = [
        (0x00, 0x7F, 1),
        (0x80, 0xC1, 0),
        (0xC2, 0xDF, 2),
        (0xE0, 0xEF, 3),
        (0xF0, 0xF4, 4),
        (0xF5, 0xFF, 0),
    ];
    for (least, greatest, width) in ranges {
        for first in least..=greatest {
            assert!(rt; utf8_char_width(first) == width, "{first}");
        }
    }
}

fn has_broken(bytes: &[u8]) -> bool {
    for chunk in Utf8Lossy::from_bytes(bytes).chunks() {
        if !chunk.broken.is_empty() {
            return true;
        }
    }
    false
}

// Returns true if a walk over one chunk returns only `None` after it, and a copy of the walk that
// was made before still yields the chunk.
fn stays_ended(bytes: &[u8]) -> bool {
    let mut chunks = Utf8Lossy::from_bytes(bytes).chunks();
    let copy = chunks;
    let is_given = chunks.next().is_some();
    is_given && chunks.next().is_none() && chunks.next().is_none() && copy.count() == 1
}

#[test]
fn ended_iterators_stay_ended(rt: HostRuntime) {
    assert!(rt; stays_ended(b"a\xFF"));
    assert!(rt; has_broken(b"a\xFF") && !has_broken(b"a"));
}
