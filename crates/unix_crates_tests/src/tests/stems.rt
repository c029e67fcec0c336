//! Tests of where the stem of a name ends.
use unix_path::internal::{ends_in_name, stem_end};

// Bytes that end in a name, the length of a prefix known to end in a stem, and the index at which
// the stem of the name ends.
static STEMS: [(&[u8], usize, usize); 18] = [
    (b"a", 0, 1),
    (b"a.b", 0, 1),
    (b"a.b", 1, 1),
    (b".a", 0, 2),
    (b".a", 2, 2),
    (b".a.b", 2, 2),
    (b"..a", 0, 1),
    (b"...", 0, 2),
    (b"a.", 0, 1),
    (b"a.b.c", 0, 3),
    (b"a.b/c", 0, 5),
    (b"a.b/.c", 0, 6),
    (b"a/b.c", 1, 3),
    (b"a/bcd", 4, 5),
    (b"a/b.c/d", 1, 7),
    (b"a/.b", 1, 4),
    (b"a/0123456789abcdef0123456789.ab", 1, 28),
    (b"a.b/0123456789abcdef0123456789ab", 0, 32),
];

fn has_stem(bytes: &[u8], known: usize, end: usize) -> bool {
    if !ends_in_name(bytes) || bytes.len() < known {
        return false;
    }
    if known == 0 {
        return stem_end(bytes, 0) == end;
    }
    let front = &bytes[..known];
    ends_in_name(front) && stem_end(front, 0) == known && stem_end(bytes, known) == end
}

#[test]
fn stems_at_the_end(rt: HostRuntime) {
    for &(bytes, known, end) in &STEMS {
        assert!(rt; has_stem(bytes, known, end));
    }
}
