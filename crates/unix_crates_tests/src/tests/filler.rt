//! Tests of which bytes of a path are filler.
use unix_path::internal::{after_filler, filler_len, is_filler, is_trailing, trimmed_len};

// Bytes; an `x` for each byte for which `is_filler` is true; an `x` for each byte for which
// `is_trailing` is true; and the length of the filler at the beginning of the bytes if a slash
// comes before the bytes.
type Filler = (&'static [u8], &'static [u8], &'static [u8], usize);

static FILLER: [Filler; 14] = [
    (b"", b"", b"", 0),
    (b"/", b"x", b" ", 1),
    (b".", b"x", b" ", 1),
    (b"a", b" ", b" ", 0),
    (b"//", b"xx", b" x", 2),
    (b"./", b"xx", b" x", 2),
    (b"/.", b"xx", b" x", 2),
    (b"..", b" x", b"  ", 0),
    (b".a", b"  ", b"  ", 0),
    (b"a.", b" x", b"  ", 0),
    (b"a/./b", b" xxx ", b" xxx ", 0),
    (b"/./a/.", b"xxx xx", b" xx xx", 3),
    (b"././/..", b"xxxxx x", b" xxxxx ", 5),
    (b"a/..b/", b" x   x", b" xx  x", 0),
];

fn marks_filler(bytes: &[u8], crosses: &[u8]) -> bool {
    for at in 0..bytes.len() {
        if is_filler(bytes, at) != (crosses.get(at) == Some(&b'x')) {
            return false;
        }
    }
    bytes.len() == crosses.len()
}

fn marks_trailing(bytes: &[u8], crosses: &[u8]) -> bool {
    for at in 0..bytes.len() {
        if is_trailing(bytes, at) != (crosses.get(at) == Some(&b'x')) {
            return false;
        }
    }
    bytes.len() == crosses.len()
}

// Returns true if the calls return what the row says.
fn has_filler(row: &Filler) -> bool {
    let (bytes, in_front, behind, len) = *row;
    marks_filler(bytes, in_front)
        && marks_trailing(bytes, behind)
        && filler_len(bytes) == len
        && bytes.get(len..) == Some(after_filler(bytes))
}

#[test]
fn bytes_are_filler(rt: HostRuntime) {
    for row in FILLER.iter() {
        assert!(rt; has_filler(row));
    }
}

// Bytes with long leading filler, and the bytes after this filler.
static LONG_FILLER: [(&[u8], &[u8]); 3] = [
    (b"///////////////////././././././a/", b"a/"),
    (b"/////////////////////////////////", b""),
    (b"/././././././././././../././././.", b"../././././."),
];

#[test]
fn long_filler_is_passed(rt: HostRuntime) {
    for &(bytes, rest) in &LONG_FILLER {
        assert!(rt; after_filler(bytes) == rest);
    }
}

#[test]
fn trailing_filler_is_trimmed(rt: HostRuntime) {
    assert!(rt; trimmed_len(b"/a/./", 0, 5) == 2);
    assert!(rt; trimmed_len(b"/a/./", 0, 2) == 2);
    assert!(rt; trimmed_len(b"/a/./", 3, 5) == 3);
    assert!(rt; trimmed_len(b"a/././././././././././././././.", 0, 31) == 1);
    assert!(rt; trimmed_len(b"a/././././././././././././././.", 20, 31) == 20);
}
