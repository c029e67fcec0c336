//! Tests of the indices of bytes, and of the lengths of common prefixes.
use unix_bytes::internal::{
    after_last, after_last_of_two, common_len, common_len_expect_short, find_byte,
};

// Bytes, the index of the first `:`, and the index just after the last one.
static PLACES: [(&[u8], usize, usize); 11] = [
    (b"", 0, 0),
    (b":", 0, 1),
    (b"a:b:c", 1, 4),
    (b"abc", 3, 0),
    (b"123456789abcde:", 14, 15),
    (b"123456789abcdef:", 15, 16),
    (b":123456789abcdef", 0, 1),
    (b"123456789abcdef0:", 16, 17),
    (b"123456789abcdef0123456789abcdef0", 32, 0),
    (b"12:456789abcdef0123456789abcd:f01", 2, 30),
    (b"123456789abcdef0:23456789abcdef01", 16, 17),
];

#[test]
fn first_and_last_bytes(rt: HostRuntime) {
    for &(bytes, first, past) in &PLACES {
        assert!(rt; find_byte(bytes, b':') == first && after_last(bytes, b':') == past);
    }
}

// Bytes, and the index just after the last `:` or `;`. In the last three rows, one of the two is in
// a block of 16 bytes, and the other one is outside that block.
static LAST_OF_TWO: [(&[u8], usize); 10] = [
    (b"", 0),
    (b"abc", 0),
    (b":", 1),
    (b";a", 1),
    (b"a:b;c", 4),
    (b"a;b:c", 4),
    (b"123456789abcdef0123456789abcdef0", 0),
    (b"12:456789abcdef0123456;89abcdef0", 23),
    (b"1;3456789abcdef0123456:89abcdef01", 23),
    (b";:3456789abcdef0123456789abcdef01", 2),
];

#[test]
fn last_of_two_bytes(rt: HostRuntime) {
    for &(bytes, past) in &LAST_OF_TWO {
        let is_found = after_last_of_two(bytes, b':', b';') == past;
        assert!(rt; is_found && after_last_of_two(bytes, b';', b':') == past);
    }
}

// Two byte strings, and the length of their common prefix. In the second row the byte that differs
// is the last of the first 16; in the third and fourth rows the first 16 bytes are the same.
static COMMON_PREFIXES: [(&[u8], &[u8], usize); 12] = [
    (b"a/b", b"a/c", 2),
    (b"123456789abcdef0", b"123456789abcdefg", 15),
    (b"123456789abcdef012", b"123456789abcdef0x2", 16),
    (b"123456789abcdef01234", b"123456789abcdef012345", 20),
    (b"", b"", 0),
    (b"a", b"", 0),
    (b"abc", b"abcd", 3),
    (b"abc", b"abc", 3),
    (b"x23456789abcdef0", b"123456789abcdef0", 0),
    (b"123456789abcdef0", b"123456789abcdef0", 16),
    (
        b"123456789abcdef0123456789abcdef0x",
        b"123456789abcdef0123456789abcdef0",
        32,
    ),
    (
        b"123456789abcdef0123456x89abcdef0",
        b"123456789abcdef0123456789abcdef0",
        22,
    ),
];

fn is_common(a: &[u8], b: &[u8], len: usize) -> bool {
    common_len(a, b) == len
        && common_len(b, a) == len
        && common_len_expect_short(a, b) == len
        && common_len_expect_short(b, a) == len
}

#[test]
fn common_prefixes(rt: HostRuntime) {
    for row in COMMON_PREFIXES.iter() {
        assert!(rt; is_common(row.0, row.1, row.2), "{}", row.2);
    }
}

// Returns true if the common prefix of two strings of `len` bytes, at most 200, has the right
// length: if they are the same, and if they differ only at one index, for each index.
fn are_common(len: usize) -> bool {
    let a = [b'a'; 200];
    if len > 200 {
        return false;
    }
    for place in 0..len {
        let mut b = a;
        b[place] = b'b';
        if !is_common(&a[..len], &b[..len], place) {
            return false;
        }
    }
    is_common(&a[..len], &a[..len], len)
}

// Compares strings of each length below 200 that differ at one index, or at none.
#[test]
fn places_of_differences(rt: HostRuntime) {
    for len in 0..200 {
        assert!(rt; are_common(len), "{len}");
    }
}
