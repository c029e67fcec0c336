//! Tests of the order of byte strings.
use unix_bytes::bytes::UnixStr;
use unix_bytes::internal::compare_bytes;

// Byte strings, each greater than the one before it: by a byte among the first 16, by a later byte,
// or only because it is longer.
static RISING: [&[u8]; 14] = [
    b"",
    b"\x00",
    b".",
    b"/",
    b"a",
    b"a\x00",
    b"a.b",
    b"a/b",
    b"a/b/c",
    b"a/b\x7F",
    b"a/b\xC3\xA4",
    b"b123456789abcdef0123456789abcde",
    b"b123456789abcdef0123456789abcdef",
    b"b123456789abcdef0123456789abcdff",
];

// Returns true if the bytes compare with each row of `RISING` as `at` compares with the row's
// index.
fn is_at(bytes: &[u8], at: usize) -> bool {
    for (place, other) in RISING.iter().enumerate() {
        let order = at.cmp(&place);
        let name = UnixStr::from_bytes(bytes);
        if compare_bytes(bytes, other) != order || name.cmp(&UnixStr::from_bytes(other)) != order {
            return false;
        }
    }
    true
}

#[test]
fn rising_bytes(rt: HostRuntime) {
    for (at, bytes) in RISING.iter().enumerate() {
        assert!(rt; is_at(bytes, at), "{at}");
    }
}
