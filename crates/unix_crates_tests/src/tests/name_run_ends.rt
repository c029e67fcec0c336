//! Tests of where runs of names end.
use super::answers::assert_each;
use unix_path::internal::{
    has_no_name_run_end, may_end_name_run_simd16, name_run_end, name_run_end_expect_short,
    no_name_starts_at,
};

// Bytes, and the index of the slash that ends their first run of names, or their length if no slash
// does. In some rows this index is at the end of a block of 16 bytes, or after it.
static STOPS: [(&[u8], usize); 34] = [
    (b"", 0),
    (b"/", 0),
    (b"a", 1),
    (b"a/b", 3),
    (b"a/", 1),
    (b"a/b/../c", 3),
    (b"a/.b", 4),
    (b"a/..b", 5),
    (b"a/...", 5),
    (b"a/..", 1),
    (b"a/.", 1),
    (b"a//b/c", 1),
    (b"/b/c", 4),
    (b"..", 2),
    (b"1234567//", 7),
    (b"12345678//", 8),
    (b"a/.b/.c/../d", 7),
    (b"0123456789abcd/.", 14),
    (b"0123456789abcde//", 15),
    (b"0123456789abcdef//", 16),
    (b"0123456789abcdef/..", 16),
    (b"123456789abcdef/.", 15),
    (b"0123456789abcdef/ghij/", 21),
    (b"0123456789abcdef/../ghijkl", 16),
    (b"0123456789abcdef/ghijklmnopqrstuv/w", 35),
    (b"0123456789abcdef/.ghijklmnopqrstu//", 33),
    (b"0/1/2/3/4/5/6/7/8/9/a/b/c/d/e/f/g/h/.i", 38),
    (b"0/1/2/3/4/5/6/7/8/9/a/b/c/d/e/f/g/h/..", 35),
    (b"0123456789/.bcdef", 17),
    (b"0123456789abcde/f/", 17),
    (b"0123456789abcdef0123456789abcdef/", 32),
    (b"0123456789abcdef0/23456789abcdef/0123456789abcdef/0", 51),
    (
        b"0123456789abcdef0123456789abcdef//0123456789abcdef0123456789abcdef",
        32,
    ),
    (
        b"0123456789abcdef0123456789abcdef0123456789abcdef0123456789abcdef/..",
        64,
    ),
];

// Returns true if each search finds the end of the path's first run of names at this index.
fn has_stop(bytes: &[u8], place: usize) -> bool {
    name_run_end(bytes, b'/', b'.') == place
        && name_run_end_expect_short(bytes, b'/', b'.') == place
        && has_no_name_run_end(bytes, b'/', b'.') == (place == bytes.len())
}

#[test]
fn stops_are_found(rt: HostRuntime) {
    for &(bytes, place) in &STOPS {
        assert!(rt; has_stop(bytes, place));
    }
    // Names are separated by zero bytes, and a slash has the role of a path's dot.
    assert!(rt;
        name_run_end(b"a/b\0//\0c", 0, b'/') == 3
            && name_run_end_expect_short(b"a/b\0//\0c", 0, b'/') == 3
    );
}

#[test]
fn names_begin(rt: HostRuntime) {
    assert_each(
        &rt,
        &[
            !no_name_starts_at(b"a/../b", 0, b'/', b'.'),
            no_name_starts_at(b"a/../b", 2, b'/', b'.'),
            no_name_starts_at(b"a/../b", 4, b'/', b'.'),
            !no_name_starts_at(b"a/../b", 5, b'/', b'.'),
            no_name_starts_at(b"a/../b", 6, b'/', b'.'),
            no_name_starts_at(b"a/.", 2, b'/', b'.'),
            !no_name_starts_at(b"a/.b", 2, b'/', b'.'),
            !no_name_starts_at(b"a/...", 2, b'/', b'.'),
        ],
    );
}

#[test]
fn blocks_may_break(rt: HostRuntime) {
    assert_each(
        &rt,
        &[
            !may_end_name_run_simd16(b"0123456789abc/ef/", 0, b'/', b'.'),
            may_end_name_run_simd16(b"0123456789abc/.f/", 0, b'/', b'.'),
            !may_end_name_run_simd16(b"a0123456789abcdef/", 1, b'/', b'.'),
            may_end_name_run_simd16(b"a0123456789abcde//", 1, b'/', b'.'),
        ],
    );
}
