//! Tests of whether bytes end in a name.
use unix_path::internal::ends_in_name;

// Bytes, and whether they end in a name.
static NAMES: [(&[u8], bool); 23] = [
    (b"", false),
    (b"/", false),
    (b".", false),
    (b"..", false),
    (b"...", true),
    (b"a", true),
    (b"a/", false),
    (b"a/.", false),
    (b"/.", false),
    (b"a/..", false),
    (b"/..", false),
    (b"a/...", true),
    (b"a/b", true),
    (b"a.", true),
    (b"a..", true),
    (b"/.a", true),
    (b"..a", true),
    (b"a/b..", true),
    (b"../", false),
    (b"../a", true),
    (b"a..", true),
    (b"../..", false),
    (b"a/../", false),
];

#[test]
fn names_at_the_end(rt: HostRuntime) {
    for &(bytes, is_named) in &NAMES {
        assert!(rt; ends_in_name(bytes) == is_named);
    }
}
