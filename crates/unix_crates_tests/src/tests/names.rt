//! Tests of the bytes before a file name, and of where the name and its stem end.
use super::views::path;

// A path, what `before_name` returns for it, and the indices at which its file name and its stem
// end.
static PLACES: [(&str, &str, Option<usize>, Option<usize>); 12] = [
    ("", "", None, None),
    ("/", "/", None, None),
    (".", ".", None, None),
    ("a/..", "a/..", None, None),
    ("a", "", Some(1), Some(1)),
    ("/a", "/", Some(2), Some(2)),
    ("a//b/.", "a", Some(4), Some(4)),
    ("a/foo.rs/", "a", Some(8), Some(5)),
    ("./.foo", ".", Some(6), Some(6)),
    ("a/..foo", "a", Some(7), Some(3)),
    ("foo.tar.gz", "", Some(10), Some(7)),
    ("../foo.//", "..", Some(7), Some(6)),
];

fn has_indices(row: &(&str, &str, Option<usize>, Option<usize>)) -> bool {
    let p = path(row.0);
    p.before_name().bytes == row.1.as_bytes() && p.name_end() == row.2 && p.stem_end() == row.3
}

#[test]
fn places_of_file_names(rt: HostRuntime) {
    for row in PLACES.iter() {
        assert!(rt; has_indices(row), "{}", row.0);
    }
}
