//! Tests of the rests of walks, and of the bytes of components.
use super::answers::assert_each;
use super::views::path;
use unix_bytes::bytes::UnixStr;
use unix_path::Component;

// A path, the numbers of components taken from its beginning and from its end, and the rest.
static RESTS: [(&str, usize, usize, &str); 20] = [
    ("//", 0, 0, "/"),
    ("//", 0, 1, ""),
    ("//", 1, 0, ""),
    ("///foo///bar", 0, 0, "///foo///bar"),
    ("///foo///bar", 1, 0, "foo///bar"),
    ("///foo///bar", 2, 0, "bar"),
    ("///foo///bar", 0, 1, "///foo"),
    ("///foo///bar", 0, 2, "/"),
    ("/tmp/foo/bar.txt", 2, 0, "foo/bar.txt"),
    ("/tmp//foo/", 1, 0, "tmp//foo"),
    ("/a/./b/../c", 2, 2, "b"),
    ("./a", 1, 0, "a"),
    ("./a", 0, 1, "."),
    ("./a", 1, 1, ""),
    (".", 0, 0, "."),
    (".", 0, 1, ""),
    ("a/./b", 1, 0, "b"),
    ("/foo/", 0, 0, "/foo"),
    ("a//b/.", 0, 1, "a"),
    ("", 0, 0, ""),
];

// Takes `front` components from the beginning of a walk over components, and `behind` components
// from its end. Returns true if the rest of the walk is `rest`.
fn leaves(text: &str, front: usize, behind: usize, rest: &str) -> bool {
    let mut parts = path(text).components();
    let mut is_given = true;
    for _ in 0..front {
        is_given &= parts.next().is_some();
    }
    for _ in 0..behind {
        is_given &= parts.next_back().is_some();
    }
    is_given && parts.as_path().as_unix_str() == UnixStr::new(rest)
}

// Takes `front` components from the beginning of a walk over the bytes of components, and `behind`
// components from its end. Returns true if the rest of the walk is `rest`.
fn texts_leave(text: &str, front: usize, behind: usize, rest: &str) -> bool {
    let mut texts = path(text).iter();
    let mut is_given = true;
    for _ in 0..front {
        is_given &= texts.next().is_some();
    }
    for _ in 0..behind {
        is_given &= texts.next_back().is_some();
    }
    is_given && texts.as_path().as_unix_str() == UnixStr::new(rest)
}

#[test]
fn rests(rt: HostRuntime) {
    for row in RESTS.iter() {
        let is_left = leaves(row.0, row.1, row.2, row.3);
        let are_left = is_left && texts_leave(row.0, row.1, row.2, row.3);
        assert!(rt; are_left, "{} {} {}", row.0, row.1, row.2);
    }
}

// Returns true if the component has these bytes, and its path has them too.
fn is_written(part: Component<'_>, text: &str) -> bool {
    let want = UnixStr::new(text);
    part.as_unix_str() == want && part.as_path().as_unix_str() == want
}

#[test]
fn components_are_written(rt: HostRuntime) {
    assert_each(
        &rt,
        &[
            is_written(Component::RootDir, "/"),
            is_written(Component::CurDir, "."),
            is_written(Component::ParentDir, ".."),
            is_written(Component::Normal(UnixStr::new("tmp")), "tmp"),
        ],
    );
}
