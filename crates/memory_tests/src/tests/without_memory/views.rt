//! Calls on views of paths that promise to need no memory.
use super::super::{exhaust, path};
use super::{debug_has, display_has, hash_same, is_view};
use std::cmp::Ordering;
use std::test::Fail;
use unix_path::bytes::UnixStr;
use unix_path::internal::{
    after_filler, dot_before, ends_in_name, filler_len, has_no_name_run_end, has_slash, is_filler,
    is_trailing, may_end_name_run_simd16, name_run_end, name_run_end_expect_short, name_step,
    needs_no_separator, no_name_starts_at, parent_dir_step, starts_with_parent_dir, trimmed_len,
};
use unix_path::{Component, Display, Path, StripPrefixError, is_separator};

fn is_made() -> bool {
    Path::new(UnixStr::new("/a")) == path("/a")
        && Path::from_bytes(b"/a") == path("/a")
        && is_separator('/')
        && path("/a").is_absolute()
        && path("/a").has_root()
        && path("a").is_relative()
}

fn is_shown() -> bool {
    path("a").to_str() == Some("a")
        && display_has(&path("a").display(), 1)
        && display_has(&Display::from_bytes(b"a\xff"), 4)
        && debug_has(&Display::from_bytes(b"a"), 3)
        && debug_has(&path("/a"), 4)
}

fn has_names() -> bool {
    path("a/b.c").file_name() == Some(UnixStr::new("b.c"))
        && path("a/b.c").file_stem() == Some(UnixStr::new("b"))
        && path("a/b.c").extension() == Some(UnixStr::new("c"))
        && path("a/b.c").file_prefix() == Some(UnixStr::new("b"))
        && is_view(path("a/b.c").before_name(), "a")
        && path("a/b.c").name_end() == Some(5)
        && path("a/b.c").stem_end() == Some(3)
}

fn has_parents() -> bool {
    let mut ancestors = path("a/b").ancestors();
    path("a/b").parent() == Some(path("a"))
        && ancestors.next() == Some(path("a/b"))
        && ancestors.next() == Some(path("a"))
        && path("a/b").common_dir(path("a/c")) == 2
}

fn has_prefixes() -> bool {
    path("a//b").starts_with(path("a"))
        && path("a/b").ends_with(path("b"))
        && path("a//b").strip_prefix(path("a")) == Ok(path("b"))
        && path("a").strip_prefix(path("b")).is_err()
}

fn is_printed(error: &StripPrefixError) -> bool {
    display_has(error, 16)
}

fn is_compared() -> bool {
    path("a//b") == path("a/b")
        && path("a/b").cmp(&path("a.b")) == Ordering::Less
        && hash_same(&path("a//b"), &path("a/b"))
}

fn is_walked() -> bool {
    let mut parts = path("/a/b").components();
    parts.next() == Some(Component::RootDir)
        && parts.next_back() == Some(Component::Normal(UnixStr::new("b")))
        && is_view(parts.as_path(), "a")
        && parts == path("a").components()
        && debug_has(&parts, 25)
}

fn is_listed() -> bool {
    let mut names = path("/a/b").iter();
    names.next() == Some(UnixStr::new("/"))
        && names.next_back() == Some(UnixStr::new("b"))
        && is_view(names.as_path(), "a")
        && debug_has(&names, 11)
}

fn component_is_viewed() -> bool {
    let part = Component::Normal(UnixStr::new("a"));
    part.as_unix_str() == UnixStr::new("a")
        && is_view(part.as_path(), "a")
        && hash_same(&part, &Component::Normal(UnixStr::new("a")))
}

fn is_read_by_bytes() -> bool {
    is_filler(b"/a", 0)
        && is_trailing(b"a/", 1)
        && trimmed_len(b"a/", 0, 2) == 1
        && filler_len(b"/./a") == 3
        && after_filler(b"/./a") == b"a".as_slice()
        && parent_dir_step(b".././a") == 5
        && name_step(b"a/./b") == (1, 4)
        && name_run_end(b"a/b/.", b'/', b'.') == 3
        && name_run_end_expect_short(b"a//b", b'/', b'.') == 1
        && no_name_starts_at(b"a/../b", 2, b'/', b'.')
        && may_end_name_run_simd16(b"0123456789abc/.f/", 0, b'/', b'.')
        && has_no_name_run_end(b"a/.b/c", b'/', b'.')
        && starts_with_parent_dir(b"../a")
        && ends_in_name(b"a/b")
        && needs_no_separator(b"a/")
        && dot_before(b"rs") == Some(b'.')
        && has_slash(b"x/y")
}

#[test]
fn views_need_no_memory(rt: HostRuntime) -> Result<(), Fail> {
    let Err(error) = path("a").strip_prefix(path("b")) else {
        return Err(Fail::new("a prefix"));
    };
    let _exhausted = exhaust(rt.alloc())?;
    assert!(rt; is_made());
    assert!(rt; is_shown());
    assert!(rt; has_names());
    assert!(rt; has_parents());
    assert!(rt; has_prefixes());
    assert!(rt; is_printed(&error));
    assert!(rt; is_compared());
    assert!(rt; is_walked());
    assert!(rt; is_listed());
    assert!(rt; component_is_viewed());
    assert!(rt; is_read_by_bytes());
    Ok(())
}
