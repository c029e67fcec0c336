//! Calls for buffers, walks, canonical forms and edits that promise to need no memory.
use super::super::{exhaust, path};
use super::{debug_has, hash_same};
use path_runs::canonical::{canonical, collected, is_canonical, write_canonical};
use path_runs::edits::{Edit, apply, rejoin};
use path_runs::walk::{Turn, walk};
use path_within::relative::{relative_path, write_relative_path};
use path_within::resolved::{resolved, write_resolved};
use path_within::within::join_verbatim;
use path_within::{Request, Root};
use std::alloc::Global;
use std::test::Fail;
use unix_path::bytes::UnixStr;
use unix_path::{Path, PathBuf};

// Returns true if a path without spare capacity keeps its capacity.
fn stays_full(mut full: PathBuf) -> bool {
    full.shrink_to_fit().is_ok()
        && full.shrink_to(0).is_ok()
        && full.reserve(0).is_ok()
        && full.reserve_exact(0).is_ok()
        && full.capacity() == 3
        && full.into_boxed_path().is_ok()
}

fn is_read(buffer: &PathBuf) -> bool {
    *buffer == *buffer
        && debug_has(buffer, 5)
        && hash_same(buffer, &path("foo"))
        && buffer.as_path() == path("foo")
}

// Returns true if edits whose result is not longer than the path succeed.
fn is_edited(mut buffer: PathBuf) -> bool {
    buffer.set_file_name(UnixStr::new("bar")).is_ok()
        && buffer.set_file_name(UnixStr::new("b")).is_ok()
        && buffer.set_extension(UnixStr::new("c")).is_ok()
        && buffer.add_extension(UnixStr::new("")).is_ok()
        && buffer.push(path("/d")).is_ok()
        && buffer.as_path() == path("/d")
}

fn runs_over_nothing(alloc: Global) -> bool {
    let walked = walk(alloc, path("a/b"), &[]);
    let ended = walk(alloc, path(""), [Turn::Front, Turn::Back].as_slice());
    walked.is_ok()
        && ended.is_ok()
        && canonical(alloc, path("")).is_ok()
        && collected(alloc, path("").components()).is_ok()
}

// Returns true if empty paths are resolved and joined.
fn resolves_nothing(alloc: Global) -> bool {
    resolved(alloc, path("")).is_ok() && join_verbatim(alloc, path(""), path("")).is_ok()
}

// Returns true if the relative path from each of these paths to itself is found. It is empty, so it
// needs no memory.
fn leads_nowhere(alloc: Global) -> bool {
    let paths = [
        path(""),
        path("/"),
        path("../x"),
        path("/a/b."),
        path("a//../b/"),
    ];
    paths.iter().all(|same| matches!(relative_path(alloc, *same, *same), Ok(Some(_))))
}

// Returns true if a join below a root succeeds in a buffer that has capacity for the root, the
// request and one more byte.
fn is_joined_into(root: &Root, buffer: &mut PathBuf, text: &str) -> bool {
    match Request::in_root(path(text)) {
        Ok(request) => {
            root.join_into(buffer, request).is_ok()
                && root.contains(buffer.as_path())
                && root.strip(buffer.as_path()).is_ok()
        }
        Err(_) => false,
    }
}

// Returns true if `write_below` joins the request to `/srv/./www/` in a buffer on the stack.
fn is_written_below(text: &str) -> bool {
    let mut out = [0_u8; 32];
    match Request::in_root(path(text)) {
        Ok(request) => {
            let len = request.write_below(path("/srv/./www/"), &mut out);
            len <= 32 && Path::from_bytes(&out[..len]).starts_with(path("/srv/www"))
        }
        Err(_) => false,
    }
}

fn requests_are_read() -> bool {
    let is_refused = Request::beneath(path("..")).is_err() && Request::in_root(path("\0")).is_err();
    match Request::beneath(path("a/../b/")) {
        Ok(request) => {
            is_refused
                && request.file_name() == Some(UnixStr::new("b"))
                && !request.is_root()
                && request.ends_in_slash()
                && debug_has(&request, 9)
        }
        Err(_) => false,
    }
}

fn spellings_are_told() -> bool {
    is_canonical(path("./a/b")) && !is_canonical(path("a//b"))
}

fn spelling_is_written() -> bool {
    let mut out = [0_u8; 4];
    write_canonical(path("/.//a/b/."), &mut out) == 4 && path("/a/b") == Path::from_bytes(&out)
}

// Returns true if a resolved path is written, both for a path with `..` and for a path that is
// already resolved.
fn resolved_is_written() -> bool {
    let mut out = [0_u8; 4];
    write_resolved(path("a/../..//b/."), &mut out) == 4
        && out == *b"../b"
        && write_resolved(path("/a/c"), &mut out) == 4
        && out == *b"/a/c"
}

// Returns true if relative paths are written, both between paths of names only and between paths
// with `..` or filler, and if `None` is returned where there is no relative path.
fn relative_path_is_written() -> bool {
    let mut out = [0_u8; 7];
    write_relative_path(path("/a/b/c"), path("/a/d"), &mut out) == Some(7)
        && out == *b"../../d"
        && write_relative_path(path("../x/./y"), path("../z//"), &mut out) == Some(7)
        && out == *b"../../z"
        && write_relative_path(path(".."), path("a"), &mut out).is_none()
}

fn joins_nothing(alloc: Global) -> bool {
    matches!(rejoin(alloc, path("a"), path("b")), Ok(None))
        && matches!(rejoin(alloc, path(""), path("")), Ok(Some(_)))
}

fn applies_nothing(alloc: Global, buffer: &mut PathBuf) -> bool {
    let none: [Edit<'_>; 0] = [];
    apply(alloc, buffer, none.as_slice()).is_ok()
}

#[test]
fn buffers_need_no_memory(rt: HostRuntime) -> Result<(), Fail> {
    let alloc = rt.alloc();
    let mut foo = PathBuf::from_text(alloc, "foo")?;
    let full = PathBuf::from_text(alloc, "foo")?;
    let root = Root::verbatim(alloc, path("/srv/./www/"))?;
    let closed_root = Root::new(alloc, path("/srv/www"))?;
    let mut file = PathBuf::with_capacity(alloc, 20)?;
    let _exhausted = exhaust(alloc)?;
    assert!(rt; is_read(&foo));
    assert!(rt; stays_full(full));
    assert!(rt; runs_over_nothing(alloc));
    assert!(rt; spellings_are_told());
    assert!(rt; requests_are_read());
    assert!(rt; is_joined_into(&root, &mut file, "a/../b/"));
    assert!(rt; is_joined_into(&root, &mut file, "/a/b.html"));
    assert!(rt; is_joined_into(&closed_root, &mut file, "img/ab.html"));
    assert!(rt; is_written_below("a/b/") && is_written_below("/.."));
    assert!(rt; is_written_below("a/../b//c"));
    assert!(rt; spelling_is_written());
    assert!(rt; resolved_is_written());
    assert!(rt; relative_path_is_written());
    assert!(rt; joins_nothing(alloc));
    assert!(rt; resolves_nothing(alloc));
    assert!(rt; leads_nowhere(alloc));
    assert!(rt; applies_nothing(alloc, &mut foo));
    assert!(rt; is_edited(foo));
    Ok(())
}
