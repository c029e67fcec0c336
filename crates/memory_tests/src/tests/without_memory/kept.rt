//! Calls on boxed, shared, and borrowed or owned paths that promise to need no memory.
use super::super::{exhaust, path};
use super::{debug_has, display_has, hash_same, is_view};
use std::alloc::{AllocError, Global};
use std::test::Fail;
use unix_path::json::{JsonError, from_json, to_json};
use unix_path::{BoxedPath, CowPath, PathBuf, RcPath};

fn is_boxed(alloc: Global, boxed: BoxedPath) -> bool {
    let is_read = is_view(boxed.as_path(), "foo")
        && boxed == boxed
        && debug_has(&boxed, 5)
        && hash_same(&boxed, &path("foo"));
    is_read && boxed.into_path_buf(alloc).is_ok()
}

fn is_shared(shared: &RcPath) -> bool {
    is_view(shared.as_path(), "foo")
        && shared.clone().is_ok_and(|other| other == *shared)
        && debug_has(shared, 5)
        && hash_same(shared, &path("foo"))
}

fn is_borrowed(buffer: &PathBuf) -> bool {
    let borrowed = CowPath::from(buffer);
    is_view(borrowed.as_path(), "foo")
        && borrowed.clone().is_ok_and(|other| other == borrowed)
        && debug_has(&borrowed, 5)
        && hash_same(&borrowed, &path("foo"))
}

// Returns true if owned paths without spare capacity are converted without an allocation.
fn is_kept(alloc: Global, first: PathBuf, second: PathBuf) -> bool {
    CowPath::from(first).into_owned(alloc).is_ok()
        && BoxedPath::from_cow(alloc, CowPath::from(second)).is_ok()
}

fn copies_nothing(alloc: Global) -> bool {
    let Ok(value) = to_json(alloc, path("")) else {
        return false;
    };
    from_json(alloc, &value).is_ok() && BoxedPath::from_path_buf(PathBuf::new(alloc)).is_ok()
}

fn is_error_printed() -> bool {
    display_has(&JsonError::NotUtf8, 38)
        && display_has(&JsonError::NotString, 20)
        && display_has(&JsonError::Memory(AllocError), 13)
}

#[test]
fn kept_paths_need_no_memory(rt: HostRuntime) -> Result<(), Fail> {
    let alloc = rt.alloc();
    let boxed = BoxedPath::from_path(alloc, path("foo"))?;
    let shared = RcPath::from_path(alloc, path("foo"))?;
    let buffer = PathBuf::from_text(alloc, "foo")?;
    let other = PathBuf::from_text(alloc, "foo")?;
    let _exhausted = exhaust(alloc)?;
    assert!(rt; is_boxed(alloc, boxed));
    assert!(rt; is_shared(&shared));
    assert!(rt; is_borrowed(&buffer));
    assert!(rt; is_kept(alloc, buffer, other));
    assert!(rt; copies_nothing(alloc));
    assert!(rt; is_error_printed());
    Ok(())
}
