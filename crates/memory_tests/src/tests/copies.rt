//! Copies of paths while allocations fail.
use super::{exhaust, fails, is_borrowed, path, succeeds};
use std::alloc::{AllocError, Global};
use std::test::Fail;
use unix_path::bytes::UnixStr;
use unix_path::{BoxedPath, CowPath, Path, PathBuf, RcPath};

// Returns true if each call that copies the path, or creates another path, fails.
fn refuses_copies(alloc: Global, buffer: &PathBuf) -> bool {
    let view = buffer.as_path();
    let name = UnixStr::new("bar");
    fails(buffer.clone())
        && fails(view.to_path_buf(alloc))
        && fails(view.join(alloc, path("bar")))
        && fails(view.with_file_name(alloc, name))
        && fails(view.with_extension(alloc, name))
        && fails(view.with_added_extension(alloc, name))
        && fails(PathBuf::with_capacity(alloc, 3))
        && fails(PathBuf::from_unix_str(alloc, name))
        && fails(PathBuf::from_text(alloc, "bar"))
        && fails(PathBuf::from_iter(alloc, [view].iter().copied()))
}

#[test]
fn a_failed_copy_gives_no_path(rt: HostRuntime) -> Result<(), Fail> {
    let alloc = rt.alloc();
    let buffer = PathBuf::from_text(alloc, "foo")?;
    let _exhausted = exhaust(alloc)?;
    assert!(rt; refuses_copies(alloc, &buffer));
    Ok(())
}

fn is_empty(buffer: &PathBuf) -> bool {
    buffer.as_path() == path("")
}

#[test]
fn a_new_path_does_not_allocate(rt: HostRuntime) -> Result<(), Fail> {
    let alloc = rt.alloc();
    let none: [Path<'_>; 0] = [];
    let _exhausted = exhaust(alloc)?;
    assert!(rt; succeeds(PathBuf::from_iter(alloc, none.iter().copied())));
    assert!(rt; is_empty(&PathBuf::new(alloc)));
    Ok(())
}

// Returns true if each call that copies an empty path or string succeeds.
fn copies_no_bytes(alloc: Global) -> bool {
    let empty = path("");
    let none = UnixStr::new("");
    let name = UnixStr::new("b");
    succeeds(PathBuf::from_text(alloc, ""))
        && succeeds(PathBuf::from_unix_str(alloc, none))
        && succeeds(empty.to_path_buf(alloc))
        && succeeds(empty.join(alloc, empty))
        && succeeds(path("a").with_file_name(alloc, none))
        && succeeds(empty.with_extension(alloc, name))
        && succeeds(empty.with_added_extension(alloc, name))
        && succeeds(CowPath::from(empty).into_owned(alloc))
}

fn is_copied(buffer: &PathBuf) -> bool {
    succeeds(buffer.clone())
}

fn is_boxed_and_copied(alloc: Global) -> Result<bool, AllocError> {
    let boxed = BoxedPath::from_path(alloc, path(""))?;
    Ok(succeeds(boxed.clone()))
}

// Copies empty paths and strings, which does not allocate. Only a shared path allocates, for the
// count of its owners.
#[test]
fn copies_of_no_bytes_do_not_allocate(rt: HostRuntime) -> Result<(), Fail> {
    let alloc = rt.alloc();
    let _exhausted = exhaust(alloc)?;
    assert!(rt; copies_no_bytes(alloc) && is_copied(&PathBuf::new(alloc)));
    assert!(rt; is_boxed_and_copied(alloc)? && fails(RcPath::from_path(alloc, path(""))));
    Ok(())
}

#[test]
fn owned_paths_of_no_bytes_do_not_allocate(rt: HostRuntime) -> Result<(), Fail> {
    let alloc = rt.alloc();
    let _exhausted = exhaust(alloc)?;
    let owned = CowPath::from(PathBuf::new(alloc));
    let is_copied = succeeds(owned.clone());
    let is_boxed = succeeds(BoxedPath::from_cow(alloc, owned));
    assert!(rt; is_copied && is_boxed);
    Ok(())
}

#[test]
fn a_text_is_borrowed_without_memory(rt: HostRuntime) -> Result<(), Fail> {
    let alloc = rt.alloc();
    let _exhausted = exhaust(alloc)?;
    assert!(rt; is_borrowed(path("ab").to_string_lossy(alloc), "ab"));
    Ok(())
}
