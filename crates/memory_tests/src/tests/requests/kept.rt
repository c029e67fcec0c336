//! Allocations of calls that create boxed, shared, and borrowed or owned paths.
use super::super::path;
use super::{buffer_with_room, report, report_path};
use std::alloc::AllocError;
use std::test::Fail;
use unix_path::bytes::UnixStr;
use unix_path::{BoxedPath, CowPath, PathBuf, RcPath};

// Returns the result of a test whose call has to return the boxed path `foo/`; `given` is what it
// returned.
fn report_boxed(given: Result<BoxedPath, AllocError>) -> Result<(), Fail> {
    match given {
        Ok(boxed) => report(true, boxed.as_path().as_unix_str() == UnixStr::new("foo/")),
        Err(AllocError) => report(false, true),
    }
}

// Returns the result of a test whose call has to return the shared path `foo/`; `given` is what it
// returned.
fn report_shared(given: Result<RcPath, AllocError>) -> Result<(), Fail> {
    match given {
        Ok(shared) => report(true, shared.as_path().as_unix_str() == UnixStr::new("foo/")),
        Err(AllocError) => report(false, true),
    }
}

#[test]
fn boxed_from_view(rt: HostRuntime) -> Result<(), Fail> {
    report_boxed(BoxedPath::from_path(rt.alloc(), path("foo/")))
}

#[test]
fn boxed_from_buffer(rt: HostRuntime) -> Result<(), Fail> {
    report_boxed(BoxedPath::from_path_buf(buffer_with_room(rt.alloc(), "foo/")?))
}

#[test]
fn boxed_from_borrowed(rt: HostRuntime) -> Result<(), Fail> {
    let borrowed = CowPath::Borrowed(path("foo/"));
    report_boxed(BoxedPath::from_cow(rt.alloc(), borrowed))
}

#[test]
fn boxed_from_owned(rt: HostRuntime) -> Result<(), Fail> {
    let owned = CowPath::Owned(buffer_with_room(rt.alloc(), "foo/")?);
    report_boxed(BoxedPath::from_cow(rt.alloc(), owned))
}

#[test]
fn buffer_boxed(rt: HostRuntime) -> Result<(), Fail> {
    report_boxed(buffer_with_room(rt.alloc(), "foo/")?.into_boxed_path())
}

#[test]
fn boxed_copied(rt: HostRuntime) -> Result<(), Fail> {
    let boxed = BoxedPath::from_path(rt.alloc(), path("foo/"))?;
    report_boxed(boxed.clone())
}

#[test]
fn boxed_unboxed(rt: HostRuntime) -> Result<(), Fail> {
    let boxed = BoxedPath::from_path(rt.alloc(), path("foo/"))?;
    report_path(boxed.into_path_buf(rt.alloc()), "foo/")
}

#[test]
fn shared_from_view(rt: HostRuntime) -> Result<(), Fail> {
    report_shared(RcPath::from_path(rt.alloc(), path("foo/")))
}

#[test]
fn shared_from_buffer(rt: HostRuntime) -> Result<(), Fail> {
    let buffer = PathBuf::from_text(rt.alloc(), "foo/")?;
    report_shared(RcPath::from_path_buf(rt.alloc(), buffer))
}

#[test]
fn shared_again(rt: HostRuntime) -> Result<(), Fail> {
    let shared = RcPath::from_path(rt.alloc(), path("foo/"))?;
    report_shared(shared.clone())
}

#[test]
fn owned_copied(rt: HostRuntime) -> Result<(), Fail> {
    let owned = CowPath::Owned(PathBuf::from_text(rt.alloc(), "foo/")?);
    match owned.clone() {
        Ok(copy) => report(true, copy.as_path().as_unix_str() == UnixStr::new("foo/")),
        Err(AllocError) => report(false, true),
    }
}
