//! The module `kept`.
use crate::traits::is_ordered;
use std::alloc::{AllocError, Global};
use unix_path::kept::{BoxedPath, CowPath, RcPath};
use unix_path::{Path, PathBuf};

/// Calls the functions that make a `BoxedPath`.
pub fn new_boxed(alloc: Global, path: Path<'_>, buf: PathBuf, other: PathBuf, cow: CowPath<'_>) {
    let _: Result<BoxedPath, AllocError> = BoxedPath::from_path(alloc, path);
    let _: Result<BoxedPath, AllocError> = BoxedPath::from_path_buf(buf);
    let _: Result<BoxedPath, AllocError> = BoxedPath::from_cow(alloc, cow);
    let _: Result<BoxedPath, AllocError> = other.into_boxed_path();
}

/// Calls the methods of `BoxedPath`.
pub fn boxed(alloc: Global, it: BoxedPath) -> Result<PathBuf, AllocError> {
    let _: Path<'_> = it.as_path();
    let _: Result<BoxedPath, AllocError> = it.clone();
    is_ordered(&it);
    it.into_path_buf(alloc)
}

/// Calls the functions of `RcPath`.
pub fn rc(alloc: Global, it: &RcPath, path: Path<'_>, buf: PathBuf) {
    let _: Path<'_> = it.as_path();
    let _: Result<RcPath, AllocError> = it.clone();
    let _: Result<RcPath, AllocError> = RcPath::from_path(alloc, path);
    let _: Result<RcPath, AllocError> = RcPath::from_path_buf(alloc, buf);
    is_ordered(it);
}

/// Names the forms of `CowPath`, and calls the functions that make one.
pub fn new_cow<'a>(path: Path<'a>, buf: &'a PathBuf, owned: PathBuf, other: PathBuf) {
    let _: CowPath<'a> = CowPath::Borrowed(path);
    let _: CowPath<'a> = CowPath::Owned(owned);
    let _: CowPath<'a> = CowPath::from(path);
    let _: CowPath<'a> = CowPath::from(buf);
    let _: CowPath<'a> = CowPath::from(other);
}

/// Calls the methods of `CowPath`.
pub fn cow<'a>(alloc: Global, it: CowPath<'a>) -> Result<PathBuf, AllocError> {
    let _: Path<'_> = it.as_path();
    let _: Result<CowPath<'a>, AllocError> = it.clone();
    is_ordered(&it);
    it.into_owned(alloc)
}
