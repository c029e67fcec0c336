//! Allocations of calls that create keys, ranges of keys, and paths of keys.
use super::super::path;
use super::{report, report_path};
use path_keys::{KeyError, PathKey, path_of};
use std::alloc::AllocError;
use std::test::Fail;

#[test]
fn key_made(rt: HostRuntime) -> Result<(), Fail> {
    match PathKey::from_path(rt.alloc(), path("a//b")) {
        Ok(key) => report(true, key.as_bytes() == b"\x61\x00\x62\x00".as_slice()),
        Err(AllocError) => report(false, true),
    }
}

#[test]
fn key_of_bytes(rt: HostRuntime) -> Result<(), Fail> {
    match PathKey::from_bytes(rt.alloc(), b"\x61\x00\x62\x00") {
        Ok(key) => report(true, key.as_bytes() == b"\x61\x00\x62\x00".as_slice()),
        Err(KeyError::Memory(_)) => report(false, true),
        Err(KeyError::NotAKey) => report(true, false),
    }
}

// Sets a key without enough capacity to another path. If that fails, the key is unchanged.
#[test]
fn key_set(rt: HostRuntime) -> Result<(), Fail> {
    let mut key = PathKey::new(rt.alloc());
    let given = key.set(path("a//b"));
    if given.is_err() {
        return report(false, key.as_bytes().is_empty());
    }
    report(true, key.as_bytes() == b"\x61\x00\x62\x00".as_slice())
}

#[test]
fn range_of_key(rt: HostRuntime) -> Result<(), Fail> {
    let key = PathKey::from_path(rt.alloc(), path("a"))?;
    match key.range_under() {
        Ok(range) => match range.end {
            Some(end) => report(true, end.as_slice() == b"\x61\x01".as_slice()),
            None => report(true, false),
        },
        Err(AllocError) => report(false, key.as_bytes() == b"\x61\x00".as_slice()),
    }
}

#[test]
fn key_read_back(rt: HostRuntime) -> Result<(), Fail> {
    match path_of(rt.alloc(), b"\x00\x02\x61\x00\x00\x03") {
        Ok(read) => report_path(Ok(read), "./a/.."),
        Err(KeyError::Memory(error)) => report_path(Err(error), "./a/.."),
        Err(KeyError::NotAKey) => report(true, false),
    }
}
