//! Allocations of the decision on an archive's entries.
use super::report;
use path_archive::{Level, entries, refusals};
use std::alloc::AllocError;
use std::test::Fail;
use tar_listing::records_of;

#[test]
fn entries_refused(rt: HostRuntime) -> Result<(), Fail> {
    match refusals(rt.alloc(), b"l\0x\0/etc\0f\0x/new\0\0", Level::Inside) {
        Ok(Some(list)) => report(true, list.len() == 1),
        Ok(None) => report(true, false),
        Err(AllocError) => report(false, true),
    }
}

#[test]
fn entries_cut_off(rt: HostRuntime) -> Result<(), Fail> {
    match refusals(rt.alloc(), b"f\0a\0", Level::Inside) {
        Ok(list) => report(true, list.is_none()),
        Err(AllocError) => report(false, true),
    }
}

#[test]
fn entries_listed(rt: HostRuntime) -> Result<(), Fail> {
    match entries(rt.alloc(), b"l\0x\0/etc\0") {
        Ok(Some(list)) => report(true, list.len() == 1),
        Ok(None) => report(true, false),
        Err(AllocError) => report(false, true),
    }
}

#[test]
fn no_entries_listed(rt: HostRuntime) -> Result<(), Fail> {
    match entries(rt.alloc(), b"f\0a\0") {
        Ok(list) => report(true, list.is_none()),
        Err(AllocError) => report(false, true),
    }
}

#[test]
fn listing_read(rt: HostRuntime) -> Result<(), Fail> {
    let listing = b"-rw-r--r-- 0/0 5 2026-01-31 12:00 \"a\"\n";
    match records_of(rt.alloc(), listing) {
        Ok(Ok(records)) => report(true, records.as_slice() == b"f\0a\0\0".as_slice()),
        Ok(Err(_)) => report(true, false),
        Err(AllocError) => report(false, true),
    }
}
