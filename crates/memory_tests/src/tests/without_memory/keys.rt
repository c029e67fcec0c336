//! Calls on keys that promise to need no memory.
use super::super::{exhaust, fails, path};
use path_keys::{KeyError, PathKey, is_key, key_len, path_of, write_key, write_path_of};
use std::alloc::Global;
use std::test::Fail;

// Returns true if a key can be set to other paths within its capacity, and is unchanged if its
// capacity is too small.
fn is_set_in_its_room(key: &mut PathKey) -> bool {
    let is_set = key.set(path("/x")).is_ok() && key.as_bytes() == b"\x00\x01x\x00".as_slice();
    let long = "a-path-that-is-longer-than-what-it-was-made-for/by-far";
    let stays = fails(key.set(path(long))) && key.as_bytes() == b"\x00\x01x\x00".as_slice();
    is_set && stays && key.set(path("")).is_ok() && key.as_bytes().is_empty()
}

// Returns true if `path_of` fails with `NotAKey` for bytes that are not a key, and with `Memory`
// for a key.
fn is_told(alloc: Global) -> bool {
    let is_no_key = match path_of(alloc, b"\x61\x00\x00\x01") {
        Err(KeyError::NotAKey) => true,
        _ => false,
    };
    let is_no_memory = match path_of(alloc, b"\x61\x00") {
        Err(KeyError::Memory(_)) => true,
        _ => false,
    };
    let is_empty = path_of(alloc, b"").is_ok();
    is_no_key && is_no_memory && is_empty && is_key(b"\x61\x00")
}

// Returns true if `PathKey::from_bytes` fails with `NotAKey` for bytes that are not a key, and with
// `Memory` for a key.
fn is_told_of_bytes(alloc: Global) -> bool {
    let is_no_key = match PathKey::from_bytes(alloc, b"\x61\x00\x00\x01") {
        Err(KeyError::NotAKey) => true,
        _ => false,
    };
    let is_no_memory = match PathKey::from_bytes(alloc, b"\x61\x00") {
        Err(KeyError::Memory(_)) => true,
        _ => false,
    };
    is_no_key && is_no_memory && PathKey::from_bytes(alloc, b"").is_ok()
}

// Returns true if a path's key is measured and written to a buffer, the key's path is written too,
// and bytes that are not a key have no path.
fn is_written() -> bool {
    let mut buffer = [0u8; 4];
    let len = write_key(path("a//b"), &mut buffer);
    let is_key = len == 4 && key_len(path("a//b")) == 4 && buffer == *b"\x61\x00\x62\x00";
    let is_path = write_path_of(b"\x61\x00\x62\x00", &mut buffer) == Some(3);
    let is_none = write_path_of(b"\x61\x00\x62", &mut buffer).is_none();
    is_key && is_path && is_none && buffer == *b"a/b\x00"
}

#[test]
fn keys_are_set_and_read_without_memory(rt: HostRuntime) -> Result<(), Fail> {
    let alloc = rt.alloc();
    let mut key = PathKey::from_path(alloc, path("a//b"))?;
    let empty = PathKey::from_path(alloc, path(""))?;
    let _exhausted = exhaust(alloc)?;
    let is_set = is_set_in_its_room(&mut key);
    let is_made = PathKey::from_path(alloc, path("")).is_ok()
        && fails(PathKey::from_path(alloc, path("a")));
    let has_range = empty.range_under().is_ok();
    let is_told = is_told(alloc) && is_told_of_bytes(alloc);
    assert!(rt; is_set && is_made && has_range && is_told && is_written());
    Ok(())
}
