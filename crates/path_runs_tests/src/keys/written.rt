//! Compares keys that own their bytes with keys that are written to buffers. The inputs are all
//! short strings, as paths and as keys, and random strings.
use path_keys::{KeyError, PathKey, is_key, key_len, path_of, write_key, write_path_of};
use std::alloc::{AllocError, Global};
use std::test::Fail;
use test_inputs::{Random, strings_over};
use unix_path::Path;

// The number of strings of at most 4 letters over an alphabet of six.
const SHORT_PATH_COUNT: usize = 1555;

// The number of strings of at most 3 letters over an alphabet of eight.
const SHORT_KEY_COUNT: usize = 585;

const RANDOM_STRINGS: u32 = 10_000;

// Returns true if `key` is the path's key and has at most 66 bytes: `key_len` returns its length,
// and `write_key` writes it to a buffer of that length, but nothing to a buffer that is one byte
// shorter.
fn is_as_written(path: Path<'_>, key: &[u8]) -> bool {
    let mut buffer = [0xEE_u8; 67];
    let len = key.len();
    if len > 66 {
        return false;
    }
    let needed = write_key(path, &mut buffer[..len.saturating_sub(1)]);
    let is_untouched = buffer == [0xEE_u8; 67];
    let written = write_key(path, &mut buffer[..len]);
    let is_exact = buffer.as_slice().starts_with(key) && buffer[len] == 0xEE;
    key_len(path) == len && needed == len && written == len && is_untouched && is_exact
}

// Returns true if `path` is the key's path and has at most 99 bytes: `write_path_of` writes it to a
// buffer of its length, but nothing to a buffer that is one byte shorter.
fn is_path_written(key: &[u8], path: &[u8]) -> bool {
    let mut buffer = [0xEE_u8; 100];
    let len = path.len();
    if len > 99 {
        return false;
    }
    let needed = write_path_of(key, &mut buffer[..len.saturating_sub(1)]);
    let is_untouched = buffer == [0xEE_u8; 100];
    let written = write_path_of(key, &mut buffer[..len]);
    let is_exact = buffer.as_slice().starts_with(path) && buffer[len] == 0xEE;
    needed == Some(len) && written == Some(len) && is_untouched && is_exact
}

// If the bytes are a key, returns true if `path_of` and `write_path_of` read the same path from
// them. Otherwise returns true if both refuse them, and nothing is written.
fn is_read(alloc: Global, bytes: &[u8]) -> bool {
    match path_of(alloc, bytes) {
        Ok(path) => is_key(bytes) && is_path_written(bytes, path.as_path().bytes),
        Err(KeyError::NotAKey) => {
            let mut buffer = [0xEE_u8; 16];
            !is_key(bytes) && write_path_of(bytes, &mut buffer).is_none() && buffer == [0xEE_u8; 16]
        }
        Err(KeyError::Memory(_)) => false,
    }
}

// Returns true if the key's parent is the key of the path's parent, or if both have none.
fn has_parent(alloc: Global, path: Path<'_>, key: &PathKey) -> Result<bool, AllocError> {
    match (path.parent(), key.parent()) {
        (Some(parent), Some(bytes)) => Ok(PathKey::from_path(alloc, parent)?.as_bytes() == bytes),
        (None, None) => Ok(true),
        _ => Ok(false),
    }
}

// Returns true if `bytes` is `name`, except that each byte less than a slash is one greater.
fn is_escaped_name(bytes: &[u8], name: &[u8]) -> bool {
    bytes.len() == name.len()
        && bytes.iter().zip(name.iter()).all(|(b, n)| *b
            == if *n < b'/' { n.saturating_add(1) } else { *n })
}

// Returns true if the key's name is the path's file name as written in keys, or if both have none.
fn has_name(path: Path<'_>, key: &PathKey) -> bool {
    match (path.file_name(), key.name()) {
        (Some(name), Some(bytes)) => is_escaped_name(bytes, name.as_bytes()),
        (None, None) => true,
        _ => false,
    }
}

// Returns true if the path's key is written and read as it should be, and has the right name and
// parent.
fn is_keyed(alloc: Global, bytes: &[u8]) -> Result<bool, AllocError> {
    let path = Path::from_bytes(bytes);
    let key = PathKey::from_path(alloc, path)?;
    Ok(
        is_as_written(path, key.as_bytes())
            && is_read(alloc, key.as_bytes())
            && has_name(path, &key)
            && has_parent(alloc, path, &key)?,
    )
}

#[test]
fn all_short_paths(rt: HostRuntime) -> Result<(), Fail> {
    for string in strings_over(rt.alloc(), b"/.a\x000\xFF", SHORT_PATH_COUNT)?.iter() {
        assert!(rt; is_keyed(rt.alloc(), string)?, "{string:?}");
    }
    Ok(())
}

#[test]
fn all_short_keys(rt: HostRuntime) -> Result<(), Fail> {
    for string in strings_over(rt.alloc(), b"\x00\x01\x02\x03/0a\xFF", SHORT_KEY_COUNT)?.iter() {
        assert!(rt; is_read(rt.alloc(), string), "{string:?}");
    }
    Ok(())
}

#[test]
fn random_paths(rt: HostRuntime) -> Result<(), Fail> {
    let mut random = Random::new(25);
    for _ in 0..RANDOM_STRINGS {
        let bytes = random.string(rt.alloc())?;
        assert!(rt; is_keyed(rt.alloc(), &bytes)?, "{bytes:?}");
    }
    Ok(())
}
