//! Tests of keys that own their bytes: expected ranges, parents and names, bytes that are not keys,
//! and texts of errors.
mod short_pairs;
mod written;

use path_keys::{KeyError, PathKey, key_name, key_parent};
use std::alloc::{AllocError, Global};
use std::test::Fail;
use unix_path::Path;

// A path, the first key and the exclusive end of the range of keys of all paths that start with
// this path, the key of the path's parent, and the path's file name as written in its key.
type Parts = (
    &'static str,
    &'static [u8],
    Option<&'static [u8]>,
    Option<&'static [u8]>,
    Option<&'static [u8]>,
);

static PARTS: [Parts; 8] = [
    ("", b"", None, None, None),
    ("/", b"\x00\x01", Some(b"\x00\x02"), None, None),
    (".", b"\x00\x02", Some(b"\x00\x03"), Some(b""), None),
    ("..", b"\x00\x03", Some(b"\x00\x04"), Some(b""), None),
    (
        "a",
        b"\x61\x00",
        Some(b"\x61\x01"),
        Some(b""),
        Some(b"\x61"),
    ),
    (
        "a//b.c",
        b"\x61\x00\x62\x2F\x63\x00",
        Some(b"\x61\x00\x62\x2F\x63\x01"),
        Some(b"\x61\x00"),
        Some(b"\x62\x2F\x63"),
    ),
    (
        "/..",
        b"\x00\x01\x00\x03",
        Some(b"\x00\x01\x00\x04"),
        Some(b"\x00\x01"),
        None,
    ),
    (
        "a/..",
        b"\x61\x00\x00\x03",
        Some(b"\x61\x00\x00\x04"),
        Some(b"\x61\x00"),
        None,
    ),
];

// Returns true if the range, the parent and the name of the path's key are the values in the row.
fn has_key_parts(alloc: Global, row: &Parts) -> Result<bool, AllocError> {
    let key = PathKey::from_path(alloc, Path::from_text(row.0))?;
    let range = key.range_under()?;
    let end = match &range.end {
        Some(end) => Some(end.as_slice()),
        None => None,
    };
    Ok(range.first == row.1 && end == row.2 && key.parent() == row.3 && key.name() == row.4)
}

#[test]
fn ranges_parents_and_names(rt: HostRuntime) -> Result<(), Fail> {
    for row in PARTS.iter() {
        assert!(rt; has_key_parts(rt.alloc(), row)?, "{}", row.0);
    }
    Ok(())
}

// Returns true if a new key is empty, and a key that is set twice has the bytes of the second
// path's key.
fn is_reused(alloc: Global) -> Result<bool, AllocError> {
    let mut key = PathKey::new(alloc);
    let is_empty = key.as_bytes().is_empty() && key.as_vec().is_empty();
    key.set(Path::from_text("a/b/c"))?;
    key.set(Path::from_text("/"))?;
    let shown = format!(in alloc; "{key:?}")?;
    Ok(
        is_empty
            && key.as_bytes() == b"\x00\x01".as_slice()
            && shown.as_str() == "PathKey { bytes: [0, 1] }"
            && key.into_vec().as_slice() == b"\x00\x01".as_slice(),
    )
}

#[test]
fn a_key_is_reused(rt: HostRuntime) -> Result<(), Fail> {
    assert!(rt; is_reused(rt.alloc())?);
    Ok(())
}

// Byte strings that are not keys.
static NO_KEYS: [&'static [u8]; 7] = [
    b"\x61",
    b"\x00",
    b"\x00\x04",
    b"\x61\x00\x00\x01",
    b"\x61\x00\x00\x04",
    b"\x61\x00\x62",
    b"\x00\x03\x2F\x00",
];

// Returns true if the bytes are refused as a key, and have no parent and no name.
fn is_refused(alloc: Global, bytes: &[u8]) -> bool {
    let is_no_key = match PathKey::from_bytes(alloc, bytes) {
        Err(KeyError::NotAKey) => true,
        _ => false,
    };
    is_no_key && key_parent(bytes).is_none() && key_name(bytes).is_none()
}

#[test]
fn keys_are_made_from_their_bytes(rt: HostRuntime) -> Result<(), Fail> {
    for row in PARTS.iter() {
        let made = PathKey::from_bytes(rt.alloc(), row.1)?;
        assert!(rt;
            made == PathKey::from_path(rt.alloc(), Path::from_text(row.0))?,
            "{}",
            row.0
        );
    }
    for bytes in NO_KEYS.iter() {
        assert!(rt; is_refused(rt.alloc(), bytes), "{bytes:?}");
    }
    Ok(())
}

#[test]
fn errors_of_keys_are_printed(rt: HostRuntime) -> Result<(), Fail> {
    let alloc = rt.alloc();
    let refused = format!(in alloc; "{:>24}", KeyError::NotAKey)?;
    let memory = format!(in alloc; "{}", KeyError::from(AllocError))?;
    assert!(rt; refused.as_str() == "   not the key of a path");
    assert!(rt; memory.as_str() == "out of memory");
    Ok(())
}
