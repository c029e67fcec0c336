//! Tests that keys that own their bytes compare like their paths, for all pairs of short paths.
use path_keys::{PathKey, key_starts_with};
use std::alloc::{AllocError, Global};
use std::test::Fail;
use test_inputs::strings_over;
use unix_path::Path;

// The number of strings of at most 4 letters over an alphabet of six.
const STRINGS: usize = 1555;

// The number of strings of at most 3 letters over an alphabet of six.
const SHORT_STRING_COUNT: usize = 259;

// A path and its key.
#[derive(Drop)]
struct KeyedPath<'a> {
    path: Path<'a>,
    key: PathKey,
}

// Returns the paths with these bytes, each with its key.
fn keyed_paths(alloc: Global, strings: &[Vec<u8>]) -> Result<Vec<KeyedPath<'_>>, AllocError> {
    let mut paths = Vec::new(alloc);
    for string in strings {
        let path = Path::from_bytes(string.as_slice());
        let key = PathKey::from_path(alloc, path)?;
        paths.push(KeyedPath { path, key })?;
    }
    Ok(paths)
}

// Returns true if two keys, and also their bytes, have the same order as their paths, and the keys
// are equal if and only if the paths are equal.
fn orders_match(a: &KeyedPath<'_>, b: &KeyedPath<'_>) -> bool {
    let order = a.path.cmp(&b.path);
    a.key.cmp(&b.key) == order
        && a.key.as_bytes().cmp(b.key.as_bytes()) == order
        && (a.key == b.key) == (a.path == b.path)
}

// Returns true if the second key is a prefix of the first if and only if the first path starts with
// the second path.
fn prefixes_match(a: &KeyedPath<'_>, b: &KeyedPath<'_>) -> bool {
    let begins = a.path.starts_with(b.path);
    a.key.starts_with(&b.key) == begins
        && key_starts_with(a.key.as_bytes(), b.key.as_bytes()) == begins
}

// Returns true if the keys compare, and are prefixes of each other, as their paths do.
fn keys_match_paths(a: &KeyedPath<'_>, b: &KeyedPath<'_>) -> bool {
    orders_match(a, b) && prefixes_match(a, b)
}

// Returns the number of paths before the first path `b` for which comparing the keys of `a` and `b`
// has another result than comparing the paths.
fn count_matching(a: &KeyedPath<'_>, paths: &[KeyedPath<'_>]) -> usize {
    for (count, b) in paths.iter().enumerate() {
        if !keys_match_paths(a, b) {
            return count;
        }
    }
    paths.len()
}

#[test]
fn all_short_pairs(rt: HostRuntime) -> Result<(), Fail> {
    let strings = strings_over(rt.alloc(), b"/.a\x000\xFF", SHORT_STRING_COUNT)?;
    let paths = keyed_paths(rt.alloc(), &strings)?;
    assert!(rt; paths.len() == STRINGS);
    for first in paths.iter() {
        let matching = count_matching(first, &paths);
        assert!(rt;
            matching == STRINGS,
            "{:?}, string {matching}",
            first.path.bytes
        );
    }
    Ok(())
}
