//! Tests of views and owned byte strings.
use std::alloc::{AllocError, Global};
use std::hash::{DefaultHasher, Hash, Hasher};
use unix_bytes::bytes::UnixStr;

// Returns true if the name has these bytes and their length.
fn is_view(name: UnixStr<'_>, bytes: &[u8]) -> bool {
    name.as_bytes() == bytes && name.len() == bytes.len() && name.is_empty() == (name.len() == 0)
}

#[test]
fn views(rt: HostRuntime) {
    let name = UnixStr::new("tmp");
    let broken = UnixStr::from_bytes(b"tm\xFF");
    assert!(rt; is_view(name, b"tmp") && is_view(UnixStr::new(""), b""));
    assert!(rt; name == UnixStr::from_bytes(b"tmp") && name != broken && name < broken);
}

// Hashes pairs of names. Equal pairs have equal hashes. Pairs that concatenate to the same bytes,
// but whose names have other lengths, have different hashes.
#[test]
fn hashes(rt: HostRuntime) {
    assert!(rt; hash_of("tmp", "a") == hash_of("tmp", "a"));
    assert!(rt; hash_of("tm", "pa") != hash_of("tmp", "a"));
}

fn hash_of(first: &str, second: &str) -> u64 {
    let mut state = DefaultHasher::new();
    UnixStr::new(first).hash(&mut state);
    UnixStr::from_bytes(second.as_bytes()).hash(&mut state);
    state.finish()
}

// A length, and `foobar` truncated to this length.
static TRUNCATIONS: [(usize, &str); 4] = [(0, ""), (3, "foo"), (6, "foobar"), (7, "foobar")];

// Returns true if truncating `foobar` to `len` bytes leaves `kept`, and the same capacity.
fn keeps(alloc: Global, len: usize, kept: &str) -> Result<bool, AllocError> {
    let mut name = UnixStr::new("foobar").to_unix_string(alloc)?;
    let before = name.capacity();
    name.truncate(len);
    Ok(name.as_unix_str() == UnixStr::new(kept) && name.capacity() == before)
}

#[test]
fn a_truncation_keeps_the_first_bytes(rt: HostRuntime) {
    for row in TRUNCATIONS.iter() {
        let answer = keeps(rt.alloc(), row.0, row.1);
        assert!(rt; matches!(answer, Ok(true)), "{}", row.0);
    }
}
