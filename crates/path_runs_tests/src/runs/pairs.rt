//! Tests that two paths compare like the lists of their components, for all pairs of short paths.
use std::alloc::{AllocError, Global};
use std::test::Fail;
use test_inputs::strings_over;
use unix_path::{Component, Path};

// The number of strings of at most 4 letters over an alphabet of four. There are 1, 4, 16, 64 and
// 256 strings of the lengths 0 to 4.
const STRINGS: usize = 341;

// The number of strings of at most 3 letters over an alphabet of four.
const SHORT_STRING_COUNT: usize = 85;

// Returns the components of the path with these bytes.
fn list_of<'a>(alloc: Global, bytes: &'a [u8]) -> Result<Vec<Component<'a>>, AllocError> {
    Path::from_bytes(bytes).components().collect(alloc)
}

// Returns the components of each path.
fn lists_of<'a>(
    alloc: Global,
    strings: &'a [Vec<u8>],
) -> Result<Vec<Vec<Component<'a>>>, AllocError> {
    let mut lists = Vec::new(alloc);
    for string in strings.iter() {
        let list = list_of(alloc, string.as_slice())?;
        lists.push(list)?;
    }
    Ok(lists)
}

// Returns true if two paths compare as the lists of their components do.
fn compare_as_lists(a: &[u8], v: &[Component<'_>], b: &[u8], w: &[Component<'_>]) -> bool {
    let (p, q) = (Path::from_bytes(a), Path::from_bytes(b));
    (p == q) == (v == w) && p.cmp(&q) == v.cmp(w)
}

// Returns the number of paths that compare with the path `a` as the lists of their components do.
fn count_matching_paths(
    a: &[u8],
    v: &[Component<'_>],
    strings: &[Vec<u8>],
    lists: &[Vec<Component<'_>>],
) -> usize {
    let mut count = 0_usize;
    for (b, w) in strings.iter().zip(lists.iter()) {
        if compare_as_lists(a, v, b.as_slice(), w.as_slice()) {
            count = count.saturating_add(1);
        }
    }
    count
}

// Returns the number of pairs that compare as the lists of their components do.
fn count_matching_pairs(strings: &[Vec<u8>], lists: &[Vec<Component<'_>>]) -> usize {
    let mut count = 0_usize;
    for (a, v) in strings.iter().zip(lists.iter()) {
        count = count.saturating_add(count_matching_paths(
            a.as_slice(),
            v.as_slice(),
            strings,
            lists,
        ));
    }
    count
}

// Returns true if all pairs of these paths compare as the lists of their components do.
fn all_pairs_match(alloc: Global, strings: &[Vec<u8>]) -> bool {
    match lists_of(alloc, strings) {
        Ok(lists) => count_matching_pairs(strings, &lists) == STRINGS * STRINGS,
        Err(AllocError) => false,
    }
}

#[test]
fn all_pairs_of_short_paths(rt: HostRuntime) -> Result<(), Fail> {
    let strings = strings_over(rt.alloc(), b"/.ab", SHORT_STRING_COUNT)?;
    assert!(rt; strings.len() == STRINGS && all_pairs_match(rt.alloc(), &strings));
    Ok(())
}
