//! Compares the rests of walks, collected and written to buffers, with their canonical forms.
use path_runs::canonical::{canonical, collected, write_canonical};
use std::alloc::{AllocError, Global};
use std::test::Fail;
use test_inputs::{Random, strings_over};
use unix_path::{Components, Path};

// The number of strings of at most 5 letters over an alphabet of three.
const SHORT_STRING_COUNT: usize = 364;

// The number of lists of at most 3 turns. `LISTS` is the number of lists of at most 4 turns.
const SHORT_LIST_COUNT: usize = 15;

const LISTS: usize = 31;

const RANDOM_STRINGS: u32 = 10_000;

// Returns the rest of the walk after the turns. The letter `f` takes the first component, and any
// other letter takes the last one.
fn rest_after<'a>(walk: Components<'a>, turns: &[u8]) -> Components<'a> {
    let mut rest = walk;
    for turn in turns {
        let _part = if *turn == b'f' {
            rest.next()
        } else {
            rest.next_back()
        };
    }
    rest
}

// Returns true if collecting the rest of a walk returns the canonical form of this rest, and
// `write_canonical` writes the same bytes to a buffer of exactly their length.
fn is_collected(alloc: Global, rest: Components<'_>) -> Result<bool, AllocError> {
    let spelled = canonical(alloc, rest.as_path())?;
    let bytes = spelled.as_path().bytes;
    let joined = collected(alloc, rest)?;
    let mut out = vec![in alloc; b'#'; bytes.len()]?;
    let len = write_canonical(rest.as_path(), out.as_mut_slice());
    Ok(joined.as_path().bytes == bytes && len == bytes.len() && out.as_slice() == bytes)
}

// Returns the number of lists of turns after which `is_collected` is true for the rest of the path.
fn count_collected(alloc: Global, path: &[u8], lists: &[Vec<u8>]) -> Result<usize, AllocError> {
    let walk = Path::from_bytes(path).components();
    let mut count = 0_usize;
    for turns in lists {
        if is_collected(alloc, rest_after(walk, turns.as_slice()))? {
            count = count.saturating_add(1);
        }
    }
    Ok(count)
}

#[test]
fn all_short_paths_are_collected(rt: HostRuntime) -> Result<(), Fail> {
    let alloc = rt.alloc();
    let lists = strings_over(alloc, b"fb", SHORT_LIST_COUNT)?;
    assert!(rt; lists.len() == LISTS);
    for path in strings_over(alloc, b"/.a", SHORT_STRING_COUNT)?.iter() {
        let count = count_collected(alloc, path.as_slice(), &lists)?;
        assert!(rt; count == LISTS, "{path:?}, {count} lists");
    }
    Ok(())
}

#[test]
fn random_paths_are_collected(rt: HostRuntime) -> Result<(), Fail> {
    let alloc = rt.alloc();
    let lists = strings_over(alloc, b"fb", SHORT_LIST_COUNT)?;
    let mut random = Random::new(21);
    for _ in 0..RANDOM_STRINGS {
        let bytes = random.string(alloc)?;
        let count = count_collected(alloc, &bytes, &lists)?;
        assert!(rt; count == LISTS, "{bytes:?}, {count} lists");
    }
    Ok(())
}
