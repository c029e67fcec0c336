//! Resolved paths, joins and relative paths from calls that allocate, compared with calls that
//! write to buffers: for all short paths and pairs of them, and for random ones.
use path_within::relative::{relative_path, write_relative_path};
use path_within::resolved::{resolved, write_resolved};
use path_within::within::{escapes, has_root_or_parent_dir, join_verbatim, join_within};
use path_within::{WithinError, has_nul};
use std::alloc::{AllocError, Global};
use std::test::Fail;
use test_inputs::{Random, strings_over};
use unix_path::Path;

// The number of strings of at most 5 letters over an alphabet of three.
const SHORT_PATH_COUNT: usize = 364;

// The number of strings of at most 4 letters over an alphabet of three.
const SHORT_STRING_COUNT: usize = 121;

// The number of strings of at most 3 letters over an alphabet of four.
const SHORT_NUL_COUNT: usize = 85;

const RANDOM_PAIRS: u32 = 10_000;

// Returns true if `write_resolved` writes the bytes `want` to a buffer of their length, but nothing
// to a buffer that is one byte shorter.
fn is_written(path: Path<'_>, want: &[u8]) -> bool {
    let mut buffer = [b'#'; 65];
    let len = want.len();
    if len > 64 {
        return false;
    }
    let needed = write_resolved(path, &mut buffer[..len.saturating_sub(1)]);
    let is_untouched = buffer == [b'#'; 65];
    let written = write_resolved(path, &mut buffer[..len]);
    let is_exact = buffer.as_slice().starts_with(want) && buffer[len] == b'#';
    needed == len && written == len && is_untouched && is_exact
}

// Returns true if `resolved` and `write_resolved` have the same result for the path, of at most 64
// bytes.
fn is_resolved(alloc: Global, path: &[u8]) -> Result<bool, AllocError> {
    let path = Path::from_bytes(path);
    let made = resolved(alloc, path)?;
    Ok(is_written(path, made.as_path().bytes))
}

// Returns true if `write_relative_path` writes the bytes `want` to a buffer of their length, but
// nothing to a buffer that is one byte shorter.
fn is_relative_path_written(from: Path<'_>, to: Path<'_>, want: &[u8]) -> bool {
    let mut buffer = [b'#'; 163];
    let len = want.len();
    if len > 162 {
        return false;
    }
    let needed = write_relative_path(from, to, &mut buffer[..len.saturating_sub(1)]);
    let is_untouched = buffer == [b'#'; 163];
    let written = write_relative_path(from, to, &mut buffer[..len]);
    let is_exact = buffer.as_slice().starts_with(want) && buffer[len] == b'#';
    needed == Some(len) && written == Some(len) && is_untouched && is_exact
}

// Returns true if `relative_path` and `write_relative_path` have the same result, or if both find
// no relative path and nothing is written.
fn is_led(alloc: Global, from: Path<'_>, to: Path<'_>) -> Result<bool, AllocError> {
    match relative_path(alloc, from, to)? {
        Some(made) => Ok(is_relative_path_written(from, to, made.as_path().bytes)),
        None => {
            let mut buffer = [b'#'; 16];
            Ok(write_relative_path(from, to, &mut buffer).is_none() && buffer == [b'#'; 16])
        }
    }
}

// Returns true if `join_within` returns the resolved form of `whole`, which is the join of the two
// paths, or if it refuses the request, which then has to escape.
fn is_joined_within(
    alloc: Global,
    root: Path<'_>,
    request: Path<'_>,
    whole: Path<'_>,
) -> Result<bool, AllocError> {
    match join_within(alloc, root, request) {
        Ok(joined) => {
            let want = resolved(alloc, whole)?;
            Ok(!escapes(request) && joined.as_path().bytes == want.as_path().bytes)
        }
        Err(error) => Ok(matches!(error, WithinError::Escapes) && escapes(request)),
    }
}

// Returns true if `join_verbatim` returns the path `whole`, which is the join, or if the request
// has a root, a `..` or a NUL and is refused with the right error.
fn is_joined_verbatim(alloc: Global, root: Path<'_>, request: Path<'_>, whole: Path<'_>) -> bool {
    let escapes = has_root_or_parent_dir(request);
    let is_cut = has_nul(request.bytes);
    match join_verbatim(alloc, root, request) {
        Ok(joined) => !escapes && !is_cut && joined.as_path().bytes == whole.bytes,
        Err(WithinError::Escapes) => escapes,
        Err(WithinError::Nul) => !escapes && is_cut,
        Err(WithinError::Memory(_)) => false,
    }
}

// Returns true if both joins of the two paths, and the relative path from the first to the second,
// are right.
fn is_made(alloc: Global, first: &[u8], second: &[u8]) -> Result<bool, AllocError> {
    let (a, b) = (Path::from_bytes(first), Path::from_bytes(second));
    let whole = a.join(alloc, b)?;
    Ok(
        is_joined_verbatim(alloc, a, b, whole.as_path())
            && is_joined_within(alloc, a, b, whole.as_path())?
            && is_led(alloc, a, b)?,
    )
}

// Returns the number of strings before the first one for which, together with `first`, `is_made` is
// false.
fn count_made(alloc: Global, first: &[u8], strings: &[Vec<u8>]) -> Result<usize, AllocError> {
    for (count, second) in strings.iter().enumerate() {
        if !is_made(alloc, first, second)? {
            return Ok(count);
        }
    }
    Ok(strings.len())
}

#[test]
fn all_short_paths(rt: HostRuntime) -> Result<(), Fail> {
    for path in strings_over(rt.alloc(), b"/.a", SHORT_PATH_COUNT)?.iter() {
        assert!(rt; is_resolved(rt.alloc(), path)?, "{path:?}");
    }
    Ok(())
}

#[test]
fn all_short_pairs(rt: HostRuntime) -> Result<(), Fail> {
    let strings = strings_over(rt.alloc(), b"/.a", SHORT_STRING_COUNT)?;
    let with_nuls = strings_over(rt.alloc(), b"/.a\0", SHORT_NUL_COUNT)?;
    for first in strings.iter() {
        let count = count_made(rt.alloc(), first, &strings)?;
        let others = count_made(rt.alloc(), first, &with_nuls)?;
        assert!(rt;
            count == 364 && others == 341,
            "{first:?}, {count}, {others}"
        );
    }
    Ok(())
}

#[test]
fn random_pairs(rt: HostRuntime) -> Result<(), Fail> {
    let mut random = Random::new(26);
    for _ in 0..RANDOM_PAIRS {
        let first = random.string(rt.alloc())?;
        let second = random.string(rt.alloc())?;
        let made = is_resolved(rt.alloc(), &first)? && is_made(rt.alloc(), &first, &second)?;
        assert!(rt; made, "{first:?} {second:?}");
    }
    Ok(())
}

// Joins a name of two dots and a NUL like any other name, although a system call reads it as `..`.
#[test]
fn nul_is_joined(rt: HostRuntime) -> Result<(), Fail> {
    let (root, request) = (Path::from_text("/srv"), Path::from_text("..\0/a"));
    let joined = join_within(rt.alloc(), root, request)
        .ok()
        .ok_or("refused")?;
    assert!(rt; joined.as_path().bytes == b"/srv/..\0/a".as_slice());
    Ok(())
}
