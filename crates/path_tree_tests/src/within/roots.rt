//! Joins of requests below roots, for all short strings and for random ones: as new paths, in a
//! reused buffer and written to slices. Also the rests of these joins after their roots.
use path_within::within::has_root_or_parent_dir;
use path_within::{Request, Root, StripError, has_nul};
use std::alloc::{AllocError, Global};
use std::test::Fail;
use test_inputs::{Random, strings_over};
use unix_path::{Path, PathBuf};

// The number of strings of at most 5 letters over an alphabet of four.
const SHORT_STRING_COUNT: usize = 1365;

const RANDOM_STRINGS: u32 = 2_000;

// A root, and the path to which it resolves.
static ROOTS: [(&'static [u8], &'static [u8]); 5] = [
    (b"", b""),
    (b"/", b"/"),
    (b"/www", b"/www"),
    (b"..", b".."),
    (b"/a/../b//.", b"/b"),
];

// Returns the names of the request, separated by single slashes.
fn names_of(alloc: Global, request: Request<'_>) -> Result<Vec<u8>, AllocError> {
    let mut names = vec![in alloc; b'#'; request.as_path().bytes.len()]?;
    let len = request.write_below(Path::from_bytes(b""), &mut names);
    names.truncate(len);
    Ok(names)
}

// Returns true if the request has these names, and ends in a slash if and only if its last
// component is a name and filler follows it.
fn has_names(request: Request<'_>, names: &[u8]) -> bool {
    let path = request.as_path();
    let ends_in_slash = match path.file_name() {
        Some(name) => !path.bytes.ends_with(name.bytes),
        None => false,
    };
    request.file_name() == Path::from_bytes(names).file_name()
        && request.is_root() == names.is_empty()
        && request.ends_in_slash() == ends_in_slash
}

// Returns true if the join is written to a buffer of its length, but not to a buffer that is one
// byte shorter.
fn is_written(root: Path<'_>, request: Request<'_>, want: &[u8]) -> bool {
    let mut buffer = [b'#'; 80];
    let len = want.len();
    if len >= 80 {
        return false;
    }
    let needed = request.write_below(root, &mut buffer[..len.saturating_sub(1)]);
    let is_untouched = buffer == [b'#'; 80];
    let written = request.write_below(root, &mut buffer[..len]);
    let is_exact = buffer.as_slice().starts_with(want) && buffer[len] == b'#';
    needed == len && written == len && is_untouched && is_exact
}

// Returns true if the root contains the path, and the rest of the path after the root has these
// names.
fn is_stripped(
    alloc: Global,
    root: &Root,
    path: Path<'_>,
    names: &[u8],
) -> Result<bool, AllocError> {
    match root.strip(path) {
        Ok(left) => Ok(names_of(alloc, left)?.as_slice() == names && root.contains(path)),
        Err(_) => Ok(false),
    }
}

// Returns true if the new join, the join in the buffer and the join written to a slice are the
// same, and the rest of the join after the root has the request's names.
fn is_joined(
    alloc: Global,
    root: &Root,
    buffer: &mut PathBuf,
    request: Request<'_>,
) -> Result<bool, AllocError> {
    let names = names_of(alloc, request)?;
    let joined = root.join(alloc, request)?;
    root.join_into(buffer, request)?;
    let want = joined.as_path().bytes;
    Ok(
        has_names(request, &names)
            && buffer.as_path().bytes == want
            && is_written(root.as_path(), request, want)
            && is_stripped(alloc, root, joined.as_path(), &names)?,
    )
}

// Returns true if `strip` and `contains` of the root are right for the path: `strip` returns the
// same rest as `strip_prefix`, or refuses the path with the right error.
fn is_told(root: &Root, path: Path<'_>) -> bool {
    let is_told = match (root.strip(path), path.strip_prefix(root.as_path())) {
        (Ok(request), Ok(left)) => {
            request.as_path().bytes == left.bytes
                && !has_root_or_parent_dir(left)
                && !has_nul(left.bytes)
        }
        (Err(StripError::Outside), Ok(left)) => has_root_or_parent_dir(left),
        (Err(StripError::Nul), Ok(left)) => !has_root_or_parent_dir(left) && has_nul(left.bytes),
        (Err(StripError::Outside), Err(_)) => true,
        _ => false,
    };
    is_told && root.contains(path) == root.strip(path).is_ok()
}

// Returns true if the path, unless it is refused as a request, is joined below the root, and if
// `strip` is right for the path and for the plain join of the root and the path.
fn is_read(
    alloc: Global,
    root: &Root,
    buffer: &mut PathBuf,
    path: &[u8],
) -> Result<bool, AllocError> {
    let path = Path::from_bytes(path);
    let is_new = match Request::beneath(path) {
        Ok(request) => {
            request.as_path().bytes == path.bytes && is_joined(alloc, root, buffer, request)?
        }
        Err(_) => true,
    };
    let is_below = match Request::in_root(path) {
        Ok(request) => is_joined(alloc, root, buffer, request)?,
        Err(_) => true,
    };
    let whole = root.as_path().join(alloc, path)?;
    Ok(is_new && is_below && is_told(root, path) && is_told(root, whole.as_path()))
}

// Returns the first of the strings for which `is_read` is false, if there is one. Returns `want` if
// it is not the root's bytes.
fn first_wrong<'a>(
    alloc: Global,
    root: &Root,
    want: &'a [u8],
    strings: &'a [Vec<u8>],
) -> Result<Option<&'a [u8]>, AllocError> {
    if root.as_path().bytes != want {
        return Ok(Some(want));
    }
    let mut buffer = PathBuf::new(alloc);
    for string in strings {
        if !is_read(alloc, root, &mut buffer, string)? {
            return Ok(Some(string));
        }
    }
    Ok(None)
}

#[test]
fn requests_below_roots(rt: HostRuntime) -> Result<(), Fail> {
    let mut strings = strings_over(rt.alloc(), b"/.a\0", SHORT_STRING_COUNT)?;
    let mut random = Random::new(27);
    for _ in 0..RANDOM_STRINGS {
        strings.push(random.string(rt.alloc())?)?;
    }
    for (root, want) in ROOTS.iter() {
        let kept = Root::verbatim(rt.alloc(), Path::from_bytes(root))?;
        let wrong = first_wrong(rt.alloc(), &kept, root, &strings)?;
        assert!(rt; wrong.is_none(), "{root:?} {wrong:?}");
        let resolved = Root::new(rt.alloc(), Path::from_bytes(root))?;
        let wrong = first_wrong(rt.alloc(), &resolved, want, &strings)?;
        assert!(rt; wrong.is_none(), "{root:?} {wrong:?}");
    }
    Ok(())
}
