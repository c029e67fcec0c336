//! Tests of how boxed, shared, and borrowed or owned paths are created, and what a caller can prove
//! about them.
ghost use Rattle.std.specs.Prelude.{◌≡◌, IsOk, IfOk};
ghost use Rattle.unix_path.specs.Buffers.{path_bytes};

use super::answers::assert_each;
use super::texts::is_debug_text;
use super::views::path;
use std::alloc::{AllocError, Global};
use std::test::Fail;
use unix_bytes::bytes::UnixStr;
use unix_path::{BoxedPath, CowPath, Path, PathBuf, RcPath};

// Converts the buffer to a `CowPath` and back, and then clones a `CowPath` that borrows it. None of
// these three steps allocates, so none fails.
fn rewrap(alloc: Global, buffer: PathBuf) -> Result<PathBuf, AllocError>
    ensures bytes { IfOk result (λ p. path_bytes p ≡ path_bytes buffer) }
    ensures succeeds { IsOk result }
{
    let owned = CowPath::from(buffer).into_owned(alloc)?;
    CowPath::from(&owned).clone()?;
    Ok(owned)
}

// Returns a copy of `text` as each of the three owning path types.
pub(super) fn owners_of(
    alloc: Global,
    text: &str,
) -> Result<(PathBuf, BoxedPath, RcPath), AllocError> {
    let path = path(text);
    Ok((
        path.to_path_buf(alloc)?,
        BoxedPath::from_path(alloc, path)?,
        RcPath::from_path(alloc, path)?,
    ))
}

// Returns true if the path has the bytes of `text`.
fn has_bytes(path: Path<'_>, text: &str) -> bool {
    path.as_unix_str() == UnixStr::new(text)
}

// Returns true if the call returned a buffer with the bytes of `text`. This function and the next
// two consume the result of the call, so that a test owns no path while it asserts.
pub(super) fn buffer_has_bytes(given: Result<PathBuf, AllocError>, text: &str) -> bool {
    match given {
        Ok(buffer) => has_bytes(buffer.as_path(), text),
        Err(AllocError) => false,
    }
}

// Returns true if the call returned a boxed path with the bytes of `text`.
fn boxed_has_bytes(given: Result<BoxedPath, AllocError>, text: &str) -> bool {
    match given {
        Ok(boxed) => has_bytes(boxed.as_path(), text),
        Err(AllocError) => false,
    }
}

// Returns true if the call returned a shared path with the bytes of `text`.
fn shared_has_bytes(given: Result<RcPath, AllocError>, text: &str) -> bool {
    match given {
        Ok(shared) => has_bytes(shared.as_path(), text),
        Err(AllocError) => false,
    }
}

// Returns true if the borrowed or owned path has the bytes of `text`.
fn cow_has_bytes(cow: CowPath<'_>, text: &str) -> bool {
    has_bytes(cow.as_path(), text)
}

// Returns true if the two paths are equal.
fn are_equal(cow: CowPath<'_>, other: CowPath<'_>) -> bool {
    cow.as_path() == other.as_path()
}

// Returns true if the path equals the buffer in three forms: as a view, borrowed, and owned.
fn becomes_each(path: Path<'_>, buffer: PathBuf) -> bool {
    let is_view = are_equal(CowPath::from(path), CowPath::from(buffer.as_path()));
    let is_borrowed = are_equal(CowPath::from(path), CowPath::from(&buffer));
    let is_owned = are_equal(CowPath::from(path), CowPath::from(buffer));
    is_view && is_borrowed && is_owned
}

#[test]
fn paths_become_borrowed_or_owned(rt: HostRuntime) -> Result<(), Fail> {
    let buffer = PathBuf::from_text(rt.alloc(), "/home/foo")?;
    assert!(rt; becomes_each(path("/home/foo"), buffer));
    Ok(())
}

// Copies the path, boxes the copy, and returns the buffer that the box becomes.
fn box_then_unbox(alloc: Global, path: Path<'_>) -> Result<PathBuf, AllocError> {
    path.to_path_buf(alloc)?
        .into_boxed_path()?
        .into_path_buf(alloc)
}

// Returns true if the three paths are equal to each other.
fn equal_each_other(path: Path<'_>, boxed: Path<'_>, buffer: Path<'_>) -> bool {
    path == boxed && boxed == buffer && buffer == path
}

// Returns true if a boxed copy of the path, and a copy that is boxed and unboxed, are equal to the
// path.
fn is_boxed(alloc: Global, path: Path<'_>) -> Result<bool, AllocError> {
    let boxed = BoxedPath::from_path(alloc, path)?;
    let buffer = box_then_unbox(alloc, path)?;
    Ok(equal_each_other(path, boxed.as_path(), buffer.as_path()))
}

#[test]
fn paths_are_boxed(rt: HostRuntime) {
    let answer = is_boxed(rt.alloc(), path("some/sort/of/path"));
    assert!(rt; matches!(answer, Ok(true)));
}

// Returns true if the call returned a shared path that is equal to `path`.
fn equals(given: Result<RcPath, AllocError>, path: Path<'_>) -> bool {
    match given {
        Ok(shared) => shared.as_path() == path,
        Err(AllocError) => false,
    }
}

#[test]
fn paths_are_shared(rt: HostRuntime) -> Result<(), Fail> {
    let alloc = rt.alloc();
    let hello = path("hello/world");
    assert!(rt; equals(RcPath::from_path(alloc, hello), hello));
    let buffer = hello.to_path_buf(alloc)?;
    assert!(rt; equals(RcPath::from_path_buf(alloc, buffer), hello));
    Ok(())
}

// Returns `foo/`, with spare capacity.
fn buffer_with_room(alloc: Global) -> Result<PathBuf, AllocError> {
    let mut buffer = PathBuf::with_capacity(alloc, 4096)?;
    buffer.push(path("foo/"))?;
    Ok(buffer)
}

// Returns true if a box made from the buffer `foo/`, a clone of this box, and the buffer that the
// box becomes have the bytes of `foo/`.
fn boxes_keep_the_bytes(alloc: Global) -> Result<bool, AllocError> {
    let boxed = BoxedPath::from_path_buf(buffer_with_room(alloc)?)?;
    let is_kept = has_bytes(boxed.as_path(), "foo/") && boxed_has_bytes(boxed.clone(), "foo/");
    Ok(buffer_has_bytes(boxed.into_path_buf(alloc), "foo/") && is_kept)
}

// Returns true if a clone of the shared path `foo/` has the bytes of `foo/`.
fn shares_keep_the_bytes(alloc: Global) -> Result<bool, AllocError> {
    let shared = RcPath::from_path_buf(alloc, buffer_with_room(alloc)?)?;
    Ok(shared_has_bytes(shared.clone(), "foo/"))
}

// Returns true if the box that the buffer `foo/` becomes has the bytes of `foo/`.
fn a_buffer_becomes_a_box(alloc: Global) -> Result<bool, AllocError> {
    let boxed = buffer_with_room(alloc)?.into_boxed_path();
    Ok(boxed_has_bytes(boxed, "foo/"))
}

#[test]
fn boxed_and_shared_paths_keep_the_bytes(rt: HostRuntime) {
    let alloc = rt.alloc();
    assert_each(
        &rt,
        &[
            matches!(boxes_keep_the_bytes(alloc), Ok(true)),
            matches!(a_buffer_becomes_a_box(alloc), Ok(true)),
            matches!(shares_keep_the_bytes(alloc), Ok(true)),
        ],
    );
}

// Returns true if a clone of the path `foo/`, and a box of a clone, have these bytes.
fn copies_keep_the_bytes(alloc: Global, path: &CowPath<'_>) -> Result<bool, AllocError> {
    let is_kept = cow_has_bytes(path.clone()?, "foo/");
    let boxed = BoxedPath::from_cow(alloc, path.clone()?);
    Ok(boxed_has_bytes(boxed, "foo/") && is_kept)
}

// Returns true if a clone, a box and an owned path that are created from the path `foo/` have these
// bytes.
fn keeps_the_bytes(alloc: Global, path: CowPath<'_>) -> Result<bool, AllocError> {
    let is_kept = copies_keep_the_bytes(alloc, &path)?;
    Ok(buffer_has_bytes(path.into_owned(alloc), "foo/") && is_kept)
}

// Returns true if the buffer `foo/` keeps its bytes as a `CowPath`, and when it is converted to a
// `CowPath` and back.
fn a_buffer_keeps_the_bytes(alloc: Global) -> Result<bool, AllocError> {
    let is_kept = keeps_the_bytes(alloc, CowPath::from(buffer_with_room(alloc)?))?;
    Ok(buffer_has_bytes(rewrap(alloc, buffer_with_room(alloc)?), "foo/") && is_kept)
}

#[test]
fn borrowed_and_owned_paths_keep_the_bytes(rt: HostRuntime) {
    let alloc = rt.alloc();
    let is_kept = keeps_the_bytes(alloc, CowPath::from(path("foo/")));
    assert!(rt; matches!(is_kept, Ok(true)));
    assert!(rt; matches!(a_buffer_keeps_the_bytes(alloc), Ok(true)));
}

// Returns true if a buffer made of a `String`, and one made of a `UnixString`, have the bytes of
// `text`.
fn owned_keep_a_name(alloc: Global, text: &str) -> Result<bool, AllocError> {
    let of_text = PathBuf::from(String::from_str(alloc, text)?);
    let of_bytes = PathBuf::from(UnixStr::new(text).to_unix_string(alloc)?);
    Ok(has_bytes(of_text.as_path(), text) && has_bytes(of_bytes.as_path(), text))
}

#[test]
fn a_buffer_keeps_a_name(rt: HostRuntime) {
    let alloc = rt.alloc();
    let name = UnixStr::new("foo.txt");
    assert_each(
        &rt,
        &[
            buffer_has_bytes(PathBuf::from_unix_str(alloc, name), "foo.txt"),
            buffer_has_bytes(PathBuf::from_text(alloc, "foo.txt"), "foo.txt"),
            matches!(owned_keep_a_name(alloc, "foo.txt"), Ok(true)),
        ],
    );
}

// Returns true if the debug text of the borrowed or owned path is `/tmp` in quotes.
fn cow_has_debug_text(alloc: Global, cow: CowPath<'_>) -> bool {
    is_debug_text(alloc, &cow, "\"/tmp\"")
}

// Returns true if the debug text of each owner, and of a borrowed path, is `/tmp` in quotes.
fn have_debug_text(alloc: Global, owners: &(PathBuf, BoxedPath, RcPath)) -> bool {
    let wanted = "\"/tmp\"";
    is_debug_text(alloc, &owners.0, wanted)
        && is_debug_text(alloc, &owners.1, wanted)
        && is_debug_text(alloc, &owners.2, wanted)
        && cow_has_debug_text(alloc, CowPath::from(&owners.0))
}

// Returns true if the debug text of each type of path that owns or borrows `/tmp` is `/tmp` in
// quotes.
fn are_quoted(alloc: Global) -> Result<bool, AllocError> {
    let owners = owners_of(alloc, "/tmp")?;
    let owned = CowPath::from(owners.0.clone()?);
    let is_quoted = cow_has_debug_text(alloc, owned);
    Ok(is_quoted && have_debug_text(alloc, &owners))
}

#[test]
fn debug_texts(rt: HostRuntime) {
    assert!(rt; matches!(are_quoted(rt.alloc()), Ok(true)));
}
