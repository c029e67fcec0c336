//! Buffers of paths while allocations fail.
use super::{exhaust, fails, holds, path};
use std::alloc::Global;
use std::test::Fail;
use unix_path::bytes::{UnixStr, UnixString};
use unix_path::{ExtensionError, Path, PathBuf};

// Pushes the paths until a push fails, and returns true if none fails.
fn pushes_all(buffer: &mut PathBuf, paths: &[Path<'_>]) -> bool {
    for path in paths {
        if buffer.push(*path).is_err() {
            return false;
        }
    }
    true
}

fn extends(buffer: &mut PathBuf, paths: &[Path<'_>]) -> bool {
    buffer.extend(paths.iter().copied()).is_ok()
}

#[test]
fn after_reserve_pushes_do_not_allocate(rt: HostRuntime) -> Result<(), Fail> {
    let alloc = rt.alloc();
    let mut buffer = PathBuf::from_text(alloc, "foo")?;
    let has_room = buffer.reserve(6).is_ok();
    let parts = [path("a"), path("bc"), path("")];
    let _exhausted = exhaust(alloc)?;
    assert!(rt; has_room && pushes_all(&mut buffer, &parts) && holds(&buffer, "foo/a/bc/"));
    Ok(())
}

#[test]
fn after_reserve_an_extend_does_not_allocate(rt: HostRuntime) -> Result<(), Fail> {
    let alloc = rt.alloc();
    let mut buffer = PathBuf::from_text(alloc, "foo")?;
    let has_room = buffer.reserve(6).is_ok();
    let parts = [path("a"), path("bc"), path("")];
    let _exhausted = exhaust(alloc)?;
    assert!(rt; has_room && extends(&mut buffer, &parts) && holds(&buffer, "foo/a/bc/"));
    Ok(())
}

// Returns true if reserving more bytes than a buffer can have is an error, and the buffer is still
// `foo`.
fn refuses_all_memory(buffer: &mut PathBuf) -> bool {
    buffer.reserve(usize::MAX).is_err()
        && buffer.reserve_exact(usize::MAX).is_err()
        && holds(buffer, "foo")
}

#[test]
fn a_path_longer_than_memory_is_an_error(rt: HostRuntime) -> Result<(), Fail> {
    let alloc = rt.alloc();
    let mut buffer = PathBuf::from_text(alloc, "foo")?;
    assert!(rt;
        refuses_all_memory(&mut buffer) && fails(PathBuf::with_capacity(alloc, usize::MAX))
    );
    Ok(())
}

// Returns true if edits turn an empty path into `/foo.a.c` without changing its capacity.
fn fits_edits(buffer: &mut PathBuf) -> bool {
    let capacity = buffer.capacity();
    buffer.push(path("/")).is_ok()
        && buffer.capacity() == capacity
        && buffer.set_file_name(UnixStr::new("foo")).is_ok()
        && buffer.set_extension(UnixStr::new("a")).is_ok()
        && buffer.add_extension(UnixStr::new("c")).is_ok()
        && holds(buffer, "/foo.a.c")
        && buffer.capacity() == capacity
}

// Returns true if calls that need not change the capacity leave it unchanged.
fn keeps_its_capacity(buffer: &mut PathBuf) -> bool {
    let capacity = buffer.capacity();
    buffer.shrink_to(capacity).is_ok()
        && buffer.shrink_to(1000).is_ok()
        && buffer.reserve(2).is_ok()
        && buffer.reserve_exact(2).is_ok()
        && buffer.capacity() == capacity
}

#[test]
fn within_the_capacity_edits_do_not_allocate(rt: HostRuntime) -> Result<(), Fail> {
    let alloc = rt.alloc();
    let mut buffer = PathBuf::with_capacity(alloc, 10)?;
    let _exhausted = exhaust(alloc)?;
    let is_kept = keeps_its_capacity(&mut buffer);
    assert!(rt; is_kept && fits_edits(&mut buffer) && keeps_its_capacity(&mut buffer));
    Ok(())
}

// Returns true if each call that would make `ab` longer fails, and leaves `ab` unchanged.
fn refuses_pushes(buffer: &mut PathBuf, long: Path<'_>, rooted: Path<'_>) -> bool {
    buffer.push(rooted).is_err()
        && holds(buffer, "ab")
        && buffer.push(long).is_err()
        && buffer.reserve(4096).is_err()
        && buffer.reserve_exact(4096).is_err()
        && holds(buffer, "ab")
}

#[test]
fn a_failed_push_keeps_the_bytes(rt: HostRuntime) -> Result<(), Fail> {
    let alloc = rt.alloc();
    let mut rooted = [b'x'; 4096];
    rooted[0] = b'/';
    let rooted = Path::new(UnixStr::from_bytes(rooted.as_slice()));
    let long = [b'x'; 4096];
    let long = Path::new(UnixStr::from_bytes(long.as_slice()));
    let mut buffer = PathBuf::from_text(alloc, "ab")?;
    let exhausted = exhaust(alloc)?;
    assert!(rt; refuses_pushes(&mut buffer, long, rooted));
    drop(exhausted);
    let is_made = buffer.push(rooted).is_ok();
    assert!(rt; is_made && buffer.as_path().as_unix_str() == rooted.as_unix_str());
    Ok(())
}

fn has_len(buffer: &PathBuf, len: usize) -> bool {
    buffer.as_path().as_unix_str().len() == len
}

#[test]
fn a_failed_name_keeps_the_bytes(rt: HostRuntime) -> Result<(), Fail> {
    let alloc = rt.alloc();
    let long = [b'x'; 4096];
    let name = UnixStr::from_bytes(long.as_slice());
    let mut buffer = PathBuf::from_text(alloc, "a/bb")?;
    let exhausted = exhaust(alloc)?;
    assert!(rt; buffer.set_file_name(name).is_err() && holds(&buffer, "a/bb"));
    drop(exhausted);
    assert!(rt; buffer.set_file_name(name).is_ok() && has_len(&buffer, 4098));
    Ok(())
}

// Returns true if each call that would make the extension of `foo/.` longer fails, and leaves
// `foo/.` unchanged.
fn refuses_extensions(buffer: &mut PathBuf, long: UnixStr<'_>) -> bool {
    fails(buffer.set_extension(long)) && fails(buffer.add_extension(long)) && holds(buffer, "foo/.")
}

#[test]
fn a_failed_extension_keeps_the_bytes(rt: HostRuntime) -> Result<(), Fail> {
    let alloc = rt.alloc();
    let long = [b'x'; 4096];
    let name = UnixStr::from_bytes(long.as_slice());
    let mut buffer = PathBuf::from_text(alloc, "foo/.")?;
    let exhausted = exhaust(alloc)?;
    assert!(rt; refuses_extensions(&mut buffer, name));
    drop(exhausted);
    let is_made = matches!(buffer.set_extension(name), Ok(true));
    assert!(rt; is_made && has_len(&buffer, 4100));
    Ok(())
}

fn gives_its_parts(buffer: &PathBuf) -> bool {
    let mut parts = buffer.into_iter();
    parts.next() == Some(UnixStr::new("/")) && parts.next_back() == Some(UnixStr::new("b.c"))
}

// Returns true if no extension is set on a path without a file name.
fn takes_no_extension(buffer: &mut PathBuf) -> bool {
    matches!(buffer.set_extension(UnixStr::new("d")), Ok(false))
        && matches!(buffer.add_extension(UnixStr::new("d")), Ok(false))
}

// Returns true if `/a/b.c` loses its extension, and then its names.
fn is_shortened(buffer: &mut PathBuf) -> bool {
    matches!(buffer.set_extension(UnixStr::new("")), Ok(true))
        && matches!(buffer.add_extension(UnixStr::new("")), Ok(true))
        && holds(buffer, "/a/b")
        && buffer.pop()
        && buffer.pop()
        && !buffer.pop()
        && holds(buffer, "/")
}

fn becomes(buffer: PathBuf, text: &str) -> bool {
    let bytes: UnixString = buffer.into_unix_string();
    bytes.as_unix_str() == UnixStr::new(text)
}

#[test]
fn promised_edits_do_not_allocate(rt: HostRuntime) -> Result<(), Fail> {
    let alloc = rt.alloc();
    let text = UnixStr::new("/a/b.c").to_unix_string(alloc)?;
    let none: [Path<'_>; 0] = [];
    let _exhausted = exhaust(alloc)?;
    let mut buffer = PathBuf::from(text);
    assert!(rt; extends(&mut buffer, &none) && gives_its_parts(&buffer));
    assert!(rt; is_shortened(&mut buffer) && takes_no_extension(&mut buffer));
    buffer.clear();
    assert!(rt; becomes(buffer, ""));
    Ok(())
}

#[test]
fn a_path_of_a_string_does_not_allocate(rt: HostRuntime) -> Result<(), Fail> {
    let alloc = rt.alloc();
    let word = String::from_str(alloc, "..")?;
    let _exhausted = exhaust(alloc)?;
    let mut up = PathBuf::from(word);
    let is_refused = takes_no_extension(&mut up);
    let back: UnixString = up.into();
    assert!(rt; is_refused && back.as_unix_str() == UnixStr::new(".."));
    Ok(())
}

fn is_separator<T: Drop>(given: Result<T, ExtensionError>) -> bool {
    matches!(given, Err(ExtensionError::Separator))
}

// Returns true if an extension is rejected for its separator, in place and in copies, and the path
// is unchanged.
fn refuses_separator(alloc: Global, buffer: &mut PathBuf, text: &str) -> bool {
    let extension = UnixStr::new("x/y");
    is_separator(buffer.as_path().with_extension(alloc, extension))
        && is_separator(buffer.as_path().with_added_extension(alloc, extension))
        && is_separator(buffer.set_extension(extension))
        && is_separator(buffer.add_extension(extension))
        && holds(buffer, text)
}

#[test]
fn separators_are_refused_without_memory(rt: HostRuntime) -> Result<(), Fail> {
    let alloc = rt.alloc();
    let mut named = PathBuf::from_text(alloc, "foo.rs/.")?;
    let mut nameless = PathBuf::from_text(alloc, "..")?;
    let _exhausted = exhaust(alloc)?;
    assert!(rt;
        refuses_separator(alloc, &mut named, "foo.rs/.")
            && refuses_separator(alloc, &mut nameless, "..")
    );
    Ok(())
}

// Extends an empty path by these three paths. The length of the result shows how many of them were
// pushed, which is marked in `seen`. Returns false for any other length, if `extend` fails although
// all three were pushed, or if it succeeds although they were not.
fn extends_so_far(alloc: Global, paths: &[Path<'_>], seen: &mut [bool; 4]) -> bool {
    let mut buffer = PathBuf::new(alloc);
    let is_made = extends(&mut buffer, paths);
    let pushed = match buffer.as_path().as_unix_str().len() {
        0 => 0usize,
        1 => 1,
        4098 => 2,
        8195 => 3,
        _ => return false,
    };
    seen[pushed] = true;
    is_made == (pushed == 3)
}

// Makes each allocation of `extend` fail in some round. The paths that were pushed before the
// failed allocation stay.
#[test]
fn a_failed_extend_keeps_the_pushes_before(rt: HostRuntime) -> Result<(), Fail> {
    let alloc = rt.alloc();
    let mut exhausted = exhaust(alloc)?;
    let long = [b'x'; 4096];
    let long = Path::new(UnixStr::from_bytes(long.as_slice()));
    let items = [path("c"), long, long];
    let mut seen = [false; 4];
    for _ in 0..200 {
        assert!(rt; extends_so_far(alloc, &items, &mut seen));
        if seen[3] {
            break;
        }
        assert!(rt; exhausted.release());
    }
    drop(exhausted);
    assert!(rt; seen == [true; 4]);
    Ok(())
}

// Makes the second push fail. The third is not made, and the first stays.
#[test]
fn extend_stops_at_the_failed_push(rt: HostRuntime) -> Result<(), Fail> {
    let alloc = rt.alloc();
    let long = [b'x'; 4096];
    let long = Path::new(UnixStr::from_bytes(long.as_slice()));
    let items = [path("c"), long, path("d")];
    let mut buffer = PathBuf::from_text(alloc, "ab")?;
    let has_room = buffer.reserve(4).is_ok();
    let exhausted = exhaust(alloc)?;
    assert!(rt; has_room && !extends(&mut buffer, &items) && holds(&buffer, "ab/c"));
    drop(exhausted);
    assert!(rt; extends(&mut buffer, &items) && has_len(&buffer, 4105));
    Ok(())
}
