//! The example of the repository's first page.
use std::alloc::Global;
use unix_bytes::bytes::UnixStr;
use unix_path::{ExtensionError, Path};

#[test]
fn example(rt: HostRuntime) {
    let path = Path::from_text("/tmp//foo/./bar.txt");
    let base = Path::from_text("/tmp/foo/");
    assert!(rt; path.starts_with(base) && base < path);
    assert_eq!(rt; path.strip_prefix(base), Ok(Path::from_text("bar.txt")));
    assert_eq!(rt; path.parent(), Some(base));
    assert!(rt; matches!(is_renamed(rt.alloc(), base), Ok(true)));
}

// Returns true if a name that is not valid UTF-8 can be joined to `/tmp/foo`, and the extension of
// the result can be replaced.
fn is_renamed(alloc: Global, base: Path<'_>) -> Result<bool, ExtensionError> {
    let mut copy = base.join(alloc, Path::from_bytes(b"caf\xE9.txt"))?;
    let is_set = copy.set_extension(UnixStr::new("bak"))?;
    let path = copy.as_path();
    Ok(is_set && path == Path::from_bytes(b"/tmp/foo/caf\xE9.bak") && path.to_str().is_none())
}
