//! Tables of requests, and of paths that are stripped of their roots.
use path_within::{Request, Root, StripError};
use std::alloc::{AllocError, Global};
use std::test::Fail;
use unix_bytes::bytes::UnixStr;
use unix_path::Path;

// A request: its path, its file name, whether it has no name, and whether it ends in a slash.
type Row = (&'static str, Option<&'static str>, bool, bool);

static REQUESTS: [Row; 14] = [
    ("", None, true, false),
    (".", None, true, false),
    ("./", None, true, false),
    ("a", Some("a"), false, false),
    ("a/", Some("a"), false, true),
    ("a/.", Some("a"), false, true),
    ("a/./", Some("a"), false, true),
    ("a/b/..", Some("a"), false, false),
    ("a/..", None, true, false),
    ("a/../", None, true, false),
    ("a/../.foo", Some(".foo"), false, false),
    (".foo", Some(".foo"), false, false),
    ("..foo/", Some("..foo"), false, true),
    ("a/b/c/../../d/..", Some("a"), false, false),
];

// A verbatim root, a path, and what `strip` returns: the rest of the path after the root, or an
// error.
static STRIPPED: [(&'static str, &'static str, Result<&'static str, StripError>); 13] = [
    ("/srv/www", "/srv/www/a", Ok("a")),
    ("/srv/www", "/srv//www/./a/", Ok("a")),
    ("/srv/www", "/srv/www", Ok("")),
    ("/srv/www", "/srv/www2", Err(StripError::Outside)),
    ("/srv/www", "/srv/www/a/../b", Err(StripError::Outside)),
    ("/srv/www", "/srv", Err(StripError::Outside)),
    ("/srv/www", "srv/www/a", Err(StripError::Outside)),
    ("/srv/www", "/srv/www/..\0", Err(StripError::Nul)),
    ("/srv/w\0w", "/srv/w\0w/a", Ok("a")),
    ("/srv/w\0w", "/srv/w\0w/\0", Err(StripError::Nul)),
    ("", "./a/b", Ok("./a/b")),
    ("", "/a", Err(StripError::Outside)),
    ("/srv/../x", "/srv/../x/a", Ok("a")),
];

// Returns true if the request of the row's path has the row's properties.
fn is_request(row: &Row) -> bool {
    let Ok(request) = Request::beneath(Path::from_text(row.0)) else {
        return false;
    };
    let name = match row.1 {
        Some(name) => Some(UnixStr::new(name)),
        None => None,
    };
    request.as_path().as_unix_str() == UnixStr::new(row.0)
        && request.file_name() == name
        && request.is_root() == row.2
        && request.ends_in_slash() == row.3
}

#[test]
fn requests_asked(rt: HostRuntime) {
    for row in REQUESTS.iter() {
        assert!(rt; is_request(row), "{}", row.0);
    }
}

// Returns true if `strip` returns the row's rest or error, and `contains` is true if and only if
// the row has a rest.
fn is_stripped(
    alloc: Global,
    row: &(&str, &str, Result<&str, StripError>),
) -> Result<bool, AllocError> {
    let root = Root::verbatim(alloc, Path::from_text(row.0))?;
    let path = Path::from_text(row.1);
    let is_left = match (root.strip(path), row.2) {
        (Ok(request), Ok(want)) => request.as_path().as_unix_str() == UnixStr::new(want),
        (Err(error), Err(want)) => error == want,
        _ => false,
    };
    Ok(is_left && root.contains(path) == row.2.is_ok())
}

#[test]
fn roots_stripped(rt: HostRuntime) -> Result<(), Fail> {
    for row in STRIPPED.iter() {
        assert!(rt; is_stripped(rt.alloc(), row)?, "{} {}", row.0, row.1);
    }
    Ok(())
}

#[test]
fn a_request_is_shown(rt: HostRuntime) -> Result<(), Fail> {
    let request = Request::in_root(Path::from_text("//a/"))
        .ok()
        .ok_or("refused")?;
    assert!(rt; format!(in rt.alloc(); "{request:?}")?.as_str() == "\"a/\"");
    Ok(())
}
