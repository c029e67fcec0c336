//! Tables of calls of the crate `callers`. Each row shows a rule.
use callers::archive::{UnpackError, unpack_path};
use callers::changes::changes_from;
use callers::index::{search_by_path, value_at};
use callers::manifest::normalise;
use callers::mounts::mounted_file;
use callers::router::route;
use callers::safe::stays_below;
use callers::server::find_file;
use callers::site::file_of;
use callers::tree::Tree;
use callers::url::map_url;
use path_tree::PathTree;
use path_within::{RequestError, Root, WithinError};
use std::alloc::{AllocError, Global};
use std::collections::BTreeMap;
use std::test::Fail;
use unix_path::bytes::UnixStr;
use unix_path::{Path, PathBuf};

// A request, and whether it stays below each root that it may be joined to.
static BELOW: [(&'static str, bool); 8] = [
    ("a//b", true),
    ("./a", true),
    ("", true),
    ("..a/...", true),
    ("a/../b", false),
    ("..", false),
    ("/etc/passwd", false),
    ("./..", false),
];

// A request, and its file below `/srv/www`, if it is found.
static SERVED: [(&'static str, Option<&'static str>); 6] = [
    ("/index.html", Some("/srv/www/index.html")),
    ("/a/../../b.html", Some("/srv/www/b.html")),
    ("//..foo//./x/", Some("/srv/www/..foo/x")),
    ("/", Some("/srv/www")),
    ("", Some("/srv/www")),
    ("/shell.php\0.png", None),
];

// An entry of an archive, and the path below `/tmp/x` to which it is unpacked, or the error with
// which it is rejected.
static ENTRIES: [(&'static str, Result<&'static str, RequestError>); 7] = [
    ("a/./b", Ok("/tmp/x/a/b")),
    ("a/../b/", Ok("/tmp/x/b")),
    ("./", Ok("/tmp/x")),
    ("/etc/passwd", Err(RequestError::Rooted)),
    ("../b", Err(RequestError::Escapes)),
    ("a/../../b\0", Err(RequestError::Escapes)),
    ("a\0b", Err(RequestError::Nul)),
];

// A URL's path, and the path of its file, if the URL prefix is `/static` and the root is
// `/srv/www`.
static URLS: [(&'static str, Option<&'static str>); 7] = [
    ("/static/css/a.css", Some("/srv/www/css/a.css")),
    ("/static//css/../a.css", Some("/srv/www/a.css")),
    ("/static", Some("/srv/www")),
    ("/static//x", Some("/srv/www/x")),
    ("/static/../a", Some("/srv/www/a")),
    ("/staticx/a", None),
    ("/static/a\0", None),
];

// A path, and the path of its file, if `/srv` is mounted at `/`, and `/home/me` at `/me` and at
// `me`.
static MOUNTED: [(&'static str, Option<&'static str>); 9] = [
    ("/a/b", Some("/srv/a/b")),
    ("/me/a", Some("/home/me/a")),
    ("//me//./a/", Some("/home/me/a")),
    ("/me", Some("/home/me")),
    ("/mex/a", Some("/srv/mex/a")),
    ("/me/../a", Some("/home/me/a")),
    ("me/a", Some("/home/me/a")),
    ("a", None),
    ("/a\0", None),
];

// A URL's path, and the path of its file, if the URL prefix is `/static` and the root is
// `/srv/./www`. Each `..` is dropped together with the name before it. A path that would leave the
// root is `refused`.
static FILES: [(&'static str, Option<&'static str>); 7] = [
    ("/static/css/../a.css", Some("/srv/www/a.css")),
    ("/static//x/./y/", Some("/srv/www/x/y")),
    ("/static", Some("/srv/www")),
    ("/static/..foo", Some("/srv/www/..foo")),
    ("/staticx/a", None),
    ("/static/../a", Some("refused")),
    ("/static/a/../../www/a", Some("refused")),
];

// A path, the number of its handler, and the rest of the path for the handler. The handlers are 1
// at `/`, 2 at `/api`, 3 at `/api/v1` and 4 at `static`, and the fallback is 0.
static ROUTED: [(&'static str, u8, &'static str); 9] = [
    ("/api//users", 2, "users"),
    ("/apis/", 1, "apis"),
    ("/api/v1/./users/7", 3, "users/7"),
    ("//api/v1", 3, ""),
    ("/", 1, ""),
    ("/api/../x", 2, "../x"),
    ("static/a.css", 4, "a.css"),
    ("api/users", 0, "api/users"),
    ("", 0, ""),
];

// Returns true if the path that was found has the expected bytes, or if no path was found and none
// is expected.
fn is_wanted(found: Option<PathBuf>, want: Option<&str>) -> bool {
    match (found, want) {
        (Some(found), Some(want)) => found.as_path().as_unix_str() == UnixStr::new(want),
        (None, None) => true,
        _ => false,
    }
}

#[test]
fn requests_stay_below(rt: HostRuntime) {
    for row in BELOW.iter() {
        assert!(rt; stays_below(Path::from_text(row.0)) == row.1, "{}", row.0);
    }
}

// Returns true if the request finds the row's file, or, if the row has no file, leaves the buffer
// unchanged.
fn is_served(alloc: Global, root: &Root, row: &(&str, Option<&str>)) -> Result<bool, AllocError> {
    let mut file = PathBuf::from_text(alloc, "as it was")?;
    let is_found = find_file(root, &mut file, Path::from_text(row.0))?;
    let want = row.1.unwrap_or("as it was");
    Ok(is_found == row.1.is_some() && has_bytes(&file, want))
}

#[test]
fn requests_find_files(rt: HostRuntime) -> Result<(), Fail> {
    let root = Root::new(rt.alloc(), Path::from_text("/srv/www/"))?;
    for row in SERVED.iter() {
        assert!(rt; is_served(rt.alloc(), &root, row)?, "{}", row.0);
    }
    Ok(())
}

// Returns true if the entry is unpacked to the row's path, or is rejected with the row's error.
fn is_unpacked(alloc: Global, root: &Root, row: &(&str, Result<&str, RequestError>)) -> bool {
    match (unpack_path(alloc, root, Path::from_text(row.0)), row.1) {
        (Ok(target), Ok(want)) => has_bytes(&target, want),
        (Err(UnpackError::Refused(error)), Err(want)) => error == want,
        _ => false,
    }
}

#[test]
fn entries_are_unpacked(rt: HostRuntime) -> Result<(), Fail> {
    let root = Root::verbatim(rt.alloc(), Path::from_text("/tmp/x"))?;
    for row in ENTRIES.iter() {
        assert!(rt; is_unpacked(rt.alloc(), &root, row), "{}", row.0);
    }
    Ok(())
}

// Returns true if the file that a URL's path names is the expected one.
fn names(found: Result<Option<PathBuf>, WithinError>, want: Option<&str>) -> bool {
    match found {
        Ok(found) => is_wanted(found, want),
        Err(WithinError::Escapes) => want == Some("refused"),
        Err(WithinError::Nul) => false,
        Err(WithinError::Memory(_)) => false,
    }
}

// Returns true if the row's URL names its file.
fn is_file(alloc: Global, row: &(&str, Option<&str>)) -> bool {
    let (prefix, root) = (Path::from_text("/static"), Path::from_text("/srv/./www"));
    names(file_of(alloc, prefix, root, Path::from_text(row.0)), row.1)
}

#[test]
fn urls_name_files(rt: HostRuntime) {
    for row in FILES.iter() {
        assert!(rt; is_file(rt.alloc(), row), "{}", row.0);
    }
}

// Returns true if the row's URL is mapped to its file.
fn is_mapped(alloc: Global, root: &Root, row: &(&str, Option<&str>)) -> Result<bool, AllocError> {
    let found = map_url(
        alloc,
        Path::from_text("/static"),
        root,
        Path::from_text(row.0),
    )?;
    Ok(is_wanted(found, row.1))
}

#[test]
fn urls_are_mapped(rt: HostRuntime) -> Result<(), Fail> {
    let root = Root::new(rt.alloc(), Path::from_text("/srv/./www"))?;
    for row in URLS.iter() {
        assert!(rt; is_mapped(rt.alloc(), &root, row)?, "{}", row.0);
    }
    Ok(())
}

// The paths of a manifest, before and after it is normalised.
static MANIFEST: [&str; 6] = ["b", "a//b/.", "./a", "a.b", "a/b", "b/"];

static NORMALISED: [&str; 4] = ["./a", "a/b", "a.b", "b"];

// Returns true if the manifest, with its paths repeated `times` times, is normalised to `want`:
// these bytes, in this order.
fn is_normalised(alloc: Global, times: usize, want: &[&str]) -> Result<bool, AllocError> {
    let mut paths = Vec::new(alloc);
    for _ in 0..times {
        for text in MANIFEST.iter() {
            paths.push(Path::from_text(text))?;
        }
    }
    let set = normalise(alloc, paths.as_slice())?;
    let is_whole = set.len() == want.len();
    Ok(
        is_whole
            && set
                .iter()
                .zip(want)
                .all(|(path, text)| has_bytes(path, text)),
    )
}

fn has_bytes(path: &PathBuf, text: &str) -> bool {
    path.as_path().as_unix_str() == UnixStr::new(text)
}

#[test]
fn manifests_are_normalised(rt: HostRuntime) -> Result<(), Fail> {
    assert!(rt; is_normalised(rt.alloc(), 1, NORMALISED.as_slice())?);
    // Repeats each path 200 times.
    assert!(rt; is_normalised(rt.alloc(), 200, NORMALISED.as_slice())?);
    Ok(())
}

// The number of paths of a letter, a slash and a letter.
const LETTERS: usize = 676;

// Returns all paths of a letter, a slash and a letter, in increasing order, or in decreasing order
// if `falls` is true.
fn letters(alloc: Global, falls: bool) -> Result<Vec<PathBuf>, AllocError> {
    let mut paths = Vec::with_capacity(alloc, LETTERS)?;
    for place in 0..LETTERS {
        let at = if falls { LETTERS - 1 - place } else { place };
        let bytes = [b'a' + (at / 26) as u8, b'/', b'a' + (at % 26) as u8];
        paths.push(Path::from_bytes(bytes.as_slice()).to_path_buf(alloc)?)?;
    }
    Ok(paths)
}

// Returns true if the paths `given` are normalised to `want`. If there is a path `last`, it is
// added after the paths `given`, and has to come before all of them in the normalised list.
fn are_ordered(
    alloc: Global,
    given: &[PathBuf],
    last: Option<Path<'_>>,
    want: &[PathBuf],
) -> Result<bool, AllocError> {
    let mut paths = Vec::new(alloc);
    for path in given {
        paths.push(path.as_path())?;
    }
    if let Some(path) = last {
        paths.push(path)?;
    }
    let mut set = normalise(alloc, paths.as_slice())?;
    let has_last = last.is_none() || set.pop_first().is_some();
    Ok(has_last && set.iter().eq(want.iter()))
}

#[test]
fn listings_are_ordered(rt: HostRuntime) -> Result<(), Fail> {
    let rising = letters(rt.alloc(), false)?;
    let falling = letters(rt.alloc(), true)?;
    assert!(rt; are_ordered(rt.alloc(), &rising, None, &rising)?);
    assert!(rt; are_ordered(rt.alloc(), &falling, None, &rising)?);
    // With `/` as the last path, the first path is greater than the last, although the list
    // increases up to it.
    assert!(rt; are_ordered(rt.alloc(), &rising, Some(Path::from_text("/")), &rising)?);
    Ok(())
}

// Returns true if `a/b` and `a//b/` are one file of the tree, which `get` and `remove` find at the
// path `key`.
fn is_one_file(alloc: Global, tree: &mut Tree<u8>, key: &PathBuf) -> Result<bool, AllocError> {
    let first = tree.insert(alloc, Path::from_text("a/b"), 1)?;
    let second = tree.insert(alloc, Path::from_text("a//b/"), 2)?;
    let found = tree.get(key).copied();
    let taken = tree.remove(key);
    let is_replaced = first == None && second == Some(1);
    Ok(is_replaced && found == Some(2) && taken == Some(2) && tree.get(key).is_none())
}

#[test]
fn equal_paths_are_one_file(rt: HostRuntime) -> Result<(), Fail> {
    let key = PathBuf::from_text(rt.alloc(), "a/./b")?;
    let mut tree = Tree::new(rt.alloc());
    assert!(rt; is_one_file(rt.alloc(), &mut tree, &key)?);
    Ok(())
}

#[test]
fn an_equal_view_is_found(rt: HostRuntime) -> Result<(), Fail> {
    let mut views = BTreeMap::new(rt.alloc());
    views.insert(Path::from_text("a/b"), 1u8)?;
    assert!(rt; value_at(&views, Path::from_text("a//b/")).copied() == Some(1));
    Ok(())
}

// Returns true if `a//b` is found at index `found` of the files, and `a/c` would be inserted at
// index `missing`.
fn have_places(files: &[(PathBuf, u8)], found: usize, missing: usize) -> bool {
    search_by_path(files, Path::from_text("a//b")) == Ok(found)
        && search_by_path(files, Path::from_text("a/c")) == Err(missing)
}

#[test]
fn an_equal_path_is_found_in_order(rt: HostRuntime) -> Result<(), Fail> {
    let mut files = Vec::new(rt.alloc());
    for (path, value) in [("a", 1u8), ("a/b", 2), ("b", 3)] {
        files.push((PathBuf::from_text(rt.alloc(), path)?, value))?;
    }
    assert!(rt; have_places(&files, 1, 2));
    Ok(())
}

// Returns a tree of the mounts that the comment of `MOUNTED` describes.
fn mounts(alloc: Global) -> Result<PathTree<Root>, AllocError> {
    let mut mounts = PathTree::new(alloc);
    mounts.insert(
        Path::from_text("/"),
        Root::new(alloc, Path::from_text("/srv"))?,
    )?;
    for point in ["/me/", "me"] {
        let root = Root::new(alloc, Path::from_text("/home/me"))?;
        mounts.insert(Path::from_text(point), root)?;
    }
    Ok(mounts)
}

// Returns true if the row's path is mapped to its file.
fn is_mounted(
    alloc: Global,
    mounts: &PathTree<Root>,
    row: &(&str, Option<&str>),
) -> Result<bool, AllocError> {
    let found = mounted_file(alloc, mounts, Path::from_text(row.0))?;
    Ok(is_wanted(found, row.1))
}

#[test]
fn mounts_have_files(rt: HostRuntime) -> Result<(), Fail> {
    let mounts = mounts(rt.alloc())?;
    for row in MOUNTED.iter() {
        assert!(rt; is_mounted(rt.alloc(), &mounts, row)?, "{:?}", row.0);
    }
    Ok(())
}

// Returns a tree of these paths with these values.
fn tree_of(alloc: Global, files: &[(&str, u8)]) -> Result<PathTree<u8>, AllocError> {
    let mut tree = PathTree::new(alloc);
    for (path, value) in files {
        tree.insert(Path::from_text(path), *value)?;
    }
    Ok(tree)
}

// Returns true if the row's path is routed to the row's handler, with the row's rest.
fn is_routed(routes: &PathTree<u8>, row: &(&str, u8, &str)) -> Result<bool, AllocError> {
    let (handler, left) = route(routes, &0, Path::from_text(row.0))?;
    Ok(*handler == row.1 && left.as_unix_str() == UnixStr::new(row.2))
}

#[test]
fn paths_are_routed(rt: HostRuntime) -> Result<(), Fail> {
    let routes = [("/", 1), ("/api/", 2), ("/api/v1", 3), ("static", 4)];
    let routes = tree_of(rt.alloc(), routes.as_slice())?;
    for row in ROUTED.iter() {
        assert!(rt; is_routed(&routes, row)?, "{}", row.0);
    }
    Ok(())
}

// Compares two manifests. Returns true if the expected paths are new, gone or different in the
// second manifest.
fn has_changed(alloc: Global) -> Result<bool, AllocError> {
    let before = [("a", 1), ("b", 2), ("d//e", 5), ("d.e", 6)];
    let before = tree_of(alloc, before.as_slice())?;
    let after = [("d/e/", 5), ("c", 4), ("a", 3), ("./a", 7)];
    let after = tree_of(alloc, after.as_slice())?;
    let changes = changes_from(&before, &after)?;
    let new: [(&[u8], &u8); 2] = [(b"\x00\x02a\x00", &7), (b"c\x00", &4)];
    let gone: [(&[u8], &u8); 2] = [(b"b\x00", &2), (b"d/e\x00", &6)];
    let different: [(&[u8], &u8, &u8); 1] = [(b"a\x00", &3, &1)];
    Ok(
        changes.new.as_slice() == new.as_slice()
            && changes.gone.as_slice() == gone.as_slice()
            && changes.different.as_slice() == different.as_slice(),
    )
}

// Returns true if the manifest has no changes compared with itself.
fn has_stayed(tree: &PathTree<u8>) -> Result<bool, AllocError> {
    let none = changes_from(tree, tree)?;
    Ok(none.new.is_empty() && none.gone.is_empty() && none.different.is_empty())
}

#[test]
fn manifests_are_compared(rt: HostRuntime) -> Result<(), Fail> {
    let tree = tree_of(rt.alloc(), [("a", 1)].as_slice())?;
    assert!(rt; has_changed(rt.alloc())? && has_stayed(&tree)?);
    Ok(())
}
