//! Allocations of resolved paths, relative paths and joins within.
use super::super::{holds, path};
use super::{report, report_path};
use path_within::relative::relative_path;
use path_within::resolved::resolved;
use path_within::within::{join_verbatim, join_within};
use path_within::{Request, Root, WithinError};
use std::alloc::{AllocError, Global};
use std::test::Fail;
use unix_path::PathBuf;

// Returns the result of a test whose call has to return the join `text`, which stays under its
// root; `given` is what the call returned.
fn report_join(given: Result<PathBuf, WithinError>, text: &str) -> Result<(), Fail> {
    match given {
        Ok(buffer) => report_path(Ok(buffer), text),
        Err(WithinError::Memory(error)) => report_path(Err(error), text),
        Err(WithinError::Escapes | WithinError::Nul) => report(true, false),
    }
}

#[test]
fn path_resolved(rt: HostRuntime) -> Result<(), Fail> {
    report_path(resolved(rt.alloc(), path("a/../b/./c")), "b/c")
}

#[test]
fn plain_path_resolved(rt: HostRuntime) -> Result<(), Fail> {
    report_path(resolved(rt.alloc(), path("a/b")), "a/b")
}

#[test]
fn path_above_resolved(rt: HostRuntime) -> Result<(), Fail> {
    report_path(resolved(rt.alloc(), path("../../a")), "../../a")
}

#[test]
fn path_resolved_to_nothing(rt: HostRuntime) -> Result<(), Fail> {
    report_path(resolved(rt.alloc(), path("a/..")), "")
}

#[test]
fn path_joined_within(rt: HostRuntime) -> Result<(), Fail> {
    let given = join_within(rt.alloc(), path("/srv/www"), path("a/../b"));
    report_join(given, "/srv/www/b")
}

#[test]
fn plain_paths_joined_within(rt: HostRuntime) -> Result<(), Fail> {
    let given = join_within(rt.alloc(), path("/srv/www"), path("a/b"));
    report_join(given, "/srv/www/a/b")
}

#[test]
fn nothing_joined_within(rt: HostRuntime) -> Result<(), Fail> {
    report_join(join_within(rt.alloc(), path("."), path("a/..")), "")
}

#[test]
fn path_joined_verbatim(rt: HostRuntime) -> Result<(), Fail> {
    let given = join_verbatim(rt.alloc(), path("/srv/www"), path("a/b"));
    report_join(given, "/srv/www/a/b")
}

// Returns the result of a test whose call has to return the relative path `text`; `given` is what
// it returned.
fn report_relative_path(
    given: Result<Option<PathBuf>, AllocError>,
    text: &str,
) -> Result<(), Fail> {
    match given {
        Ok(Some(found)) => report(true, holds(&found, text)),
        Ok(None) => report(true, false),
        Err(AllocError) => report(false, true),
    }
}

#[test]
fn relative_path_found(rt: HostRuntime) -> Result<(), Fail> {
    report_relative_path(
        relative_path(rt.alloc(), path("/a/b/c"), path("/a/d")),
        "../../d",
    )
}

#[test]
fn relative_path_between_unresolved_found(rt: HostRuntime) -> Result<(), Fail> {
    let given = relative_path(rt.alloc(), path("/a//b/c"), path("/a/./d"));
    report_relative_path(given, "../../d")
}

#[test]
fn relative_path_from_root_found(rt: HostRuntime) -> Result<(), Fail> {
    report_relative_path(relative_path(rt.alloc(), path("/"), path("/a/b")), "a/b")
}

#[test]
fn relative_path_between_paths_above_found(rt: HostRuntime) -> Result<(), Fail> {
    report_relative_path(
        relative_path(rt.alloc(), path("../../x"), path("../../y")),
        "../y",
    )
}

#[test]
fn relative_path_between_dots_found(rt: HostRuntime) -> Result<(), Fail> {
    report_relative_path(
        relative_path(rt.alloc(), path("a/b."), path("a/c.")),
        "../c.",
    )
}

#[test]
fn relative_path_from_above_found(rt: HostRuntime) -> Result<(), Fail> {
    report_relative_path(relative_path(rt.alloc(), path(".."), path("../..")), "..")
}

#[test]
fn relative_path_between_same_found(rt: HostRuntime) -> Result<(), Fail> {
    report_relative_path(
        relative_path(rt.alloc(), path("/a/b"), path("/a//c/../b")),
        "",
    )
}

#[test]
fn root_resolved(rt: HostRuntime) -> Result<(), Fail> {
    match Root::new(rt.alloc(), path("/srv/a/../www/")) {
        Ok(root) => report(true, root.as_path() == path("/srv/www")),
        Err(AllocError) => report(false, true),
    }
}

#[test]
fn root_resolved_to_nothing(rt: HostRuntime) -> Result<(), Fail> {
    match Root::new(rt.alloc(), path("srv/..")) {
        Ok(root) => report(true, root.as_path() == path("")),
        Err(AllocError) => report(false, true),
    }
}

#[test]
fn root_verbatim(rt: HostRuntime) -> Result<(), Fail> {
    match Root::verbatim(rt.alloc(), path("/srv/a/../www/")) {
        Ok(root) => report(true, root.as_path() == path("/srv/a/../www/")),
        Err(AllocError) => report(false, true),
    }
}

// Returns the request of this path.
fn request(text: &str) -> Result<Request<'_>, Fail> {
    match Request::beneath(path(text)) {
        Ok(request) => Ok(request),
        Err(_) => Err(Fail::new("wrong")),
    }
}

#[test]
fn request_joined(rt: HostRuntime) -> Result<(), Fail> {
    let root = Root::verbatim(rt.alloc(), path("/srv/www"))?;
    report_path(root.join(rt.alloc(), request("a/../b/c")?), "/srv/www/b/c")
}

#[test]
fn plain_request_joined(rt: HostRuntime) -> Result<(), Fail> {
    let root = Root::verbatim(rt.alloc(), path("/srv/www"))?;
    report_path(root.join(rt.alloc(), request("b/c")?), "/srv/www/b/c")
}

// Returns the result of a test whose call has to replace the path `/tmp` by `/srv/www/b/c`, the
// join of the root `/srv/www` and the request `text`, or to leave `/tmp` if it fails.
fn report_joined_into(alloc: Global, text: &str) -> Result<(), Fail> {
    let root = Root::verbatim(alloc, path("/srv/www"))?;
    let mut buffer = PathBuf::from_text(alloc, "/tmp")?;
    match root.join_into(&mut buffer, request(text)?) {
        Ok(()) => report(true, holds(&buffer, "/srv/www/b/c")),
        Err(AllocError) => report(false, holds(&buffer, "/tmp")),
    }
}

#[test]
fn request_joined_into(rt: HostRuntime) -> Result<(), Fail> {
    report_joined_into(rt.alloc(), "a/../b/c")
}

#[test]
fn plain_request_joined_into(rt: HostRuntime) -> Result<(), Fail> {
    report_joined_into(rt.alloc(), "b/c")
}
