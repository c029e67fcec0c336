//! Edits, walks and canonical forms while allocations fail.
use super::{exhaust, fails, holds, path};
use path_runs::canonical::{canonical, collected};
use path_runs::edits::{Edit, apply, rejoin};
use path_runs::walk::{Turn, walk};
use std::alloc::Global;
use std::test::Fail;
use unix_path::bytes::UnixStr;
use unix_path::{Path, PathBuf};

// Returns the number of edits that were made before an edit failed, or `None` if no edit failed.
fn edits_before_failure(alloc: Global, buffer: &mut PathBuf, edits: &[Edit<'_>]) -> Option<usize> {
    match apply(alloc, buffer, edits) {
        Ok(_) => None,
        Err(error) => Some(error.done),
    }
}

// Applies the edits to `ab`, with memory only for the list of answers. Returns true if the first
// `done` edits leave `ab/c` and the next edit fails.
fn leave_done(alloc: Global, edits: &[Edit<'_>], done: usize) -> Result<bool, Fail> {
    let mut buffer = PathBuf::from_text(alloc, "ab")?;
    let mut exhausted = exhaust(alloc)?;
    exhausted.release();
    let made = edits_before_failure(alloc, &mut buffer, edits);
    Ok(made == Some(done) && holds(&buffer, "ab/c"))
}

#[test]
fn a_failed_edit_leaves_those_before_it(rt: HostRuntime) -> Result<(), Fail> {
    let mut rooted = [b'x'; 4096];
    rooted[0] = b'/';
    let rooted = Path::new(UnixStr::from_bytes(rooted.as_slice()));
    let separator = UnixStr::new("x/y");
    let two = [Edit::Push(path("c")), Edit::Push(rooted)];
    let four = [
        Edit::Push(path("c")),
        Edit::SetExtension(separator),
        Edit::AddExtension(separator),
        Edit::Push(rooted),
    ];
    assert!(rt; leave_done(rt.alloc(), two.as_slice(), 1)?);
    assert!(rt; leave_done(rt.alloc(), four.as_slice(), 3)?);
    Ok(())
}

#[test]
fn answers_that_fail_leave_the_path(rt: HostRuntime) -> Result<(), Fail> {
    let alloc = rt.alloc();
    let mut buffer = PathBuf::from_text(alloc, "a/b")?;
    let _exhausted = exhaust(alloc)?;
    let made = edits_before_failure(alloc, &mut buffer, [Edit::Pop].as_slice());
    assert!(rt; made == Some(0) && holds(&buffer, "a/b"));
    assert!(rt; edits_before_failure(alloc, &mut buffer, [].as_slice()).is_none());
    Ok(())
}

// Returns true if a walk, both calls for a canonical form, and `rejoin` fail. If the path doesn't
// start with the base, `rejoin` has to return `None` without allocating.
fn refuses_runs(alloc: Global) -> bool {
    fails(walk(alloc, path("/a"), [Turn::Back].as_slice()))
        && fails(canonical(alloc, path("/a")))
        && fails(collected(alloc, path("/a").components()))
        && fails(rejoin(alloc, path("/a"), path("/")))
        && matches!(rejoin(alloc, path("/a"), path("a")), Ok(None))
}

#[test]
fn walks_and_spellings_fail_without_memory(rt: HostRuntime) -> Result<(), Fail> {
    let alloc = rt.alloc();
    let _exhausted = exhaust(alloc)?;
    assert!(rt; refuses_runs(alloc));
    Ok(())
}
