//! The calls that have other names or errors at the baseline, and the jobs that it can't run. For
//! a checkout of the baseline, bench/start replaces this file by bench/start.rt.in.
mod keyed;
mod server;

pub(crate) use path_within::relative::relative_path;
pub(crate) use path_within::within::escapes;
use path_within::within::{WithinError, join_verbatim, join_within};
use std::alloc::{AllocError, Global};
use unix_path::{Path, PathBuf};

// Returns the join, or `None` if the request is refused.
#[inline]
fn unless_refused(joined: Result<PathBuf, WithinError>) -> Result<Option<PathBuf>, AllocError> {
    match joined {
        Ok(path) => Ok(Some(path)),
        Err(WithinError::Escapes | WithinError::Nul) => Ok(None),
        Err(WithinError::Memory(error)) => Err(error),
    }
}

// Returns the join within the root, or `None` if the request escapes.
#[inline]
pub(crate) fn joined_within(
    alloc: Global,
    root: Path<'_>,
    request: Path<'_>,
) -> Result<Option<PathBuf>, AllocError> {
    unless_refused(join_within(alloc, root, request))
}

// Returns the verbatim join, or `None` if the request has a root, a `..` or a NUL byte.
#[inline]
pub(crate) fn joined_verbatim(
    alloc: Global,
    root: Path<'_>,
    request: Path<'_>,
) -> Result<Option<PathBuf>, AllocError> {
    unless_refused(join_verbatim(alloc, root, request))
}

// Returns the digest of a job that the baseline can't run, or `None` for another job.
pub(crate) fn digest_of(
    alloc: Global,
    job: &str,
    seed: u64,
    count: u64,
) -> Result<Option<u64>, AllocError> {
    let digest = match job {
        "server" => server::run(alloc, seed, count)?,
        "tree" => keyed::run(alloc, seed, count)?,
        _ => return Ok(None),
    };
    Ok(Some(digest))
}
