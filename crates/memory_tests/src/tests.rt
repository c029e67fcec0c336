//! Tests of calls whose allocations fail, and of calls that do not allocate.
mod all_memory;
mod buffers;
mod copies;
mod json;
mod requests;
mod runs;
mod strings;
mod without_memory;

use memory_pressure::Exhausted;
use std::alloc::{AllocError, Global};
use std::test::Fail;
use unix_bytes::bytes::{LossyText, UnixStr};
use unix_path::{Path, PathBuf};

fn is_refused(alloc: Global, len: usize) -> bool {
    Vec::<u8>::with_capacity(alloc, len).is_err()
}

fn path(text: &str) -> Path<'_> {
    Path::from_text(text)
}

// Returns true if the path has these bytes.
fn holds(buffer: &PathBuf, text: &str) -> bool {
    buffer.as_path().as_unix_str() == UnixStr::new(text)
}

// Returns true if the call failed. Consumes the call's result, so that the caller has nothing to
// drop.
fn fails<T: Drop, E: Drop>(given: Result<T, E>) -> bool {
    given.is_err()
}

fn succeeds<T: Drop, E: Drop>(given: Result<T, E>) -> bool {
    given.is_ok()
}

// Returns true if the call succeeded and its result borrows this text.
fn is_borrowed(given: Result<LossyText<'_>, AllocError>, text: &str) -> bool {
    match given {
        Ok(LossyText::Borrowed(shown)) => shown == text,
        _ => false,
    }
}

// Allocates all memory. Fails if an allocation still succeeds, because then the test would show
// nothing.
fn exhaust(alloc: Global) -> Result<Exhausted, Fail> {
    let Some(exhausted) = Exhausted::begin(alloc)? else {
        return Err(Fail::new("not all memory could be allocated"));
    };
    let is_short = is_refused(alloc, 1) && is_refused(alloc, 24) && is_refused(alloc, 4096);
    if !is_short {
        return Err(Fail::new("an allocation succeeded"));
    }
    Ok(exhausted)
}
