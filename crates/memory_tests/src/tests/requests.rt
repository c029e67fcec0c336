//! Each test makes one call, here with enough memory. `tests/test_requests.py` runs them while
//! allocation number 1, 2, 3 and so on fails. A test then fails with `refused` if its call failed
//! and left its arguments as promised.
mod archives;
mod copies;
mod edits;
mod kept;
mod keys;
mod refusals;
mod runs;
mod strings;
mod tables;
mod trees;
mod within;

use super::{holds, path};
use std::alloc::{AllocError, Global};
use std::test::Fail;
use unix_bytes::bytes::{UnixStr, UnixString};
use unix_path::PathBuf;

// Returns a buffer of this path with a capacity of at least 100 bytes.
fn buffer_with_room(alloc: Global, text: &str) -> Result<PathBuf, AllocError> {
    let mut buffer = PathBuf::with_capacity(alloc, 100)?;
    buffer.push(path(text))?;
    Ok(buffer)
}

fn has_bytes(bytes: &UnixString, text: &str) -> bool {
    bytes.as_unix_str() == UnixStr::new(text)
}

// Returns the result of a test. `is_made` says whether the call succeeded, and `is_right` whether
// it returned and left what it should. The error is `wrong` if `is_right` is false, and otherwise
// `refused` if `is_made` is false.
fn report(is_made: bool, is_right: bool) -> Result<(), Fail> {
    if !is_right {
        return Err(Fail::new("wrong"));
    }
    if !is_made {
        return Err(Fail::new("refused"));
    }
    Ok(())
}

// Returns the result of a test whose call has to return the path `text`; `given` is what it
// returned.
fn report_path(given: Result<PathBuf, AllocError>, text: &str) -> Result<(), Fail> {
    match given {
        Ok(buffer) => report(true, holds(&buffer, text)),
        Err(AllocError) => report(false, true),
    }
}
