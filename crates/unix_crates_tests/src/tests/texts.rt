//! Checks of texts that calls return, and the texts of errors. The checks consume the texts,
//! because a test that owns a text while it asserts has a long proof.
use std::alloc::{AllocError, Global};
use std::error::Error;
use std::fmt;
use std::process::Abort;
use unix_bytes::bytes::LossyText;

// Returns true if the call returned a text that equals `wanted`.
pub(super) fn is_text(given: Result<String, AllocError>, wanted: &str) -> bool {
    match given {
        Ok(text) => text.as_str() == wanted,
        Err(AllocError) => false,
    }
}

// Returns true if the call returned a lossy text that equals `wanted`.
pub(super) fn is_lossy_text(given: Result<LossyText<'_>, AllocError>, wanted: &str) -> bool {
    match given {
        Ok(text) => text.as_str() == wanted,
        Err(AllocError) => false,
    }
}

// Returns true if the debug text of the value equals `wanted`.
pub(super) fn is_debug_text<T: fmt::Debug>(alloc: Global, value: &T, wanted: &str) -> bool {
    is_text(format!(in alloc; "{value:?}"), wanted)
}

pub(super) fn assert_text(rt: &impl Abort, given: Result<String, AllocError>, wanted: &str) {
    assert!(rt; is_text(given, wanted), "{wanted}");
}

pub(super) fn assert_debug_text<T: fmt::Debug>(
    rt: &impl Abort,
    alloc: Global,
    value: &T,
    wanted: &str,
) {
    assert_text(rt, format!(in alloc; "{value:?}"), wanted);
}

// Returns the text of the error, a bar, and the text again in a field of this width.
pub(super) fn text_of_error<E: Error>(
    alloc: Global,
    error: &E,
    width: usize,
) -> Result<String, AllocError> {
    format!(in alloc; "{error}|{error:>width$}")
}
