//! Error codes: what a call returns instead of a length when it writes nothing.

// The error code if an extension has a slash.
pub(crate) const SEPARATOR: usize = usize::MAX - 6;

// The error code if the bytes are the key of no path.
pub(crate) const NOT_A_KEY: usize = usize::MAX - 4;

// The error code if the range of a key has no end.
pub(crate) const NO_END: usize = usize::MAX - 5;

// The error code for a result that is longer than any buffer. It is one more than the greatest
// length of a buffer.
pub(crate) const TOO_LONG: usize = 1 << 63;

// The error code if there is no relative path.
pub(crate) const NO_RELATIVE_PATH: usize = usize::MAX - 7;

// The error code if a request escapes.
pub(crate) const ESCAPES: usize = usize::MAX - 1;

// The error code if a request has a NUL byte.
pub(crate) const NUL_IN_REQUEST: usize = usize::MAX - 3;
