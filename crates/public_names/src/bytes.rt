//! The module `bytes`.
use crate::traits::{is_copied, is_ordered};
use std::alloc::{AllocError, Global};
use unix_path::bytes::{LossyText, UnixStr, UnixString};

/// Calls the functions of `UnixStr`.
pub fn unix_str<'a>(alloc: Global, text: &'a str, bytes: &'a [u8]) {
    let it: UnixStr<'a> = UnixStr::new(text);
    let _: UnixStr<'a> = UnixStr::from_bytes(bytes);
    let _: &'a [u8] = it.as_bytes();
    let _: usize = it.len();
    let _: bool = it.is_empty();
    let _: Option<&'a str> = it.to_str();
    let _: Result<LossyText<'a>, AllocError> = it.to_string_lossy(alloc);
    let _: Result<UnixString, AllocError> = it.to_unix_string(alloc);
    is_copied(&it);
    is_ordered(&it);
}

/// Names the forms of `LossyText`, and calls its function.
pub fn lossy_text(borrowed: &str, owned: String) {
    let it: LossyText<'_> = LossyText::Borrowed(borrowed);
    let _: &str = it.as_str();
    let _: LossyText<'_> = LossyText::Owned(owned);
}

/// Calls the functions that make a `UnixString`.
pub fn new_unix_string(alloc: Global, text: String, bytes: Vec<u8>, count: usize) {
    let _: UnixString = UnixString::new(alloc);
    let _: Result<UnixString, AllocError> = UnixString::with_capacity(alloc, count);
    let _: UnixString = UnixString::from(text);
    let _: UnixString = UnixString::from(bytes);
}

/// Calls the methods of `UnixString`.
pub fn unix_string(it: &mut UnixString, more: UnixStr<'_>, count: usize) {
    let _: UnixStr<'_> = it.as_unix_str();
    let _: usize = it.capacity();
    let _: Result<(), AllocError> = it.push(more);
    let _: Result<(), AllocError> = it.reserve(count);
    let _: Result<(), AllocError> = it.reserve_exact(count);
    let _: Result<(), AllocError> = it.shrink_to_fit();
    let _: Result<(), AllocError> = it.shrink_to(count);
    let _: () = it.clear();
    let _: Result<UnixString, AllocError> = it.clone();
    is_ordered(it);
}

/// Calls the method that takes a `UnixString` apart.
pub fn bytes_of(it: UnixString) -> Vec<u8> {
    it.into_bytes()
}
