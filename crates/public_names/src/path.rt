//! The module `path`.
use crate::traits::{is_copied, is_error, is_ordered};
use std::alloc::{AllocError, Global};
use unix_path::bytes::{LossyText, UnixStr};
use unix_path::path::{MAIN_SEPARATOR, Path, StripPrefixError, is_separator};
use unix_path::{Ancestors, Components, Display, ExtensionError, Iter, PathBuf};

/// Calls the functions that look at the bytes of a `Path`.
pub fn path<'a>(text: UnixStr<'a>, other: Path<'_>) {
    let it: Path<'a> = Path::new(text);
    let _: UnixStr<'a> = it.as_unix_str();
    let _: Option<&'a str> = it.to_str();
    let _: Display<'a> = it.display();
    let _: bool = it.is_absolute();
    let _: bool = it.is_relative();
    let _: bool = it.has_root();
    let _: usize = it.common_dir(other);
    is_copied(&it);
    is_ordered(&it);
}

/// Calls the functions that walk through a `Path` or take it apart.
pub fn pieces<'a>(it: Path<'a>, other: Path<'_>) {
    let _: Components<'a> = it.components();
    let _: Iter<'a> = it.iter();
    let _: Iter<'a> = it.into_iter();
    let _: Ancestors<'a> = it.ancestors();
    let _: Option<Path<'a>> = it.parent();
    let _: Option<UnixStr<'a>> = it.file_name();
    let _: Option<UnixStr<'a>> = it.file_stem();
    let _: Option<UnixStr<'a>> = it.extension();
    let _: Option<UnixStr<'a>> = it.file_prefix();
    let _: Result<Path<'a>, StripPrefixError> = it.strip_prefix(other);
    let _: bool = it.starts_with(other);
    let _: bool = it.ends_with(other);
}

/// Calls the functions that copy a `Path`.
pub fn copies<'a>(alloc: Global, it: Path<'a>, other: Path<'_>, name: UnixStr<'_>) {
    let _: Result<LossyText<'a>, AllocError> = it.to_string_lossy(alloc);
    let _: Result<PathBuf, AllocError> = it.to_path_buf(alloc);
    let _: Result<PathBuf, AllocError> = it.join(alloc, other);
    let _: Result<PathBuf, AllocError> = it.with_file_name(alloc, name);
    let _: Result<PathBuf, ExtensionError> = it.with_extension(alloc, name);
    let _: Result<PathBuf, ExtensionError> = it.with_added_extension(alloc, name);
}

/// Names the error of `strip_prefix`, the separator and its test.
pub fn separators(error: &StripPrefixError, c: char) -> bool {
    let _: char = MAIN_SEPARATOR;
    is_copied(error);
    is_error(error);
    is_separator(c)
}
