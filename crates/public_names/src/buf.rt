//! The module `buf`.
ghost use Rattle.std.specs.Iterator.{IsFinite};

use crate::traits::{is_error, is_ordered};
use std::alloc::{AllocError, Global};
use unix_path::buf::{ExtensionError, PathBuf};
use unix_path::bytes::{UnixStr, UnixString};
use unix_path::{Iter, Path};

/// Calls the functions that make an empty `PathBuf` or one of a text.
pub fn new(alloc: Global, name: UnixStr<'_>, text: &str, string: String, count: usize) {
    let _: PathBuf = PathBuf::new(alloc);
    let _: Result<PathBuf, AllocError> = PathBuf::with_capacity(alloc, count);
    let _: Result<PathBuf, AllocError> = PathBuf::from_unix_str(alloc, name);
    let _: Result<PathBuf, AllocError> = PathBuf::from_text(alloc, text);
    let _: PathBuf = PathBuf::from(string);
}

/// Calls the functions between `PathBuf` and `UnixString`.
pub fn conversions(first: UnixString, second: PathBuf) {
    let it: PathBuf = PathBuf::from(first);
    let _: UnixString = it.into_unix_string();
    let _: UnixString = UnixString::from(second);
}

/// Calls `from_iter`.
pub fn from_iter<'a, I: Iterator<Item = Path<'a>>>(
    alloc: Global,
    items: I,
) -> Result<PathBuf, AllocError>
    requires can { I.can_next items }
    requires ends { IsFinite (I.remaining items) }
{
    PathBuf::from_iter(alloc, items)
}

/// Calls `extend`.
pub fn extend<'a, I: Iterator<Item = Path<'a>>>(
    it: &mut PathBuf,
    items: I,
) -> Result<(), AllocError>
    requires can { I.can_next items }
    requires ends { IsFinite (I.remaining items) }
{
    it.extend(items)
}

/// Calls the methods that change no `PathBuf`.
pub fn queries(it: &PathBuf) {
    let _: Path<'_> = it.as_path();
    let _: usize = it.capacity();
    let _: Iter<'_> = it.into_iter();
    let _: Result<PathBuf, AllocError> = it.clone();
    is_ordered(it);
}

/// Calls the edits of a `PathBuf`.
pub fn edits(it: &mut PathBuf, path: Path<'_>, name: UnixStr<'_>) {
    let _: Result<(), AllocError> = it.push(path);
    let _: bool = it.pop();
    let _: Result<(), AllocError> = it.set_file_name(name);
    let _: Result<bool, ExtensionError> = it.set_extension(name);
    let _: Result<bool, ExtensionError> = it.add_extension(name);
    let _: () = it.clear();
}

/// Calls the methods that change the capacity.
pub fn capacities(it: &mut PathBuf, count: usize) {
    let _: Result<(), AllocError> = it.reserve(count);
    let _: Result<(), AllocError> = it.reserve_exact(count);
    let _: Result<(), AllocError> = it.shrink_to_fit();
    let _: Result<(), AllocError> = it.shrink_to(count);
}

/// Names the errors of an extension.
pub fn extension_error(error: AllocError) -> [ExtensionError; 2] {
    let it: ExtensionError = ExtensionError::Memory(error);
    is_error(&it);
    [ExtensionError::Separator, it]
}
