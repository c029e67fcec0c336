//! Converts the texts in the rows of tables to paths and bytes.
use unix_bytes::bytes::UnixStr;
use unix_path::Path;

pub(super) fn path(text: &str) -> Path<'_> {
    Path::from_text(text)
}

pub(super) fn view(text: Option<&str>) -> Option<UnixStr<'_>> {
    match text {
        Some(text) => Some(UnixStr::new(text)),
        None => None,
    }
}

// Returns true if `found` is the path of `text`, or if both are `None`.
pub(super) fn is_path(found: Option<Path<'_>>, text: Option<&str>) -> bool {
    match found {
        Some(path) => Some(path.as_unix_str()) == view(text),
        None => text.is_none(),
    }
}
