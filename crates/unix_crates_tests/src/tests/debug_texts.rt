//! Tests of the debug texts of views and walks, and of the texts of `StripPrefixError`.
use super::texts::{assert_debug_text, is_debug_text, is_text};
use std::alloc::Global;
use unix_bytes::bytes::UnixStr;
use unix_path::path::StripPrefixError;
use unix_path::{Component, Path};

#[test]
fn debug_texts(rt: HostRuntime) {
    let alloc = rt.alloc();
    let path = Path::from_text("/tmp");
    let mut parts = path.components();
    assert_debug_text(&rt, alloc, &parts, "Components([RootDir, Normal(\"tmp\")])");
    let _ = parts.next();
    assert_debug_text(&rt, alloc, &parts, "Components([Normal(\"tmp\")])");
    let _ = parts.next();
    assert_debug_text(&rt, alloc, &parts, "Components([])");
    let mut texts = path.iter();
    assert_debug_text(&rt, alloc, &texts, "Iter([\"/\", \"tmp\"])");
    let _ = texts.next();
    assert_debug_text(&rt, alloc, &texts, "Iter([\"tmp\"])");
    let _ = texts.next();
    assert_debug_text(&rt, alloc, &texts, "Iter([])");
    let mut ancestors = path.ancestors();
    assert_debug_text(&rt, alloc, &ancestors, "Ancestors { next: Some(\"/tmp\") }");
    let _ = ancestors.next();
    assert_debug_text(&rt, alloc, &ancestors, "Ancestors { next: Some(\"/\") }");
    let _ = ancestors.next();
    assert_debug_text(&rt, alloc, &ancestors, "Ancestors { next: None }");
    assert_debug_text(&rt, alloc, &path, "\"/tmp\"");
    assert_debug_text(&rt, alloc, &path.as_unix_str(), "\"/tmp\"");
    assert_debug_text(&rt, alloc, &path.display(), "\"/tmp\"");
}

#[test]
fn debug_texts_of_components(rt: HostRuntime) {
    let alloc = rt.alloc();
    assert_debug_text(&rt, alloc, &Component::RootDir, "RootDir");
    assert_debug_text(&rt, alloc, &Component::CurDir, "CurDir");
    assert_debug_text(&rt, alloc, &Component::ParentDir, "ParentDir");
    let name = Component::Normal(UnixStr::new("tmp"));
    assert_debug_text(&rt, alloc, &name, "Normal(\"tmp\")");
}

fn strip_error(path: &str, base: &str) -> Option<StripPrefixError> {
    match Path::from_text(path).strip_prefix(Path::from_text(base)) {
        Ok(_) => None,
        Err(error) => Some(error),
    }
}

// Returns true if there is an error, with the expected display and debug texts.
fn has_texts(alloc: Global, error: Option<StripPrefixError>) -> bool {
    match error {
        Some(error) => {
            let text = format!(in alloc; "{error}|{error:>18}");
            let is_printed = is_text(text, "prefix not found|  prefix not found");
            is_printed && is_debug_text(alloc, &error, "StripPrefixError(())")
        }
        None => false,
    }
}

#[test]
fn texts_of_the_strip_error(rt: HostRuntime) {
    let error = strip_error("foo/bar", "foo/bar/baz");
    assert!(rt; has_texts(rt.alloc(), error) && strip_error("foo", "bar") == error);
}
