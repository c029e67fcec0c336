//! Sorted paths, records, and the first of equal paths.

use std::alloc::{AllocError, Global};
use unix_path::Path;
use upath_commands::{JoinRule, Options, Selection, records_in, sort_paths};

// The options `-u` and `-r`, if they are given.
fn options(unique: bool, reversed: bool) -> Options {
    Options {
        null: false,
        pair: false,
        quiet: false,
        from_back: false,
        rule: JoinRule::Trusted,
        inverted: false,
        with_reason: false,
        tar_list: false,
        closed: false,
        stripped: false,
        by_components: false,
        unique,
        reversed,
    }
}

// The records of a text, sorted, with a bar after each.
fn sorted(alloc: Global, text: &str, unique: bool, reversed: bool) -> Result<Vec<u8>, AllocError> {
    let mut paths = records_in(alloc, text.as_bytes(), b' ')?;
    sort_paths(options(unique, reversed), &mut paths)?;
    let mut out = Vec::new(alloc);
    for path in &paths {
        out.extend_from_slice(path.bytes)?;
        out.push(b'|')?;
    }
    Ok(out)
}

#[test]
fn sorts(rt: HostRuntime) {
    for (text, unique, reversed, want) in [
        ("", false, false, ""),
        (" ", false, false, "|"),
        ("b a", false, false, "a|b|"),
        ("b a ", false, false, "a|b|"),
        ("a.b a/b a//b a", false, false, "a|a/b|a//b|a.b|"),
        ("a//b a/b/. a a/b", true, false, "a|a//b|"),
        ("a//b a/b/. a a/b", false, true, "a/b|a/b/.|a//b|a|"),
        ("a//b a/b/. a a/b", true, true, "a//b|a|"),
        (".. ./a a / .", false, false, "/|.|./a|..|a|"),
    ] {
        let found = sorted(rt.alloc(), text, unique, reversed);
        let is_right = found.is_ok_and(|found| found.as_slice() == want.as_bytes());
        assert!(rt; is_right, "at {text}, {unique}, {reversed}");
    }
}

// For each record of a text `y` if the selection takes it, or else `n`.
fn taken(alloc: Global, text: &str, firsts: bool) -> Result<Vec<u8>, AllocError> {
    let mut selection = Selection::new(alloc, firsts);
    let mut out = Vec::new(alloc);
    for path in &records_in(alloc, text.as_bytes(), b' ')? {
        let is_taken = selection.take(alloc, Path { bytes: path.bytes })?;
        out.push(if is_taken { b'y' } else { b'n' })?;
    }
    Ok(out)
}

#[test]
fn selects(rt: HostRuntime) {
    for (text, firsts, want) in [
        ("a/b a//b c a c", true, "ynyyn"),
        ("a a ./a a/.", true, "ynyn"),
        ("a a ./a a/.", false, "yyyy"),
    ] {
        let found = taken(rt.alloc(), text, firsts);
        let is_right = found.is_ok_and(|found| found.as_slice() == want.as_bytes());
        assert!(rt; is_right, "at {text}, {firsts}");
    }
}
