//! Allocations of canonical forms, joins, walks and lists of edits.
use super::super::{holds, path};
use super::{report, report_path};
use path_runs::canonical::{canonical, collected};
use path_runs::edits::{Edit, apply, rejoin};
use path_runs::walk::{Turn, walk};
use std::alloc::AllocError;
use std::test::Fail;
use unix_path::PathBuf;
use unix_path::bytes::UnixStr;

// The canonical form of `SOURCE`.
const SPELLING: &str = "./01234567/0123456789/0123456789012345678901234567890123456789";

const SOURCE: &str = ".//01234567/./0123456789//0123456789012345678901234567890123456789/.";

#[test]
fn path_spelled(rt: HostRuntime) -> Result<(), Fail> {
    report_path(canonical(rt.alloc(), path(SOURCE)), SPELLING)
}

#[test]
fn spelled_path_copied(rt: HostRuntime) -> Result<(), Fail> {
    report_path(canonical(rt.alloc(), path(SPELLING)), SPELLING)
}

#[test]
fn parts_collected(rt: HostRuntime) -> Result<(), Fail> {
    report_path(collected(rt.alloc(), path(SOURCE).components()), SPELLING)
}

#[test]
fn path_rejoined(rt: HostRuntime) -> Result<(), Fail> {
    match rejoin(rt.alloc(), path("/a//b/."), path("/a/")) {
        Ok(Some(joined)) => report_path(Ok(joined), "/a/b"),
        Ok(None) => report(true, false),
        Err(AllocError) => report(false, true),
    }
}

#[test]
fn path_walked(rt: HostRuntime) -> Result<(), Fail> {
    let turns = [
        Turn::Front,
        Turn::Back,
        Turn::Front,
        Turn::Front,
        Turn::Front,
        Turn::Front,
    ];
    match walk(rt.alloc(), path("/a/b/c/d/e/f"), turns.as_slice()) {
        Ok(walked) => {
            let is_right = walked.front.len() == 5 && walked.behind.len() == 1;
            report(true, is_right && walked.rest == path("e"))
        }
        Err(AllocError) => report(false, true),
    }
}

// Returns the path that the first `done` edits make of `ab`.
fn edited_text(done: usize) -> &'static str {
    match done {
        0 => "ab",
        1 => "ab/c",
        2 => "",
        _ => "01234567890123456789",
    }
}

#[test]
fn edits_applied(rt: HostRuntime) -> Result<(), Fail> {
    let edits = [
        Edit::Push(path("c")),
        Edit::Clear,
        Edit::SetFileName(UnixStr::new("01234567890123456789")),
    ];
    let mut buffer = PathBuf::from_text(rt.alloc(), "ab")?;
    match apply(rt.alloc(), &mut buffer, edits.as_slice()) {
        Ok(answers) => report(true, answers.len() == 3 && holds(&buffer, edited_text(3))),
        Err(error) => report(
            false,
            error.done < 3 && holds(&buffer, edited_text(error.done)),
        ),
    }
}

// Returns the path that `ab` becomes when the first `done` of the extensions are added.
fn extended_text(done: usize) -> &'static str {
    match done {
        0 => "ab",
        1 => "ab.0123456789",
        _ => "ab.0123456789.01234567890123456789",
    }
}

#[test]
fn extensions_applied(rt: HostRuntime) -> Result<(), Fail> {
    let edits = [
        Edit::SetExtension(UnixStr::new("0123456789")),
        Edit::AddExtension(UnixStr::new("01234567890123456789")),
    ];
    let mut buffer = PathBuf::from_text(rt.alloc(), "ab")?;
    match apply(rt.alloc(), &mut buffer, edits.as_slice()) {
        Ok(answers) => report(true, answers.len() == 2 && holds(&buffer, extended_text(2))),
        Err(error) => report(
            false,
            error.done < 2 && holds(&buffer, extended_text(error.done)),
        ),
    }
}
