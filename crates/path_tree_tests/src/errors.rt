//! Texts of errors, with padding.
use path_tree::{LookupError, MoveError, SortedError};
use path_within::{RequestError, StripError, WithinError};
use std::alloc::{AllocError, Global};
use std::fmt;

// Returns true if the error is displayed as `text`: without padding, and in fields of 25 columns at
// the left and at the right.
fn is_shown<E: fmt::Display>(alloc: Global, error: &E, text: &str) -> bool {
    match format!(in alloc; "{error}|{error:<25}|{error:>25}") {
        Ok(shown) => shown.as_str() == text,
        Err(AllocError) => false,
    }
}

// Returns true if the errors of requests, roots and joins are displayed as their texts.
fn are_requests_shown(alloc: Global) -> bool {
    let root = "path has a root|path has a root          |          path has a root";
    let leaves = "path leaves its root|path leaves its root     |     path leaves its root";
    let nul = "path has a NUL byte|path has a NUL byte      |      path has a NUL byte";
    let outside = "path is outside its root|path is outside its root | path is outside its root";
    is_shown(alloc, &RequestError::Rooted, root)
        && is_shown(alloc, &RequestError::Escapes, leaves)
        && is_shown(alloc, &RequestError::Nul, nul)
        && is_shown(alloc, &StripError::Outside, outside)
        && is_shown(alloc, &StripError::Nul, nul)
        && is_shown(alloc, &WithinError::Escapes, leaves)
        && is_shown(alloc, &WithinError::Nul, nul)
}

// Returns true if the errors of trees are displayed as their texts.
fn are_trees_shown(alloc: Global) -> bool {
    let falls = "paths are not sorted|paths are not sorted     |     paths are not sorted";
    let absent = "no such path|no such path             |             no such path";
    let memory = "out of memory|out of memory            |            out of memory";
    is_shown(alloc, &SortedError::NotSorted, falls)
        && is_shown(alloc, &LookupError::Absent, absent)
        && is_shown(alloc, &SortedError::from(AllocError), memory)
        && is_shown(alloc, &LookupError::from(AllocError), memory)
        && is_shown(alloc, &MoveError::from(AllocError), memory)
}

#[test]
fn texts_of_errors(rt: HostRuntime) {
    assert!(rt; are_requests_shown(rt.alloc()));
    assert!(rt; are_trees_shown(rt.alloc()));
}
