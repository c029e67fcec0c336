//! The crate `path_runs`.
use crate::traits::is_error;
use path_runs::canonical::canonical;
use path_runs::edits::{apply, rejoin};
use path_runs::walk::walk;
use path_runs::{Answer, ApplyError, Edit, Turn, Walked};
use std::alloc::{AllocError, Global};
use unix_path::bytes::UnixStr;
use unix_path::{Component, Path, PathBuf};

/// Names the turns and the fields of what was walked, and calls `walk`.
pub fn walks<'a>(alloc: Global, path: Path<'a>) -> Result<Path<'a>, AllocError> {
    let Walked {
        front,
        rest,
        behind,
    } = walk(alloc, path, &[Turn::Front, Turn::Back])?;
    let _: Vec<Component<'a>> = front;
    let _: Vec<Component<'a>> = behind;
    Ok(rest)
}

/// Calls `canonical` and `rejoin`.
pub fn paths(alloc: Global, path: Path<'_>, base: Path<'_>) {
    let _: Result<PathBuf, AllocError> = canonical(alloc, path);
    let _: Result<Option<PathBuf>, AllocError> = rejoin(alloc, path, base);
}

/// Names the edits.
pub fn edits<'a>(path: Path<'a>, name: UnixStr<'a>) -> [Edit<'a>; 6] {
    let named = [
        Edit::SetFileName(name),
        Edit::SetExtension(name),
        Edit::AddExtension(name),
    ];
    let [file_name, extension, added] = named;
    [
        Edit::Push(path),
        Edit::Pop,
        file_name,
        extension,
        added,
        Edit::Clear,
    ]
}

/// Names the answers.
pub fn answers(flag: bool) -> [Answer; 3] {
    [Answer::Plain, Answer::Flag(flag), Answer::Separator]
}

/// Calls `apply`.
pub fn edited(alloc: Global, path: &mut PathBuf, edits: &[Edit<'_>]) {
    let _: Result<Vec<Answer>, ApplyError> = apply(alloc, path, edits);
}

/// Names the field of the error of `apply`.
pub fn apply_error(error: &ApplyError) -> usize {
    is_error(error);
    error.done
}
