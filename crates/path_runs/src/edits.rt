//! Edits of a path as values, and two functions: `apply` makes a list of edits, and `rejoin` joins
//! a base with what follows it in a path.
ghost use Rattle.std.specs.Prelude.{◌≡◌, ◌↔◌, ◌<◌, ◌≤◌, [], length, take, slice_get};
ghost use Rattle.std.specs.Prelude.{map, Some, IsSome, IsOk, IfOk, IfErr, IfSome, OnOk, OnErr};
ghost use Rattle.std.specs.Prelude.{codes, MatchOption};
ghost use Rattle.std.specs.Fmt.{padded};
ghost use Rattle.std.specs.Result.{result_ok};
ghost use Rattle.unix_path.specs.Buffers.{capacity, path_bytes};
ghost use Rattle.unix_path.specs.Joins.{join_of};
ghost use Rattle.unix_path.specs.Prefixes.{IsPrefixOf, stripped_of};
ghost use Rattle.unix_path.specs.Parts.{values, SameValues};
ghost use Rattle.path_runs.specs.EditViews.{edit_value, extension_answer};
ghost use Rattle.path_runs.specs.EditLists.{edit_of, edits_of};
ghost use Rattle.path_runs.specs.ScanCache.{IsCacheOf};

mod cache;
mod stems;
mod step;

use crate::edits::cache::ScanCache;
use crate::edits::step::{add_extension, pop, push, set_extension, set_file_name};
use std::alloc::{AllocError, Global};
use std::error::Error;
use std::fmt;
use unix_bytes::bytes::UnixStr;
use unix_path::{ExtensionError, Path, PathBuf};

/// One edit of a path, with the bytes that it needs.
///
/// Each variant represents the `PathBuf` method of the same name. Two pushes are equal if their
/// paths are equal. Other edits are equal if they are of the same variant and have the same bytes.
/// Copying an edit copies views, not bytes.
///
/// `Edit::Push(path)` joins `path` to the edited path.
#[derive(Clone, Copy, Debug, PartialEq, Eq)]
pub enum Edit<'a> {
    /// Joins a path to the edited path. A rooted path replaces the edited path.
    Push(Path<'a>),
    /// Removes the last component, unless it is the root.
    Pop,
    /// Replaces the file name. If the path has none, joins the name to the path.
    SetFileName(UnixStr<'a>),
    /// Replaces the extension of the file name, or adds one if there is none. An empty extension
    /// removes it.
    SetExtension(UnixStr<'a>),
    /// Appends a dot and the extension to the file name. An empty extension changes nothing.
    AddExtension(UnixStr<'a>),
    /// Removes all bytes, which leaves the empty path.
    Clear,
}

/// The answer of one edit.
///
/// The answer of a pop of `/` is `Flag(false)`, and the answer of setting the extension `x/y` is
/// `Separator`.
#[derive(Clone, Copy, Debug, PartialEq, Eq)]
pub enum Answer {
    /// Nothing to report: an edit of this kind always takes effect.
    Plain,
    /// True if the path had what the edit requires: a parent for a pop, a file name for an
    /// extension. It can be true even if the edit changes no byte.
    Flag(bool),
    /// The extension contains a `/`. The path is unchanged.
    Separator,
}

/// The error of [`apply`] when an allocation fails. An edit whose answer is `Separator` has not
/// failed, and the edits after it are made. The error is printed as `out of memory`, formatted like
/// a `str` (width, precision, fill and alignment).
///
/// `ApplyError { done: 1 }` says that the first edit was made, and that the second one failed.
#[derive(Debug, Drop)]
pub struct ApplyError {
    /// The number of edits made before the one that failed.
    pub done: usize,
}

/// Writes `out of memory`, formatted like a `str` (width, precision, fill and alignment).
impl fmt::Display for ApplyError {
    ghost output = { λ error. Some (codes "out of memory") };

    ghost styled_output = { λ error spec. Some (padded spec (codes "out of memory")) };

    fn fmt<W: fmt::Write>(&self, f: &mut fmt::Formatter<W>) -> fmt::Result {
        f.pad("out of memory")
    }
}

impl Error for ApplyError {}

// Turns the result of setting or adding an extension into an answer. Returns the error if an
// allocation failed.
fn extension_answer(edited: Result<bool, ExtensionError>) -> Result<Answer, AllocError>
    ensures { result_ok result ≡ extension_answer edited }
{
    match edited {
        Ok(had_target) => Ok(Answer::Flag(had_target)),
        Err(ExtensionError::Separator) => Ok(Answer::Separator),
        Err(ExtensionError::Memory(error)) => Err(error),
    }
}

// Makes one edit of a path, using and updating the cache, and returns the edit's answer.
fn apply_one(
    path: &mut PathBuf,
    cache: &mut ScanCache,
    edit: &Edit<'_>,
) -> Result<Answer, AllocError>
    requires { IsCacheOf (path_bytes path.old) cache.old }
    ensures cache { OnOk result (IsCacheOf (path_bytes path.new) cache.new) }
    ensures ok { OnOk result
        (path_bytes path.new ≡ (edit_of (path_bytes path.old) (edit_value edit.now)).0) }
    ensures value { IfOk result
        (λ answer. answer ≡ (edit_of (path_bytes path.old) (edit_value edit.now)).1) }
    ensures err { OnErr result (path_bytes path.new ≡ path_bytes path.old) }
    ensures too_long { OnErr result (capacity path.old
        < length (edit_of (path_bytes path.old) (edit_value edit.now)).0) }
    ensures capacity { capacity path.old ≤ capacity path.new }
{
    match edit {
        Edit::Push(other) => {
            push(path, cache, *other)?;
            Ok(Answer::Plain)
        }
        Edit::Pop => Ok(Answer::Flag(pop(path, cache))),
        Edit::SetFileName(name) => {
            set_file_name(path, cache, *name)?;
            Ok(Answer::Plain)
        }
        Edit::SetExtension(extension) => {
            extension_answer(set_extension(path, cache, *extension))
        }
        Edit::AddExtension(extension) => {
            extension_answer(add_extension(path, cache, *extension))
        }
        Edit::Clear => {
            path.clear();
            cache.clear();
            Ok(Answer::Plain)
        }
    }
}

/// Makes the edits one after the other, and returns the answer of each.
///
/// Allocates once for all answers, before the first edit. Then each edit allocates like the
/// `PathBuf` method of the same name, except that an edit of the extension may leave spare
/// capacity. An empty list allocates nothing, and succeeds. If an allocation fails, the edits
/// before the failing one have been made, and the error contains their number: 0 if the answers
/// could not be allocated, or if the first edit failed. An edit after the first fails only if it
/// makes the path longer, and longer than the capacity that the path had at the call, which never
/// shrinks. An edit whose extension contains a `/` does not fail: it leaves the bytes unchanged,
/// its answer is `Separator`, and the next edit is made. The time is linear in the number of edits
/// plus the lengths of their bytes, of the path and of the result.
///
/// On `foo/.`, setting the extension `bar` and then two pops leave the empty path. The answers are
/// true, true and false.
pub fn apply(
    alloc: Global,
    path: &mut PathBuf,
    edits: &[Edit<'_>],
) -> Result<Vec<Answer>, ApplyError>
    ensures ok { OnOk result
        (path_bytes path.new ≡ (edits_of (path_bytes path.old) (map edit_value edits.now)).0) }
    ensures value { IfOk result
        (λ answers. answers.items ≡ (edits_of (path_bytes path.old) (map edit_value edits.now)).1) }
    ensures err { IfErr result
        (λ e. path_bytes path.new
        ≡ (edits_of (path_bytes path.old) (map edit_value (take e.done edits.now))).0) }
    ensures done { IfErr result (λ e. e.done < length edits.now) }
    ensures succeeds { edits.now ≡ [] → IsOk result }
    ensures refused { IfErr result
        (λ e. 0 < e.done → MatchOption (slice_get edits.now e.done) ⊥
        (λ edit. length (path_bytes path.new)
        < length (edit_of (path_bytes path.new) (edit_value edit)).0)) }
    ensures too_long { IfErr result
        (λ e. 0 < e.done → MatchOption (slice_get edits.now e.done) ⊥
        (λ edit. capacity path.old
        < length (edit_of (path_bytes path.new) (edit_value edit)).0)) }
    ensures capacity { capacity path.old ≤ capacity path.new }
{
    let mut answers = match Vec::with_capacity(alloc, edits.len()) {
        Ok(answers) => answers,
        Err(_) => return Err(ApplyError { done: 0 }),
    };
    let mut cache = ScanCache::new();
    for (done, edit) in edits.iter().enumerate() {
        match apply_one(path, &mut cache, edit) {
            Ok(answer) => answers.push_reserved(answer),
            Err(_) => return Err(ApplyError { done }),
        }
    }
    Ok(answers)
}

/// Returns `base` joined with what follows it in `path`, or `None` if `path` doesn't start with
/// `base`.
///
/// The path returned has the same components as `path`. Makes one allocation, exactly as long as
/// the result, and fails if the allocation fails. If the result is `None` or empty, does not
/// allocate, and succeeds. Works like `Path::strip_prefix` and then `Path::join` in Rust's std.
///
/// For the path `/a//b/.` and the base `/a/` it is `/a/b`, and for the path `a` and the base `a` it
/// is `a/`.
#[tactic(auto, using(crate::proofs::lemmas::joins::StripLemmas::strip_then_join))]
pub fn rejoin(alloc: Global, path: Path<'_>, base: Path<'_>) -> Result<Option<PathBuf>, AllocError>
    ensures ok { IfOk result (λ found. IsSome found
        ↔ IsPrefixOf (values base.entry.bytes.now) (values path.entry.bytes.now)) }
    ensures value { IfOk result (λ found. IfSome found
        (λ p. path_bytes p ≡ join_of base.entry.bytes.now
        (stripped_of path.entry.bytes.now base.entry.bytes.now))) }
    ensures same { IfOk result (λ found. IfSome found
        (λ p. SameValues (path_bytes p) path.entry.bytes.now)) }
    ensures succeeds { ¬ IsPrefixOf (values base.entry.bytes.now) (values path.entry.bytes.now)
        → IsOk result }
    ensures succeeds_empty { join_of base.entry.bytes.now
        (stripped_of path.entry.bytes.now base.entry.bytes.now) ≡ [] → IsOk result }
{
    let Ok(rest) = path.strip_prefix(base) else {
        return Ok(None);
    };
    let joined = base.join(alloc, rest)?;
    Ok(Some(joined))
}
