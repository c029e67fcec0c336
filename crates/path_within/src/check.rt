//! Tests of a path from outside: whether it escapes, has a `..`, or has a NUL.
ghost use Rattle.std.specs.Prelude.{◌≡◌, ◌↔◌, false, true, IsTrue};
ghost use Rattle.unix_path.specs.Parts.{values};
ghost use Rattle.path_within.specs.Below.{has_nul};
ghost use Rattle.path_within.specs.Escapes.{Escapes, has_root_or_parent_dir};
ghost use Rattle.path_within.specs.NamePieces.{is_names_only};
ghost use Rattle.path_within.specs.declared.check.Check.TheVariants.{NamesOnly, Refused};

use crate::names_only::is_names_only;
use unix_bytes::internal::find_byte;
use unix_path::{Component, Path};

// The result of a test of a path from outside.
#[derive(Clone, Copy)]
pub(crate) enum Check {
    // The path fails the test.
    Refused,
    // The path passes, and is one of names only (see the module `names_only`).
    NamesOnly,
    // The path passes. It may or may not be one of names only.
    Accepted,
}

impl Check {
    ghost use Rattle.path_within.specs.declared.check.Check.TheVariants.{NamesOnly, Refused};

    #[inline]
    pub(crate) fn is_refused(self) -> bool
        ensures { IsTrue result ↔ (self ≡ Refused) }
    {
        matches!(self, Check::Refused)
    }

    #[inline]
    pub(crate) fn is_names_only(self) -> bool
        ensures { IsTrue result ↔ (self ≡ NamesOnly) }
    {
        matches!(self, Check::NamesOnly)
    }
}

/// Returns true if the bytes contain a NUL byte, at which a system call ends a path.
///
/// Reads 16 bytes at a time.
///
/// It is true for `a\0.png`, and false for `a%00.png`.
#[must_use]
#[inline]
#[tactic(auto, using(crate::proofs::lemmas::below::NamesBelowLemmas::has_nul_cases))]
pub fn has_nul(bytes: &[u8]) -> bool
    ensures { result ≡ has_nul bytes.now }
{
    find_byte(bytes, 0) < bytes.len()
}

// Returns true if the path escapes. Visits the path's components one by one.
#[tactic(auto, using(crate::proofs::lemmas::stack::EscapeLemmas::escapes_by_components_cases))]
fn escapes_by_components(path: Path<'_>) -> bool
    ensures { IsTrue result ↔ Escapes (values path.entry.bytes.now) }
{
    let mut depth = 0_usize;
    for part in path.components() {
        match part {
            Component::Normal(_) => depth += 1,
            Component::ParentDir if depth == 0 => return true,
            Component::ParentDir => depth -= 1,
            Component::CurDir => {}
            Component::RootDir => return true,
        }
    }
    false
}

// Tests whether the path escapes. A path that consists of names only is accepted without a walk.
#[tactic(auto, using(crate::proofs::lemmas::names_only::RequestLemmas::names_only_stays))]
pub(crate) fn check_escape(path: Path<'_>) -> Check
    ensures refused { result ≡ Refused ↔ Escapes (values path.entry.bytes.now) }
    ensures names_only { result ≡ NamesOnly → is_names_only path.entry.bytes.now ≡ true }
{
    if path.has_root() {
        return Check::Refused;
    }
    if is_names_only(path) {
        return Check::NamesOnly;
    }
    if escapes_by_components(path) {
        return Check::Refused;
    }
    Check::Accepted
}

// Tests whether the path has a root or a `..`. A path that consists of names only is accepted
// without a walk. Always inlined, like its caller, so that a join is one function.
#[inline(always)]
pub(crate) fn check_parent_dir(path: Path<'_>) -> Check
    ensures refused { result ≡ Refused
        ↔ (has_root_or_parent_dir (values path.entry.bytes.now) ≡ true) }
    ensures names_only { result ≡ NamesOnly → is_names_only path.entry.bytes.now ≡ true }
{
    if path.has_root() {
        return Check::Refused;
    }
    if is_names_only(path) {
        return Check::NamesOnly;
    }
    for part in path.components() {
        if matches!(part, Component::RootDir | Component::ParentDir) {
            return Check::Refused;
        }
    }
    Check::Accepted
}

/// Returns true if the path escapes: it has a root, or some prefix of its components has more `..`
/// than names.
///
/// Purely lexical: if a component may be a symbolic link, only the system knows where a `..` leads.
/// Go's `filepath.IsLocal` returns the opposite, except for the empty path, for which both return
/// false.
///
/// It is true for `a/../../root/x` and `/a`, and false for `a/../..foo`.
#[must_use]
pub fn escapes(path: Path<'_>) -> bool
    ensures { IsTrue result ↔ Escapes (values path.entry.bytes.now) }
{
    check_escape(path).is_refused()
}

/// Returns true if the path has a root or any `..`.
///
/// `join_verbatim` refuses such a path as a request. Lexically, any other path only goes down from
/// the root that it is joined to.
///
/// It is true for `/a` and `a/../b`, and false for `./a` and `..a`.
#[must_use]
#[inline(always)]
pub fn has_root_or_parent_dir(path: Path<'_>) -> bool
    ensures { result ≡ has_root_or_parent_dir (values path.entry.bytes.now) }
{
    check_parent_dir(path).is_refused()
}
