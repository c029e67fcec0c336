//! Where results are in memory, as a caller can prove, and how long they live.
ghost use Rattle.std.specs.Prelude.{◌≡◌, length, IfSome};
ghost use Rattle.unix_path.specs.Slices.{EndsAt, LiesIn, memory_offset};
ghost use Rattle.unix_path.specs.Rest.{rest};

use super::answers::assert_each;
use super::views::{is_path, path, view};
use unix_bytes::bytes::UnixStr;
use unix_path::{Ancestors, Component, Path};

// Returns the parent of the parent of `path`: a slice of the memory of `path` that begins where
// `path` begins.
fn grandparent<'a>(path: Path<'a>) -> Option<Path<'a>>
    ensures inside { IfSome result (λ p. LiesIn p.bytes path.entry.bytes) }
    ensures start { IfSome result (λ p. memory_offset p.bytes ≡ memory_offset path.entry.bytes) }
{
    let Some(parent) = path.parent() else {
        return None;
    };
    parent.parent()
}

// Returns the second ancestor of `path`, which begins at the address of `path`.
fn second_ancestor<'a>(path: Path<'a>) -> Option<Path<'a>>
    ensures { IfSome result (λ p. p.bytes.ref_ptr ≡ path.entry.bytes.ref_ptr) }
{
    let mut walk = path.ancestors();
    let _itself = walk.next();
    walk.next()
}

// Returns the rest of `path` after `base`: a slice of the memory of `path` that ends where the last
// component of `path` ends.
fn left_behind<'a>(path: Path<'a>, base: Path<'_>) -> Option<Path<'a>>
    ensures inside { IfSome result (λ p. LiesIn p.bytes path.entry.bytes) }
    ensures end { IfSome result (λ p.
        EndsAt p.bytes path.entry.bytes (length (rest path.entry.bytes.now 0 0))) }
{
    match path.strip_prefix(base) {
        Ok(left) => Some(left),
        Err(_) => None,
    }
}

// Returns the rest of a walk over `path` that took the last component. This rest begins where
// `path` begins.
fn before_last<'a>(path: Path<'a>) -> Path<'a>
    ensures { memory_offset result.bytes ≡ memory_offset path.entry.bytes }
{
    let mut parts = path.components();
    let _last = parts.next_back();
    parts.as_path()
}

// Returns a new view of the bytes of `path`, in the same memory.
fn viewed_anew<'a>(path: Path<'a>) -> Path<'a>
    ensures { result.bytes ≡ path.entry.bytes }
{
    Path::new(UnixStr::from_bytes(path.as_unix_str().as_bytes()))
}

#[test]
fn answers_lie_in_the_path(rt: HostRuntime) {
    assert_each(
        &rt,
        &[
            is_path(grandparent(path("/a//b/c")), Some("/a")),
            is_path(grandparent(path("a/b")), Some("")),
            is_path(grandparent(path("/a")), None),
            is_path(second_ancestor(path("a//b")), Some("a")),
            is_path(second_ancestor(path("a")), Some("")),
            is_path(second_ancestor(path("/")), None),
            is_path(left_behind(path("/a//b/"), path("/a")), Some("b")),
            is_path(left_behind(path("a/"), path("a")), Some("")),
            is_path(left_behind(path("a"), path("b")), None),
            is_path(Some(before_last(path("a//b"))), Some("a")),
            is_path(Some(viewed_anew(path("a//b"))), Some("a//b")),
        ],
    );
}

// Results of calls on a path. Each result outlives the view that returned it, and `left` outlives
// the base that was passed.
#[derive(Drop)]
struct Answers<'a> {
    parent: Option<Path<'a>>,
    name: Option<UnixStr<'a>>,
    stem: Option<UnixStr<'a>>,
    extension: Option<UnixStr<'a>>,
    left: Option<Path<'a>>,
    ancestors: Ancestors<'a>,
    first: Option<Component<'a>>,
    rest: Path<'a>,
}

// Returns the results for a view that exists only during this call.
fn ask<'a>(text: &'a str) -> Answers<'a> {
    let p = path(text);
    let mut walk = p.components();
    let first = walk.next();
    Answers {
        parent: p.parent(),
        name: p.file_name(),
        stem: p.file_stem(),
        extension: p.extension(),
        left: left_behind(p, path("a")),
        ancestors: p.ancestors(),
        first,
        rest: walk.as_path(),
    }
}

// Returns true if `kept` has the names that are expected for `a//b.c/.`.
fn are_names(kept: &Answers<'_>) -> bool {
    kept.name == view(Some("b.c"))
        && kept.stem == view(Some("b"))
        && kept.extension == view(Some("c"))
        && kept.first == Some(Component::Normal(UnixStr::new("a")))
}

// Returns true if `kept` has the paths that are expected for `a//b.c/.`.
fn are_paths(kept: &Answers<'_>) -> bool {
    is_path(kept.parent, Some("a"))
        && is_path(kept.left, Some("b.c"))
        && is_path(Some(kept.rest), Some("b.c"))
}

#[test]
fn answers_outlive_the_view(rt: HostRuntime) {
    let kept = ask("a//b.c/.");
    let mut ancestors = kept.ancestors;
    assert_each(
        &rt,
        &[
            are_names(&kept),
            are_paths(&kept),
            is_path(ancestors.next(), Some("a//b.c/.")),
            is_path(ancestors.next(), Some("a")),
        ],
    );
}
