//! Resolves a path from its last component to its first, without allocating.
ghost use Rattle.std.specs.Prelude.{◌≡◌, ◌≤◌, ◌<◌, ◌+◌, ◌*◌, ◌^◌, ◌∷◌, ◌++◌, ℕ, length, drop};
ghost use Rattle.std.specs.Prelude.{[], false, replicate, None, IfSome};
ghost use Rattle.unix_path.specs.Parts.{ParentDir, is_rooted, slash, values, SameValues};
ghost use Rattle.path_within.specs.Backward.{last_names, piece_value, remaining_parent_dirs};
ghost use Rattle.path_runs.specs.Spelling.{slash_each};
ghost use Rattle.path_within.specs.Backward.{Takes};
ghost use Rattle.path_within.specs.Below.{names_below};
ghost use Rattle.path_within.specs.WrittenBytes.{slashed_len};

use unix_bytes::bytes::UnixStr;
use unix_bytes::internal::{after_last, write_at};
use unix_path::Path;

// Returns the path without the filler after its last component. A path that ends in neither a slash
// nor a dot has no such filler, so it is not parsed.
#[inline]
pub(crate) fn without_filler(path: Path<'_>) -> Path<'_>
    ensures { SameValues result.bytes.now path.entry.bytes.now }
{
    if matches!(path.bytes.last(), Some(b'/' | b'.')) {
        return path.components().as_path();
    }
    path
}

// The pieces of a path that have not been taken: none if `is_exhausted`, and otherwise the pieces
// of `rest`.
#[derive(Clone, Copy)]
pub(crate) struct Pieces<'a> {
    rest: &'a [u8],
    // True after the first piece was taken.
    is_exhausted: bool,
}

impl<'a> Pieces<'a> {
    ghost use Rattle.path_within.specs.Pieces.{remaining_values};

    // Returns the pieces of a path, without trailing filler. Resolving these pieces leaves the same
    // names as resolving the path and, if the path has no root, the same number of `..`.
    #[inline(always)]
    #[tactic(auto, using(crate::proofs::lemmas::backward::PieceLemmas::pieces_new_cases))]
    pub(crate) fn new(path: Path<'a>) -> Pieces<'a>
        ensures names { names_below (remaining_values result)
            ≡ names_below (values path.entry.bytes.now) }
        ensures parent_dirs { is_rooted path.entry.bytes.now ≡ false
            → remaining_parent_dirs (remaining_values result)
            ≡ remaining_parent_dirs (values path.entry.bytes.now) }
        ensures few { length (remaining_values result) < 2 ^ 64 }
    {
        Pieces {
            rest: without_filler(path).bytes,
            is_exhausted: false,
        }
    }

    // Takes the last remaining piece and returns its bytes, or returns `None` if no piece remains.
    // Always inlined, so that a loop over the names keeps the fields of `self` in registers.
    #[inline(always)]
    #[tactic(auto, using(crate::proofs::lemmas::backward::PieceLemmas::pieces_next_back_cases))]
    fn next_back(&mut self) -> Option<&'a [u8]>
        ensures none { result ≡ None → remaining_values self.old ≡ [] }
        ensures some { IfSome result (λ bytes. remaining_values self.old
            ≡ remaining_values self.new ++ piece_value bytes.now ∷ []) }
    {
        if self.is_exhausted {
            return None;
        }
        let bytes = self.rest;
        let start = after_last(bytes, b'/');
        self.rest = &bytes[..start.saturating_sub(1)];
        self.is_exhausted = start == 0;
        Some(&bytes[start..])
    }

    // Takes the last name that remains after resolving, together with all pieces after this name,
    // and returns the name. If no name remains, returns the number of `..` that remain. Always
    // inlined, for the same reason as `next_back`.
    #[inline(always)]
    pub(crate) fn next_back_resolved(&mut self) -> LastResolved<'a>
        requires { length (remaining_values self.old) < 2 ^ 64 }
        ensures { Takes result (remaining_values self.old) (remaining_values self.new) }
    {
        // The number of `..` that have been taken and have not dropped a name yet.
        let mut parent_dirs = 0_usize;
        while let Some(bytes) = self.next_back() {
            match bytes {
                [] | [b'.'] => {}
                [b'.', b'.'] => parent_dirs += 1,
                _ if parent_dirs == 0 => return LastResolved::Name(UnixStr::from_bytes(bytes)),
                _ => parent_dirs -= 1,
            }
        }
        LastResolved::ParentDirs(parent_dirs)
    }
}

// The last name of a resolved path or, if it has no name, the number of its `..`.
#[derive(Clone, Copy)]
pub(crate) enum LastResolved<'a> {
    // A name.
    Name(UnixStr<'a>),
    // The path has no name, and this many `..`.
    ParentDirs(usize),
}

// The numbers of components of a resolved path, except its root.
#[derive(Clone, Copy)]
pub(crate) struct Counts {
    // The number of `..`.
    pub(crate) parent_dirs: usize,
    // The number of names.
    pub(crate) names: usize,
    // The length of the names, with a slash for each.
    pub(crate) len: usize,
}

// Counts the `..` and the names that remain of the path after it is resolved.
#[tactic(auto, using(crate::proofs::lemmas::backward::LayoutLemmas::count_resolved_cases))]
pub(crate) fn count_resolved(path: Path<'_>) -> Counts
    ensures parent_dirs { result.parent_dirs ≡ remaining_parent_dirs (values path.entry.bytes.now) }
    ensures names { result.names ≡ length (names_below (values path.entry.bytes.now)) }
    ensures len { result.len ≡ slashed_len (names_below (values path.entry.bytes.now)) }
    ensures fits { result.len ≤ 1 + length path.entry.bytes.now }
{
    let mut rest = Pieces::new(path);
    let mut names = 0_usize;
    let mut len = 0_usize;
    loop {
        match rest.next_back_resolved() {
            LastResolved::Name(name) => {
                names += 1;
                len += 1 + name.bytes.len();
            }
            LastResolved::ParentDirs(parent_dirs) => {
                let parent_dirs = if path.has_root() { 0 } else { parent_dirs };
                return Counts {
                    parent_dirs,
                    names,
                    len,
                };
            }
        }
    }
}

// Overwrites the bytes before `end` with a slash and the name. Returns the index of the slash. Both
// indices count an imaginary slash before `out`: it is at index 0, and the first byte of `out` is
// at index 1. If the name is written to the beginning of `out`, its slash is the imaginary one.
#[inline]
pub(crate) fn put_before(out: &mut [u8], end: usize, name: &[u8]) -> usize
    requires in_range { end ≤ 1 + length out.old }
    requires space { 1 + length name.now ≤ end }
    ensures start { result + (1 + length name.now) ≡ end }
    ensures bytes { drop result (slash ∷ out.new) ≡ slash ∷ name.now ++ drop end (slash ∷ out.old) }
{
    let start = end - 1 - name.len();
    write_at(out, start, name);
    if start == 0 {
        return 0;
    }
    out[start - 1] = b'/';
    start
}

// Overwrites the bytes before `end` with the last `count` names that remain of the path after it is
// resolved, each after a slash. If fewer names remain, writes all of them. Returns the index of the
// first of these slashes, or `end` if there are none. Indices are counted as in `put_before`.
#[inline(never)]
pub(crate) fn put_names_before(out: &mut [u8], end: usize, path: Path<'_>, count: usize) -> usize
    requires in_range { end ≤ 1 + length out.old }
    requires space { slashed_len (last_names count (values path.bytes.now)) ≤ end }
    ensures size { result + slashed_len (last_names count (values path.entry.bytes.now)) ≡ end }
    ensures bytes { drop result (slash ∷ out.new)
        ≡ slash_each (last_names count (values path.entry.bytes.now))
        ++ drop end (slash ∷ out.old) }
{
    let mut end = end;
    let mut remaining = count;
    let mut rest = Pieces::new(path);
    while remaining > 0 {
        let LastResolved::Name(name) = rest.next_back_resolved() else {
            return end;
        };
        end = put_before(out, end, name.bytes);
        remaining -= 1;
    }
    end
}

// Overwrites the bytes before `end` with as many `..` as fit, each after a slash. `end` is counted
// as in `put_before`.
pub(crate) fn put_parent_dirs_before(out: &mut [u8], end: usize)
    requires { end ≤ 1 + length out.old }
    ensures { (n : ℕ) → end ≡ 3 * n
        → slash ∷ out.new ≡ slash_each (replicate n ParentDir) ++ drop end (slash ∷ out.old) }
{
    let mut end = end;
    while end >= 3 {
        end = put_before(out, end, b"..");
    }
}
