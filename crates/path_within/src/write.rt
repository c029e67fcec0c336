//! Resolved paths and joins, written from the last byte to the first into memory of their length.
ghost use Rattle.std.specs.Prelude.{◌≡◌, ◌<◌, ◌≤◌, ◌+◌, ◌-◌, ◌^◌, ◌∷◌, ◌++◌, ℕ, true, false};
ghost use Rattle.std.specs.Prelude.{[], drop, length, min, replicate, IfOk, IsOk, IsTrue};
ghost use Rattle.unix_path.specs.Buffers.{path_bytes};
ghost use Rattle.unix_path.specs.Parts.{ParentDir, is_rooted, slash, values};
ghost use Rattle.path_runs.specs.Buffer.{buffer_after};
ghost use Rattle.path_runs.specs.Spelling.{slash_each, slashed_bytes, spelling_of};
ghost use Rattle.path_within.specs.Backward.{last_names};
ghost use Rattle.path_within.specs.Below.{below_of, names_below};
ghost use Rattle.path_within.specs.Resolved.{resolved_of};
ghost use Rattle.path_within.specs.NamePieces.{has_only_name_pieces};
ghost use Rattle.path_within.specs.WrittenBytes.{slashed_len};

use crate::backward::{
    count_resolved, put_before, put_names_before, put_parent_dirs_before, without_filler,
};
use crate::names_only::is_names_only;
use std::alloc::{AllocError, Global};
use unix_bytes::bytes::UnixString;
use unix_bytes::internal::write_at;
use unix_path::internal::{after_filler, needs_no_separator};
use unix_path::{Path, PathBuf};

// The last names that remain of a path after it is resolved.
#[derive(Clone, Copy)]
pub(crate) struct Names<'a> {
    path: Path<'a>,
    // An upper bound on the number of names.
    count: usize,
    // The length of the names, with a slash for each.
    pub(crate) len: usize,
    // True only if the path's bytes are these names, with single slashes between them. A join then
    // copies the path as a whole.
    is_verbatim: bool,
    ghost len_is: { len ≡ slashed_len (last_names count (values path.bytes.now)) },
    ghost fits: { len ≤ 2 ^ 63 },
    ghost verbatim: { IsTrue is_verbatim → has_only_name_pieces path.bytes.now ≡ true },
    ghost all: { IsTrue is_verbatim → length path.bytes.now < count },
}

// Returns the path without its root or leading `.`, and without filler at both ends.
#[inline]
fn trimmed(path: Path<'_>) -> Path<'_>
    ensures rootless { is_rooted result.bytes.now ≡ false }
    ensures names { names_below (values result.bytes.now)
        ≡ names_below (values path.entry.bytes.now) }
    ensures resolved { is_rooted path.entry.bytes.now ≡ false
        → resolved_of (values result.bytes.now) ≡ resolved_of (values path.entry.bytes.now) }
{
    Path::from_bytes(after_filler(without_filler(path).bytes))
}

impl<'a> Names<'a> {
    ghost use Rattle.path_within.specs.Layouts.{names_in};

    // Returns an empty list of names.
    #[inline]
    pub(crate) fn none() -> Names<'a>
        ensures { names_in result ≡ [] }
    {
        Names {
            path: Path::from_bytes(b""),
            count: 0,
            len: 0,
            is_verbatim: false,
        }
    }

    // Returns the names of a path whose bytes are just these names, with single slashes between
    // them.
    #[inline]
    fn verbatim(path: Path<'a>) -> Names<'a>
        requires { has_only_name_pieces path.bytes.now ≡ true }
        ensures { names_in result ≡ names_below (values path.entry.bytes.now) }
    {
        Names {
            path,
            count: usize::MAX,
            len: 1 + path.bytes.len(),
            is_verbatim: true,
        }
    }

    // Returns the last `count` names that remain of a path after it is resolved, or all if there
    // are fewer. `len` is the length of these names, with a slash for each.
    #[inline]
    #[tactic(auto, using(crate::proofs::lemmas::backward::LayoutLemmas::last_names_fit))]
    pub(crate) fn last(path: Path<'a>, count: usize, len: usize) -> Names<'a>
        requires { len ≡ slashed_len (last_names count (values path.bytes.now)) }
        ensures { names_in result ≡ last_names count (values path.entry.bytes.now) }
    {
        Names {
            path,
            count,
            len,
            is_verbatim: false,
        }
    }

    // Overwrites the bytes before `end` with the names, each after a slash. Returns the index of
    // the first of these slashes, or `end` if there are no names. Both indices count an imaginary
    // slash before `out`: it is at index 0, and the first byte of `out` is at index 1.
    #[inline(always)]
    #[tactic(auto, using(crate::proofs::lemmas::backward::LayoutLemmas::names_put_before_cases))]
    pub(crate) fn put_before(&self, out: &mut [u8], end: usize) -> usize
        requires in_range { end ≤ 1 + length out.old }
        requires space { self.now.len ≤ end }
        ensures size { result + slashed_len (names_in self.now) ≡ end }
        ensures bytes { drop result (slash ∷ out.new)
            ≡ slash_each (names_in self.now) ++ drop end (slash ∷ out.old) }
    {
        if self.is_verbatim {
            return put_before(out, end, self.path.bytes);
        }
        if self.len == 0 {
            return end;
        }
        put_names_before(out, end, self.path, self.count)
    }

    // Returns the length of the join of `root` and these names.
    #[inline]
    #[tactic(auto, using(crate::proofs::lemmas::backward::JoinedLemmas::names_joined_len_cases))]
    fn joined_len(&self, root: &[u8]) -> usize
        ensures { result ≡ length (below_of root.now (names_in self.now)) }
    {
        if self.len == 0 {
            return root.len();
        }
        root.len() + self.len - usize::from(needs_no_separator(root))
    }

    // Fills `out` with the join of `root` and these names. `out` has the length of the join.
    #[inline]
    fn fill_join(&self, root: &[u8], out: &mut [u8])
        requires { length out.old ≡ length (below_of root.now (names_in self.now)) }
        ensures { out.new ≡ below_of root.now (names_in self.now) }
    {
        // This writes a slash before the first name too. It may be the root's last byte.
        self.put_before(out, 1 + out.len());
        write_at(out, 0, root);
    }

    // Writes the join of `root` and these names to the beginning of `out` if all of the join fits.
    // Returns the length of the join either way.
    #[inline(always)]
    pub(crate) fn write_join(&self, root: &[u8], out: &mut [u8]) -> usize
        ensures out { out.new ≡ buffer_after (below_of root.now (names_in self.now)) out.old }
        ensures length { result ≡ length (below_of root.now (names_in self.now)) }
    {
        let len = self.joined_len(root);
        if len <= out.len() {
            self.fill_join(root, &mut out[..len]);
        }
        len
    }
}

// The layout of a resolved path: either the root or zero or more `..`, and then zero or more names.
#[derive(Clone, Copy)]
pub(crate) struct Layout<'a> {
    has_root: bool,
    // The number of `..`. Ignored if there is a root.
    parent_dirs: usize,
    names: Names<'a>,
    // More names, after `names`.
    more: Names<'a>,
}

impl<'a> Layout<'a> {
    ghost use Rattle.path_within.specs.Layouts.{layout_names, layout_values, names_in};

    // Returns the layout that has `..` `parent_dirs` times, and then these names.
    #[inline]
    pub(crate) fn after_parent_dirs(parent_dirs: usize, names: Names<'a>) -> Layout<'a>
        ensures { layout_values result ≡ replicate parent_dirs ParentDir ++ names_in names.entry }
    {
        Layout {
            has_root: false,
            parent_dirs,
            names,
            more: Names::none(),
        }
    }

    // Returns the layout of a path after it is resolved.
    #[inline(always)]
    pub(crate) fn of(path: Path<'a>) -> Layout<'a>
        ensures values { layout_values result ≡ resolved_of (values path.entry.bytes.now) }
        ensures names { names_in result.names ≡ names_below (values path.entry.bytes.now) }
        ensures more { names_in result.more ≡ [] }
    {
        let has_root = path.has_root();
        let trimmed_path = trimmed(path);
        if is_names_only(trimmed_path) {
            return Layout {
                has_root,
                parent_dirs: 0,
                names: Names::verbatim(trimmed_path),
                more: Names::none(),
            };
        }
        let counts = count_resolved(path);
        Layout {
            has_root,
            parent_dirs: counts.parent_dirs,
            names: Names::last(path, counts.names, counts.len),
            more: Names::none(),
        }
    }

    // Resolves a path, and returns its names. Not inlined, so that its callers stay small. They
    // rarely call it, because the bytes of most paths are their names.
    #[inline(never)]
    pub(crate) fn resolve_names(path: Path<'a>) -> Names<'a>
        ensures { names_in result ≡ names_below (values path.entry.bytes.now) }
    {
        Layout::of(path).names
    }

    // Returns the names that remain of a path after it is resolved. If `are_verbatim` is true, the
    // path's bytes are these names, with single slashes between them.
    #[inline]
    pub(crate) fn names_of(path: Path<'a>, are_verbatim: bool) -> Names<'a>
        requires { IsTrue are_verbatim → has_only_name_pieces path.bytes.now ≡ true }
        ensures { names_in result ≡ names_below (values path.entry.bytes.now) }
    {
        if are_verbatim {
            return Names::verbatim(path);
        }
        Layout::resolve_names(path)
    }

    // Returns this layout with more names at its end. The layout's `more` has to be empty before.
    #[inline]
    pub(crate) fn with(self, more: Names<'a>) -> Layout<'a>
        requires { names_in self.more ≡ [] }
        ensures { layout_values result ≡ layout_values self.entry ++ names_in more.entry }
    {
        Layout { more, ..self }
    }

    // Returns the length of the resolved path, or `usize::MAX` if the length is greater than that.
    #[inline(always)]
    #[tactic(auto, using(crate::proofs::lemmas::backward::LayoutLemmas::layout_len_cases))]
    pub(crate) fn len(&self) -> usize
        ensures { result ≡ min (2 ^ 64 - 1) (length (spelling_of (layout_values self.now))) }
    {
        let (names_len, more_len) = (self.names.len, self.more.len);
        if self.has_root {
            return names_len.saturating_add(more_len).max(1);
        }
        if self.parent_dirs > 0 {
            let parent_dirs_len = (self.parent_dirs - 1).saturating_mul(3).saturating_add(2);
            return parent_dirs_len
                .saturating_add(names_len)
                .saturating_add(more_len);
        }
        if names_len > 0 {
            return (names_len - 1).saturating_add(more_len);
        }
        more_len.saturating_sub(1)
    }

    // Fills `out` with all of the path except its root: the names at the end of `out`, and as many
    // `..` as fit before the names.
    #[inline(always)]
    fn fill_after_root(&self, out: &mut [u8])
        requires { self.now.names.len + self.now.more.len ≤ 1 + length out.old }
        ensures { (n : ℕ) →
            let vs = replicate n ParentDir ++ layout_names self.now in
            length out.old ≡ length (slashed_bytes vs) → out.new ≡ slashed_bytes vs }
    {
        let end = self.more.put_before(out, 1 + out.len());
        let end = self.names.put_before(out, end);
        put_parent_dirs_before(out, end);
    }

    // Fills `out` with the resolved path. `out` has the length of the path.
    #[inline(always)]
    pub(crate) fn fill(&self, out: &mut [u8])
        requires { length out.old ≡ length (spelling_of (layout_values self.now)) }
        ensures { out.new ≡ spelling_of (layout_values self.now) }
    {
        if self.has_root {
            self.fill_after_root(&mut out[1..]);
            out[0] = b'/';
        } else {
            self.fill_after_root(out);
        }
    }

    // Writes the resolved path to the beginning of `out` if all of the path fits. Returns the
    // length of the path either way, or `usize::MAX` if the length is greater than that.
    #[inline(always)]
    pub(crate) fn write(&self, out: &mut [u8]) -> usize
        ensures out { out.new ≡ buffer_after (spelling_of (layout_values self.now)) out.old }
        ensures length { result
            ≡ min (2 ^ 64 - 1) (length (spelling_of (layout_values self.now))) }
    {
        let len = self.len();
        if len <= out.len() {
            self.fill(&mut out[..len]);
        }
        len
    }

    // Returns the resolved path. Allocates once, as many bytes as the path has, and nothing for the
    // empty path.
    pub(crate) fn to_path_buf(&self, alloc: Global) -> Result<PathBuf, AllocError>
        ensures bytes { IfOk result (λ p.
            path_bytes p ≡ spelling_of (layout_values self.now)) }
        ensures succeeds { spelling_of (layout_values self.now) ≡ [] → IsOk result }
    {
        let len = self.len();
        if len == 0 {
            return Ok(PathBuf::new(alloc));
        }
        let mut bytes = vec![in alloc; 0_u8; len]?;
        self.fill(bytes.as_mut_slice());
        Ok(PathBuf::from(UnixString::from(bytes)))
    }
}
