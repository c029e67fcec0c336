//! The walk over a path's components.
ghost use Rattle.std.specs.Prelude.{◌≡◌, ◌<◌, ◌≤◌, ◌^◌, ◌∷◌, ◌++◌, [], length, take, None};
ghost use Rattle.std.specs.Prelude.{IfSome};
ghost use Rattle.unix_path.specs.Parts.{values};
ghost use Rattle.unix_path.specs.Rest.{rest};
ghost use Rattle.unix_path.specs.Steps.{IsWalk, IsWalk-prop};
ghost use Rattle.unix_path.specs.Views.{value_of};
ghost use Rattle.unix_path.specs.Slices.{LiesIn, memory_offset};

use crate::cursor::Component;
use crate::cursor::steps::{has_lead, split_first_component, split_last_component};
use crate::filler::trimmed_len;
use crate::path::Path;
use std::fmt;
use std::iter::FusedIterator;

/// A walk over the components of a path, from both ends.
///
/// It represents the bytes that remain, from the beginning of the first component not yet yielded
/// to the end of the last component not yet yielded. Copying a walk copies no bytes, and the copy
/// advances independently. A walk that has ended yields nothing more at either end.
///
/// For `///foo///bar` it yields the root, `foo` and `bar`.
// Only this file uses the fields, so that they can be replaced. `cursor_rest` and `cursor_source`
// in specs/Cursor define what the fields represent, and contracts and proofs elsewhere describe a
// walk only with these definitions. Only `OffsetLemmas`, `CursorLemmas` and the proofs of this
// file's functions unfold `cursor_rest`.
#[must_use]
#[derive(Clone, Copy)]
pub struct Components<'a> {
    source: &'a [u8],
    // The bytes that remain are the bytes of `source` from index `start` up to `end`, exclusive.
    start: usize,
    end: usize,
    // `has_lead` is true if the source begins with the root or a leading `.`, and `lead_pending` if
    // this component remains.
    has_lead: bool,
    lead_pending: bool,
    ghost fields: { IsWalk source.now start end has_lead
        lead_pending } by { IsWalk-prop _ _ _ _ _ },
}

// The last component of a path, the index `end` where this component ends, and the index `before`
// where the component before it ends, or 0 if there is none.
#[derive(Clone, Copy)]
pub(crate) struct LastPart<'a> {
    pub(crate) before: usize,
    pub(crate) part: Component<'a>,
    pub(crate) end: usize,
}

impl<'a> Components<'a> {
    ghost use Rattle.unix_path.specs.Cursor.{cursor_rest, cursor_source, cursor_start};
    ghost use Rattle.unix_path.specs.Cursor.{cursor_values, GivesFirstPart, GivesLastPart};

    // Returns the walk over the components of a path. Trailing filler is dropped before the first
    // step: for `foo/` the walk represents `foo`.
    #[inline]
    pub(crate) fn new(path: &'a [u8]) -> Components<'a>
        ensures rest { cursor_rest result ≡ rest path.now 0 0 }
        ensures place { LiesIn (cursor_source result) path.entry }
        ensures start { cursor_start result ≡ memory_offset path.entry }
        ensures values { cursor_values result ≡ values path.now }
        ensures len { length (cursor_values result) < 2 ^ 64 }
    {
        Components::whole(path)
    }

    // Returns the walk that represents the bytes of `path` up to the end of its last component.
    #[inline]
    fn whole(path: &'a [u8]) -> Components<'a>
        ensures rest { cursor_rest result ≡ rest path.now 0 0 }
        ensures source { result.source ≡ path.entry }
        ensures start { result.start ≡ 0 }
    {
        let lead = has_lead(path);
        Components {
            source: path,
            start: 0,
            end: trimmed_len(path, 0, path.len()),
            has_lead: lead,
            lead_pending: lead,
        }
    }

    /// Returns the bytes that remain, as a slice of the path.
    ///
    /// If no bytes remain, the slice is empty. It lies at the end of the component that was yielded
    /// last if `next` yielded this component, and at its beginning if `next_back` did.
    ///
    /// For `/tmp//foo/` after one `next` it is `tmp//foo`.
    #[must_use]
    #[inline]
    #[tactic(auto, unfolding(crate::specs::Cursor::cursor_rest, crate::specs::Steps::IsWalk))]
    pub fn as_path(&self) -> Path<'a>
        ensures bytes { result.bytes.now ≡ cursor_rest self.now }
        ensures place { LiesIn result.bytes (cursor_source self.now) }
        ensures start { memory_offset result.bytes ≡ cursor_start self.now }
    {
        Path {
            bytes: &self.source[self.start..self.end],
        }
    }

    // Removes and returns the last component that remains. Always inlined, like `next`.
    #[inline(always)]
    #[tactic(auto, unfolding(crate::specs::Cursor::cursor_rest, crate::specs::Steps::IsWalk))]
    fn take_last(&mut self) -> Option<Component<'a>>
        ensures steps { GivesLastPart self.old result self.new }
        ensures source { self.new.source ≡ self.old.source }
        ensures start { self.new.start ≡ self.old.start }
    {
        let pending = self.as_path().bytes;
        if pending.is_empty() {
            return None;
        }
        let (len, last) = split_last_component(pending);
        self.end = self.start + len;
        self.lead_pending = self.lead_pending && len > 0;
        Some(last)
    }

    // Returns the last component of a path with the indices that `LastPart` explains. Always
    // inlined, so that a caller pays only for the fields that it reads.
    #[inline(always)]
    pub(crate) fn last_part(path: &'a [u8]) -> Option<LastPart<'a>>
        ensures none { result ≡ None → values path.now ≡ [] }
        ensures in_range { IfSome result (λ last. last.before ≤ length path.now) }
        ensures value { IfSome result (λ last. values path.now
            ≡ values (take last.before path.now) ++ value_of last.part ∷ []) }
        ensures before { IfSome result (λ last. take last.before path.now ≡ rest path.now 0 1) }
        ensures end { IfSome result (λ last. last.end ≡ length (rest path.now 0 0)) }
    {
        let mut walk = Components::whole(path);
        let end = walk.end;
        let Some(part) = walk.take_last() else {
            return None;
        };
        Some(LastPart {
            before: walk.end,
            part,
            end,
        })
    }
}

impl<'a> Iterator for Components<'a> {
    ghost use Rattle.std.specs.Iterator.{item_count};
    ghost use Rattle.unix_path.specs.Cursor.{cursor_values, GivesFirstPart};

    type Item = Component<'a>;

    ghost next_gives = { GivesFirstPart };

    ghost remaining = { item_count cursor_values };

    // Always inlined, so that a loop over the components keeps the walk in registers.
    #[inline(always)]
    #[tactic(auto, unfolding(crate::specs::Cursor::cursor_rest, crate::specs::Steps::IsWalk))]
    fn next(&mut self) -> Option<Component<'a>> {
        let pending = self.as_path().bytes;
        if pending.is_empty() {
            return None;
        }
        let (len, first) = split_first_component(pending, self.lead_pending);
        self.start += len;
        self.lead_pending = false;
        Some(first)
    }
}

impl<'a> DoubleEndedIterator for Components<'a> {
    ghost use Rattle.unix_path.specs.Cursor.{GivesLastPart};

    ghost next_back_gives = { GivesLastPart };

    // Always inlined, like `next`.
    #[inline(always)]
    fn next_back(&mut self) -> Option<Component<'a>> {
        self.take_last()
    }
}

impl FusedIterator for Components<'_> {}

// A walk whose debug form lists the remaining components.
#[derive(Clone, Copy)]
struct ComponentList<'a>(Components<'a>);

impl fmt::Debug for ComponentList<'_> {
    fn fmt<W: fmt::Write>(&self, f: &mut fmt::Formatter<W>) -> fmt::Result {
        f.debug_list().entries(self.0).finish()
    }
}

/// Writes the components that remain, for example `Components([RootDir, Normal("tmp")])`.
impl fmt::Debug for Components<'_> {
    fn fmt<W: fmt::Write>(&self, f: &mut fmt::Formatter<W>) -> fmt::Result {
        f.debug_tuple("Components")
            .field(&ComponentList(*self))
            .finish()
    }
}
