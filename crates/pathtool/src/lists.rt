//! Answers that are lists, with a tab between two items.
ghost use Rattle.std.specs.Prelude.{◌≡◌, ◌++◌, ◌∷◌, OnOk, List, map, reverse, if◌then◌else◌};
ghost use Rattle.std.specs.Iterator.{IsFinite, Drains};
ghost use Rattle.unix_bytes.specs.declared.bytes.UnixStr.{UnixStr};
ghost use Rattle.unix_path.specs.Parents.{ancestors_of};
ghost use Rattle.pathtool.specs.Fields.{tabs};
ghost use Rattle.pathtool.specs.Steps.{tab};
ghost use Rattle.pathtool.specs.Walks.{part_bytes};

use std::alloc::AllocError;
use unix_bytes::bytes::UnixStr;
use unix_path::{Component, Path};

// Appends an item of a list, with a tab before it unless it is the first.
fn push_item(item: &[u8], is_first: bool, answer: &mut Vec<u8>) -> Result<(), AllocError>
    ensures { OnOk result (answer.new.items
        ≡ answer.old.items ++ (if is_first then item.now else tab ∷ item.now)) }
{
    if !is_first {
        answer.push(b'\t')?;
    }
    answer.extend_from_slice(item)
}

// Appends the items, with a tab between two of them. Always inlined, since each caller has another
// type of iterator.
#[inline(always)]
pub(crate) fn push_list<'a, I: Iterator<Item = UnixStr<'a>>>(
    items: I,
    answer: &mut Vec<u8>,
) -> Result<(), AllocError>
    requires can { I.can_next items }
    requires ends { IsFinite (I.remaining items) }
    ensures { OnOk result ((xs : List UnixStr) × Drains I.next_gives items xs
        × (answer.new.items ≡ answer.old.items ++ tabs (map (λ name. name.bytes.now) xs))) }
{
    let mut is_first = true;
    for item in items {
        push_item(item.as_bytes(), is_first, answer)?;
        is_first = false;
    }
    Ok(())
}

/// Appends the path's components to `answer`, as a list.
///
/// For `a//b` appends `a`, a tab and `b`.
pub fn push_parts(path: Path<'_>, answer: &mut Vec<u8>) -> Result<(), AllocError>
    ensures { OnOk result (answer.new.items
        ≡ answer.old.items ++ tabs (part_bytes path.entry.bytes.now)) }
{
    push_list(path.components().map(Component::as_unix_str), answer)
}

/// Appends the path's components to `answer`, as a list with the last component first.
///
/// For `a//b` appends `b`, a tab and `a`.
pub fn push_parts_reversed(path: Path<'_>, answer: &mut Vec<u8>) -> Result<(), AllocError>
    ensures { OnOk result (answer.new.items
        ≡ answer.old.items ++ tabs (reverse (part_bytes path.entry.bytes.now))) }
{
    push_list(path.iter().rev(), answer)
}

/// Appends the path's ancestors to `answer`, as a list: the path itself, its parent, and so on.
///
/// For `/a` appends `/a`, a tab and `/`.
pub fn push_ancestors(path: Path<'_>, answer: &mut Vec<u8>) -> Result<(), AllocError>
    ensures { OnOk result (answer.new.items
        ≡ answer.old.items ++ tabs (ancestors_of path.entry.bytes.now)) }
{
    push_list(path.ancestors().map(|path| path.as_unix_str()), answer)
}
