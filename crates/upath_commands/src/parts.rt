//! Answers that are the components of a path, each a record.
ghost use Rattle.std.specs.Prelude.{◌≡◌, ◌++◌, if◌then◌else◌, OnOk, List, map, reverse};
ghost use Rattle.std.specs.Iterator.{IsFinite, Drains};
ghost use Rattle.unix_bytes.specs.declared.bytes.UnixStr.{UnixStr};
ghost use Rattle.upath_commands.specs.Answers.{part_bytes, record_output};

use crate::command::Options;
use crate::push::push_answer;
use std::alloc::AllocError;
use unix_bytes::bytes::UnixStr;
use unix_path::{Component, Path};

// Appends each of these items.
fn push_each<'a, I: Iterator<Item = UnixStr<'a>>>(
    items: I,
    path: Path<'_>,
    options: Options,
    out: &mut Vec<u8>,
) -> Result<(), AllocError>
    requires can { I.can_next items }
    requires ends { IsFinite (I.remaining items) }
    ensures { OnOk result ((xs : List UnixStr) × Drains I.next_gives items xs
        × (out.new.items ≡ out.old.items
        ++ record_output options path.entry.bytes.now
        (map (λ x. x.bytes.now) xs))) }
{
    for item in items {
        push_answer(path, item.as_bytes(), options, out)?;
    }
    Ok(())
}

// Appends the components, from the last one if the options say so.
pub(crate) fn push_parts(
    path: Path<'_>,
    options: Options,
    out: &mut Vec<u8>,
) -> Result<(), AllocError>
    ensures { let parts = part_bytes path.entry.bytes.now in OnOk result (out.new.items
        ≡ out.old.items ++ record_output options path.entry.bytes.now
        (if options.from_back then reverse parts else parts)) }
{
    if options.from_back {
        return push_each(path.iter().rev(), path, options, out);
    }
    let parts = path.components().map(Component::as_unix_str);
    push_each(parts, path, options, out)
}
