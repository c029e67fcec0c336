//! What `archive` prints for the entries that are refused.
ghost use Rattle.std.specs.Prelude.{◌≡◌, ◌++◌, IfOk, OnOk, map};
ghost use Rattle.std.specs.List.{flat_map};
ghost use Rattle.path_archive.specs.EntryViews.{entry_value};
ghost use Rattle.upath_commands.specs.Archives.{cut_line, entry_in, kind_text, leaf_text};
ghost use Rattle.upath_commands.specs.Archives.{or_its_target, or_target, reason_name};
ghost use Rattle.upath_commands.specs.Archives.{refusal_lines};
ghost use Rattle.upath_commands.specs.Archives.{refusal_message, refusal_record, refusal_text};
ghost use Rattle.upath_commands.specs.Archives.{refused_line};

use crate::command::Options;
use crate::push::end_of;
use crate::searches::has_newline;
use crate::shown::push_shown;
use path_archive::{Entry, Reason, Refusal};
use std::alloc::{AllocError, Global};
use unix_path::Path;

// Returns the entry with this number, or one without a path.
fn entry_at<'a>(entries: &[Entry<'a>], n: usize) -> Entry<'a>
    ensures { entry_value result ≡ entry_in (map entry_value entries.now) n }
{
    if n < entries.len() {
        return entries[n];
    }
    Entry::Other(Path { bytes: b"" })
}

// Returns the name of a reason.
fn reason_name(reason: Reason) -> &'static [u8]
    ensures { result.now ≡ reason_name reason }
{
    match reason {
        Reason::Name => b"name",
        Reason::Kind => b"kind",
        Reason::BelowLeaf => b"below",
        Reason::LinkUsedTwice => b"twice",
        Reason::TargetIsLink => b"target",
        Reason::LeadsOut => b"out",
    }
}

// Appends the record for a refusal.
fn push_record(
    options: Options,
    entries: &[Entry<'_>],
    refusal: Refusal,
    out: &mut Vec<u8>,
) -> Result<(), AllocError>
    ensures { OnOk result (out.new.items ≡ out.old.items
        ++ refusal_record options (map entry_value entries.now) refusal) }
{
    if options.with_reason {
        out.extend_from_slice(reason_name(refusal.reason))?;
        out.push(b'\t')?;
    }
    let path = entry_at(entries, refusal.entry).path().bytes;
    if has_newline(path) && !options.null {
        push_shown(path, out)?;
    } else {
        out.extend_from_slice(path)?;
    }
    out.push(end_of(options))?;
    Ok(())
}

// Appends the record for each refusal.
pub(crate) fn push_records(
    options: Options,
    entries: &[Entry<'_>],
    refusals: &[Refusal],
    out: &mut Vec<u8>,
) -> Result<(), AllocError>
    ensures { OnOk result (out.new.items ≡ out.old.items
        ++ flat_map (refusal_record options (map entry_value entries.now)) refusals.now) }
{
    for refusal in refusals {
        push_record(options, entries, *refusal, out)?;
    }
    Ok(())
}

// Appends the target of a hard link, which may be what is refused.
fn push_or_target(entry: Entry<'_>, out: &mut Vec<u8>) -> Result<(), AllocError>
    ensures { OnOk result (out.new.items ≡ out.old.items ++ or_target (entry_value entry.entry)) }
{
    if let Entry::HardLink(_, target) = entry {
        out.extend_from_slice(b"this path or the target ")?;
        push_shown(target.bytes, out)?;
        out.push(b' ')?;
    }
    Ok(())
}

// Returns what an entry is.
fn kind_text(entry: Entry<'_>) -> &'static [u8]
    ensures { result.now ≡ kind_text (entry_value entry.entry) }
{
    match entry {
        Entry::Directory(_) => b"the directory ",
        Entry::File(_) => b"the file ",
        Entry::Symlink(_, _) => b"the symbolic link ",
        Entry::HardLink(_, _) => b"the hard link ",
        Entry::Other(_) => b"the entry ",
    }
}

// Appends the target of a hard link, which may be what another path is below.
fn push_or_its_target(entry: Entry<'_>, out: &mut Vec<u8>) -> Result<(), AllocError>
    ensures { OnOk result (out.new.items
        ≡ out.old.items ++ or_its_target (entry_value entry.entry)) }
{
    if let Entry::HardLink(_, target) = entry {
        out.extend_from_slice(b" or its target ")?;
        push_shown(target.bytes, out)?;
    }
    Ok(())
}

// Appends the entry below which another path is.
fn push_leaf(entry: Entry<'_>, out: &mut Vec<u8>) -> Result<(), AllocError>
    ensures { OnOk result (out.new.items ≡ out.old.items ++ leaf_text (entry_value entry.entry)) }
{
    out.extend_from_slice(kind_text(entry))?;
    push_shown(entry.path().bytes, out)?;
    push_or_its_target(entry, out)
}

// Appends why an entry is refused.
fn push_text(
    reason: Reason,
    entry: Entry<'_>,
    cause: Entry<'_>,
    out: &mut Vec<u8>,
) -> Result<(), AllocError>
    ensures { OnOk result (out.new.items ≡ out.old.items
        ++ refusal_text reason (entry_value entry.entry) (entry_value cause.entry)) }
{
    match reason {
        Reason::Name => {
            push_or_target(entry, out)?;
            out.extend_from_slice(b"has a root, has a .., or does not end in a name")?;
        }
        Reason::Kind => out.extend_from_slice(b"neither a directory, a file nor a link")?,
        Reason::BelowLeaf => {
            push_or_target(entry, out)?;
            out.extend_from_slice(b"lies below ")?;
            push_leaf(cause, out)?;
        }
        Reason::LinkUsedTwice => out.extend_from_slice(b"is a symbolic link, and used twice")?,
        Reason::TargetIsLink => {
            out.extend_from_slice(b"hard link to the link ")?;
            push_shown(cause.path().bytes, out)?;
        }
        Reason::LeadsOut => {
            out.extend_from_slice(b"leads out, to ")?;
            push_shown(entry.target().bytes, out)?;
        }
    }
    Ok(())
}

// Appends the message for a refusal.
fn push_message(
    entries: &[Entry<'_>],
    refusal: Refusal,
    out: &mut Vec<u8>,
) -> Result<(), AllocError>
    ensures { OnOk result (out.new.items ≡ out.old.items
        ++ refusal_message (map entry_value entries.now) refusal) }
{
    let entry = entry_at(entries, refusal.entry);
    let cause = entry_at(entries, refusal.cause);
    out.extend_from_slice(b"upath: ")?;
    push_shown(entry.path().bytes, out)?;
    out.extend_from_slice(b": ")?;
    push_text(refusal.reason, entry, cause, out)?;
    out.push(b'\n')?;
    Ok(())
}

// Appends the message for each refusal, or one if there are no entries.
pub(crate) fn push_messages(
    entries: &[Entry<'_>],
    refusals: &[Refusal],
    out: &mut Vec<u8>,
) -> Result<(), AllocError>
    ensures { OnOk result (out.new.items ≡ out.old.items
        ++ refusal_lines (map entry_value entries.now) refusals.now) }
{
    if entries.is_empty() {
        out.extend_from_slice(b"upath: no entries\n")?;
        return Ok(());
    }
    for refusal in refusals {
        push_message(entries, *refusal, out)?;
    }
    Ok(())
}

// Returns the message for an input in which a record is cut off.
pub(crate) fn cut_line(alloc: Global, input: &[u8]) -> Result<Vec<u8>, AllocError>
    ensures { IfOk result (λ line. line.items ≡ cut_line input.now) }
{
    let mut count: usize = 0;
    for byte in input {
        if *byte == 0 {
            count += 1;
        }
    }
    let n = count / 3 + 1;
    let line = format!(in alloc; "upath: record {n} is cut off\n")?;
    Ok(line.into_bytes())
}

// Returns the message for a line, with this number, that isn't of the form of a listing.
pub(crate) fn refused_line(alloc: Global, n: usize) -> Result<Vec<u8>, AllocError>
    ensures { IfOk result (λ line. line.items ≡ refused_line n) }
{
    let line = format!(in alloc; "upath: line {n}: not a line of tar's listing\n")?;
    Ok(line.into_bytes())
}
