//! The entries of records, as the records have them.
ghost use Rattle.std.specs.Prelude.{◌≡◌, ◌≤◌, ◌<◌, ◌+◌, IfOk, length, map, option_map};
ghost use Rattle.path_archive.specs.Entries.{path_of};
ghost use Rattle.path_archive.specs.EntryViews.{entry_value, target_of};
ghost use Rattle.path_archive.specs.Records.{entries_in, record_entry};

use crate::records::{Record, record_at};
use crate::slot::{DIRECTORY, FILE, HARD_LINK, SYMLINK};
use std::alloc::{AllocError, Global};
use unix_path::Path;

/// An entry of an archive, with views of its record.
///
/// The record `b"l\0x\0/etc\0"` is an `Entry::Symlink`, whose path is `x` and whose target is
/// `/etc`.
#[derive(Clone, Copy)]
pub enum Entry<'a> {
    /// A directory with this path.
    Directory(Path<'a>),
    /// A file with this path.
    File(Path<'a>),
    /// A symbolic link with this path, and its target.
    Symlink(Path<'a>, Path<'a>),
    /// A hard link with this path, and its target.
    HardLink(Path<'a>, Path<'a>),
    /// An entry of another kind with this path.
    Other(Path<'a>),
}

impl<'a> Entry<'a> {
    /// Returns the path of the entry.
    ///
    /// For a symbolic link `x` to `/etc` it is `x`.
    #[must_use]
    pub fn path(self) -> Path<'a>
        ensures { result.bytes.now ≡ path_of (entry_value self.entry) }
    {
        match self {
            Entry::Directory(path) | Entry::File(path) | Entry::Other(path) => path,
            Entry::Symlink(path, _) | Entry::HardLink(path, _) => path,
        }
    }

    /// Returns the target of a link, and the empty path for other entries.
    ///
    /// For a symbolic link `x` to `/etc` it is `/etc`.
    #[must_use]
    pub fn target(self) -> Path<'a>
        ensures { result.bytes.now ≡ target_of (entry_value self.entry) }
    {
        match self {
            Entry::Symlink(_, target) | Entry::HardLink(_, target) => target,
            _ => Path { bytes: b"" },
        }
    }
}

// Returns the entry of a record.
fn entry_of(records: &[u8], found: Record) -> Entry<'_>
    requires path { found.start ≤ found.end }
    requires target { found.end < found.target_end }
    requires end { found.target_end < length records.now }
    ensures { entry_value result ≡ record_entry records.now found }
{
    let path = Path::from_bytes(&records[found.start..found.end]);
    let target = Path::from_bytes(&records[found.end + 1..found.target_end]);
    if found.rank == SYMLINK {
        Entry::Symlink(path, target)
    } else if found.rank == HARD_LINK {
        Entry::HardLink(path, target)
    } else if found.rank == FILE {
        Entry::File(path)
    } else if found.rank == DIRECTORY {
        Entry::Directory(path)
    } else {
        Entry::Other(path)
    }
}

/// Returns the entries of these records, in their order, or `None` if the last record is cut off.
///
/// The number of an entry in `refusals` is its index here. Allocates for the list, and fails if an
/// allocation fails.
///
/// For `b"l\0x\0/etc\0"` it is one entry, a symbolic link.
pub fn entries(alloc: Global, records: &[u8]) -> Result<Option<Vec<Entry<'_>>>, AllocError>
    ensures { IfOk result (λ found. option_map (λ list. map entry_value list.items) found
        ≡ entries_in records.now) }
{
    let mut list = Vec::new(alloc);
    let mut at = 0;
    while at < records.len() {
        let Some(found) = record_at(records, at) else {
            return Ok(None);
        };
        list.push(entry_of(records, found))?;
        at = found.target_end + 1;
    }
    Ok(Some(list))
}
