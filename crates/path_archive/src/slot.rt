//! A use of a path, as a place in the records of an archive's entries.
ghost use Rattle.std.specs.Prelude.{◌≡◌, ◌+◌, slice_range};
ghost use Rattle.unix_path.specs.Parts.{values};
ghost use Rattle.path_archive.specs.Entries.{components};
ghost use Rattle.path_archive.specs.Rule.{is_directory};
ghost use Rattle.path_archive.specs.Slots.{field_at, path_at, used_as_of};

use unix_bytes::internal::find_byte;
use unix_path::Path;

// What a path is used as. Among uses of one path, the lower rank comes first.
pub(crate) const SYMLINK: usize = 0;

pub(crate) const HARD_LINK: usize = 1;

pub(crate) const TARGET: usize = 2;

pub(crate) const FILE: usize = 3;

pub(crate) const OTHER: usize = 4;

pub(crate) const DIRECTORY: usize = 5;

/// Memory for one use of a path, which `check` writes: where the path is in the records, and what
/// it is used as.
///
/// `check` needs as many as `slots_needed` returns, and reads nothing that it has not written.
#[derive(Clone, Copy)]
#[repr(C)]
pub struct Slot {
    /// The index of the path's first byte in the records.
    pub start: usize,
    /// The index just after the path's last byte.
    pub end: usize,
    /// What the path is used as.
    pub rank: usize,
    /// The number of the entry.
    pub entry: usize,
    /// The index of the slot that this one clashes with, or its own index.
    pub cause: usize,
}

// Returns true if the rank is a directory's.
#[inline]
pub(crate) fn is_directory(rank: usize) -> bool
    ensures { result ≡ is_directory (used_as_of rank) }
{
    rank >= DIRECTORY
}

// Returns a path without its leading `.`. Not inlined, since sorting calls it in many places.
#[inline(never)]
pub(crate) fn without_dot(path: Path<'_>) -> Path<'_>
    ensures { values result.bytes.now ≡ components path.entry.bytes.now }
{
    match path.strip_prefix(Path::from_bytes(b".")) {
        Ok(rest) => rest,
        Err(_) => path,
    }
}

impl Slot {
    /// A slot to begin with. `[Slot::EMPTY; 8]` has room for eight uses.
    pub const EMPTY: Slot = Slot {
        start: 0,
        end: 0,
        rank: 0,
        entry: 0,
        cause: 0,
    };

    // Returns the path at this slot.
    #[inline]
    pub(crate) fn path<'a>(&self, records: &'a [u8]) -> &'a [u8]
        ensures { result.now ≡ path_at records.now self.now }
    {
        let end = self.end.min(records.len());
        let start = self.start.min(end);
        &records[start..end]
    }

    // Returns the path at this slot without a leading `.`.
    #[inline]
    pub(crate) fn names<'a>(&self, records: &'a [u8]) -> Path<'a>
        ensures { values result.bytes.now ≡ components (path_at records.now self.now) }
    {
        without_dot(Path::from_bytes(self.path(records)))
    }

    // Returns the field that follows the path in the records, which is a link's target.
    pub(crate) fn target<'a>(&self, records: &'a [u8]) -> &'a [u8]
        ensures { result.now ≡ field_at records.now (self.now.end + 1) }
    {
        if self.end >= records.len() {
            return &records[records.len()..];
        }
        let rest = &records[self.end + 1..];
        &rest[..find_byte(rest, 0)]
    }
}
