//! The cache of a list of edits: what earlier edits found out about the path's leading bytes, so
//! that later edits don't read these bytes again. In this module, filler is trailing filler:
//! slashes and each `.` after a slash, except the path's first byte.
ghost use Rattle.std.specs.Prelude.{◌≡◌, ℕ, ◌<◌, ◌≤◌, List, length, take, Some, None, IfSome};
ghost use Rattle.std.specs.Prelude.{IsTrue};
ghost use Rattle.unix_path.specs.Edits.{stem_end_of};
ghost use Rattle.unix_path.specs.Extensions.{name_end_of};
ghost use Rattle.unix_path.specs.Parents.{parent_of};
ghost use Rattle.unix_path.specs.Parts.{parts};
ghost use Rattle.unix_path.specs.Scan.{EndsInPart};
ghost use Rattle.path_runs.specs.ScanCache.{IsCacheOf, IsStack, CachesStem, CachesStems};

use crate::edits::stems::Stems;
use unix_path::internal::{ends_in_name, has_slash, is_trailing, stem_end, trimmed_len};

// Returns true if the last byte of the path is filler.
#[inline]
fn ends_in_filler(path: &[u8]) -> bool
    ensures { IsTrue result → 0 < length path.now }
{
    !path.is_empty() && is_trailing(path, path.len() - 1)
}

// Returns true if the path has at least 64 bytes, and the last 64 contain no slash.
#[inline]
fn ends_in_long_name(path: &[u8]) -> bool {
    path.len() >= 64 && !has_slash(&path[path.len() - 64..])
}

// Results of scanning a prefix of the path, valid while that prefix is unchanged. Empty for
// ordinary paths, because only long runs of filler and long stems are recorded.
#[derive(Drop)]
pub(super) struct ScanCache {
    // In the first `len` bytes of the path, the last component ends at index `end`, exclusive. Both
    // are 0 if no end is recorded.
    end: usize,
    len: usize,
    // Lengths of prefixes of the path that end in a name without an extension.
    stems: Stems,
}

impl ScanCache {
    // Returns an empty cache, which is valid for every path.
    #[inline]
    pub(super) fn new() -> ScanCache
        ensures { (s : List ℕ) → IsCacheOf s result }
    {
        ScanCache {
            end: 0,
            len: 0,
            stems: Stems::new(),
        }
    }

    // Drops everything recorded.
    #[inline]
    pub(super) fn clear(&mut self)
        requires { IsStack self.old.stems }
        ensures { (s : List ℕ) → IsCacheOf s self.new }
    {
        self.end = 0;
        self.len = 0;
        self.stems.clear();
    }

    // Returns true only if nothing is recorded. Such a cache is valid for every path.
    #[inline]
    pub(super) fn is_empty(&self) -> bool
        ensures { IsTrue result → (s t : List ℕ) → IsCacheOf s self.now → IsCacheOf t self.now }
    {
        self.len == 0 && self.stems.is_empty()
    }

    // Returns the index just after the path's last component. Doesn't search the first `self.len`
    // bytes, for which the end is recorded. Records the index if at least 16 bytes of filler were
    // read.
    #[inline]
    pub(super) fn part_end(&mut self, path: &[u8]) -> usize
        requires { IsCacheOf path.now self.old }
        ensures cache { IsCacheOf path.now self.new }
        ensures in_range { result ≤ length path.now }
        ensures same { parts (take result path.now) ≡ parts path.now }
        ensures ends { EndsInPart (take result path.now) }
    {
        let read_to = trimmed_len(path, self.len, path.len());
        let end = if read_to == self.len {
            self.end
        } else {
            read_to
        };
        if path.len() - read_to >= 16 {
            self.end = end;
            self.len = path.len();
        }
        end
    }

    // Reads the trailing filler of the path. If it has at least 16 bytes, records where it begins,
    // so that later calls don't read it again.
    #[inline]
    pub(super) fn record_filler(&mut self, path: &[u8])
        requires { IsCacheOf path.now self.old }
        ensures { IsCacheOf path.now self.new }
    {
        if ends_in_filler(path) {
            let _end = self.part_end(path);
        }
    }

    // Returns the index just after the file name of the path, or `None` if the path has no file
    // name.
    #[inline]
    pub(super) fn name_end(&mut self, path: &[u8]) -> Option<usize>
        requires { IsCacheOf path.now self.old }
        ensures cache { IsCacheOf path.now self.new }
        ensures value { result ≡ name_end_of path.now }
        ensures in_range { IfSome result (λ end. end ≤ length path.now) }
    {
        let end = self.part_end(path);
        if !ends_in_name(&path[..end]) {
            return None;
        }
        Some(end)
    }

    // Returns true only if the path ends in filler and has no file name.
    #[inline]
    pub(super) fn is_nameless_with_filler(&mut self, path: &[u8]) -> bool
        requires { IsCacheOf path.now self.old }
        ensures cache { IsCacheOf path.now self.new }
        ensures value { IsTrue result → None ≡ name_end_of path.now }
    {
        if !ends_in_filler(path) {
            return false;
        }
        self.name_end(path).is_none()
    }

    // Returns true only if the path is the root followed by filler.
    #[inline]
    pub(super) fn is_root_with_filler(&mut self, path: &[u8]) -> bool
        requires { IsCacheOf path.now self.old }
        ensures cache { IsCacheOf path.now self.new }
        ensures value { IsTrue result → None ≡ parent_of path.now }
    {
        if !ends_in_filler(path) || path[0] != b'/' {
            return false;
        }
        self.part_end(path) <= 1
    }

    // Returns the index just after the stem of the file name, or `None` if there is no file name.
    // Searches for the stem's end only from the last recorded index on, and reads at most one byte
    // before that index. Records the result if the stem is the whole name and has at least 64
    // bytes.
    #[inline]
    pub(super) fn stem_end(&mut self, path: &[u8]) -> Option<usize>
        requires { IsCacheOf path.now self.old }
        ensures cache { IsCacheOf path.now self.new }
        ensures value { result ≡ stem_end_of path.now }
        ensures in_range { IfSome result (λ end. end ≤ length path.now) }
    {
        let Some(end) = self.name_end(path) else {
            return None;
        };
        let stem = stem_end(&path[..end], self.search_start(end));
        if stem == end && ends_in_long_name(&path[..end]) {
            self.stems.add(end);
        }
        Some(stem)
    }

    // Returns the index where the search for a stem's end starts: the last recorded index, or 0 if
    // that index is greater than `end`.
    #[inline]
    fn search_start(&self, end: usize) -> usize
        requires { IsStack self.now.stems }
        ensures value { (s : List ℕ) → CachesStems s self.now.stems → CachesStem s result }
        ensures in_range { result ≤ end }
    {
        let offset = self.stems.last_offset();
        if end < offset {
            return 0;
        }
        offset
    }

    // Drops the results that depend on bytes at or after index `unchanged`. The caller may change
    // these bytes, before or after the call.
    #[inline]
    pub(super) fn truncate(&mut self, unchanged: usize)
        requires { IsStack self.old.stems }
        ensures { (s t : List ℕ) → IsCacheOf s self.old → unchanged ≤ length t
            → take unchanged s ≡ take unchanged t → IsCacheOf t self.new }
    {
        self.stems.truncate(unchanged);
        if unchanged < self.len {
            self.end = 0;
            self.len = 0;
        }
    }
}
