//! A list of indices at which stems of a path end. With it, a long name without an extension isn't
//! searched for a dot again.
ghost use Rattle.std.specs.Prelude.{◌≡◌, ℕ, ◌<◌, ◌≤◌, List, length, take, IsTrue};
ghost use Rattle.path_runs.specs.ScanCache.{IsStack, CachesStem, CachesStems};

// Lengths of prefixes of the path, in ascending order. `offsets[0]` is 0, and the prefixes whose
// lengths are in `offsets[1..=last]` end in a name without an extension.
#[derive(Drop)]
pub(super) struct Stems {
    offsets: [usize; 32],
    last: usize,
}

impl Stems {
    // Returns the list with no index except 0.
    #[inline]
    pub(super) fn new() -> Stems
        ensures stack { IsStack result }
        ensures cache { (s : List ℕ) → CachesStems s result }
    {
        Stems {
            offsets: [0; 32],
            last: 0,
        }
    }

    // Drops all indices except 0.
    #[inline]
    pub(super) fn clear(&mut self)
        requires { IsStack self.old }
        ensures stack { IsStack self.new }
        ensures cache { (s : List ℕ) → CachesStems s self.new }
    {
        self.last = 0;
    }

    // Returns true if there is no index except 0.
    #[inline]
    pub(super) fn is_empty(&self) -> bool
        ensures { IsTrue result → self.now.last ≡ 0 }
    {
        self.last == 0
    }

    // Returns the last index of the list, which is the greatest.
    #[inline]
    pub(super) fn last_offset(&self) -> usize
        requires { IsStack self.now }
        ensures { (s : List ℕ) → CachesStems s self.now → CachesStem s result }
    {
        self.offsets[self.last]
    }

    // Drops the indices greater than `unchanged`.
    #[inline]
    pub(super) fn truncate(&mut self, unchanged: usize)
        requires { IsStack self.old }
        ensures stack { IsStack self.new }
        ensures cache { (s t : List ℕ) → CachesStems s self.old → unchanged ≤ length t
            → take unchanged s ≡ take unchanged t → CachesStems t self.new }
    {
        while unchanged < self.offsets[self.last] {
            self.last -= 1;
        }
    }

    // Returns true if the distance between the last two indices is less than four times the
    // distance from the last index to `offset`.
    #[inline]
    fn last_gap_is_small(&self, offset: usize) -> bool
        requires stack { IsStack self.now }
        requires non_empty { 0 < self.now.last }
    {
        let last = self.offsets[self.last];
        let before = self.offsets[self.last - 1];
        last.saturating_sub(before) / 4 < offset.saturating_sub(last)
    }

    // Records `offset` if it is at least 64 bytes after the last index. First drops the last index
    // while its distance to the index before it is less than four times its distance to `offset`.
    // The bytes between a dropped index and the index before it are read again only after edits
    // have removed more than a quarter as many bytes. After the call, each distance between
    // neighbours is at least four times the next distance, so the list never becomes full.
    pub(super) fn add(&mut self, offset: usize)
        requires { IsStack self.old }
        ensures stack { IsStack self.new }
        ensures cache { (s : List ℕ) → CachesStems s self.old → CachesStem s offset
            → CachesStems s self.new }
    {
        let last = self.offsets[self.last];
        if offset < last || offset - last < 64 {
            return;
        }
        while self.last > 0 && self.last_gap_is_small(offset) {
            self.last -= 1;
        }
        if self.last < 31 {
            self.last += 1;
            self.offsets[self.last] = offset;
        }
    }
}
