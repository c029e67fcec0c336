//! A Bloom filter over the keys of a tree, which saves most look-ups of keys that the tree lacks.
ghost use Rattle.std.specs.Prelude.{◌≡◌, true, List, ℕ, IfOk};
ghost use Rattle.std.specs.List.{AllPass};
ghost use Rattle.std.specs.Map.{keys_of};
ghost use Rattle.path_tree.specs.Hashed.{hash_of};

use std::alloc::{AllocError, Global};
use std::collections::BTreeMap;
use std::hash::{FoldHasher, Hasher};

// The number of entries up to which a tree has no filter.
const UNFILTERED_MAX: usize = 64;

// Returns the hash of a key.
#[inline]
#[tactic(auto, unfolding(crate::specs::Hashed::hash_of))]
fn key_hash(key: &[u8]) -> u64
    ensures { result ≡ hash_of key.now }
{
    let mut hasher = FoldHasher::default();
    hasher.write(key);
    hasher.finish()
}

// A set of bits. Each key has one of the bits, which other keys may share. The filter of a tree has
// the bits of all keys of the tree, and may have others. A filter without words counts as having
// every bit.
#[derive(Drop)]
pub(crate) struct KeyFilter {
    words: Vec<u64>,
    // The bits of a hash that are the index of its word.
    mask: u64,
    // The number of bits that may be set before the filter is rebuilt.
    remaining: usize,
}

impl KeyFilter {
    ghost use Rattle.path_tree.specs.KeyFilter.{may_contain};

    // Returns a filter without words.
    pub(crate) fn accept_all(alloc: Global) -> KeyFilter
        ensures { (key : List ℕ) → may_contain result key ≡ true }
    {
        KeyFilter {
            words: Vec::new(alloc),
            mask: 0,
            remaining: 0,
        }
    }

    // Returns a filter for so many keys, with about two to four bytes for each key, and no bit set.
    fn zeroed(alloc: Global, keys: usize) -> Result<KeyFilter, AllocError> {
        let count = (keys / 4).next_power_of_two();
        Ok(KeyFilter {
            words: vec![in alloc; 0u64; count]?,
            mask: count.saturating_sub(1) as u64,
            remaining: count.saturating_mul(8),
        })
    }

    // Returns a filter that has the keys of these entries.
    pub(crate) fn from_keys<V>(
        alloc: Global,
        entries: &BTreeMap<Vec<u8>, V>,
    ) -> Result<KeyFilter, AllocError>
        ensures { IfOk result (λ filter.
            AllPass (λ k. may_contain filter k.items) (keys_of entries.now.entries)) }
    {
        let mut filter = KeyFilter::zeroed(alloc, entries.len())?;
        for (key, _) in entries.iter() {
            filter.insert(key.as_slice());
        }
        Ok(filter)
    }

    // Returns true if the filter has the bit of the key.
    #[inline]
    #[tactic(auto, unfolding(crate::specs::Hashed::has_bit))]
    pub(crate) fn may_contain(&self, key: &[u8]) -> bool
        ensures { result ≡ may_contain self.now key.now }
    {
        let hash = key_hash(key);
        let slot = (hash & self.mask) as usize;
        slot >= self.words.len() || (self.words[slot] >> (hash >> 58)) % 2 == 1
    }

    // Sets the bit of the key, unless the filter has no words.
    #[inline]
    pub(crate) fn insert(&mut self, key: &[u8])
        ensures contained { may_contain self.new key.now ≡ true }
        ensures kept { (other : List ℕ) → may_contain self.old other ≡ true
            → may_contain self.new other ≡ true }
    {
        let hash = key_hash(key);
        let slot = (hash & self.mask) as usize;
        if slot >= self.words.len() {
            return;
        }
        let word = self.words[slot];
        let new = word | 1 << (hash >> 58);
        self.words[slot] = new;
        self.remaining = self.remaining.saturating_sub((new != word) as usize);
    }

    // Returns true if the filter has to be rebuilt for a tree of so many entries: no further bit
    // may be set, and the tree has more entries than a tree without a filter.
    #[inline]
    pub(crate) fn is_saturated(&self, entries: usize) -> bool {
        self.remaining == 0 && entries > UNFILTERED_MAX
    }
}
