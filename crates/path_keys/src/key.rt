//! Keys that own their bytes.
ghost use Rattle.std.specs.Prelude.{◌≡◌, ◌≤◌, [], length};
ghost use Rattle.std.specs.Prelude.{◌↔◌, ℕ, List, map, IfOk, OnOk, OnErr, IsOk, IsTrue, option_map};
ghost use Rattle.std.specs.Prelude.{IsErrOf, Some};
ghost use Rattle.std.specs.Cmp.{on_po, on_total};
ghost use Rattle.std.specs.Cmp.Lexicographic.{slice_cmp, texts_po, texts_ties, nat_list_cmp_total};
ghost use Rattle.std.specs.Ordering.{nat_cmp};
ghost use Rattle.std.proofs.Common.{refl};
ghost use Rattle.unix_path.specs.Names.{file_name_of};
ghost use Rattle.unix_path.specs.Parents.{parent_of};
ghost use Rattle.unix_path.specs.Parts.{values};
ghost use Rattle.unix_path.specs.Prefixes.{IsPrefixOf};
ghost use Rattle.path_keys.specs.Keys.{key_of, raised, IsKey};

mod range;

use crate::encode::{overwrite_and_truncate, sufficient_len};
use crate::parent::{key_name, key_parent, key_starts_with};
use crate::read::{KeyError, is_key};
pub use range::KeyRange;
use std::alloc::{AllocError, Global};
use std::cmp::Ordering;
use unix_bytes::internal::compare_bytes;
use unix_path::Path;

/// The key of a path: bytes that a store can compare instead of the path.
///
/// Keys are compared and hashed by their bytes. The keys of two paths sort in the order of the
/// paths, and are equal if and only if the paths are equal. A key keeps its allocator.
///
/// The key of `/a` is the bytes 00 01 61 00. The key of `a.b/..` is 61 2F 62 00 00 03.
#[derive(Debug, Drop, PartialEq, Eq, Hash)]
pub struct PathKey {
    bytes: Vec<u8>,
    ghost is_key: { ∥ IsKey bytes.items ∥₁ },
}

impl PathKey {
    ghost use Rattle.path_keys.specs.Held.{key_bytes, key_capacity};

    /// Returns the key of the empty path, which has no bytes, without an allocation.
    ///
    /// It is a prefix of every key.
    #[must_use]
    pub fn new(alloc: Global) -> PathKey
        ensures { key_bytes result ≡ [] }
    {
        PathKey {
            bytes: Vec::new(alloc),
        }
    }

    /// Creates the key of a path: the bytes of its components, one after the other.
    ///
    /// A root is 00 01, a leading `.` is 00 02, and each `..` is 00 03. A name is its bytes, with
    /// each byte less than 2F raised by one, and then 00. Allocates once, the length of the path
    /// plus 2, or not at all for the empty path. Fails if the allocation fails.
    ///
    /// For `.//a/./b/` it is 00 02 61 00 62 00.
    pub fn from_path(alloc: Global, path: Path<'_>) -> Result<PathKey, AllocError>
        ensures key { IfOk result (λ key. key_bytes key ≡ key_of (values path.entry.bytes.now)) }
        ensures succeeds { path.entry.bytes.now ≡ [] → IsOk result }
    {
        let mut key = PathKey::new(alloc);
        let len = path.as_unix_str().len();
        if len == 0 {
            return Ok(key);
        }
        // With this capacity the key needn't be counted.
        key.bytes.reserve_exact(len + 2)?;
        key.set(path)?;
        Ok(key)
    }

    /// Creates a key from its bytes, such as those that a store returns.
    ///
    /// The error is `NotAKey` if and only if no path has these bytes as its key. Nothing has been
    /// allocated then. The error is `Memory` if the allocation fails. Allocates once, the length of
    /// the key, or not at all for the empty key.
    ///
    /// 61 00 becomes the key of `a`. 61, 00 04 and 61 00 00 01 are not keys.
    pub fn from_bytes(alloc: Global, key: &[u8]) -> Result<PathKey, KeyError>
        ensures not_a_key { IsErrOf result KeyError.NotAKey ↔ (IsKey key.now → ⊥) }
        ensures key { IfOk result (λ made. key_bytes made ≡ key.now) }
        ensures succeeds { key.now ≡ [] → IsOk result }
    {
        if key.is_empty() {
            return Ok(PathKey::new(alloc));
        }
        if !is_key(key) {
            return Err(KeyError::NotAKey);
        }
        let bytes = Vec::from_slice(alloc, key)?;
        Ok(PathKey { bytes })
    }

    /// Replaces this key with the key of another path, and reuses the capacity.
    ///
    /// Allocates only if the capacity is less than the length of the new key. Fails if the
    /// allocation fails, and then this key is unchanged. The capacity never shrinks.
    ///
    /// The key of `a/b`, set to `..`, becomes 00 03.
    pub fn set(&mut self, path: Path<'_>) -> Result<(), AllocError>
        ensures ok { OnOk result (key_bytes self.new ≡ key_of (values path.entry.bytes.now)) }
        ensures err { OnErr result (key_bytes self.new ≡ key_bytes self.old) }
        ensures succeeds { length (key_of (values path.entry.bytes.now)) ≤ key_capacity self.old
            → IsOk result }
        ensures capacity { key_capacity self.old ≤ key_capacity self.new }
    {
        let len = sufficient_len(path, self.bytes.capacity());
        self.bytes.resize(len, 0)?;
        overwrite_and_truncate(&mut self.bytes, path.as_unix_str().as_bytes());
        Ok(())
    }

    /// Returns the bytes of the key.
    ///
    /// For the key of `..` they are 00 03.
    #[must_use]
    #[inline]
    pub fn as_bytes(&self) -> &[u8]
        ensures bytes { result.now ≡ key_bytes self.now }
        ensures is_key { IsKey (key_bytes self.now) }
    {
        self.bytes.as_slice()
    }

    /// Returns the vector that contains the bytes of the key.
    ///
    /// A `BTreeMap` whose keys are vectors needs such a vector as the bound of a range. For the key
    /// of `..` it contains 00 03.
    #[must_use]
    #[inline]
    pub fn as_vec(&self) -> &Vec<u8>
        ensures { result.now.items ≡ key_bytes self.now }
    {
        &self.bytes
    }

    /// Converts the key into the vector that contains its bytes, like `String::into_bytes`.
    ///
    /// The vector may have spare capacity. For the key of `..` it contains 00 03.
    #[must_use]
    pub fn into_vec(self) -> Vec<u8>
        ensures { result.items ≡ key_bytes self }
    {
        let PathKey { bytes } = self;
        bytes
    }

    /// Returns the key of the parent of this key's path, like `key_parent`; `None` if there is
    /// none.
    ///
    /// For the key of `a/b` it is 61 00.
    #[must_use]
    pub fn parent(&self) -> Option<&[u8]>
        ensures { (s : List ℕ) → key_of (values s) ≡ key_bytes self.now
            → option_map (λ parent. parent.now) result
            ≡ option_map (λ parent. key_of (values parent)) (parent_of s) }
    {
        key_parent(self.as_bytes())
    }

    /// Returns the file name of this key's path, as its bytes in the key, like `key_name`; `None`
    /// if there is no file name.
    ///
    /// For the key of `a/b.c` it is 62 2F 63.
    #[must_use]
    pub fn name(&self) -> Option<&[u8]>
        ensures { (s : List ℕ) → key_of (values s) ≡ key_bytes self.now
            → option_map (λ name. name.now) result
            ≡ option_map (λ name. map raised name) (file_name_of (values s)) }
    {
        key_name(self.as_bytes())
    }

    /// Returns true if the path of this key starts with the path of `base`, as `key_starts_with`
    /// does. No `..` is resolved.
    ///
    /// The key of `a/b` starts with the key of `a`. The key of `ab` does not.
    #[must_use]
    pub fn starts_with(&self, base: &PathKey) -> bool
        ensures bytes { IsTrue result ↔ IsPrefixOf (key_bytes base.now) (key_bytes self.now) }
        ensures values { (s t : List ℕ) → key_of (values s) ≡ key_bytes self.now
            → key_of (values t) ≡ key_bytes base.now
            → (IsTrue result ↔ IsPrefixOf (values t) (values s)) }
    {
        key_starts_with(self.as_bytes(), base.as_bytes())
    }
}

/// The order of `cmp`.
impl PartialOrd for PathKey {
    ghost use Rattle.path_keys.specs.Held.{key_bytes};

    ghost partial_cmp = { λ x y. Some (slice_cmp nat_cmp (key_bytes x) (key_bytes y)) };

    ghost laws = { on_po key_bytes texts_po };

    fn partial_cmp(&self, other: &Self) -> Option<Ordering> {
        Some(self.cmp(other))
    }
}

/// Keys are ordered by their bytes, which is the order of their paths.
impl Ord for PathKey {
    ghost use Rattle.path_keys.specs.Held.{key_bytes};

    ghost cmp = { λ x y. slice_cmp nat_cmp (key_bytes x) (key_bytes y) };

    ghost total = { on_total key_bytes nat_list_cmp_total };

    ghost matches_partial_cmp = { λ x y. refl };

    ghost matches_eq = { λ x y. texts_ties (key_bytes x) (key_bytes y) };

    fn cmp(&self, other: &Self) -> Ordering {
        compare_bytes(&self.bytes, &other.bytes)
    }
}
