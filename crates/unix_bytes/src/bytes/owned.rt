//! Byte strings that own their bytes.
ghost use Rattle.std.specs.Prelude.{◌≡◌, ◌+◌, ◌<◌, ◌≤◌, [], ◌++◌, length, take, max, min};
ghost use Rattle.std.specs.Prelude.{IfOk, OnOk, OnErr, IsOk, Some, string_bytes, vec_capacity};
ghost use Rattle.std.specs.String.{string_capacity};
ghost use Rattle.std.specs.Cmp.{on_po, on_total};
ghost use Rattle.std.specs.Cmp.Lexicographic.{slice_cmp, texts_po, texts_ties, nat_list_cmp_total};
ghost use Rattle.std.specs.Ordering.{nat_cmp};
ghost use Rattle.std.proofs.Common.{refl};
ghost use Rattle.unix_bytes.specs.Owned.{owned_bytes, owned_capacity};

use crate::bytes::UnixStr;
use crate::order::compare_bytes;
use std::alloc::{AllocError, Global};
use std::cmp::Ordering;
use std::fmt;
use std::hash::{Hash, Hasher};

/// An owned byte string: a path or a name on Unix, in any encoding.
///
/// It keeps its allocator. If an allocation fails, its bytes are unchanged. It is compared and
/// hashed like the `UnixStr` of its bytes. Corresponds to Rust's `OsString` on Unix, and to
/// `UnixString` of the crate `unix_str`.
#[derive(Drop, PartialEq, Eq)]
pub struct UnixString {
    bytes: Vec<u8>,
}

impl UnixString {
    /// Returns an empty byte string. Allocates nothing.
    ///
    /// `UnixString::new(alloc)` has no bytes.
    #[inline]
    pub fn new(alloc: Global) -> UnixString
        ensures { owned_bytes result ≡ [] }
    {
        UnixString {
            bytes: Vec::new(alloc),
        }
    }

    /// Returns an empty byte string with a capacity of at least `count`.
    ///
    /// Allocates once, or not at all if `count` is 0; fails if the allocation fails.
    ///
    /// `UnixString::with_capacity(alloc, 10)?` can hold 10 bytes before it grows.
    pub fn with_capacity(alloc: Global, count: usize) -> Result<UnixString, AllocError>
        ensures bytes { IfOk result (λ s. owned_bytes s ≡ []) }
        ensures capacity { IfOk result (λ s. count ≤ owned_capacity s) }
        ensures succeeds { count ≡ 0 → IsOk result }
    {
        let bytes = Vec::with_capacity(alloc, count)?;
        Ok(UnixString { bytes })
    }

    /// Returns a view of all bytes. Corresponds to Rust's `OsString::as_os_str`.
    ///
    /// After a push of `tmp` onto an empty byte string, the view is `tmp`.
    #[inline]
    pub fn as_unix_str(&self) -> UnixStr<'_>
        ensures { result.bytes.now ≡ owned_bytes self.now }
    {
        UnixStr::from_bytes(self.bytes.as_slice())
    }

    /// Returns a copy with the same allocator. Corresponds to `Clone` of Rust's `OsString`.
    ///
    /// Allocates once; fails if the allocation fails. If there are no bytes, nothing is allocated
    /// and the call succeeds.
    ///
    /// A clone of `tmp` is another `tmp`.
    pub fn clone(&self) -> Result<UnixString, AllocError>
        ensures bytes { IfOk result (λ s. owned_bytes s ≡ owned_bytes self.now) }
        ensures succeeds { owned_bytes self.now ≡ [] → IsOk result }
    {
        self.as_unix_str().to_unix_string(*self.bytes.allocator())
    }

    /// Appends the bytes.
    ///
    /// Allocates only if `more` is longer than the spare capacity. If the allocation fails, the
    /// bytes are unchanged. The capacity never shrinks.
    ///
    /// `foo` after a push of `bar` is `foobar`.
    #[inline]
    pub fn push(&mut self, more: UnixStr<'_>) -> Result<(), AllocError>
        ensures ok { OnOk result
            (owned_bytes self.new ≡ owned_bytes self.old ++ more.entry.bytes.now) }
        ensures err { OnErr result (owned_bytes self.new ≡ owned_bytes self.old) }
        ensures succeeds { length (owned_bytes self.old ++ more.entry.bytes.now)
            ≤ owned_capacity self.old → IsOk result }
        ensures capacity { owned_capacity self.old ≤ owned_capacity self.new }
    {
        self.bytes.extend_from_slice(more.as_bytes())
    }

    /// Returns the capacity: how many bytes the byte string can hold before it grows.
    ///
    /// After `with_capacity(alloc, 10)` the capacity is at least 10.
    #[inline]
    pub fn capacity(&self) -> usize
        ensures { result ≡ owned_capacity self.now }
    {
        self.bytes.capacity()
    }

    /// Removes all bytes, and keeps the capacity.
    ///
    /// `foo` after `clear` is the empty byte string.
    #[inline]
    pub fn clear(&mut self)
        ensures bytes { owned_bytes self.new ≡ [] }
        ensures capacity { owned_capacity self.new ≡ owned_capacity self.old }
    {
        self.bytes.clear();
    }

    /// Keeps the first `len` bytes and the capacity. If there are no more than `len` bytes, nothing
    /// changes.
    ///
    /// Never panics, unlike Rust's unstable `OsString::truncate`: `len` may be past the end or
    /// inside a character.
    ///
    /// `foobar` truncated to 3 bytes is `foo`, and truncated to 7 bytes it is `foobar`.
    #[inline]
    pub fn truncate(&mut self, len: usize)
        ensures bytes { owned_bytes self.new ≡ take len (owned_bytes self.old) }
        ensures capacity { owned_capacity self.new ≡ owned_capacity self.old }
    {
        self.bytes.truncate(len);
    }

    /// Reserves spare capacity for at least `count` more bytes. If the byte string has to grow, the
    /// call may reserve more than that.
    ///
    /// Allocates only if the spare capacity is less than `count`. If the allocation fails, the
    /// bytes are unchanged.
    ///
    /// After `reserve(6)` a push of 6 bytes does not allocate.
    pub fn reserve(&mut self, count: usize) -> Result<(), AllocError>
        ensures bytes { owned_bytes self.new ≡ owned_bytes self.old }
        ensures ok { OnOk result
            (length (owned_bytes self.old) + count ≤ owned_capacity self.new) }
        ensures succeeds { length (owned_bytes self.old) + count ≤ owned_capacity self.old
            → IsOk result }
        ensures capacity { owned_capacity self.old ≤ owned_capacity self.new }
    {
        self.bytes.reserve(count)
    }

    /// Reserves spare capacity for at least `count` more bytes. If the byte string has to grow, the
    /// call reserves no more than that.
    ///
    /// Allocates only if the spare capacity is less than `count`. If the allocation fails, the
    /// bytes are unchanged.
    ///
    /// After `reserve_exact(6)` a push of 6 bytes does not allocate.
    pub fn reserve_exact(&mut self, count: usize) -> Result<(), AllocError>
        ensures bytes { owned_bytes self.new ≡ owned_bytes self.old }
        ensures ok { OnOk result (owned_capacity self.new
            ≡ max (length (owned_bytes self.old) + count) (owned_capacity self.old)) }
        ensures succeeds { length (owned_bytes self.old) + count ≤ owned_capacity self.old
            → IsOk result }
        ensures capacity { owned_capacity self.old ≤ owned_capacity self.new }
    {
        self.bytes.reserve_exact(count)
    }

    /// Releases the spare capacity, so that the capacity equals the length.
    ///
    /// Allocates nothing if there is no spare capacity. Otherwise moving the bytes can fail. Then
    /// the bytes are unchanged, and the capacity is no greater than before.
    ///
    /// For `foo` with the capacity 10, the new capacity is 3.
    pub fn shrink_to_fit(&mut self) -> Result<(), AllocError>
        ensures bytes { owned_bytes self.new ≡ owned_bytes self.old }
        ensures ok { OnOk result (owned_capacity self.new ≡ length (owned_bytes self.old)) }
        ensures succeeds { owned_capacity self.old ≡ length (owned_bytes self.old)
            → IsOk result }
        ensures shrinks { owned_capacity self.new ≤ owned_capacity self.old }
    {
        self.shrink_to(0)
    }

    /// Lowers the capacity to `min_capacity`, or to the length if that is greater.
    ///
    /// If the capacity is already as low, the call allocates nothing and changes nothing. Otherwise
    /// moving the bytes can fail. Then the bytes are unchanged, and the capacity is no greater than
    /// before.
    ///
    /// For `foo` with the capacity 10, `shrink_to(5)` makes the capacity 5, and `shrink_to(0)`
    /// makes it 3.
    pub fn shrink_to(&mut self, min_capacity: usize) -> Result<(), AllocError>
        ensures bytes { owned_bytes self.new ≡ owned_bytes self.old }
        ensures ok { OnOk result
            (owned_capacity self.new ≤ max min_capacity (length (owned_bytes self.old))) }
        ensures succeeds { owned_capacity self.old
            ≤ max min_capacity (length (owned_bytes self.old))
            → IsOk result }
        ensures capacity { min min_capacity (owned_capacity self.old) ≤ owned_capacity self.new }
        ensures shrinks { owned_capacity self.new ≤ owned_capacity self.old }
    {
        self.bytes.shrink_to(min_capacity);
        if min_capacity.max(self.bytes.len()) < self.bytes.capacity() {
            return Err(AllocError);
        }
        Ok(())
    }

    /// Returns the bytes as a vector, in the same memory. Corresponds to Rust's
    /// `OsStringExt::into_vec`.
    ///
    /// For `tmp` the vector has 3 bytes.
    #[inline]
    pub fn into_bytes(self) -> Vec<u8>
        ensures bytes { result.items ≡ owned_bytes self }
        ensures capacity { vec_capacity result ≡ owned_capacity self }
    {
        self.bytes
    }
}

impl<'a> UnixStr<'a> {
    /// Returns a copy that owns its bytes. Corresponds to Rust's `OsStr::to_os_string`.
    ///
    /// Allocates once; fails if the allocation fails. If there are no bytes, nothing is allocated
    /// and the call succeeds.
    ///
    /// For `tmp` the copy is another `tmp`.
    pub fn to_unix_string(self, alloc: Global) -> Result<UnixString, AllocError>
        ensures bytes { IfOk result (λ s. owned_bytes s ≡ self.entry.bytes.now) }
        ensures succeeds { self.entry.bytes.now ≡ [] → IsOk result }
    {
        let mut owned = UnixString::with_capacity(alloc, self.bytes.len())?;
        owned.push(self)?;
        Ok(owned)
    }
}

/// Makes a byte string of the vector's bytes, in the same memory and with the same capacity.
/// Corresponds to Rust's `OsStringExt::from_vec`.
///
/// A vector of the 3 bytes of `tmp` becomes the byte string `tmp`.
impl From<Vec<u8>> for UnixString {
    ghost from_gives = { λ bytes s.
        (owned_bytes s ≡ bytes.items) × (owned_capacity s ≡ vec_capacity bytes) };

    #[inline]
    fn from(bytes: Vec<u8>) -> UnixString {
        UnixString { bytes }
    }
}

/// Makes a byte string of the string's bytes, in the same memory and with the same capacity.
///
/// The string `tmp` becomes the byte string `tmp`.
impl From<String> for UnixString {
    ghost from_gives = { λ text s.
        (owned_bytes s ≡ string_bytes text) × (owned_capacity s ≡ string_capacity text) };

    #[inline]
    fn from(text: String) -> UnixString {
        UnixString {
            bytes: text.into_bytes(),
        }
    }
}

/// Returns the order that `cmp` returns, and never `None`.
impl PartialOrd for UnixString {
    ghost partial_cmp = { λ x y. Some (slice_cmp nat_cmp (owned_bytes x) (owned_bytes y)) };

    ghost laws = { on_po owned_bytes texts_po };

    fn partial_cmp(&self, other: &Self) -> Option<Ordering> {
        Some(self.cmp(other))
    }
}

/// Compares like the `UnixStr` of its bytes.
impl Ord for UnixString {
    ghost cmp = { λ x y. slice_cmp nat_cmp (owned_bytes x) (owned_bytes y) };

    ghost total = { on_total owned_bytes nat_list_cmp_total };

    ghost matches_partial_cmp = { λ x y. refl };

    ghost matches_eq = { λ x y. texts_ties (owned_bytes x) (owned_bytes y) };

    fn cmp(&self, other: &Self) -> Ordering {
        compare_bytes(&self.bytes, &other.bytes)
    }
}

/// Hashes like `as_unix_str`: a borrowed `tmp` and an owned `tmp` have the same hash.
impl Hash for UnixString {
    ghost use Rattle.unix_bytes.specs.Hashed.{name_input};
    ghost use Rattle.std.specs.Cmp.Lexicographic.{bytes_decides};
    ghost use Rattle.std.proofs.Common.{ap};

    ghost hash_input = { λ s. name_input (owned_bytes s) };

    ghost respects_eq = { λ x y e. ap name_input
        ((bytes_decides (owned_bytes x) (owned_bytes y)).0 e) };

    fn hash<H: Hasher>(&self, state: &mut H) {
        self.as_unix_str().hash(state);
    }
}

/// Writes the debug form of `as_unix_str`. For `tmp` this is `"tmp"`.
impl fmt::Debug for UnixString {
    fn fmt<W: fmt::Write>(&self, f: &mut fmt::Formatter<W>) -> fmt::Result {
        fmt::Debug::fmt(&self.as_unix_str(), f)
    }
}
