//! The key of a path for a look-up: on the stack if it is short.
ghost use Rattle.std.specs.Prelude.{◌≡◌, ◌≤◌, true, IfOk, IsOk, length, take};
ghost use Rattle.unix_path.specs.Parts.{values};
ghost use Rattle.path_keys.specs.Held.{key_bytes};
ghost use Rattle.path_keys.specs.Keys.{key_of};
ghost use Rattle.path_keys.specs.KeyValues.{is_own};

use path_keys::{PathKey, write_key};
use std::alloc::{AllocError, Global};
use unix_path::Path;

// The maximum length of a key on the stack.
pub(crate) const STACK_LEN: usize = 512;

// The key of a path: in a buffer that the caller has on the stack, or in memory of its own.
#[derive(Drop)]
pub(crate) enum LookupKey<'a> {
    Short(&'a [u8]),
    Long(PathKey),
}

impl<'a> LookupKey<'a> {
    ghost use Rattle.path_tree.specs.LookupKey.{lookup_bytes};

    // Returns the key of the path: in `buffer` if the key has at most 512 bytes, and otherwise in
    // memory of its own. Fails only if the allocation for that memory fails. The buffer is
    // borrowed, because a `LookupKey` that contained it would be copied with all 512 bytes.
    #[inline]
    pub(crate) fn of(
        alloc: Global,
        path: Path<'_>,
        buffer: &'a mut [u8; STACK_LEN],
    ) -> Result<LookupKey<'a>, AllocError>
        ensures key { IfOk result (λ key.
            lookup_bytes key ≡ key_of (values path.entry.bytes.now)) }
        ensures succeeds { length (key_of (values path.entry.bytes.now)) ≤ 512 → IsOk result }
    {
        let len = write_key(path, buffer);
        if len <= STACK_LEN {
            return Ok(LookupKey::Short(&buffer[..len]));
        }
        let key = PathKey::from_path(alloc, path)?;
        Ok(LookupKey::Long(key))
    }

    // Returns the bytes of the key.
    #[inline]
    pub(crate) fn as_bytes(&self) -> &[u8]
        ensures { result.now ≡ lookup_bytes self.now }
    {
        match self {
            LookupKey::Short(key) => key,
            LookupKey::Long(key) => key.as_bytes(),
        }
    }
}

// Returns a vector of the bytes of the path's key.
pub(crate) fn owned_key(alloc: Global, path: Path<'_>) -> Result<Vec<u8>, AllocError>
    ensures own { IfOk result (λ key. is_own key.items ≡ true) }
    ensures key { IfOk result (λ key. key.items ≡ key_of (values path.entry.bytes.now)) }
{
    let key = PathKey::from_path(alloc, path)?;
    Ok(key.into_vec())
}

// Returns the bytes of a key.
#[inline]
pub(crate) fn bytes_of(key: &PathKey) -> &[u8]
    ensures own { is_own result.now ≡ true }
    ensures bytes { result.now ≡ key_bytes key.now }
{
    key.as_bytes()
}

// Returns the vector with the bytes of a key.
#[inline]
pub(crate) fn vec_of(key: &PathKey) -> &Vec<u8>
    ensures own { is_own result.now.items ≡ true }
    ensures bytes { result.now.items ≡ key_bytes key.now }
{
    key.as_vec()
}
