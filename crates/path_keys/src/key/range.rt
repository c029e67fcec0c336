//! The range of the keys of all paths under a base.
ghost use Rattle.std.specs.Prelude.{◌≡◌, [], IfOk, IsOk, option_map};
ghost use Rattle.path_keys.specs.Held.{key_bytes};
ghost use Rattle.path_keys.specs.Ranges.{end_of, IsRangeEnd};

use crate::key::PathKey;
use std::alloc::AllocError;

/// The range of the byte strings that begin with a key: the bounds for a scan of a store.
///
/// For the base `a` they are 61 00 and 61 01.
#[derive(Debug, Drop)]
pub struct KeyRange<'a> {
    /// The start of the range, which is in the range: the key of the base.
    pub first: &'a [u8],
    /// The end of the range, which is not in the range. `None` if the range has no end.
    pub end: Option<Vec<u8>>,
}

impl PathKey {
    /// Returns the range of the keys of all paths that start with the path of this key.
    ///
    /// Any byte string, also one that is not a key, is in the range if and only if it begins with
    /// this key. The range of the empty path contains all byte strings and has no end; otherwise
    /// the end is this key with its last byte raised by one. Allocates once, the length of the key,
    /// or not at all for the empty path. Fails if the allocation fails.
    ///
    /// For the key of `a` the range is from 61 00 up to 61 01. For the key of `/..` it is from
    /// 00 01 00 03 up to 00 01 00 04.
    pub fn range_under(&self) -> Result<KeyRange<'_>, AllocError>
        ensures first { IfOk result (λ range. range.first.now ≡ key_bytes self.now) }
        ensures end { IfOk result (λ range. option_map (λ end. end.items) range.end
            ≡ end_of (key_bytes self.now)) }
        ensures covers { IfOk result (λ range.
            IsRangeEnd (key_bytes self.now) (option_map (λ end. end.items) range.end)) }
        ensures succeeds { key_bytes self.now ≡ [] → IsOk result }
    {
        let first = self.as_bytes();
        if first.is_empty() {
            return Ok(KeyRange { first, end: None });
        }
        let mut end = Vec::from_slice(*self.bytes.allocator(), first)?;
        let last = end.len() - 1;
        end[last] += 1;
        Ok(KeyRange {
            first,
            end: Some(end),
        })
    }
}
