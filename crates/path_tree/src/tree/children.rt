//! The children of a base. A child is the base and one more component, if an entry's path starts
//! with them.
ghost use Rattle.std.specs.Prelude.{◌≡◌, ◌==◌, ◌<◌, true, [], length, map};
ghost use Rattle.std.specs.Prelude.{IfOk, IfSome, IsOk, OnOk, None, Some, false};
ghost use Rattle.std.specs.Prelude.{if◌then◌else◌, eqb, option_map};
ghost use Rattle.std.specs.List.{starts_with};
ghost use Rattle.std.specs.List.Sorted.{IsStrictlySortedBy};
ghost use Rattle.std.specs.Map.{keys_of};
ghost use Rattle.unix_path.specs.Prefixes.{IsPrefixOf};
ghost use Rattle.path_keys.specs.Held.{key_bytes};
ghost use Rattle.path_keys.specs.Ranges.{bytes_cmp, end_of};
ghost use Rattle.path_tree.specs.Children.{borrowed_child, child_of, children_of, first_code_len};
ghost use Rattle.path_keys.specs.KeyValues.{is_own};

use super::PathTree;
use crate::lookup_key::vec_of;
use path_keys::PathKey;
use std::alloc::AllocError;
use std::ops::Bound;
use unix_bytes::internal::find_byte;

// Returns the length of the first of these codes, which are the last bytes of a key.
#[inline]
fn first_code_len(codes: &[u8]) -> usize
    ensures { result ≡ first_code_len codes.now }
{
    let len = find_byte(codes, 0);
    if len == 0 { 2 } else { len + 1 }
}

// Returns the prefix of `key` that has one code more than `base`, which is a shorter prefix of
// `key`.
#[inline]
fn child_key<'a>(key: &'a [u8], base: &[u8]) -> &'a [u8]
    requires own { is_own key.now ≡ true }
    requires base_own { is_own base.now ≡ true }
    requires below { IsPrefixOf base.now key.now }
    requires longer { length base.now < length key.now }
    ensures { result.now ≡ child_of base.entry.now key.entry.now }
{
    let len = base.len() + first_code_len(&key[base.len()..]);
    &key[..len]
}

// Sets `end` to the end, exclusive, of the range of the keys that start with `key`.
fn set_end(end: &mut Vec<u8>, key: &[u8]) -> Result<(), AllocError>
    requires own { is_own key.now ≡ true }
    requires some { 0 < length key.now }
    ensures { OnOk result (end_of key.now ≡ Some end.new.items) }
{
    end.clear();
    end.extend_from_slice(key)?;
    let last = end.len() - 1;
    end[last] += 1;
    Ok(())
}

// Returns `last`, the child that was found last, if `key` starts with it; otherwise `None`.
#[inline]
fn begun_by<'a>(last: Option<&'a [u8]>, key: &[u8]) -> Option<&'a [u8]>
    ensures some { IfSome result (λ child.
        (option_map (λ c. c.now) last.entry ≡ Some child.now) × IsPrefixOf child.now key.now) }
    ensures none { result ≡ None
        → IfSome last.entry (λ child. starts_with eqb key.now child.now ≡ false) }
{
    match last {
        Some(child) if key.starts_with(child) => Some(child),
        _ => None,
    }
}

// Returns the child, and with it `value` if the child is the whole key. `key` and `value` are an
// entry whose key starts with the child.
#[inline]
fn with_value<'a, V>(child: &'a [u8], key: &[u8], value: &'a V) -> (&'a [u8], Option<&'a V>)
    ensures { borrowed_child result ≡ (
      child.entry.now,
      if length child.entry.now == length key.now then Some value.entry.now else None,
    ) }
{
    let value = if child.len() == key.len() {
        Some(value)
    } else {
        None
    };
    (child, value)
}

impl<V> PathTree<V> {
    ghost use Rattle.path_tree.specs.Tree.{entries_of};

    /// Returns the keys of the children of the base in path order, each once, with the value at the
    /// child's path if there is one.
    ///
    /// A child is the base and one more component, if an entry's path starts with them. Its key is
    /// a prefix of that entry's key, and borrowed from it. An entry at the base is not a child. For
    /// each child, the walk visits at most two entries whose keys start with the child's key, and
    /// then continues after the child's range. Allocates as the list grows, and for the end of the
    /// range of a child if an entry is below the child. Fails if an allocation fails, and then the
    /// list is dropped. If there are no children, does not allocate, and succeeds. Like
    /// `std::fs::read_dir`.
    ///
    /// With 1 at `a/b/c`, 2 at `a/b/d`, 3 at `a/e` and 4 at `a`, the children of `a` are
    /// 61 00 62 00 without a value, and 61 00 65 00 with 3.
    pub fn children<'a>(
        &'a self,
        base: &PathKey,
    ) -> Result<Vec<(&'a [u8], Option<&'a V>)>, AllocError>
        ensures entries { IfOk result (λ found. map borrowed_child found.items
            ≡ children_of (key_bytes base.now) (entries_of self.entry.now)) }
        ensures ordered { IfOk result (λ found.
            IsStrictlySortedBy bytes_cmp (keys_of (map borrowed_child found.items))) }
        ensures succeeds { children_of (key_bytes base.now) (entries_of self.entry.now) ≡ []
            → IsOk result }
    {
        let base = vec_of(base);
        let mut found = Vec::new(self.alloc);
        let mut end = Vec::new(self.alloc);
        let mut last: Option<&'a [u8]> = None;
        let mut rest = self
            .entries
            .range((Bound::Excluded(base), Bound::Unbounded));
        while let Some((key, value)) = rest.next() {
            if let Some(child) = begun_by(last, key) {
                set_end(&mut end, child)?;
                rest = self.entries.range(&end..);
                continue;
            }
            if !key.as_slice().starts_with(base) {
                break;
            }
            let child = child_key(key, base);
            found.push(with_value(child, key, value))?;
            last = Some(child);
        }
        Ok(found)
    }
}
