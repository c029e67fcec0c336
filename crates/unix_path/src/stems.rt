//! The end of a file name's stem, and the dot before an extension.
ghost use Rattle.std.specs.Prelude.{◌≡◌, ◌<◌, ◌≤◌, length, take, Some};
ghost use Rattle.unix_path.specs.Edits.{dot_before, stem_end_of};
ghost use Rattle.unix_path.specs.Extensions.{has_slash, name_end_of};
ghost use Rattle.std.specs.Option.{option_to_list};

use unix_bytes::internal::after_last_of_two;

/// Returns the index where the stem of the last name ends. The bytes must end in that name. Unless
/// `known` is 0, the first `known` bytes must also end in a name, and this name must have no
/// extension.
///
/// Searches back to the last dot or slash. Of the bytes before `known`, reads only the last.
///
/// For `a/b.rs` and 0 it is 3, and for `a/bcd` and 4 it is 5.
#[inline]
pub fn stem_end(bytes: &[u8], known: usize) -> usize
    requires name { name_end_of bytes.now ≡ Some (length bytes.now) }
    requires in_range { known ≤ length bytes.now }
    requires stem { 0 < known → stem_end_of (take known bytes.now) ≡ Some known }
    ensures value { stem_end_of bytes.now ≡ Some result }
    ensures forward { known ≤ result }
    ensures in_range { result ≤ length bytes.now }
{
    let past = after_last_of_two(&bytes[known..], b'.', b'/');
    if past == 0 {
        return bytes.len();
    }
    let index = known + past - 1;
    if index == 0 || bytes[index] == b'/' || bytes[index - 1] == b'/' {
        return bytes.len();
    }
    index
}

/// Returns the dot before an extension, or `None` if the extension is empty.
///
/// Before `rs` it is a dot.
#[inline]
pub fn dot_before(extension: &[u8]) -> Option<u8>
    ensures { option_to_list result ≡ dot_before extension.now }
{
    if extension.is_empty() {
        return None;
    }
    Some(b'.')
}

/// Returns true if and only if one of the bytes is a slash.
///
/// It is true for `x/y`, which is no valid extension.
#[inline]
pub fn has_slash(extension: &[u8]) -> bool
    ensures { result ≡ has_slash extension.now }
{
    extension.contains(&b'/')
}
