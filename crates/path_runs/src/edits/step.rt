//! The single edits of a list of edits. They use and update the list's cache.
ghost use Rattle.std.specs.Prelude.{◌≡◌, ◌↔◌, ◌≤◌, [], false, true, length, IfOk, OnOk, OnErr};
ghost use Rattle.std.specs.Prelude.{IsOk, IsErrOf, is_some};
ghost use Rattle.unix_path.specs.Buffers.{capacity, path_bytes};
ghost use Rattle.unix_path.specs.Edits.{popped_of, with_name_of, with_extension_of};
ghost use Rattle.unix_path.specs.Extensions.{added_extension_of, has_slash};
ghost use Rattle.unix_path.specs.Joins.{join_of};
ghost use Rattle.unix_path.specs.Names.{file_name_of};
ghost use Rattle.unix_path.specs.Parents.{parent_of};
ghost use Rattle.unix_path.specs.Parts.{values};
ghost use Rattle.path_runs.specs.ScanCache.{IsCacheOf};

use crate::edits::cache::ScanCache;
use std::alloc::AllocError;
use unix_path::bytes::UnixStr;
use unix_path::internal::{dot_before, has_slash};
use unix_path::{ExtensionError, Path, PathBuf};

// Returns the bytes of the path.
#[inline]
fn bytes_of(path: &PathBuf) -> &[u8]
    ensures { result.now ≡ path_bytes path.now }
{
    path.as_path().as_unix_str().as_bytes()
}

// Pushes `other` to `path`. Always inlined, like `PathBuf::push`. Each branch has its own call of
// `PathBuf::push`, so that neither inlined copy has to test for a root again.
#[inline(always)]
#[tactic(auto, using(crate::proofs::lemmas::edits::EditStepLemmas::IsCacheOf_join))]
pub(super) fn push(
    path: &mut PathBuf,
    cache: &mut ScanCache,
    other: Path<'_>,
) -> Result<(), AllocError>
    requires { IsCacheOf (path_bytes path.old) cache.old }
    ensures cache { OnOk result (IsCacheOf (path_bytes path.new) cache.new) }
    ensures ok { OnOk result
        (path_bytes path.new ≡ join_of (path_bytes path.old) other.entry.bytes.now) }
    ensures err { OnErr result (path_bytes path.new ≡ path_bytes path.old) }
    ensures succeeds { length (join_of (path_bytes path.old) other.entry.bytes.now)
        ≤ capacity path.old → IsOk result }
    ensures capacity { capacity path.old ≤ capacity path.new }
{
    if other.has_root() {
        cache.clear();
        return path.push(other);
    }
    path.push(other)
}

// Truncates the path to its parent and returns true. Without a parent, leaves the path unchanged
// and returns false. A pop that succeeds removes the filler that it reads. A pop that fails leaves
// the filler after a root, so the cache records this filler.
#[inline]
pub(super) fn pop(path: &mut PathBuf, cache: &mut ScanCache) -> bool
    requires { IsCacheOf (path_bytes path.old) cache.old }
    ensures cache { IsCacheOf (path_bytes path.new) cache.new }
    ensures value { result ≡ is_some (parent_of (path_bytes path.old)) }
    ensures bytes { path_bytes path.new ≡ popped_of (path_bytes path.old) }
    ensures capacity { capacity path.new ≡ capacity path.old }
{
    if !cache.is_empty() {
        return pop_with_cache(path, cache);
    }
    if path.pop() {
        return true;
    }
    cache.record_filler(bytes_of(path));
    false
}

// Does the same as `pop`, with a cache that isn't empty. Not inlined, so that the loop over a list
// stays small.
#[inline(never)]
fn pop_with_cache(path: &mut PathBuf, cache: &mut ScanCache) -> bool
    requires { IsCacheOf (path_bytes path.old) cache.old }
    ensures cache { IsCacheOf (path_bytes path.new) cache.new }
    ensures value { result ≡ is_some (parent_of (path_bytes path.old)) }
    ensures bytes { path_bytes path.new ≡ popped_of (path_bytes path.old) }
    ensures capacity { capacity path.new ≡ capacity path.old }
{
    if cache.is_root_with_filler(bytes_of(path)) {
        return false;
    }
    let is_popped = path.pop();
    cache.truncate(bytes_of(path).len());
    is_popped
}

// Replaces the file name. If the path has none, joins the name to the path.
#[inline]
#[tactic(auto, using(crate::proofs::lemmas::edits::EditStepLemmas::name_cases))]
pub(super) fn set_file_name(
    path: &mut PathBuf,
    cache: &mut ScanCache,
    name: UnixStr<'_>,
) -> Result<(), AllocError>
    requires { IsCacheOf (path_bytes path.old) cache.old }
    ensures cache { OnOk result (IsCacheOf (path_bytes path.new) cache.new) }
    ensures ok { OnOk result
        (path_bytes path.new ≡ with_name_of (path_bytes path.old) name.entry.bytes.now) }
    ensures err { OnErr result (path_bytes path.new ≡ path_bytes path.old) }
    ensures succeeds { length (with_name_of (path_bytes path.old) name.entry.bytes.now)
        ≤ capacity path.old → IsOk result }
    ensures capacity { capacity path.old ≤ capacity path.new }
{
    if cache.is_nameless_with_filler(bytes_of(path)) {
        return push(path, cache, Path::new(name));
    }
    path.set_file_name(name)?;
    if !cache.is_empty() {
        // The new path consists of unchanged bytes, at most one slash, and the name. If the name is
        // rooted, the new path is only the name, and the difference saturates to 0.
        let len = bytes_of(path).len();
        cache.truncate(len.saturating_sub(name.len() + 1));
    }
    Ok(())
}

// Replaces the extension of the file name, or removes it if the new one is empty. Neither this nor
// `add_extension` is inlined, so that the loop over a list stays small.
#[inline(never)]
#[tactic(auto, using(unix_path::proofs::lemmas::edits::EditLemmas::extension_cases))]
pub(super) fn set_extension(
    path: &mut PathBuf,
    cache: &mut ScanCache,
    extension: UnixStr<'_>,
) -> Result<bool, ExtensionError>
    requires { IsCacheOf (path_bytes path.old) cache.old }
    ensures cache { IsCacheOf (path_bytes path.new) cache.new }
    ensures separator { IsErrOf result ExtensionError.Separator
        ↔ (has_slash extension.entry.bytes.now ≡ true) }
    ensures value { IfOk result
        (λ answer. answer ≡ is_some (file_name_of (values (path_bytes path.old)))) }
    ensures ok { OnOk result
        (path_bytes path.new ≡ with_extension_of (path_bytes path.old) extension.entry.bytes.now) }
    ensures err { OnErr result (path_bytes path.new ≡ path_bytes path.old) }
    ensures succeeds { has_slash extension.entry.bytes.now ≡ false
        → length (with_extension_of (path_bytes path.old) extension.entry.bytes.now)
        ≤ capacity path.old → IsOk result }
    ensures capacity { capacity path.old ≤ capacity path.new }
    ensures succeeds_empty { extension.entry.bytes.now ≡ [] → IsOk result }
{
    let new = extension.as_bytes();
    if has_slash(new) {
        return Err(ExtensionError::Separator);
    }
    let Some(end) = cache.stem_end(bytes_of(path)) else {
        return Ok(false);
    };
    cache.truncate(end);
    path.replace_end(end, dot_before(new), new)?;
    Ok(true)
}

// Appends a dot and the extension to the file name, unless the extension is empty.
#[inline(never)]
#[tactic(auto, using(unix_path::proofs::lemmas::names::NameEndLemmas::added_cases))]
pub(super) fn add_extension(
    path: &mut PathBuf,
    cache: &mut ScanCache,
    extension: UnixStr<'_>,
) -> Result<bool, ExtensionError>
    requires { IsCacheOf (path_bytes path.old) cache.old }
    ensures cache { IsCacheOf (path_bytes path.new) cache.new }
    ensures separator { IsErrOf result ExtensionError.Separator
        ↔ (has_slash extension.entry.bytes.now ≡ true) }
    ensures value { IfOk result
        (λ answer. answer ≡ is_some (file_name_of (values (path_bytes path.old)))) }
    ensures ok { OnOk result
        (path_bytes path.new ≡ added_extension_of (path_bytes path.old) extension.entry.bytes.now) }
    ensures err { OnErr result (path_bytes path.new ≡ path_bytes path.old) }
    ensures succeeds { has_slash extension.entry.bytes.now ≡ false
        → length (added_extension_of (path_bytes path.old) extension.entry.bytes.now)
        ≤ capacity path.old → IsOk result }
    ensures capacity { capacity path.old ≤ capacity path.new }
    ensures succeeds_empty { extension.entry.bytes.now ≡ [] → IsOk result }
{
    let more = extension.as_bytes();
    if has_slash(more) {
        return Err(ExtensionError::Separator);
    }
    let Some(end) = cache.name_end(bytes_of(path)) else {
        return Ok(false);
    };
    if more.is_empty() {
        return Ok(true);
    }
    cache.truncate(end);
    path.replace_end(end, Some(b'.'), more)?;
    Ok(true)
}
