//! Setting and adding extensions, in place and on copies of a path.
ghost use Rattle.std.specs.Prelude.{◌≡◌, ◌≤◌, ◌↔◌, true, false, [], ◌++◌, length, take, None};
ghost use Rattle.std.specs.Prelude.{Some, IfOk, IfSome, OnOk, OnErr, IsOk, IsErrOf, is_some};
ghost use Rattle.std.specs.Fmt.{padded};
ghost use Rattle.unix_path.specs.Buffers.{path_bytes, capacity};
ghost use Rattle.unix_path.specs.Edits.{dot_before, with_extension_of};
ghost use Rattle.unix_path.specs.Extensions.{has_slash, added_extension_of};
ghost use Rattle.unix_path.specs.Names.{file_name_of};
ghost use Rattle.unix_path.specs.Parts.{values};
ghost use Rattle.std.specs.Option.{option_to_list};

use crate::buf::PathBuf;
use crate::buf::edits::{concat_with_separator, total_len};
use crate::path::Path;
use crate::stems::{dot_before, has_slash};
use std::alloc::{AllocError, Global};
use std::error::Error;
use std::fmt;
use unix_bytes::bytes::UnixStr;

/// The error of setting or adding an extension.
///
/// Each variant is printed as the text in its comment, formatted like a `str` (width, precision,
/// fill and alignment). Rust has no such error: it panics if the extension contains a separator.
///
/// Setting the extension `x/y` on `a` fails with `Separator`.
#[derive(Debug, Drop)]
pub enum ExtensionError {
    /// The extension contains a `/`, and would add components: `extension contains a separator`.
    Separator,
    /// An allocation failed: `out of memory`.
    Memory(AllocError),
}

/// Writes the variant's text, formatted like a `str` (width, precision, fill and alignment).
///
/// `ExtensionError::Separator` is printed as `extension contains a separator`.
impl fmt::Display for ExtensionError {
    ghost use Rattle.unix_path.specs.Extensions.{extension_error_text};

    ghost output = { λ error. Some (extension_error_text error) };

    ghost styled_output = { λ error spec. Some (padded spec (extension_error_text error)) };

    fn fmt<W: fmt::Write>(&self, f: &mut fmt::Formatter<W>) -> fmt::Result {
        f.pad(match self {
            ExtensionError::Separator => "extension contains a separator",
            ExtensionError::Memory(_) => "out of memory",
        })
    }
}

impl Error for ExtensionError {}

/// Converts the error of an allocation into `Memory`.
///
/// This lets `?` work on a `PathBuf::push` in a function whose error is an `ExtensionError`.
impl From<AllocError> for ExtensionError {
    ghost use Rattle.unix_path.specs.declared.buf.extensions.ExtensionError.TheVariants.{Memory};

    ghost from_gives = { λ error variant. variant ≡ Memory error };

    fn from(error: AllocError) -> ExtensionError {
        ExtensionError::Memory(error)
    }
}

impl PathBuf {
    /// Replaces everything after the stem of the file name by a dot and the extension, and returns
    /// true. An empty extension adds no dot. If there is no file name, leaves the bytes unchanged
    /// and returns false.
    ///
    /// The error is `Separator` if and only if the extension contains a `/`, whether or not there
    /// is a file name. It is returned before anything is allocated. The error is `Memory` if the
    /// allocation fails. Both errors leave the bytes unchanged. Allocates only if the result is
    /// longer than the capacity, and then once. Rust panics if the extension contains a separator.
    ///
    /// `foo.rs/.` with the extension `txt` is `foo.txt`.
    #[tactic(auto, using(crate::proofs::lemmas::edits::EditLemmas::extension_cases))]
    pub fn set_extension(&mut self, extension: UnixStr<'_>) -> Result<bool, ExtensionError>
        ensures separator { IsErrOf result ExtensionError.Separator
            ↔ (has_slash extension.entry.bytes.now ≡ true) }
        ensures value { IfOk result
            (λ answer. answer ≡ is_some (file_name_of (values (path_bytes self.old)))) }
        ensures ok { OnOk result
            (path_bytes self.new
            ≡ with_extension_of (path_bytes self.old) extension.entry.bytes.now) }
        ensures err { OnErr result (path_bytes self.new ≡ path_bytes self.old) }
        ensures succeeds { has_slash extension.entry.bytes.now ≡ false
            → length (with_extension_of (path_bytes self.old) extension.entry.bytes.now)
            ≤ capacity self.old → IsOk result }
        ensures succeeds_nameless { has_slash extension.entry.bytes.now ≡ false
            → file_name_of (values (path_bytes self.old)) ≡ None → IsOk result }
        ensures succeeds_empty { extension.entry.bytes.now ≡ [] → IsOk result }
        ensures capacity { capacity self.old ≤ capacity self.new }
    {
        let new = extension.bytes;
        if has_slash(new) {
            return Err(ExtensionError::Separator);
        }
        let Some(end) = self.as_path().stem_end() else {
            return Ok(false);
        };
        self.replace_end_exact(end, dot_before(new), new)?;
        Ok(true)
    }

    /// Replaces everything after the file name by a dot and the extension. Leaves the bytes
    /// unchanged if the extension is empty or there is no file name. Returns true if and only if
    /// there is a file name.
    ///
    /// The error is `Separator` if and only if the extension contains a `/`, whether or not there
    /// is a file name. It is returned before anything is allocated. The error is `Memory` if the
    /// allocation fails. Both errors leave the bytes unchanged. Allocates only if the result is
    /// longer than the capacity, and then once. Rust panics if the extension contains a separator.
    ///
    /// `foo.tar/.` with the extension `gz` added is `foo.tar.gz`.
    #[tactic(auto, using(crate::proofs::lemmas::names::NameEndLemmas::added_cases))]
    pub fn add_extension(&mut self, extension: UnixStr<'_>) -> Result<bool, ExtensionError>
        ensures separator { IsErrOf result ExtensionError.Separator
            ↔ (has_slash extension.entry.bytes.now ≡ true) }
        ensures value { IfOk result
            (λ answer. answer ≡ is_some (file_name_of (values (path_bytes self.old)))) }
        ensures ok { OnOk result
            (path_bytes self.new
            ≡ added_extension_of (path_bytes self.old) extension.entry.bytes.now) }
        ensures err { OnErr result (path_bytes self.new ≡ path_bytes self.old) }
        ensures succeeds { has_slash extension.entry.bytes.now ≡ false
            → length (added_extension_of (path_bytes self.old) extension.entry.bytes.now)
            ≤ capacity self.old → IsOk result }
        ensures succeeds_nameless { has_slash extension.entry.bytes.now ≡ false
            → file_name_of (values (path_bytes self.old)) ≡ None → IsOk result }
        ensures succeeds_empty { extension.entry.bytes.now ≡ [] → IsOk result }
        ensures capacity { capacity self.old ≤ capacity self.new }
    {
        let more = extension.bytes;
        if has_slash(more) {
            return Err(ExtensionError::Separator);
        }
        let Some(end) = self.as_path().name_end() else {
            return Ok(false);
        };
        if more.is_empty() {
            return Ok(true);
        }
        self.replace_end_exact(end, Some(b'.'), more)?;
        Ok(true)
    }

    // Does the same as `replace_end`, but if the capacity has to grow, it grows to exactly the new
    // length.
    #[inline]
    fn replace_end_exact(
        &mut self,
        keep: usize,
        separator: Option<u8>,
        more: &[u8],
    ) -> Result<(), AllocError>
        requires { keep ≤ length (path_bytes self.old) }
        ensures ok { OnOk result
            (path_bytes self.new ≡ (take keep (path_bytes self.old) ++ option_to_list separator)
            ++ more.now) }
        ensures err { OnErr result (path_bytes self.new ≡ path_bytes self.old) }
        ensures succeeds { length
            ((take keep (path_bytes self.old) ++ option_to_list separator) ++ more.now)
            ≤ capacity self.old → IsOk result }
        ensures capacity { capacity self.old ≤ capacity self.new }
    {
        let len = self.inner.as_unix_str().len();
        let growth = total_len(keep, separator, more).saturating_sub(len);
        self.inner.reserve_exact(growth)?;
        self.replace_end(keep, separator, more)
    }
}

impl<'a> Path<'a> {
    /// Returns a copy of the path, with its extension set as by `PathBuf::set_extension`.
    ///
    /// The error is `Separator` if and only if the extension contains a `/`. It is returned before
    /// anything is allocated. The error is `Memory` if the allocation fails. Allocates once. If the
    /// result is empty, it does not allocate, and succeeds. Rust panics if the extension contains a
    /// separator, and returns `..` for the path `..a` whatever the extension.
    ///
    /// `foo.rs` with the extension `txt` is `foo.txt`, and `..` stays `..`.
    #[tactic(auto, using(crate::proofs::lemmas::edits::EditLemmas::extension_cases))]
    pub fn with_extension(
        &self,
        alloc: Global,
        extension: UnixStr<'_>,
    ) -> Result<PathBuf, ExtensionError>
        ensures separator { IsErrOf result ExtensionError.Separator
            ↔ (has_slash extension.entry.bytes.now ≡ true) }
        ensures value { IfOk result
            (λ p. path_bytes p ≡ with_extension_of self.now.bytes.now extension.entry.bytes.now) }
        ensures succeeds { has_slash extension.entry.bytes.now ≡ false
            → with_extension_of self.now.bytes.now extension.entry.bytes.now ≡ [] → IsOk result }
    {
        let bytes = extension.bytes;
        if has_slash(bytes) {
            return Err(ExtensionError::Separator);
        }
        let copy = match self.stem_end() {
            Some(end) => concat_with_separator(
                alloc,
                &self.bytes[..end],
                dot_before(bytes),
                bytes,
            )?,
            None => self.to_path_buf(alloc)?,
        };
        Ok(copy)
    }

    /// Returns a copy of the path, with the extension added as by `PathBuf::add_extension`.
    ///
    /// The error is `Separator` if and only if the extension contains a `/`. It is returned before
    /// anything is allocated. The error is `Memory` if the allocation fails. Allocates once. If the
    /// result is empty, it does not allocate, and succeeds. Rust panics if the extension contains a
    /// separator.
    ///
    /// `foo.tar` with the extension `gz` added is `foo.tar.gz`, and `..` stays `..`.
    #[tactic(auto, using(crate::proofs::lemmas::names::NameEndLemmas::added_cases))]
    pub fn with_added_extension(
        &self,
        alloc: Global,
        extension: UnixStr<'_>,
    ) -> Result<PathBuf, ExtensionError>
        ensures separator { IsErrOf result ExtensionError.Separator
            ↔ (has_slash extension.entry.bytes.now ≡ true) }
        ensures value { IfOk result
            (λ p. path_bytes p ≡ added_extension_of self.now.bytes.now extension.entry.bytes.now) }
        ensures succeeds { has_slash extension.entry.bytes.now ≡ false
            → added_extension_of self.now.bytes.now extension.entry.bytes.now ≡ [] → IsOk result }
    {
        let added = extension.bytes;
        if has_slash(added) {
            return Err(ExtensionError::Separator);
        }
        let copy = match self.name_end() {
            Some(end) if !added.is_empty() => {
                concat_with_separator(alloc, &self.bytes[..end], Some(b'.'), added)?
            }
            _ => self.to_path_buf(alloc)?,
        };
        Ok(copy)
    }
}
