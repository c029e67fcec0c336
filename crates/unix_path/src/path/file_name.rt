//! The file name of a path, and the name's stem, extension and prefix.
ghost use Rattle.std.specs.Prelude.{◌≡◌, ◌≤◌, length, take, option_map, IfSome};
ghost use Rattle.unix_path.specs.Parts.{values};
ghost use Rattle.unix_path.specs.Names.{file_name_of, stem_of, extension_of, file_prefix_of};
ghost use Rattle.unix_path.specs.Edits.{before_name_of, stem_end_of};
ghost use Rattle.unix_path.specs.Extensions.{name_end_of};
ghost use Rattle.unix_path.specs.Slices.{LiesIn, memory_offset};

use crate::cursor::{Component, Components, split_last_root_or_name};
use crate::filler::trimmed_len;
use crate::names::name_prefix;
use crate::path::Path;
use crate::path_end::ends_in_name;
use crate::stems::stem_end;
use unix_bytes::bytes::UnixStr;

impl<'a> Path<'a> {
    /// Returns the last component if it is a name. Returns `None` if the path is empty, or if the
    /// last component is the root, `.` or `..`. Rust's documentation mentions only `..`.
    ///
    /// For `foo.txt/.//` it is `foo.txt`.
    #[must_use]
    #[inline]
    #[tactic(auto, using(crate::proofs::lemmas::walks::ComponentLemmas::file_names))]
    pub fn file_name(&self) -> Option<UnixStr<'a>>
        ensures { option_map (λ name. name.bytes.now) result
            ≡ file_name_of (values self.now.bytes.now) }
    {
        let Some(last) = Components::last_part(self.bytes) else {
            return None;
        };
        match last.part {
            Component::Normal(name) => Some(name),
            _ => None,
        }
    }

    /// Returns the file name up to its last dot, or `None` if there is no file name.
    ///
    /// Returns the whole name if it has no dot, or if its last dot is its first byte.
    ///
    /// For `foo.tar.gz` it is `foo.tar`, and for `.foo` it is `.foo`.
    #[must_use]
    #[inline]
    #[tactic(auto, using(crate::proofs::lemmas::names::NameStemLemmas::stems))]
    pub fn file_stem(&self) -> Option<UnixStr<'a>>
        ensures { option_map (λ stem. stem.bytes.now) result ≡ stem_of (values self.now.bytes.now) }
    {
        let Some(name) = self.file_name() else {
            return None;
        };
        let end = stem_end(name.bytes, 0);
        Some(UnixStr {
            bytes: &name.bytes[..end],
        })
    }

    /// Returns the part of the file name after its last dot, without the dot.
    ///
    /// Returns `None` if there is no file name, if it has no dot, or if its last dot is its first
    /// byte. The result is a slice of the path's bytes, even if it is empty.
    ///
    /// For `foo.tar.gz` it is `gz`, and for `foo.` it is empty.
    #[must_use]
    #[inline]
    #[tactic(auto, using(crate::proofs::lemmas::names::NameStemLemmas::extensions))]
    pub fn extension(&self) -> Option<UnixStr<'a>>
        ensures value { option_map (λ part. part.bytes.now) result
            ≡ extension_of (values self.now.bytes.now) }
        ensures place { IfSome result (λ part. LiesIn part.bytes self.now.bytes) }
    {
        let Some(end) = self.name_end() else {
            return None;
        };
        let named = &self.bytes[..end];
        let stem = stem_end(named, 0);
        if stem == end {
            return None;
        }
        Some(UnixStr {
            bytes: &named[stem + 1..],
        })
    }

    /// Returns the file name up to its first dot, ignoring a leading dot. Returns the whole name if
    /// it has no other dot, and `None` if there is no file name.
    ///
    /// For `foo.tar.gz` it is `foo`, and for `.foo.rs` it is `.foo`.
    #[must_use]
    #[inline]
    pub fn file_prefix(&self) -> Option<UnixStr<'a>>
        ensures { option_map (λ prefix. prefix.bytes.now) result
            ≡ file_prefix_of (values self.now.bytes.now) }
    {
        match self.file_name() {
            Some(name) => Some(UnixStr {
                bytes: name_prefix(name.bytes),
            }),
            None => None,
        }
    }

    /// Returns the path without its file name and the filler around it, or the whole path if there
    /// is no file name. The result is a prefix of the path's bytes; `with_file_name` joins a name
    /// to it.
    ///
    /// For `a//b/.` it is `a`, and for `a/..` it is `a/..`.
    #[must_use]
    #[inline]
    pub fn before_name(&self) -> Path<'a>
        ensures value { result.bytes.now ≡ before_name_of self.now.bytes.now }
        ensures begins { take (length result.bytes.now) self.now.bytes.now ≡ result.bytes.now }
        ensures place { LiesIn result.bytes self.now.bytes }
        ensures start { memory_offset result.bytes ≡ memory_offset self.now.bytes }
    {
        let Some(end) = self.name_end() else {
            return *self;
        };
        let (len, _name) = split_last_root_or_name(&self.bytes[..end]);
        Path {
            bytes: &self.bytes[..len],
        }
    }

    /// Returns the index just after the stem of the file name, or `None` if there is no file name.
    /// `with_extension` keeps the path up to this index.
    ///
    /// For `a/foo.rs/` it is 5.
    #[must_use]
    #[inline]
    #[tactic(auto, using(crate::proofs::lemmas::names::StemCutLemmas::stem_ends))]
    pub fn stem_end(&self) -> Option<usize>
        ensures value { result ≡ stem_end_of self.now.bytes.now }
        ensures in_range { IfSome result (λ end. end ≤ length self.now.bytes.now) }
    {
        let Some(end) = self.name_end() else {
            return None;
        };
        Some(stem_end(&self.bytes[..end], 0))
    }

    /// Returns the index just after the file name, or `None` if there is no file name.
    /// `with_added_extension` keeps the path up to this index.
    ///
    /// Reads only the end of the last component and the filler after it. For `a/foo.rs/` it is 8.
    #[must_use]
    #[inline]
    pub fn name_end(&self) -> Option<usize>
        ensures value { result ≡ name_end_of self.now.bytes.now }
        ensures in_range { IfSome result (λ end. end ≤ length self.now.bytes.now) }
    {
        let end = trimmed_len(self.bytes, 0, self.bytes.len());
        if !ends_in_name(&self.bytes[..end]) {
            return None;
        }
        Some(end)
    }
}
