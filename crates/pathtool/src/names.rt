//! Answers that are `+` and a slice of a path, such as its file name, or `-` if there is none.
ghost use Rattle.std.specs.Prelude.{◌≡◌, ◌++◌, OnOk, option_map};
ghost use Rattle.unix_path.specs.Parts.{values};
ghost use Rattle.unix_path.specs.Names.{file_name_of, stem_of, extension_of};
ghost use Rattle.pathtool.specs.Answers.{optional};

use std::alloc::AllocError;
use unix_bytes::bytes::UnixStr;
use unix_path::Path;

/// Appends `+` and the bytes of `found` to `answer`, or `-` if `found` is `None`.
///
/// For `Some` of `a` appends `+a`.
pub fn push_optional(found: Option<UnixStr<'_>>, answer: &mut Vec<u8>) -> Result<(), AllocError>
    ensures { OnOk result (answer.new.items ≡ answer.old.items
        ++ optional (option_map (λ name. name.bytes.now) found.entry)) }
{
    match found {
        None => answer.extend_from_slice(b"-"),
        Some(name) => {
            answer.push(b'+')?;
            answer.extend_from_slice(name.as_bytes())
        }
    }
}

/// Appends `+` and the path's file name to `answer`, or `-` if it has none.
///
/// For `a/b.c` appends `+b.c`, and for `..` appends `-`.
#[tactic(auto, using(crate::proofs::AddLemmas::adds_found))]
pub fn push_name(path: Path<'_>, answer: &mut Vec<u8>) -> Result<(), AllocError>
    ensures { OnOk result (answer.new.items
        ≡ answer.old.items ++ optional (file_name_of (values path.entry.bytes.now))) }
{
    push_optional(path.file_name(), answer)
}

/// Appends `+` and the stem of the path's file name to `answer`, or `-` if there is no file name.
///
/// For `a/b.c` appends `+b`, and for `..` appends `-`.
#[tactic(auto, using(crate::proofs::AddLemmas::adds_found))]
pub fn push_stem(path: Path<'_>, answer: &mut Vec<u8>) -> Result<(), AllocError>
    ensures { OnOk result (answer.new.items
        ≡ answer.old.items ++ optional (stem_of (values path.entry.bytes.now))) }
{
    push_optional(path.file_stem(), answer)
}

/// Appends `+` and the extension of the path's file name to `answer`, or `-` if there is no
/// extension.
///
/// For `a/b.c` appends `+c`, and for `b` appends `-`.
#[tactic(auto, using(crate::proofs::AddLemmas::adds_found))]
pub fn push_extension(path: Path<'_>, answer: &mut Vec<u8>) -> Result<(), AllocError>
    ensures { OnOk result (answer.new.items
        ≡ answer.old.items ++ optional (extension_of (values path.entry.bytes.now))) }
{
    push_optional(path.extension(), answer)
}
