//! Answers that are `true` or `false`, or the order of two paths.
ghost use Rattle.std.specs.Prelude.{◌≡◌, ◌++◌, OnOk};
ghost use Rattle.std.specs.List.{starts_with, ends_with};
ghost use Rattle.unix_path.specs.Parts.{values};
ghost use Rattle.unix_path.specs.Order.{same_value, values_cmp};
ghost use Rattle.pathtool.specs.Fields.{bool_text};
ghost use Rattle.pathtool.specs.Answers.{order_text};

use std::alloc::AllocError;
use std::cmp::Ordering;
use unix_path::Path;

// Appends `true` or `false`.
fn push_bool(is_so: bool, answer: &mut Vec<u8>) -> Result<(), AllocError>
    ensures { OnOk result (answer.new.items ≡ answer.old.items ++ bool_text is_so) }
{
    if is_so {
        answer.extend_from_slice(b"true")
    } else {
        answer.extend_from_slice(b"false")
    }
}

/// Appends `true` to `answer` if the path starts with the components of `base`, and otherwise
/// `false`.
///
/// For `a/b` and `a` appends `true`.
#[tactic(auto, using(crate::proofs::AddLemmas::adds_starts))]
pub fn push_starts(path: Path<'_>, base: Path<'_>, answer: &mut Vec<u8>) -> Result<(), AllocError>
    ensures { OnOk result (answer.new.items ≡ answer.old.items
        ++ bool_text (starts_with same_value (values path.entry.bytes.now)
        (values base.entry.bytes.now))) }
{
    push_bool(path.starts_with(base), answer)
}

/// Appends `true` to `answer` if the path ends with the components of `child`, and otherwise
/// `false`.
///
/// For `a/b` and `b` appends `true`.
#[tactic(auto, using(crate::proofs::AddLemmas::adds_ends))]
pub fn push_ends(path: Path<'_>, child: Path<'_>, answer: &mut Vec<u8>) -> Result<(), AllocError>
    ensures { OnOk result (answer.new.items ≡ answer.old.items
        ++ bool_text (ends_with same_value (values path.entry.bytes.now)
        (values child.entry.bytes.now))) }
{
    push_bool(path.ends_with(child), answer)
}

/// Appends the order of the two paths to `answer`: `less`, `equal` or `greater`.
///
/// For `a` and `b` appends `less`.
pub fn push_order(path: Path<'_>, other: Path<'_>, answer: &mut Vec<u8>) -> Result<(), AllocError>
    ensures { OnOk result (answer.new.items ≡ answer.old.items
        ++ order_text (values_cmp (values path.entry.bytes.now)
        (values other.entry.bytes.now))) }
{
    match path.cmp(&other) {
        Ordering::Less => answer.extend_from_slice(b"less"),
        Ordering::Equal => answer.extend_from_slice(b"equal"),
        Ordering::Greater => answer.extend_from_slice(b"greater"),
    }
}
