//! Strings converted from bytes that may be invalid UTF-8.
ghost use Rattle.std.specs.Prelude.{◌≡◌, ◌↔◌, [], Some, IsOk, IfOk, IsTrue, nat_eq};
ghost use Rattle.std.specs.Ordering.{nat_cmp};
ghost use Rattle.std.specs.Cmp;
ghost use Rattle.std.specs.Cmp.{on_equiv, on_per, on_po, on_total};
ghost use Rattle.std.specs.Cmp.Lexicographic.{pointwise, slice_cmp, bytes_decides, texts_po};
ghost use Rattle.std.specs.Cmp.Lexicographic.{nat_list_eq_equiv, nat_list_cmp_total, texts_ties};
ghost use Rattle.std.specs.Fmt.{padded, debug_str};
ghost use Rattle.std.specs.Hash as fed;
ghost use Rattle.std.specs.String.{string_bytes};
ghost use Rattle.std.proofs.Common.{ap, refl};
ghost use Rattle.unix_bytes.specs.Text.{text_bytes, IsBorrowed};

use crate::order::compare_bytes;
use std::alloc::{AllocError, Global};
use std::cmp::Ordering;
use std::fmt;
use std::hash::{Hash, Hasher};

/// The lossy form of some bytes: borrowed from them if they are valid UTF-8, and owned otherwise.
///
/// Comparison, hashing and printing use the string, whether it is borrowed or owned. Corresponds to
/// Rust's `Cow<str>`.
#[derive(Drop)]
pub enum LossyText<'a> {
    /// The bytes that were converted, unchanged.
    Borrowed(&'a str),
    /// A new string.
    Owned(String),
}

impl LossyText<'_> {
    /// Returns the string, borrowed or owned. Corresponds to `Deref` of Rust's `Cow<str>`.
    ///
    /// For the bytes 61 FF the string is `a` and U+FFFD.
    pub fn as_str(&self) -> &str
        ensures { result.now ≡ text_bytes self.now }
    {
        match self {
            LossyText::Borrowed(text) => text,
            LossyText::Owned(text) => text.as_str(),
        }
    }

    /// Returns the string as a `String`: a copy if it is borrowed, and the string itself if it is
    /// owned.
    ///
    /// A copy allocates once, with the length of the string; fails if the allocation fails. If the
    /// string is owned or empty, nothing is allocated and the call succeeds.
    ///
    /// For `ab`, borrowed from bytes, the result is another `ab`.
    pub fn into_owned(self, alloc: Global) -> Result<String, AllocError>
        ensures bytes { IfOk result (λ text. string_bytes text ≡ text_bytes self.entry) }
        ensures succeeds { ¬ (IsBorrowed self.entry) → IsOk result }
        ensures succeeds_empty { text_bytes self.entry ≡ [] → IsOk result }
    {
        match self {
            LossyText::Borrowed(text) => {
                let mut owned = String::with_capacity(alloc, text.len())?;
                owned.push_str(text)?;
                Ok(owned)
            }
            LossyText::Owned(text) => Ok(text),
        }
    }
}

/// Two strings are equal if and only if their bytes are, whether the strings are borrowed or owned.
impl PartialEq for LossyText<'_> {
    ghost eq = { λ x y. pointwise nat_eq (text_bytes x) (text_bytes y) };

    ghost laws = { on_per text_bytes (Cmp.partial_equiv_from_equiv nat_list_eq_equiv) };

    fn eq(&self, other: &Self) -> bool
        ensures value { result ≡ pointwise nat_eq (text_bytes self.now) (text_bytes other.now) }
        ensures same { IsTrue result ↔ (text_bytes self.now ≡ text_bytes other.now) }
    {
        self.as_str() == other.as_str()
    }
}

/// Each string equals itself.
impl Eq for LossyText<'_> {
    ghost laws = { on_equiv text_bytes nat_list_eq_equiv };
}

/// Returns the order that `cmp` returns, and never `None`.
impl PartialOrd for LossyText<'_> {
    ghost partial_cmp = { λ x y. Some (slice_cmp nat_cmp (text_bytes x) (text_bytes y)) };

    ghost laws = { on_po text_bytes texts_po };

    fn partial_cmp(&self, other: &Self) -> Option<Ordering> {
        Some(self.cmp(other))
    }
}

/// Compares byte by byte, like `str`. A proper prefix is less than the longer string.
impl Ord for LossyText<'_> {
    ghost cmp = { λ x y. slice_cmp nat_cmp (text_bytes x) (text_bytes y) };

    ghost total = { on_total text_bytes nat_list_cmp_total };

    ghost matches_partial_cmp = { λ x y. refl };

    ghost matches_eq = { λ x y. texts_ties (text_bytes x) (text_bytes y) };

    fn cmp(&self, other: &Self) -> Ordering {
        compare_bytes(self.as_str().as_bytes(), other.as_str().as_bytes())
    }
}

/// Hashes like `as_str`.
impl Hash for LossyText<'_> {
    ghost hash_input = { λ text. fed.str (text_bytes text) };

    ghost respects_eq = { λ x y e. ap fed.str
        ((bytes_decides (text_bytes x) (text_bytes y)).0 e) };

    fn hash<H: Hasher>(&self, state: &mut H) {
        self.as_str().hash(state);
    }
}

/// Writes the string like a `str`, with width, precision, fill and alignment. Fails only if the
/// writer fails.
impl fmt::Display for LossyText<'_> {
    ghost output = { λ text. Some (text_bytes text) };

    ghost styled_output = { λ text spec. Some (padded spec (text_bytes text)) };

    fn fmt<W: fmt::Write>(&self, f: &mut fmt::Formatter<W>) -> fmt::Result {
        f.pad(self.as_str())
    }
}

/// Writes the debug form of the string: in quotes, with escapes. Fails only if the writer fails.
impl fmt::Debug for LossyText<'_> {
    ghost debug_output = { λ text. debug_str (text_bytes text) };

    fn fmt<W: fmt::Write>(&self, f: &mut fmt::Formatter<W>) -> fmt::Result {
        fmt::Debug::fmt(self.as_str(), f)
    }
}
