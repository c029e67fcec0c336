//! Laws of UTF-8 and of lossy forms. Each function does nothing, and its contract is the law.
#![tactic(auto, using(crate::proofs::lemmas::LawRules::laws))]

ghost use Rattle.unix_bytes.specs.Laws.{TextIsUtf8, SequencesStandAlone, BeginningIsTested};
ghost use Rattle.unix_bytes.specs.Laws.{TextIsTested, FrontsPartition, FrontsOneByOne, FrontsBegin};
ghost use Rattle.unix_bytes.specs.Laws.{FrontIsLongest, BrokenIsShort, LossyOfSequence};
ghost use Rattle.unix_bytes.specs.Laws.{LossyOfBroken, LossyOfText, LossyIsText, LossyIsShort};
ghost use Rattle.unix_bytes.specs.Laws.{ChunksOfNothing, ChunksOfSome, ChunksPartition};
ghost use Rattle.unix_bytes.specs.Laws.{ChunksAreShort, WholeChunkIsLast, ChunksShowLossy};
ghost use Rattle.std.specs.Prelude.{◌≡◌, ◌↔◌, IsTrue};
ghost use Rattle.std.specs.Cmp.Lexicographic.{slice_cmp};
ghost use Rattle.std.specs.Ordering.{nat_cmp};
ghost use Rattle.unix_bytes.specs.Owned.{owned_bytes};
ghost use Rattle.unix_bytes.specs.declared.bytes.UnixStr.{UnixStr};
ghost use Rattle.unix_bytes.specs.declared.bytes.owned.UnixString.{UnixString};

use crate::bytes::{UnixStr, UnixString};

/// Bytes are valid UTF-8 by the table of RFC 3629, section 4, if and only if Rattle's std defines
/// them as UTF-8.
pub fn text_is_utf8()
    ensures { TextIsUtf8 }
{}

/// No sequence is a proper prefix of another.
pub fn sequences_stand_alone()
    ensures { SequencesStandAlone }
{}

/// The definitions have two tests of bytes. `begins_sequence` is true if and only if some sequence
/// begins with the bytes (`beginning`). `is_text` is true if and only if the bytes are valid UTF-8
/// (`text`).
pub fn tests_are_right()
    ensures beginning { BeginningIsTested }
    ensures text { TextIsTested }
{}

/// The fronts, one after the other, are the bytes. The fronts after the first are the fronts of the
/// bytes after the first front.
pub fn fronts_one_by_one()
    ensures partition { FrontsPartition }
    ensures next { FrontsOneByOne }
{}

/// Each front begins some sequence, or is one byte. No prefix of the bytes that begins some
/// sequence is longer than the first front. If no prefix of the bytes is a sequence, the first
/// front has at most three bytes.
pub fn broken_front()
    ensures begins { FrontsBegin }
    ensures longest { FrontIsLongest }
    ensures len_bound { BrokenIsShort }
{}

/// The lossy form has a leading sequence unchanged, or U+FFFD for a leading invalid front, and then
/// the lossy form of the rest.
pub fn lossy_one_by_one()
    ensures sequence { LossyOfSequence }
    ensures broken { LossyOfBroken }
{}

/// Valid UTF-8 is its own lossy form: no U+FFFD is added.
///
/// For `tmp` the lossy form is `tmp`.
pub fn lossy_of_text()
    ensures { LossyOfText }
{}

/// The lossy form of any bytes is valid UTF-8.
pub fn lossy_is_text()
    ensures { LossyIsText }
{}

/// The lossy form is at most three times as long as the bytes, which bounds the buffer that it
/// needs.
///
/// The lossy form of the byte FF is the three bytes EF BF BD. The lossy form of `tmp` is `tmp`.
pub fn lossy_is_short()
    ensures { LossyIsShort }
{}

/// The empty byte string has no chunks. The first chunk of any other byte string is the longest
/// prefix that is valid UTF-8, and the front after it. The chunks after the first are the chunks of
/// the bytes after the first chunk.
pub fn chunks_one_by_one()
    ensures nothing { ChunksOfNothing }
    ensures some { ChunksOfSome }
{}

/// The chunks, one after the other, are the bytes. Each chunk has at most three invalid bytes, and
/// each except the last has at least one.
pub fn chunks_partition()
    ensures partition { ChunksPartition }
    ensures len_bound { ChunksAreShort }
    ensures last { WholeChunkIsLast }
{}

/// The chunks, one after the other and with U+FFFD instead of each invalid front, are the lossy
/// form of the bytes.
pub fn chunks_show_lossy()
    ensures { ChunksShowLossy }
{}

/// Byte strings are equal if and only if their bytes are. They are ordered byte by byte, and a
/// proper prefix is less than the longer string.
///
/// The clauses are about `==` and `cmp` of views (`view`, `view_order`) and of owned byte strings
/// (`owned`, `owned_order`).
///
/// `ab` is less than `abc`, and `abc` is less than `b`.
pub fn bytes_ordered()
    ensures view { (x y : UnixStr) →
        IsTrue (⟦<UnixStr<'static> as PartialEq>⟧.eq x y) ↔ (x.bytes.now ≡ y.bytes.now) }
    ensures view_order { (x y : UnixStr) →
        ⟦<UnixStr<'static> as Ord>⟧.cmp x y ≡ slice_cmp nat_cmp x.bytes.now y.bytes.now }
    ensures owned { (x y : UnixString) →
        IsTrue (⟦<UnixString as PartialEq>⟧.eq x y) ↔ (owned_bytes x ≡ owned_bytes y) }
    ensures owned_order { (x y : UnixString) →
        ⟦<UnixString as Ord>⟧.cmp x y ≡ slice_cmp nat_cmp (owned_bytes x) (owned_bytes y) }
{}
