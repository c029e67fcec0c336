//! Finds the first front of bytes: a sequence, or an invalid front.
ghost use Rattle.std.specs.Prelude.{◌≡◌, ◌↔◌, ◌<◌, ◌≤◌, IsTrue, length, slice_index};
ghost use Rattle.std.specs.Result.{IfOk, IfErr};
ghost use Rattle.unix_bytes.specs.Utf8.{is_sequence};
ghost use Rattle.unix_bytes.specs.Steps.{longest_len, HasBegun, broken_len};

use crate::utf8::classes::{
    is_lead, is_lead_of_four, is_lead_of_three, is_lead_of_two, is_tail, may_follow,
};

// Returns true if some sequence begins with the first two bytes. May return true for other bytes
// too, because it only tests that the first byte begins sequences of at least two bytes, and that
// the second is a tail byte.
#[inline(always)]
#[tactic(auto, using(crate::proofs::lemmas::sequences::HasBegunLemmas::pair_bounds))]
pub(crate) fn may_begin(source: &[u8]) -> bool
    requires { 0 < length source.now }
    ensures { HasBegun source.now 2 → IsTrue result }
{
    is_lead(source[0]) && 1 < source.len() && is_tail(source[1])
}

// Returns true if and only if there are at least two bytes and some sequence begins with the first
// two.
#[inline(always)]
#[tactic(auto, using(crate::proofs::lemmas::sequences::HasBegunLemmas::beginnings))]
fn begins_two(source: &[u8]) -> bool
    requires { 0 < length source.now }
    ensures { IsTrue result ↔ HasBegun source.now 2 }
{
    1 < source.len() && may_follow(source[0], source[1])
}

// Returns true if and only if there are at least three bytes and some sequence begins with the
// first three. The first byte must be at least E0.
#[inline(always)]
#[tactic(auto, using(crate::proofs::lemmas::sequences::HasBegunLemmas::all_beginnings))]
fn begins_three(source: &[u8]) -> bool
    requires some { 0 < length source.now }
    requires min { 0xE0 ≤ slice_index source.now 0 }
    ensures { IsTrue result ↔ HasBegun source.now 3 }
{
    2 < source.len() && begins_two(source) && is_tail(source[2])
}

// Returns true if and only if there are at least four bytes and some sequence begins with the first
// four. The first byte must be at least F0.
#[inline(always)]
#[tactic(auto, using(crate::proofs::lemmas::sequences::HasBegunLemmas::all_beginnings))]
pub(crate) fn begins_four(source: &[u8]) -> bool
    requires some { 0 < length source.now }
    requires min { 0xF0 ≤ slice_index source.now 0 }
    ensures { IsTrue result ↔ HasBegun source.now 4 }
{
    3 < source.len() && begins_three(source) && is_tail(source[3])
}

// Returns `Ok` with the length of the leading sequence, or `Err` with the length of the leading
// invalid front. The first byte must not be ASCII.
#[inline(always)]
#[tactic(auto, using(crate::proofs::lemmas::lossy::BrokenLemmas::two_byte_fronts))]
pub(crate) fn non_ascii_front(source: &[u8]) -> Result<usize, usize>
    requires some { 0 < length source.now }
    requires non_ascii { 0x80 ≤ slice_index source.now 0 }
    ensures within { IfOk result (λ n. n ≤ length source.now) }
    ensures sequence { IfOk result (λ n. (0 < n) × (n ≡ longest_len is_sequence source.now)) }
    ensures broken { IfErr result (λ n. (0 < n) × (n ≡ broken_len source.now)) }
{
    let first = source[0];
    if is_lead_of_two(first) {
        return if begins_two(source) { Ok(2) } else { Err(1) };
    }
    if is_lead_of_three(first) {
        return three_front(source);
    }
    if is_lead_of_four(first) {
        return four_front(source);
    }
    Err(1)
}

// Returns `Ok` with the length of the leading sequence, or `Err` with the length of the leading
// invalid front. The first byte must be from E0 to EF.
#[inline(always)]
#[tactic(auto, using(crate::proofs::lemmas::lossy::BrokenLemmas::three_byte_fronts))]
fn three_front(source: &[u8]) -> Result<usize, usize>
    requires some { 0 < length source.now }
    requires min { 0xE0 ≤ slice_index source.now 0 }
    requires max { slice_index source.now 0 ≤ 0xEF }
    ensures within { IfOk result (λ n. n ≤ length source.now) }
    ensures sequence { IfOk result (λ n. (0 < n) × (n ≡ longest_len is_sequence source.now)) }
    ensures broken { IfErr result (λ n. (0 < n) × (n ≡ broken_len source.now)) }
{
    if begins_three(source) {
        return Ok(3);
    }
    if begins_two(source) { Err(2) } else { Err(1) }
}

// Returns `Ok` with the length of the leading sequence, or `Err` with the length of the leading
// invalid front. The first byte must be at least F0.
#[inline(always)]
#[tactic(auto, using(crate::proofs::lemmas::lossy::BrokenLemmas::four_byte_fronts))]
fn four_front(source: &[u8]) -> Result<usize, usize>
    requires some { 0 < length source.now }
    requires min { 0xF0 ≤ slice_index source.now 0 }
    ensures within { IfOk result (λ n. n ≤ length source.now) }
    ensures sequence { IfOk result (λ n. (0 < n) × (n ≡ longest_len is_sequence source.now)) }
    ensures broken { IfErr result (λ n. (0 < n) × (n ≡ broken_len source.now)) }
{
    if begins_four(source) {
        return Ok(4);
    }
    if begins_three(source) {
        return Err(3);
    }
    if begins_two(source) { Err(2) } else { Err(1) }
}
