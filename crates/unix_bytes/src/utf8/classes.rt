//! Tests of one byte in UTF-8, or of two consecutive bytes.
ghost use Rattle.std.specs.Prelude.{◌≡◌, ◌↔◌, ◌≤◌, ◌∷◌, [], IsTrue};
ghost use Rattle.unix_bytes.specs.Utf8.{begins_sequence};

// Returns true if and only if the byte is a tail byte: 80 to BF.
#[inline(always)]
pub(crate) fn is_tail(b: u8) -> bool
    ensures { IsTrue result ↔ (0x80 ≤ b) × (b ≤ 0xBF) }
{
    0x80 <= b && b <= 0xBF
}

// Returns true if and only if some sequence of at least two bytes begins with the byte.
#[inline(always)]
pub(crate) fn is_lead(b: u8) -> bool
    ensures { IsTrue result ↔ (0xC2 ≤ b) × (b ≤ 0xF4) }
{
    0xC2 <= b && b <= 0xF4
}

// Returns true if and only if sequences of two bytes begin with the byte.
#[inline(always)]
pub(crate) fn is_lead_of_two(b: u8) -> bool
    ensures { IsTrue result ↔ (0xC2 ≤ b) × (b ≤ 0xDF) }
{
    0xC2 <= b && b <= 0xDF
}

// Returns true if and only if sequences of three bytes begin with the byte.
#[inline(always)]
pub(crate) fn is_lead_of_three(b: u8) -> bool
    ensures { IsTrue result ↔ (0xE0 ≤ b) × (b ≤ 0xEF) }
{
    0xE0 <= b && b <= 0xEF
}

// Returns true if and only if sequences of four bytes begin with the byte.
#[inline(always)]
pub(crate) fn is_lead_of_four(b: u8) -> bool
    ensures { IsTrue result ↔ (0xF0 ≤ b) × (b ≤ 0xF4) }
{
    0xF0 <= b && b <= 0xF4
}

// Returns true if and only if some sequence begins with these two bytes.
#[inline(always)]
#[tactic(auto, unfolding(crate::specs::Utf8::begins_sequence))]
pub(crate) fn may_follow(first: u8, second: u8) -> bool
    ensures { result ≡ begins_sequence (first ∷ second ∷ []) }
{
    match first {
        0xC2..=0xDF => is_tail(second),
        0xE0 => 0xA0 <= second && second <= 0xBF,
        0xED => 0x80 <= second && second <= 0x9F,
        0xF0 => 0x90 <= second && second <= 0xBF,
        0xF4 => 0x80 <= second && second <= 0x8F,
        0xE1..=0xF3 => is_tail(second),
        _ => false,
    }
}
