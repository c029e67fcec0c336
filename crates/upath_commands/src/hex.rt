//! Bytes in hexadecimal.
ghost use Rattle.std.specs.Prelude.{◌≡◌, ◌<◌, IfOk, option_map};
ghost use Rattle.upath_commands.specs.Hex.{digit_value, hex_digit, hex_of, hex_value};

use std::alloc::{AllocError, Global};

// Returns the digit of a number less than 16.
pub(crate) fn hex_digit(number: u8) -> u8
    requires { number < 16 }
    ensures { result ≡ hex_digit number }
{
    if number < 10 {
        b'0' + number
    } else {
        b'a' + (number - 10)
    }
}

// Returns these bytes in hexadecimal, two digits for each byte.
pub(crate) fn hex_of(alloc: Global, bytes: &[u8]) -> Result<Vec<u8>, AllocError>
    ensures { IfOk result (λ text. text.items ≡ hex_of bytes.now) }
{
    let mut text = Vec::new(alloc);
    for byte in bytes {
        text.push(hex_digit(*byte / 16))?;
        text.push(hex_digit(*byte % 16))?;
    }
    Ok(text)
}

// Returns the value of a digit, or `None` if this is no digit.
fn digit_value(digit: u8) -> Option<u8>
    ensures { result ≡ digit_value digit }
{
    match digit {
        b'0'..=b'9' => Some(digit - b'0'),
        b'a'..=b'f' => Some(digit - b'a' + 10),
        b'A'..=b'F' => Some(digit - b'A' + 10),
        _ => None,
    }
}

// Returns the bytes that this text is in hexadecimal, or `None` if it isn't hexadecimal.
#[tactic(auto, using(crate::proofs::lemmas::HexLemmas::no_value))]
pub(crate) fn hex_value(alloc: Global, text: &[u8]) -> Result<Option<Vec<u8>>, AllocError>
    ensures { IfOk result (λ found. option_map (λ bytes. bytes.items) found
        ≡ hex_value text.now) }
{
    let mut bytes = Vec::new(alloc);
    let mut rest = text;
    while let [high, low, after @ ..] = rest {
        let (Some(high), Some(low)) = (digit_value(*high), digit_value(*low)) else {
            return Ok(None);
        };
        bytes.push(16 * high + low)?;
        rest = after;
    }
    match rest {
        [] => Ok(Some(bytes)),
        _ => Ok(None),
    }
}
