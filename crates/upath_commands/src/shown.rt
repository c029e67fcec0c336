//! Bytes as messages show them, so that no path can forge a message.
ghost use Rattle.std.specs.Prelude.{◌≡◌, ◌++◌, OnOk};
ghost use Rattle.std.specs.List.{flat_map};
ghost use Rattle.upath_commands.specs.Shown.{escaped, shown, shown_text};

use crate::hex::hex_digit;
use std::alloc::AllocError;
use unix_bytes::lossy::{Utf8Lossy, Utf8LossyChunk};

// Appends `\x` and the two digits of a byte.
fn push_escaped(byte: u8, out: &mut Vec<u8>) -> Result<(), AllocError>
    ensures { OnOk result (out.new.items ≡ out.old.items ++ escaped byte) }
{
    out.extend_from_slice(b"\\x")?;
    out.push(hex_digit(byte / 16))?;
    out.push(hex_digit(byte % 16))?;
    Ok(())
}

// Appends valid UTF-8, with escaped control characters and backslashes.
fn push_text(text: &[u8], out: &mut Vec<u8>) -> Result<(), AllocError>
    ensures { OnOk result (out.new.items ≡ out.old.items ++ shown_text text.now) }
{
    let mut rest = text;
    while let [first, after @ ..] = rest {
        rest = after;
        match after {
            [second, others @ ..] if *first == 0xC2 && 0x80 <= *second && *second <= 0x9F => {
                push_escaped(*first, out)?;
                push_escaped(*second, out)?;
                rest = others;
            }
            _ if *first < 32 || *first == 127 || *first == b'\\' => push_escaped(*first, out)?,
            _ => out.push(*first)?,
        }
    }
    Ok(())
}

// Appends each of these bytes, escaped.
fn push_all_escaped(bytes: &[u8], out: &mut Vec<u8>) -> Result<(), AllocError>
    ensures { OnOk result (out.new.items ≡ out.old.items ++ flat_map escaped bytes.now) }
{
    for byte in bytes {
        push_escaped(*byte, out)?;
    }
    Ok(())
}

// Appends bytes as messages show them.
pub(crate) fn push_shown(bytes: &[u8], out: &mut Vec<u8>) -> Result<(), AllocError>
    ensures { OnOk result (out.new.items ≡ out.old.items ++ shown bytes.now) }
{
    for chunk in Utf8Lossy::from_bytes(bytes).chunks() {
        push_text(chunk.valid.as_bytes(), out)?;
        push_all_escaped(chunk.broken, out)?;
    }
    Ok(())
}
