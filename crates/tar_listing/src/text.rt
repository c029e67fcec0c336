//! Quoted text.
ghost use Rattle.std.specs.Prelude.{◌≡◌, ◌<◌, ◌++◌, IfOk, IfSome, None, length, option_map};
ghost use Rattle.tar_listing.specs.Form.{closed, is_octal, is_shown};
ghost use Rattle.tar_listing.specs.Reading.{CannotRead, IsPushed, after_quote, escape_read};
ghost use Rattle.tar_listing.specs.Reading.{named, octal_read, octal_value, read_byte};

use std::alloc::AllocError;

// Returns true if the byte is listed as itself.
fn is_shown(byte: u8) -> bool
    ensures { result ≡ is_shown byte }
{
    32 <= byte && byte <= 126 && byte != b'"' && byte != b'\\'
}

// Returns true if the byte is listed as three octal digits.
fn is_octal(byte: u8) -> bool
    ensures { result ≡ is_octal byte }
{
    1 <= byte && byte <= 6 || 14 <= byte && byte <= 31 || 127 <= byte
}

// Returns the byte that is listed as a backslash and this letter, or `None` if there is none.
fn named(letter: u8) -> Option<u8>
    ensures { result ≡ named letter }
{
    match letter {
        b'a' => Some(7),
        b'b' => Some(8),
        b't' => Some(9),
        b'n' => Some(10),
        b'v' => Some(11),
        b'f' => Some(12),
        b'r' => Some(13),
        b'"' => Some(b'"'),
        b'\\' => Some(b'\\'),
        _ => None,
    }
}

// Returns the byte with these octal digits, or `None` if no byte is listed so.
fn octal_value(high: u8, middle: u8, low: u8) -> Option<u8>
    ensures { result ≡ octal_value high middle low }
{
    if high < b'0' || high > b'3' {
        return None;
    }
    if middle < b'0' || middle > b'7' || low < b'0' || low > b'7' {
        return None;
    }
    let byte = 64 * (high - b'0') + 8 * (middle - b'0') + (low - b'0');
    if is_octal(byte) { Some(byte) } else { None }
}

// Returns the byte that is listed as a backslash and three octal digits, of which the digits come
// first here, and what follows them.
fn octal_read(rest: &[u8]) -> Option<(u8, &[u8])>
    ensures { option_map (λ r. (r.0, r.1.now)) result ≡ octal_read rest.now }
{
    match rest {
        [high, middle, low, after @ ..] => {
            let byte = octal_value(*high, *middle, *low)?;
            Some((byte, after))
        }
        _ => None,
    }
}

// Returns the byte that is listed as a backslash and what comes first here, and what follows it.
fn escape_read(rest: &[u8]) -> Option<(u8, &[u8])>
    ensures { option_map (λ r. (r.0, r.1.now)) result ≡ escape_read rest.now }
{
    match rest {
        [letter, after @ ..] => match named(*letter) {
            Some(byte) => Some((byte, after)),
            None => octal_read(rest),
        },
        _ => None,
    }
}

// Returns the byte that is listed first, and what follows it, or `None` if no byte is.
#[tactic(auto, unfolding(crate::specs::Reading::read_byte))]
fn read_byte(rest: &[u8]) -> Option<(u8, &[u8])>
    ensures { option_map (λ r. (r.0, r.1.now)) result ≡ read_byte rest.now }
{
    match rest {
        [first, after @ ..] => {
            if *first == b'\\' {
                escape_read(after)
            } else if is_shown(*first) {
                Some((*first, after))
            } else {
                None
            }
        }
        _ => None,
    }
}

// Returns what follows the first byte if that is `"`, or `None` if it is not.
fn after_quote(rest: &[u8]) -> Option<&[u8]>
    ensures { option_map (λ r. r.now) result ≡ after_quote rest.now }
{
    match rest {
        [b'"', after @ ..] => Some(after),
        _ => None,
    }
}

// Appends the text that ends at the first quote. Returns what follows the quote, or `None` if there
// is no quote after bytes as they are listed.
pub(crate) fn push_text<'a>(
    text: &'a [u8],
    out: &mut Vec<u8>,
) -> Result<Option<&'a [u8]>, AllocError>
    ensures read { IfOk result (λ o. IfSome o (λ after.
        IsPushed closed text.now after.now out.old.items out.new.items)) }
    ensures none { IfOk result (λ o. o ≡ None → CannotRead closed text.now) }
{
    let mut rest = text;
    while let Some((byte, after)) = read_byte(rest) {
        out.push(byte)?;
        rest = after;
    }
    Ok(after_quote(rest))
}
