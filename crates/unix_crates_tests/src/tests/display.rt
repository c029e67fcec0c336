//! Tests of displayed paths, and of displays into writers that fail.
ghost use Rattle.std.specs.Prelude.{◌≡◌, IfOk};
ghost use Rattle.std.specs.String.{string_bytes};
ghost use Rattle.unix_bytes.specs.Lossy.{lossy_of};

use super::answers::assert_each;
use super::refusing_writer::RefusingWriter;
use super::texts::{assert_debug_text, assert_text, is_lossy_text, is_text};
use std::alloc::{AllocError, Global};
use std::fmt;
use std::fmt::Write;
use unix_bytes::bytes::LossyText;
use unix_bytes::lossy::Utf8Lossy;
use unix_path::{Display, Path};

// Prints the bytes into a new string, which is their lossy text. The contract is what a caller can
// prove about this string.
fn lossy_text(alloc: Global, bytes: &[u8]) -> Result<String, AllocError>
    ensures { IfOk result (λ text. string_bytes text ≡ lossy_of bytes.now) }
{
    format!(in alloc; "{}", Utf8Lossy::from_bytes(bytes))
}

// Bytes, and their lossy text.
static LOSSY_TEXTS: [(&[u8], &str); 11] = [
    (b"", ""),
    (b"/tmp", "/tmp"),
    (b"a\xffb\xe2\x82", "a\u{FFFD}b\u{FFFD}"),
    (b"\xf4\x90\x80\x80", "\u{FFFD}\u{FFFD}\u{FFFD}\u{FFFD}"),
    (b"\xed\xa0\x80", "\u{FFFD}\u{FFFD}\u{FFFD}"),
    (b"\xff", "\u{FFFD}"),
    (b"\xef\xbf\xbd", "\u{FFFD}"),
    (b"a", "a"),
    (b"\xc3(", "\u{FFFD}("),
    (b"\xf0\x9f\x98A", "\u{FFFD}A"),
    (b"\xe0\x80\x80", "\u{FFFD}\u{FFFD}\u{FFFD}"),
];

fn is_shown(alloc: Global, bytes: &[u8], want: &str) -> bool {
    let path = Path::from_bytes(bytes);
    is_text(lossy_text(alloc, bytes), want)
        && is_text(format!(in alloc; "{}", path.display()), want)
        && is_lossy_text(path.to_string_lossy(alloc), want)
}

#[test]
fn paths_are_shown(rt: HostRuntime) {
    for row in LOSSY_TEXTS.iter() {
        assert!(rt; is_shown(rt.alloc(), row.0, row.1), "{}", row.1);
    }
}

// Valid UTF-8 is padded like a `str`. For other bytes, width, precision and fill are ignored.
#[test]
fn text_is_padded(rt: HostRuntime) {
    let alloc = rt.alloc();
    let ab = Display::from_bytes(b"ab");
    assert_text(&rt, format!(in alloc; "{ab:>5}"), "   ab");
    assert_text(&rt, format!(in alloc; "{ab:.1}"), "a");
    let empty = Display::from_bytes(b"");
    assert_text(&rt, format!(in alloc; "{empty:*<4}"), "****");
    let broken = Display::from_bytes(b"a\xff");
    assert_text(&rt, format!(in alloc; "{broken:>5}"), "a\u{FFFD}");
    assert_text(&rt, format!(in alloc; "{broken:*<4.1}"), "a\u{FFFD}");
    assert_debug_text(&rt, alloc, &broken, "\"a\u{FFFD}\"");
}

// Returns true if the call returned a borrowed lossy text that equals `wanted`.
fn is_borrowed(given: Result<LossyText<'_>, AllocError>, wanted: &str) -> bool {
    match given {
        Ok(LossyText::Borrowed(text)) => text == wanted,
        _ => false,
    }
}

#[test]
fn text_is_borrowed(rt: HostRuntime) {
    let (path, broken) = (Path::from_text("ab"), Path::from_bytes(b"a\xff"));
    assert_each(
        &rt,
        &[
            is_borrowed(path.to_string_lossy(rt.alloc()), "ab"),
            path.to_str() == Some("ab"),
            broken.to_str().is_none(),
        ],
    );
}

// Returns true if the display failed at the first write that failed, after `most` writes that
// succeeded, and wrote a proper prefix of `whole`.
fn is_ended(writer: &RefusingWriter, answer: fmt::Result, most: usize, whole: &str) -> bool {
    answer.is_err()
        && writer.refused_writes == 1
        && writer.accepted_writes == most
        && writer.text.as_str() != whole
        && whole.starts_with(writer.text.as_str())
}

// Returns the number of writes that the display makes, or `None` if it does not write `whole`, or
// does not end at the first write that fails.
fn writes_of(alloc: Global, path: Path<'_>, whole: &str) -> Option<usize> {
    let mut writer = RefusingWriter::after(alloc, usize::MAX);
    if write!(writer, "{}", path.display()).is_err() || writer.text.as_str() != whole {
        return None;
    }
    let count = writer.accepted_writes;
    for most in 0..count {
        let mut writer = RefusingWriter::after(alloc, most);
        let answer = write!(writer, "{}", path.display());
        if !is_ended(&writer, answer, most, whole) {
            return None;
        }
    }
    Some(count)
}

// Returns true if the display writes `whole`, and ends at the first write that fails, whichever it
// is.
fn ends_at_each(alloc: Global, bytes: &[u8], whole: &str) -> bool {
    match writes_of(alloc, Path::from_bytes(bytes), whole) {
        Some(count) => count > 0,
        None => false,
    }
}

#[test]
fn one_refused_write_ends_a_display(rt: HostRuntime) {
    let alloc = rt.alloc();
    assert_each(
        &rt,
        &[
            ends_at_each(alloc, b"ab", "ab"),
            ends_at_each(alloc, b"a\xFFb", "a\u{FFFD}b"),
            ends_at_each(alloc, b"a\xFFb\xE2\x82", "a\u{FFFD}b\u{FFFD}"),
            ends_at_each(alloc, b"\xED\xA0\x80", "\u{FFFD}\u{FFFD}\u{FFFD}"),
        ],
    );
}

// Returns the lossy text of four runs of 400 letters, each followed by an invalid byte.
fn text_of_stretches(alloc: Global) -> Result<String, AllocError> {
    let mut whole = String::new(alloc);
    for letter in ["a", "b", "c", "d"] {
        for _ in 0..400 {
            whole.push_str(letter)?;
        }
        whole.push_str("\u{FFFD}")?;
    }
    Ok(whole)
}

// Returns the number of writes that the display of four runs of 400 letters makes, or `None` if it
// does not end at the first write that fails.
fn writes_of_long_stretches(alloc: Global) -> Result<Option<usize>, AllocError> {
    let mut bytes = [0xFF; 1604];
    for place in 0..400 {
        bytes[place] = b'a';
        bytes[place + 401] = b'b';
        bytes[place + 802] = b'c';
        bytes[place + 1203] = b'd';
    }
    let whole = text_of_stretches(alloc)?;
    Ok(writes_of(alloc, Path::from_bytes(&bytes), whole.as_str()))
}

#[test]
fn each_refused_write_ends_a_long_display(rt: HostRuntime) {
    let writes = writes_of_long_stretches(rt.alloc());
    assert!(rt; matches!(writes, Ok(Some(count)) if count > 4));
}
