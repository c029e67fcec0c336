//! Tests of printed byte strings, and of writers that fail.
use super::super::refusing_writer::RefusingWriter;
use super::super::texts::is_debug_text;
use std::alloc::{AllocError, Global};
use std::fmt;
use std::fmt::Write;
use unix_bytes::bytes::UnixStr;
use unix_bytes::lossy::{Utf8Lossy, Utf8LossyChunk};

// Bytes, and their lossy text.
static LOSSY_TEXTS: [(&[u8], &str); 5] = [
    (b"/tmp", "/tmp"),
    (b"a\xFF", "a\u{FFFD}"),
    (b"'\"\\\n\x00\x7F", "'\"\\\n\0\u{7F}"),
    (
        b"\xCC\x81\xE2\x80\x8B\xC3\xA9\xE2\x82",
        "\u{301}\u{200B}\u{E9}\u{FFFD}",
    ),
    (b"", ""),
];

// Returns true if the debug form of the bytes is the debug form of their lossy text.
fn is_that_of_text(alloc: Global, bytes: &[u8], text: &str) -> bool {
    match format!(in alloc; "{text:?}") {
        Ok(wanted) => {
            is_debug_text(alloc, &UnixStr::from_bytes(bytes), wanted.as_str())
                && is_debug_text(alloc, &Utf8Lossy::from_bytes(bytes), wanted.as_str())
        }
        Err(AllocError) => false,
    }
}

#[test]
fn debug_texts(rt: HostRuntime) {
    let alloc = rt.alloc();
    for row in LOSSY_TEXTS.iter() {
        assert!(rt; is_that_of_text(alloc, row.0, row.1), "{}", row.1);
    }
    let chunk = Utf8LossyChunk {
        valid: "a",
        broken: b"\xFF",
    };
    let wanted = "Utf8LossyChunk { valid: \"a\", broken: [255] }";
    assert!(rt; is_debug_text(alloc, &chunk, wanted));
}

// Returns true if the call succeeded and wrote `whole`, or if it failed at the first write that
// failed and wrote a prefix of `whole`.
fn keeps_to(writer: &RefusingWriter, answer: fmt::Result, whole: &str) -> bool {
    let text = writer.text.as_str();
    match answer {
        Ok(()) => writer.refused_writes == 0 && text == whole,
        Err(_) => writer.refused_writes == 1 && whole.starts_with(text),
    }
}

// Writes a debug form to a writer whose writes after the first `most` fail. Returns `Some(true)` if
// the whole form is written, `Some(false)` if the call fails at the first write that fails, and
// otherwise `None`.
fn is_written(alloc: Global, most: usize) -> Option<bool> {
    let mut writer = RefusingWriter::after(alloc, most);
    let answer = write!(writer, "{:?}", UnixStr::from_bytes(b"a\xFF'"));
    if keeps_to(&writer, answer, "\"a\u{FFFD}'\"") {
        Some(answer.is_ok())
    } else {
        None
    }
}

// Tests that the debug form fails if and only if the writer does, and then writes no more.
#[test]
fn failing_writers_of_debug(rt: HostRuntime) {
    let alloc = rt.alloc();
    for most in 0..12 {
        assert!(rt; is_written(alloc, most).is_some(), "{most}");
    }
    assert!(rt; is_written(alloc, 0) == Some(false) && is_written(alloc, 11) == Some(true));
}
