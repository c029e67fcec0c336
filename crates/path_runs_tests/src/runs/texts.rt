//! Tests that paths are displayed as their lossy texts: paths of random bytes, and a path with a
//! long run of invalid bytes.
use std::alloc::{AllocError, Global};
use std::test::Fail;
use test_inputs::Random;
use unix_path::Path;

const STRINGS: u32 = 10_000;

// Returns true if the path is `text` and `shown` is the same text, or if there is no text, the path
// is not valid UTF-8, and `shown` has a replacement character.
fn is_lossy(path: Path<'_>, text: Option<&str>, shown: &str) -> bool {
    match text {
        Some(text) => path.to_str() == Some(text) && shown == text,
        None => path.to_str().is_none() && shown.contains('\u{FFFD}'),
    }
}

// Returns true if the path is displayed as its lossy text. If std's `from_utf8` accepts the bytes,
// this text has to be the path itself.
fn displays_as_lossy(alloc: Global, bytes: &[u8]) -> Result<bool, AllocError> {
    let path = Path::from_bytes(bytes);
    let shown = format!(in alloc; "{}", path.display())?;
    let lossy = path.to_string_lossy(alloc)?;
    let text = str::from_utf8(bytes).ok();
    Ok(is_lossy(path, text, shown.as_str()) && lossy.as_str() == shown.as_str())
}

#[test]
fn random_strings_are_shown(rt: HostRuntime) -> Result<(), Fail> {
    let mut random = Random::new(20);
    for _ in 0..STRINGS {
        let bytes = random.string(rt.alloc())?;
        assert!(rt; displays_as_lossy(rt.alloc(), &bytes)?, "{bytes:?}");
    }
    Ok(())
}

// Returns true if the text is 100,000 replacement characters of three bytes each.
fn is_replaced(text: &str) -> bool {
    for c in text.chars() {
        if c != '\u{FFFD}' {
            return false;
        }
    }
    text.len() == 300_000
}

#[test]
fn broken_bytes_are_replaced(rt: HostRuntime) -> Result<(), Fail> {
    let bytes = vec![in rt.alloc(); 0xFF_u8; 100_000]?;
    let lossy = Path::from_bytes(&bytes).to_string_lossy(rt.alloc())?;
    assert!(rt; is_replaced(lossy.as_str()) && displays_as_lossy(rt.alloc(), &bytes)?);
    Ok(())
}
