//! Calls that promise to succeed without memory, while every allocation fails.
mod kept;
mod keys;
mod owned;
mod tables;
mod texts;
mod trees;
mod views;

use std::fmt;
use std::fmt::Write;
use std::hash::{DefaultHasher, Hash, Hasher};
use unix_path::Path;
use unix_path::bytes::UnixStr;

// A writer that keeps only the number of bytes written.
#[derive(Drop)]
struct Counter {
    len: usize,
}

impl Write for Counter {
    fn write_str(&mut self, text: &str) -> fmt::Result {
        self.len = self.len.saturating_add(text.len());
        Ok(())
    }
}

// Returns true if the debug form has `len` bytes.
fn debug_has<T: fmt::Debug>(value: &T, len: usize) -> bool {
    let mut counter = Counter { len: 0 };
    write!(counter, "{value:?}").is_ok() && counter.len == len
}

// Returns true if the printed form has `len` bytes.
fn display_has<T: fmt::Display>(value: &T, len: usize) -> bool {
    let mut counter = Counter { len: 0 };
    write!(counter, "{value}").is_ok() && counter.len == len
}

// Returns true if both values feed the same input to a hasher.
fn hash_same<A: Hash, B: Hash>(a: &A, b: &B) -> bool {
    let mut first = DefaultHasher::new();
    let mut second = DefaultHasher::new();
    a.hash(&mut first);
    b.hash(&mut second);
    first.finish() == second.finish()
}

fn is_view(view: Path<'_>, text: &str) -> bool {
    view.as_unix_str() == UnixStr::new(text)
}
