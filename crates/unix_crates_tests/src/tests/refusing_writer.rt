//! A writer whose writes fail.
use std::alloc::Global;
use std::fmt;

// A writer that accepts `most` writes, and fails all later ones.
#[derive(Drop)]
pub(super) struct RefusingWriter {
    pub(super) text: String,
    pub(super) accepted_writes: usize,
    most: usize,
    pub(super) refused_writes: usize,
}

impl RefusingWriter {
    pub(super) fn after(alloc: Global, most: usize) -> RefusingWriter {
        RefusingWriter {
            text: String::new(alloc),
            accepted_writes: 0,
            most,
            refused_writes: 0,
        }
    }
}

impl fmt::Write for RefusingWriter {
    fn write_str(&mut self, text: &str) -> fmt::Result {
        if self.most <= self.accepted_writes {
            self.refused_writes = self.refused_writes.saturating_add(1);
            return Err(fmt::Error);
        }
        self.accepted_writes = self.accepted_writes.saturating_add(1);
        self.text.push_str(text).map_err(|_| fmt::Error)
    }
}
