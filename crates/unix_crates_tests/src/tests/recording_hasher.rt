//! A hasher that records its input, up to 64 bytes.
ghost use Rattle.std.specs.Prelude.{◌≡◌, ◌+◌, cond, nat_lt, fold, slice_set};

use std::hash::Hasher;

#[derive(Clone, Copy, PartialEq, Eq)]
pub struct RecordingHasher {
    pub bytes: [u8; 64],
    pub len: usize,
}

impl RecordingHasher {
    /// Returns a hasher without input.
    pub fn new() -> RecordingHasher {
        RecordingHasher {
            bytes: [0; 64],
            len: 0,
        }
    }

    fn push(&mut self, byte: u8)
        ensures { self.new ≡ cond (nat_lt self.old.len 64)
            (record { bytes = slice_set self.old.bytes self.old.len byte; len = self.old.len + 1 })
            self.old }
    {
        if self.len < 64 {
            self.bytes[self.len] = byte;
            self.len += 1;
        }
    }
}

impl Hasher for RecordingHasher {
    ghost write = { fold (λ state b. cond (nat_lt state.len 64)
        (record { bytes = slice_set state.bytes state.len b; len = state.len + 1 }) state) };

    ghost finish = { λ state. state.len };

    fn finish(&self) -> u64 {
        self.len as u64
    }

    fn write(&mut self, bytes: &[u8]) {
        let mut rest = bytes;
        while let Some((byte, others)) = rest.split_first() {
            self.push(*byte);
            rest = others;
        }
    }
}
