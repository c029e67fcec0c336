//! Sources and sinks of bytes. A contract can state that one of their calls was made exactly once.
ghost use Rattle.std.specs.Prelude.{ℕ, List, Option, Result, None};
ghost use Rattle.std.specs.Io.{ReadsAtMost, WritesAtMost};
ghost use Rattle.std.specs.Io.KnownBytes.{ReadConsumes, WriteAppends, Keeps};
ghost use Rattle.std.specs.declared.io.Error.{Error};

use std::io;

/// A source of bytes.
///
/// `read_gives` relates the source and the buffer before one read, the read's result, and the
/// buffer and the source after the read. The relation has no default. Generic code can't see how a
/// source defines it, so it can only prove the relation by making exactly one read.
///
/// A read of one byte from `StdIo::new(b"a".as_slice())` reads `a`.
pub trait Source {
    ghost remaining: { Self → Option (List ℕ) } = { λ _. None };

    ghost read_gives: { Self → List ℕ → Result ℕ Error → List ℕ → Self → Type 0 };

    /// Reads once into `buf`, and returns the number of bytes read.
    fn read_once(&mut self, buf: &mut [u8]) -> io::Result<usize>
        ensures bound { ReadsAtMost result buf.new }
        ensures bytes { ReadConsumes (remaining self.old) (remaining self.new) result buf.new }
        ensures single_call { read_gives self.old buf.old result buf.new self.new };
}

/// A sink of bytes.
///
/// `write_gives` relates the sink before one write, the bytes, the write's result, and the sink
/// after the write. `flush_gives` does the same for one flush. Like `read_gives` of [`Source`],
/// these relations have no default.
///
/// A write to `StdIo::new(Vec::new(alloc))` writes all bytes, unless an allocation fails.
pub trait Sink {
    ghost contents: { Self → Option (List ℕ) } = { λ _. None };

    ghost write_gives: { Self → List ℕ → Result ℕ Error → Self → Type 0 };

    ghost flush_gives: { Self → Result (Unit {0}) Error → Self → Type 0 };

    /// Writes `buf` once, and returns the number of bytes written, which may be less than its
    /// length.
    fn write_once(&mut self, buf: &[u8]) -> io::Result<usize>
        ensures bound { WritesAtMost result buf.now }
        ensures bytes { WriteAppends (contents self.old) (contents self.new) result buf.now }
        ensures single_call { write_gives self.old buf.now result self.new };

    /// Flushes once.
    fn flush_once(&mut self) -> io::Result<()>
        ensures bytes { Keeps (contents self.old) (contents self.new) }
        ensures single_call { flush_gives self.old result self.new };
}
