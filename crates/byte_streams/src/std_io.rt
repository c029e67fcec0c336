//! Readers and writers of the standard library, used as sources and sinks.
ghost use Rattle.std.specs.Prelude.{◌≡◌, ⊤};
ghost use Rattle.byte_streams.specs.Calls.{std_io_inner};

use crate::io_traits::{Sink, Source};
use std::io;
use std::io::{Read, Write};

/// A reader or a writer of the standard library, used as a source or a sink.
///
/// The contracts of the standard library don't say how many calls were made. So it is trusted, not
/// proved, that each of the three methods below makes a single call: its body is that call.
///
/// `StdIo::new(7).into_inner()` is 7.
#[derive(Drop)]
pub struct StdIo<T> {
    inner: T,
}

impl<T> StdIo<T> {
    /// Creates a source from a reader, or a sink from a writer.
    ///
    /// `StdIo::new(b"a".as_slice())` is a source of one byte.
    pub fn new(inner: T) -> StdIo<T>
        ensures { std_io_inner result ≡ inner }
    {
        StdIo { inner }
    }

    /// Returns the reader or the writer.
    ///
    /// `StdIo::new(7).into_inner()` is 7.
    pub fn into_inner(self) -> T
        ensures { result ≡ std_io_inner self }
    {
        let StdIo { inner } = self;
        inner
    }
}

/// Reads from the inner reader.
impl<T: Read> Source for StdIo<T> {
    ghost remaining = { λ e. T.remaining (std_io_inner e) };

    ghost read_gives = { λ _ _ _ _ _. ⊤ };

    fn read_once(&mut self, buf: &mut [u8]) -> io::Result<usize> {
        self.inner.read(buf)
    }
}

/// Writes to the inner writer.
impl<T: Write> Sink for StdIo<T> {
    ghost contents = { λ e. T.contents (std_io_inner e) };

    ghost write_gives = { λ _ _ _ _. ⊤ };

    ghost flush_gives = { λ _ _ _. ⊤ };

    fn write_once(&mut self, buf: &[u8]) -> io::Result<usize> {
        self.inner.write(buf)
    }

    fn flush_once(&mut self) -> io::Result<()> {
        self.inner.flush()
    }
}
