//! Sources and sinks that repeat a call that the system interrupted.
ghost use Rattle.std.specs.Prelude.{◌≡◌, ◌↔◌, IsTrue};
ghost use Rattle.std.specs.IoError.{error_kind};
ghost use Rattle.byte_streams.specs.Calls.{retry_inner, WithRetries, WithBuffer};

use crate::io_traits::{Sink, Source};
use std::io;
use std::io::ErrorKind;

// The maximum number of times that a call is repeated.
const MAX_RETRIES: u64 = u64::MAX;

/// A source or a sink that repeats each call that the system interrupted.
///
/// The library's `read_to_end` and `write_all` do the same. A call is repeated at most `u64::MAX`
/// times.
///
/// `RetryInterrupted::new(StdIo::new(b"a".as_slice()))` is a source of one byte.
#[derive(Drop)]
pub struct RetryInterrupted<T> {
    inner: T,
}

impl<T> RetryInterrupted<T> {
    /// Creates a source or a sink that repeats interrupted calls of `inner`.
    ///
    /// `RetryInterrupted::new(7).into_inner()` is 7.
    pub fn new(inner: T) -> RetryInterrupted<T>
        ensures { retry_inner result ≡ inner }
    {
        RetryInterrupted { inner }
    }

    /// Returns the inner source or sink.
    ///
    /// `RetryInterrupted::new(7).into_inner()` is 7.
    pub fn into_inner(self) -> T
        ensures { result ≡ retry_inner self }
    {
        let RetryInterrupted { inner } = self;
        inner
    }
}

// Returns true if and only if this is the error of a call that the system interrupted.
fn is_interruption(error: &io::Error) -> bool
    ensures { IsTrue result ↔ (error_kind error.now ≡ ErrorKind.Interrupted) }
{
    error.kind() == ErrorKind::Interrupted
}

/// Reads from the inner source.
impl<T: Source> Source for RetryInterrupted<T> {
    ghost remaining = { λ p. T.remaining (retry_inner p) };

    ghost read_gives = { λ p b r c q. WithRetries (WithBuffer T.read_gives)
        (retry_inner p, b) r (retry_inner q, c) };

    fn read_once(&mut self, buf: &mut [u8]) -> io::Result<usize> {
        for tries in 0..MAX_RETRIES {
            match self.inner.read_once(buf) {
                Err(error) if is_interruption(&error) => {}
                Err(error) => return Err(error),
                Ok(count) => return Ok(count),
            }
        }
        self.inner.read_once(buf)
    }
}

/// Writes to the inner sink.
impl<T: Sink> Sink for RetryInterrupted<T> {
    ghost contents = { λ p. T.contents (retry_inner p) };

    ghost write_gives = { λ p b r q. WithRetries (λ s r t. T.write_gives s b r t)
        (retry_inner p) r (retry_inner q) };

    ghost flush_gives = { λ p r q. WithRetries T.flush_gives (retry_inner p) r (retry_inner q) };

    fn write_once(&mut self, buf: &[u8]) -> io::Result<usize> {
        for tries in 0..MAX_RETRIES {
            match self.inner.write_once(buf) {
                Err(error) if is_interruption(&error) => {}
                Err(error) => return Err(error),
                Ok(count) => return Ok(count),
            }
        }
        self.inner.write_once(buf)
    }

    fn flush_once(&mut self) -> io::Result<()> {
        for tries in 0..MAX_RETRIES {
            match self.inner.flush_once() {
                Err(error) if is_interruption(&error) => {}
                Err(error) => return Err(error),
                Ok(()) => return Ok(()),
            }
        }
        self.inner.flush_once()
    }
}
