//! Sources and sinks that record whether they have failed.
ghost use Rattle.std.specs.Prelude.{◌≡◌, ◌||◌, false, length, is_ok, is_err};
ghost use Rattle.std.specs.Io.{ReadsAtMost, WritesAtMost};
ghost use Rattle.std.specs.Io.KnownBytes.{ReadConsumes, WriteAppends, Keeps};
ghost use Rattle.byte_streams.specs.Watched.{has_failed, has_ended, is_flushed, watched_inner};
ghost use Rattle.byte_streams.specs.Watched.{transfers_none};

use crate::io_traits::{Sink, Source};
use std::io;

/// A source or a sink, and whether it has failed, has ended or is flushed.
///
/// It has failed once a call has failed, or a write of one byte or more has written none. It has
/// ended once a read into a buffer that isn't empty has succeeded with no byte. It is flushed after
/// a flush that succeeded, until the next write or flush.
///
/// `Watched::new(StdIo::new(b"a".as_slice()))` has ended after two reads, each into a buffer of at
/// least one byte.
#[derive(Drop)]
pub struct Watched<T> {
    inner: T,
    failed: bool,
    ended: bool,
    flushed: bool,
}

impl<T> Watched<T> {
    /// Creates a source or a sink that watches `inner`. It has not failed, has not ended and is not
    /// flushed.
    ///
    /// `Watched::new(source).failed()` is false.
    pub fn new(inner: T) -> Watched<T>
        ensures inner { watched_inner result ≡ inner }
        ensures failed { has_failed result ≡ false }
        ensures ended { has_ended result ≡ false }
        ensures flushed { is_flushed result ≡ false }
    {
        Watched {
            inner,
            failed: false,
            ended: false,
            flushed: false,
        }
    }

    /// Returns true if a call has failed, or a write of one byte or more has written none.
    ///
    /// It is true after a `flush_once` that failed.
    pub fn failed(&self) -> bool
        ensures { result ≡ has_failed self.now }
    {
        let Watched { failed, .. } = self;
        *failed
    }

    /// Returns true if a read into a buffer that isn't empty has succeeded with no byte.
    ///
    /// It is false after a read into an empty slice.
    pub fn ended(&self) -> bool
        ensures { result ≡ has_ended self.now }
    {
        let Watched { ended, .. } = self;
        *ended
    }

    /// Returns true if a flush has succeeded, and nothing has been written or flushed since.
    ///
    /// It is false after a `write_once`.
    pub fn is_flushed(&self) -> bool
        ensures { result ≡ is_flushed self.now }
    {
        let Watched { flushed, .. } = self;
        *flushed
    }

    /// Returns the source or the sink.
    ///
    /// `Watched::new(7).into_inner()` is 7.
    pub fn into_inner(self) -> T
        ensures { result ≡ watched_inner self }
    {
        let Watched { inner, .. } = self;
        inner
    }
}

/// Reads from the watched source.
impl<T: Source> Source for Watched<T> {
    ghost remaining = { λ w. T.remaining (watched_inner w) };

    ghost read_gives = { λ w b r c v. T.read_gives (watched_inner w) b r c (watched_inner v) };

    fn read_once(&mut self, buf: &mut [u8]) -> io::Result<usize>
        ensures bound { ReadsAtMost result buf.new }
        ensures bytes { ReadConsumes (T.remaining (watched_inner self.old))
            (T.remaining (watched_inner self.new)) result buf.new }
        ensures single_call { T.read_gives (watched_inner self.old) buf.old result buf.new
            (watched_inner self.new) }
        ensures failed { has_failed self.new ≡ (has_failed self.old || is_err result) }
        ensures ended { has_ended self.new
            ≡ (has_ended self.old || transfers_none result (length buf.old)) }
        ensures flushed { is_flushed self.new ≡ is_flushed self.old }
    {
        let wants_bytes = !buf.is_empty();
        match self.inner.read_once(buf) {
            Ok(count) => {
                if count == 0 && wants_bytes {
                    self.ended = true;
                }
                Ok(count)
            }
            Err(error) => {
                self.failed = true;
                Err(error)
            }
        }
    }
}

/// Writes to the watched sink.
impl<T: Sink> Sink for Watched<T> {
    ghost contents = { λ w. T.contents (watched_inner w) };

    ghost write_gives = { λ w b r v. T.write_gives (watched_inner w) b r (watched_inner v) };

    ghost flush_gives = { λ w r v. T.flush_gives (watched_inner w) r (watched_inner v) };

    fn write_once(&mut self, buf: &[u8]) -> io::Result<usize>
        ensures bound { WritesAtMost result buf.now }
        ensures bytes { WriteAppends (T.contents (watched_inner self.old))
            (T.contents (watched_inner self.new)) result buf.now }
        ensures single_call { T.write_gives (watched_inner self.old) buf.now result
            (watched_inner self.new) }
        ensures failed { has_failed self.new
            ≡ (has_failed self.old || is_err result || transfers_none result (length buf.now)) }
        ensures ended { has_ended self.new ≡ has_ended self.old }
        ensures flushed { is_flushed self.new ≡ false }
    {
        self.flushed = false;
        match self.inner.write_once(buf) {
            Ok(count) => {
                if count == 0 && !buf.is_empty() {
                    self.failed = true;
                }
                Ok(count)
            }
            Err(error) => {
                self.failed = true;
                Err(error)
            }
        }
    }

    fn flush_once(&mut self) -> io::Result<()>
        ensures bytes { Keeps (T.contents (watched_inner self.old))
            (T.contents (watched_inner self.new)) }
        ensures single_call { T.flush_gives (watched_inner self.old) result
            (watched_inner self.new) }
        ensures failed { has_failed self.new ≡ (has_failed self.old || is_err result) }
        ensures ended { has_ended self.new ≡ has_ended self.old }
        ensures flushed { is_flushed self.new ≡ is_ok result }
    {
        let result = self.inner.flush_once();
        self.flushed = result.is_ok();
        if result.is_err() {
            self.failed = true;
        }
        result
    }
}
