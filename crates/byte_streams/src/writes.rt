//! Writes that go on until all bytes are written.
ghost use Rattle.std.specs.Prelude.{◌≡◌, ◌||◌, is_err, OnOk, OnErr};
ghost use Rattle.std.specs.Io.KnownBytes.{Appends};
ghost use Rattle.byte_streams.specs.Calls.{Many, WritesSome, WritesThenNone};
ghost use Rattle.byte_streams.specs.Watched.{AppendsPrefix, has_failed, watched_inner};

use crate::io_traits::Sink;
use crate::watched::Watched;
use std::io;
use std::io::ErrorKind;

/// Writes all of `bytes`, by as many writes as it takes.
///
/// Fails after a write that failed, with its error, or that wrote none of one byte or more, with
/// `WriteZero`. A prefix of `bytes` has been written then.
///
/// Two bytes take one or two writes.
pub fn write_all<S: Sink>(sink: &mut Watched<S>, bytes: &[u8]) -> io::Result<()>
    ensures ok { OnOk result (Appends (S.contents (watched_inner sink.old))
        (S.contents (watched_inner sink.new)) bytes.now) }
    ensures err { OnErr result (AppendsPrefix (S.contents (watched_inner sink.old))
        (S.contents (watched_inner sink.new)) bytes.now) }
    ensures failed { has_failed sink.new ≡ (has_failed sink.old || is_err result) }
    ensures writes { OnOk result (Many (WritesSome S.write_gives) (watched_inner sink.old)
        (watched_inner sink.new)) }
    ensures gave_up { OnErr result (WritesThenNone S.write_gives (watched_inner sink.old)
        (watched_inner sink.new)) }
{
    let mut at = 0;
    while at < bytes.len() {
        match sink.write_once(&bytes[at..]) {
            Ok(0) => return Err(io::Error::from(ErrorKind::WriteZero)),
            Ok(count) => at += count,
            Err(error) => return Err(error),
        }
    }
    Ok(())
}
