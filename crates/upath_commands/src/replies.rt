//! What a run prints: answers and messages, and whether the paths are answered.
ghost use Rattle.std.specs.Prelude.{◌≡◌, false};

use crate::output::Output;
use byte_streams::{Sink, Watched};
use std::alloc::Global;

// Whether all paths so far were answered, and whether any was.
#[derive(Clone, Copy)]
pub(crate) struct Tally {
    pub(crate) all: bool,
    pub(crate) any: bool,
}

/// Where a run prints answers and messages, and whether the paths so far are answered.
///
/// `Replies::new(alloc, output, errors)` prints answers to `output`.
#[derive(Drop)]
pub struct Replies<W, E> {
    pub(crate) answers: Output<W>,
    pub(crate) messages: Watched<E>,
    pub(crate) line: Vec<u8>,
    pub(crate) tally: Tally,
}

impl<W: Sink, E: Sink> Replies<W, E> {
    ghost use Rattle.upath_commands.specs.Replies.{answers_to, is_deaf, IsNew, messages_to};

    /// Creates replies to these sinks, before any path.
    ///
    /// `Replies::new(alloc, output, errors)` prints messages to `errors`.
    pub fn new(alloc: Global, answers: W, messages: E) -> Replies<W, E>
        ensures new { IsNew result }
        ensures answers { answers_to result ≡ answers }
        ensures messages { messages_to result ≡ messages }
        ensures failed { is_deaf result ≡ false }
    {
        Replies {
            answers: Output::new(alloc, answers),
            messages: Watched::new(messages),
            line: Vec::new(alloc),
            tally: Tally {
                all: true,
                any: false,
            },
        }
    }
}
