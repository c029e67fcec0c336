//! Sources and sinks of bytes, whose contracts state which calls were made.
//!
//! The contracts of the standard library say what a call does to known bytes, and nothing of the
//! number of calls. A [`Source`] or a [`Sink`] has a relation for one call. Generic code can't see
//! how it is defined, so it can only prove the relation by making that call.
//!
//! Begin with `io_traits.rt`. Functions do not allocate. Lengths count bytes.
#![tactic(auto)]

mod io_traits;
mod retry;
mod std_io;
mod watched;
mod writes;

pub use io_traits::{Sink, Source};
pub use retry::RetryInterrupted;
pub use std_io::StdIo;
pub use watched::Watched;
pub use writes::write_all;
