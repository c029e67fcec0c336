//! Sources and sinks of bytes.
pub use byte_streams::{Sink, Source};
