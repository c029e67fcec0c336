//! Readers and writers of the standard library, used as sources and sinks.
pub use byte_streams::StdIo;
