//! Sources and sinks that record whether they have failed.
pub use byte_streams::Watched;
