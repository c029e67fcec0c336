//! Sources and sinks that repeat a call that the system interrupted.
pub use byte_streams::RetryInterrupted;
