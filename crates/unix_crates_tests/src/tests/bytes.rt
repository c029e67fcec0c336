//! Tests of unix_bytes: views, owned bytes, chunks, lossy texts, searches and failing writers.
mod bytes;
mod callers;
mod chunks;
mod formats;
mod lossy_texts;
mod order;
mod search;
