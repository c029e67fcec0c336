//! Trees of values by path, in which equal paths are one key and a look-up needs no owned path.
//!
//! Functions do not allocate unless they take an allocator or say so. Functions named as in
//! `BTreeMap` behave as they do there unless stated otherwise. Laws do nothing at run time. Indices
//! and lengths count bytes.
//!
//! The bytes of keys are written in hexadecimal.
#![tactic(auto)]

mod key_filter;
pub mod laws;
mod lookup_key;
pub mod tree;

pub use tree::{LookupError, MoveError, PathTree, SortedError};
