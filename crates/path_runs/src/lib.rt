//! Walks, lists of edits and canonical forms of Unix paths, and laws of paths.
//!
//! Functions do not allocate unless they take an allocator or say so. Functions named as in
//! `std::path` behave like those on Unix unless stated otherwise. Laws do nothing at run time.
//! Indices and lengths count bytes.
//!
//! In names of definitions, a part is a component with its index, and a value is a component
//! without its index.
#![tactic(auto)]

pub mod canonical;
pub mod edits;
mod gaps;
pub mod laws;
pub mod walk;

pub use edits::{Answer, ApplyError, Edit};
pub use walk::{Turn, Walked};
