//! Tables of values by path. Equal paths, which are paths with the same components, are one key.
//!
//! Unless a comment says otherwise:
//!
//! - Functions do not allocate unless they take an allocator or say so.
//! - Functions of `PathTable` named as in `std::collections::BTreeMap` behave as they do there.
//! - Laws, which functions call for their proofs, do nothing at run time.
//! - Indices and lengths of paths count bytes.
//!
//! An *entry* is a key, which is a path, with its value. *Path order* is the order of `Path`, by
//! components.
#![tactic(auto)]

pub mod table;

pub use table::{PathTable, Under};
