//! Keys of paths for ordered stores: byte strings that sort in path order.
//!
//! Functions do not allocate unless they take an allocator or say so. Functions named as in
//! `std::path` behave like those on Unix unless stated otherwise. Laws do nothing at run time.
//! Indices and lengths count bytes.
//!
//! The bytes of keys are written in hexadecimal.
#![tactic(auto)]

mod codes;
mod decode;
pub mod encode;
pub mod key;
pub mod laws;
mod parent;
pub mod read;
mod recode;
mod runs;

pub use encode::{key_len, write_key};
pub use key::{KeyRange, PathKey};
pub use parent::{key_name, key_parent, key_starts_with};
pub use read::{KeyError, is_key, path_of, write_path_of};
