//! Joins that stay below a root, paths with `..` resolved, and the relative path between two paths.
//!
//! Everything here is lexical: symbolic links are not followed. Where a component may be a link,
//! only the system knows where a `..` after it leads.
//!
//! Functions do not allocate unless they take an allocator or say so. Functions named as in
//! `std::path` behave as they do on Unix unless stated. Laws do nothing at run time. Indices and
//! lengths count bytes.
#![tactic(auto)]

mod backward;
mod check;
pub mod laws;
mod names_only;
mod normal;
mod outlined;
pub mod relative;
mod request;
pub mod resolved;
mod root;
pub mod within;
mod write;

pub use check::has_nul;
pub use request::{Request, RequestError, ends_in_slash, request_is_root};
pub use root::{Root, StripError};
pub use within::WithinError;
