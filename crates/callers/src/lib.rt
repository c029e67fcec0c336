//! Short examples of what programs do with paths: a file server, an unpacker of archives, mappers
//! of URLs, a table of mounts, a router, manifests and the changes between them, a tree of files
//! and an index.
//!
//! Functions do not allocate unless they take an allocator or say so. Functions named as in `std`
//! behave like those on Unix unless stated otherwise. Lengths count bytes.
#![tactic(auto)]

pub mod archive;
pub mod changes;
pub mod index;
pub mod manifest;
pub mod mounts;
pub mod router;
pub mod safe;
pub mod server;
pub mod site;
pub mod tree;
pub mod url;
