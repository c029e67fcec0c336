//! Byte strings as Unix uses them for paths and names: borrowed, owned, and shown as UTF-8.
//!
//! Unless a comment says otherwise:
//!
//! - Functions do not allocate unless they take an allocator or say so.
//! - Functions named as in `std` behave as they do on Unix.
//! - Laws, which are the functions of `laws`, do nothing at run time.
//! - Indices and lengths count bytes.
//!
//! Terms of the comments:
//!
//! - A *sequence* is one character in well-formed UTF-8, by the table of RFC 3629, section 4.
//! - The *fronts* of a byte string partition it. The first front is the longest prefix that begins
//!   some sequence, or the first byte if that begins none. The remaining fronts are the fronts of
//!   the bytes after the first front.
//! - A front is *invalid* if it is not a whole sequence.
//! - The *lossy form* of a byte string has U+FFFD for each invalid front, and all other bytes
//!   unchanged.
#![tactic(auto)]

mod buffers;
pub mod bytes;
pub mod internal;
pub mod laws;
pub mod lossy;
mod order;
mod printer;
mod search;
mod utf8;
mod windows;
