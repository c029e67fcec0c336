//! Unix paths as byte strings, with the same behaviour on every platform.
//!
//! Unless stated otherwise:
//! - Functions with a name from `std::path` behave as std's functions do on Unix.
//! - Functions do not allocate unless they take an allocator or say so.
//! - Laws do nothing at run time.
//! - Indices and lengths count bytes.
//!
//! A component is the root, a leading `.`, a name, or `..`. A piece is the bytes between two
//! slashes, before the first slash or after the last. Bytes that belong to no component are filler:
//! slashes other than the root, and `.` pieces that are not leading. In clauses, `parts` and
//! `values` are the components with and without their positions.
#![tactic(auto)]

pub mod buf;
mod compare;
pub mod cursor;
pub mod display;
mod filler;
mod first_component;
pub mod internal;
pub mod json;
pub mod kept;
pub mod laws;
mod name_run_ends;
mod names;
mod order;
mod pair;
pub mod path;
mod path_end;
mod stems;
mod suffixes;

pub use buf::{ExtensionError, PathBuf};
pub use cursor::{Ancestors, Component, Components, Iter};
pub use display::Display;
pub use kept::{BoxedPath, CowPath, RcPath};
pub use path::{MAIN_SEPARATOR, Path, StripPrefixError, is_separator};
pub use unix_bytes::{bytes, lossy};
