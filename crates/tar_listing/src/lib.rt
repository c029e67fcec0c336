//! Reads what `LC_ALL=C tar -tvP --numeric-owner --quoting-style=c -f x.tar` prints, with GNU tar,
//! into records of entries as `path_archive` reads them.
//!
//! So the program that extracts an archive also reads it, and no second reader can differ. A line
//! that isn't exactly of the form is refused.
#![tactic(auto)]

mod columns;
mod entry;
mod fields;
pub mod laws;
mod listing;
mod text;

pub use listing::records_of;
