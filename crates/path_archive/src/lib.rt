//! Decides whether the entries of an archive, links among them, can be extracted below a directory
//! without writing outside of it.
//!
//! The decision needs no file system. Laws do nothing at run time.
#![tactic(auto)]

mod decide;
mod entry;
pub mod laws;
mod level;
mod links;
mod names;
mod order;
mod outlined;
mod pass;
mod records;
mod refusal;
mod slot;

pub use decide::{Verdict, check, refusals};
pub use entry::{Entry, entries};
pub use level::Level;
pub use links::leads_out;
pub use records::slots_needed;
pub use refusal::{Reason, Refusal};
pub use slot::Slot;
