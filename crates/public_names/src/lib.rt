//! Names each public module and type that programs may rely on, and calls each function. The types
//! of its parameters and of its result are written out, so a renaming or another signature doesn't
//! compile. What the functions return is tested elsewhere.
#![tactic(auto)]

pub mod buf;
pub mod bytes;
pub mod cursor;
pub mod json;
pub mod kept;
pub mod laws;
pub mod lossy;
pub mod path;
pub mod runs;
pub mod table;
mod traits;
