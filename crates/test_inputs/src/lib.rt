//! For tests: random bytes, and all short strings.
//!
//! Functions do not allocate unless they take an allocator or say so. Lengths count bytes.
#![tactic(auto)]

mod random;
mod strings;

pub use random::Random;
pub use strings::strings_over;
