//! Tests of tar_listing. They are in a crate of their own, because a crate with tests is proved
//! twice.
#![tactic(auto)]

#[cfg(test)]
mod listings;
