//! Tests of unix_bytes and unix_path, in a crate of their own, because a crate with tests is proved
//! twice.
#![tactic(auto)]

#[cfg(test)]
mod tests;
