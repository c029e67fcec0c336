//! Tests of path_tree, path_within and callers. They are in a crate of their own, because a crate
//! with tests is proved twice.
#![tactic(auto)]

#[cfg(test)]
mod errors;
#[cfg(test)]
mod examples;
#[cfg(test)]
mod tree;
#[cfg(test)]
mod within;
