//! Tests of upath_commands, in a crate of their own: a crate with tests is proved twice.
#![tactic(auto)]

#[cfg(test)]
mod arguments;
#[cfg(test)]
mod keys;
#[cfg(test)]
mod runs;
#[cfg(test)]
mod sorting;
