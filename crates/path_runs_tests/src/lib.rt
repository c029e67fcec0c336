//! Tests of path_runs, path_table and path_keys. They are in a crate of their own, because a crate
//! with tests is proved twice.
#![tactic(auto)]

#[cfg(test)]
mod keys;
#[cfg(test)]
mod runs;
#[cfg(test)]
mod table;
