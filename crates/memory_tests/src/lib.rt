//! Tests of calls whose allocations fail, and of calls that do not allocate.
#![tactic(auto)]

#[cfg(test)]
mod tests;
