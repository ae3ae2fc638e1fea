//! Stores for one thread, tables of invariants, and stores at their limits, by calls.
//!
//! A crate of tests alone. They stand above the world and the front, so that these are proved by themselves.
#![tactic(auto)]

#[cfg(test)]
mod tests;
