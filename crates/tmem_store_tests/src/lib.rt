//! Stores that threads share, by scenes and by calls.
//!
//! A crate of tests alone. They stand above the front, so that it is proved by itself.
#![tactic(auto)]

#[cfg(test)]
mod tests;
