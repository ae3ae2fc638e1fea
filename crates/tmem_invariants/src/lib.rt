//! Invariants: a yes or no for the values of a few variables each, handed in by the program with a stated meaning.
//!
//! `Meanings` in `specs/` says what every name means, in every table of a program, and `first_false` which invariant a map of
//! values breaks first. Invariants are named by sets of their indices in the table's order, 64 at most, as the bits of a number.
//! The layers above ask for `Invariants`, and name no table.
#![tactic(auto)]

mod indices;
mod named;

pub use indices::with_index;
pub use named::{Invariants, MAX_FOOTPRINT, MAX_INVARIANTS, indices_of};
