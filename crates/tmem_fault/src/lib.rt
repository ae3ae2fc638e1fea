//! The refusals of the whole workspace, and the names of its invariants.
#![tactic(auto)]

mod fault;
mod name;

pub use fault::{Cause, Fault};
pub use name::Name;
