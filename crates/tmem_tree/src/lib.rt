//! Transactions as trees, and the stored steps that they call.
//!
//! `Run` in `specs/` says what a transaction does to a map, and `Visited` which variables it reads of the map and which
//! invariants it tests. A `Plan` is a transaction within the limits, with the names and footprints of the invariants that it
//! checks, so that whoever runs it looks at no limit again. `Steps` keeps each stored step with the meaning that its maker stated;
//! the layers above ask for `StoredSteps`, and name no closure.
#![tactic(auto)]

mod budget;
mod choices;
mod limits;
mod numbers;
mod plan;
mod settled;
mod signature;
mod signatures;
mod step;
mod steps;
mod tx;

pub use limits::{MAX_DEPTH, MAX_NODES, MAX_TURNS, MAX_WRITES, REGISTERS};
pub use plan::{MAX_SHORT, MAX_SHORT_STEPS, Plan};
pub use settled::Settled;
pub use signature::{Footprint, Signature, footprint_of, signatures_of};
pub use step::{MAX_ARGUMENTS, Step, StepAnswer, StepEntry};
pub use steps::{MAX_STEPS, Steps, StoredSteps};
pub use tmem_effect::{MAX_CHECKS, MAX_RETIRES};
pub use tx::Tx;
