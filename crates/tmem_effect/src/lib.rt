//! An effect is what one transaction changes: writes, checks and retirements, held in place.
#![tactic(auto)]

mod effect;
mod names;
mod writes;

pub use effect::Effect;
pub use names::{MAX_CHECKS, MAX_RETIRES, Names, count_new, count_others, holds};
pub use writes::{MAX_WRITES, Writes};
