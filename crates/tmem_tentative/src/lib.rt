//! Evaluation of a transaction against the values that were read so far and a private log.
//!
//! `evaluate` runs a plan over a partial map, with the answers to its first tests. It answers the first variable that the plan
//! visits and that the map lacks, or the first test that is not answered yet, or an attempt that is right on every map that agrees
//! with its reads. It changes nothing outside, and tests no invariant by itself. A `Cursor` answers the same for the values and
//! the answers that it is given one by one, goes on where it stopped, and keeps its memory from one plan to the next.
#![tactic(auto)]

mod answers;
mod attempt;
mod course;
mod cursor;
mod evaluation;
mod flow;
mod laws;
mod path;
mod save;
mod walk;
mod walk_on;

pub use attempt::{Attempt, Ending, Outcome, Probe, Progress, Reads, Values};
pub use cursor::Cursor;
pub use evaluation::evaluate;
pub use laws::or_else_laws;
