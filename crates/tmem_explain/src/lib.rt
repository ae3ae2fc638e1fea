//! What is wrong, and where, and what to do, in more words than a run spends on it.
//!
//! `flaws_in` says all that is wrong with the text of a script, each flaw with the place where it stands and what was expected there, and
//! `plan_flaw` which node of a transaction breaks a limit. `FaultHelp` says what a fault means, `RefusalHelp` the same of the bytes of a
//! store, and `NumbersHelp` which numbers a store has. `cause_of` tries a path as it was wanted, and answers why the file could not be
//! used, a `DeviceCause`. Nothing here decides what is refused.
#![tactic(auto)]

mod advice;
mod amiss;
mod device;
mod entry;
mod excess;
mod expected;
mod flaw;
mod help;
mod limits;
mod numbers;
mod plan;
mod script;
mod total;

pub use advice::{CUT_OFF, is_cut_off};
pub use device::{CallCause, DeviceCause, Wanted, cause_of};
pub use excess::Excess;
pub use expected::Expected;
pub use flaw::{Flaw, Spot};
pub use help::{FaultHelp, RefusalHelp};
pub use numbers::NumbersHelp;
pub use plan::plan_flaw;
pub use script::flaws_in;
