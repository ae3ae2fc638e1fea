//! What to do where the program failed, for `--explain`.
//!
//! `explain_run` tells it of a run, of threads, of timed jobs and of a store that is shown, `explain_check` of a script that is checked, and
//! `explain_store` of a store that was not made or served. What they tell changes nothing that the program does. `StoreFailure` is why a
//! store was not made or served to its end, and has the text that is printed of it, more being told or not.
#![tactic(auto)]

mod explain;
mod failure;
mod found;
mod tell;
mod texts;

pub use explain::{explain_check, explain_run, explain_store};
pub use failure::StoreFailure;
