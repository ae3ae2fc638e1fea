//! Threads that count up, for the command `tmem threads`; and the jobs of a service, timed, for the command `tmem bench`, by which an
//! operator sizes a store.
//!
//! Of the jobs, `jobs` says what callers do. `on_core` does it on the core alone. `service` lets threads do it beside a flusher, on a
//! store that `store` opens. `device` makes the devices, `opening` opens a store again and again, and `run` runs every job and prints a
//! line for each. The baseline of a job is what the same device does by two syncs alone.
//!
//! Threads that count up are workers that share a store, each adding 1 to one variable by transactions and awaiting each until it is
//! durable, beside a flusher. `count_up`, in `totals`, opens a store, starts the threads, and answers what they did once all have ended.
//! `workers` has the threads, and `counting` what each of them does with the store.
#![tactic(auto)]

mod counting;
mod device;
mod error;
mod figures;
mod jobs;
mod on_core;
mod opening;
mod run;
mod service;
mod store;
mod totals;
mod workers;

pub use error::BenchError;
pub use run::{JobsWanted, run_jobs};
pub use totals::{COUNTING_SLOTS, COUNTING_VARS, Totals, count_up};
pub use workers::CountingWork;
